// What follows where U and a formula hold.
ghost use Rattle.std.specs.Prelude.{◌≡◌, ◌++◌, ◌∷◌, [], IfOk};
ghost use Rattle.rules_table.specs.Forms as formula;
ghost use Rattle.safety_rules.specs.Answers.{IsPlace};
ghost use Rattle.safety_rules.specs.Foldable.{IsFoldable};

use core_terms::{CForm, held_form};
use safety_rules::{Place, implied, using_and};
use std::alloc::{AllocError, Global};
use unity_base::Shared;

// Where U and p hold, q does.
pub(crate) fn follows(
    alloc: Global,
    pl: &Place,
    p: &CForm,
    q: &CForm,
) -> Result<Shared<CForm>, AllocError>
    requires place { IsPlace pl.now }
    requires p { IsFoldable p.now }
    requires q { IsFoldable q.now }
    ensures { IfOk result (λ f. f ≡ formula.imply (pl.now.using.now ++ p.now ∷ []) q.now) }
{
    let premises = using_and(alloc, pl, p)?;
    let q = held_form(alloc, q)?;
    implied(alloc, premises.as_slice(), q)
}
