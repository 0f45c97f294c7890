// Which statement is meant, and what it does.
ghost use Rattle.std.specs.Prelude.{◌≡◌, ◌++◌, ◌∷◌, [], All, IfOk, OnOk, map};
ghost use Rattle.core_terms.specs.Conditions.{ArgFits, FormFits};
ghost use Rattle.core_terms.specs.Folding as fold;
ghost use Rattle.rules_table.specs.Forms as formula;
ghost use Rattle.rules_table.specs.Table as table;
ghost use Rattle.safety_rules.specs.Answers.{site_of, IsPlace};
ghost use Rattle.wp_substitution.specs.Preconditions.{all_of};
ghost use Rattle.safety_rules.specs.Foldable.{IsFoldable};

use crate::equations::add_equations;
use crate::gathering::{gathered, implied};
use crate::naming::may_mean;
use crate::places::Place;
use crate::texts::using_and;
use core_terms::{CForm, CStmt, Helper, Joining, copy_form, not_form, owned_form};
use std::alloc::{AllocError, Global};
use unity_base::{Seq, Shared};

// That the indices are those of the statement.
fn is_meant(alloc: Global, h: &Helper, s: &CStmt) -> Result<Shared<CForm>, AllocError>
    requires { All ArgFits h.now.args }
    ensures tree { IfOk result (λ f. f ≡ all_of (table.equations h.now.args s.now.indices)) }
    ensures foldable { IfOk result IsFoldable }
{
    let mut all = Seq::new(alloc);
    add_equations(alloc, &mut all, h.args.as_slice(), s.indices.as_slice())?;
    gathered(alloc, Joining::Both, all.as_slice())
}

// For each statement that may be meant, that it is.
fn meanings(alloc: Global, pl: &Place, h: &Helper) -> Result<Seq<CForm>, AllocError>
    requires { All ArgFits h.now.args }
    ensures forms { IfOk result (λ fs. fs ≡
        map (λ s. all_of (table.equations h.now.args s.indices)) (table.instances_of (site_of pl.now) h.now)) }
    ensures foldable { IfOk result (All IsFoldable) }
{
    let mut all = Seq::new(alloc);
    for s in pl.program.statements.as_slice() {
        let statement = s.get();
        if may_mean(h, statement) {
            let form = is_meant(alloc, h, statement)?;
            all.push(owned_form(alloc, form)?)?;
        }
    }
    Ok(all)
}

// That one of the statements that may be meant is.
pub(crate) fn one_meant(alloc: Global, pl: &Place, h: &Helper) -> Result<Shared<CForm>, AllocError>
    requires { All ArgFits h.now.args }
    ensures { IfOk result (λ f. f ≡ formula.any_of
        (map (λ s. all_of (table.equations h.now.args s.indices)) (table.instances_of (site_of pl.now) h.now))) }
{
    let all = meanings(alloc, pl, h)?;
    gathered(alloc, Joining::Either, all.as_slice())
}

// U, p, that q does not hold, and that the statement is meant.
fn premises(
    alloc: Global,
    pl: &Place,
    p: &CForm,
    q: &CForm,
    h: &Helper,
    s: &CStmt,
) -> Result<Seq<CForm>, AllocError>
    requires place { IsPlace pl.now }
    requires p { FormFits pl.now.slots.now pl.now.params.now p.now }
    requires q { FormFits pl.now.slots.now pl.now.params.now q.now }
    requires helper { All ArgFits h.now.args }
    ensures forms { IfOk result (λ all. all ≡ pl.now.using.now
        ++ p.now ∷ fold.not_form q.now ∷ table.equations h.now.args s.now.indices) }
    ensures foldable { IfOk result (All IsFoldable) }
{
    let mut all = using_and(alloc, pl, p)?;
    all.push(not_form(alloc, copy_form(alloc, q)?)?)?;
    add_equations(alloc, &mut all, h.args.as_slice(), s.indices.as_slice())?;
    Ok(all)
}

// Where U and p hold and q does not, and the statement is meant, what has to hold before it does.
pub(crate) fn helped(
    alloc: Global,
    pl: &Place,
    p: &CForm,
    q: &CForm,
    h: &Helper,
    s: &CStmt,
    before: Shared<CForm>,
) -> Result<Shared<CForm>, AllocError>
    requires place { IsPlace pl.now }
    requires p { FormFits pl.now.slots.now pl.now.params.now p.now }
    requires q { FormFits pl.now.slots.now pl.now.params.now q.now }
    requires helper { All ArgFits h.now.args }
    requires before { IsFoldable before }
    ensures { IfOk result (λ f. f ≡ formula.imply (pl.now.using.now
        ++ p.now ∷ fold.not_form q.now ∷ table.equations h.now.args s.now.indices) before) }
{
    let premises = premises(alloc, pl, p, q, h, s)?;
    implied(alloc, premises.as_slice(), before)
}
