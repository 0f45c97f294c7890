// Formulas of lists: that all hold, that one holds, and what follows where all do.
ghost use Rattle.std.specs.Prelude.{◌≡◌, ◌<◌, All, IfOk, OnOk, Some, length};
ghost use Rattle.core_terms.specs.Senses.{joined_form};
ghost use Rattle.rules_table.specs.Forms as formula;
ghost use Rattle.safety_rules.specs.Foldable.{IsFoldable, AreFoldable, gathered, gathered_with, gathered_none};

use core_terms::{CForm, Joining, and_form, held_form, not_form, or_form, owned_form};
use std::alloc::{AllocError, Global};
use unity_base::Shared;

// A formula joined to those before it.
fn join(
    alloc: Global,
    joining: Joining,
    whole: Option<Shared<CForm>>,
    f: Shared<CForm>,
) -> Result<Shared<CForm>, AllocError>
    requires whole { AreFoldable whole }
    requires formula { IsFoldable f }
    ensures tree { IfOk result (λ g. g ≡ gathered_with joining whole f) }
    ensures foldable { IfOk result IsFoldable }
{
    match whole {
        Some(g) => {
            let first = owned_form(alloc, g)?;
            let second = owned_form(alloc, f)?;
            join_two(alloc, joining, first, second)
        }
        None => Ok(f),
    }
}

fn join_two(
    alloc: Global,
    joining: Joining,
    first: CForm,
    second: CForm,
) -> Result<Shared<CForm>, AllocError>
    requires first { IsFoldable first }
    requires second { IsFoldable second }
    ensures tree { IfOk result (λ g. g ≡ joined_form joining first second) }
    ensures foldable { IfOk result IsFoldable }
{
    match joining {
        Joining::Both => Shared::new(alloc, and_form(alloc, first, second)?),
        Joining::Either => Shared::new(alloc, or_form(alloc, first, second)?),
    }
}

fn add(
    alloc: Global,
    joining: Joining,
    whole: &mut Option<Shared<CForm>>,
    f: &CForm,
) -> Result<(), AllocError>
    requires whole { AreFoldable whole.old }
    requires formula { IsFoldable f.now }
    ensures whole { OnOk result (whole.new ≡ Some (gathered_with joining whole.old f.now)) }
    ensures foldable { OnOk result (AreFoldable whole.new) }
{
    let more = held_form(alloc, f)?;
    let joined = join(alloc, joining, whole.take(), more)?;
    *whole = Some(joined);
    Ok(())
}

// What no formulas make, joined.
fn none(joining: Joining) -> CForm
    ensures { result ≡ gathered_none joining }
{
    match joining {
        Joining::Both => CForm::Top,
        Joining::Either => CForm::Bottom,
    }
}

// That all formulas of a list hold, or that one of them does.
pub(crate) fn gathered(
    alloc: Global,
    joining: Joining,
    forms: &[CForm],
) -> Result<Shared<CForm>, AllocError>
    requires { All IsFoldable forms.now }
    ensures tree { IfOk result (λ f. f ≡ gathered joining forms.now) }
    ensures foldable { IfOk result IsFoldable }
{
    let mut whole = None;
    for f in forms {
        add(alloc, joining, &mut whole, f)?;
    }
    match whole {
        Some(f) => Ok(f),
        None => Shared::new(alloc, none(joining)),
    }
}

/// Where all formulas of a list hold, q does.
pub fn implied(
    alloc: Global,
    premises: &[CForm],
    q: Shared<CForm>,
) -> Result<Shared<CForm>, AllocError>
    requires premises { All IsFoldable premises.now }
    requires some { 0 < length premises.now }
    requires formula { IsFoldable q }
    ensures { IfOk result (λ f. f ≡ formula.imply premises.now q) }
{
    let whole = gathered(alloc, Joining::Both, premises)?;
    let other = Shared::new(alloc, not_form(alloc, owned_form(alloc, whole)?)?)?;
    Shared::new(
        alloc,
        or_form(alloc, owned_form(alloc, other)?, owned_form(alloc, q)?)?,
    )
}
