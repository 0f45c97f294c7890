// Implications, whose premises are joined one after the other.
ghost use Rattle.std.specs.Prelude.{◌≡◌, ◌^◌, ◌≤◌, IfOk, OnOk, Some, None, All, max};
ghost use Rattle.core_terms.specs.Weights.{plain_weight};
ghost use Rattle.core_terms.specs.Folding as fold;
ghost use Rattle.core_terms.specs.Senses.{joined_form};
ghost use Rattle.wp_substitution.specs.Joined.{joined_with, joined_all, IsLight};
ghost use Rattle.safety_rules.specs.Premises.{implied_by, PremisesAreLight};

use core_terms::{CForm, Joining, and_form, copy_form, held_form, not_form, or_form, owned_form};
use std::alloc::{AllocError, Global};
use unity_base::Shared;

// Joins one formula more.
pub(crate) fn add(
    alloc: Global,
    whole: &mut Option<Shared<CForm>>,
    f: Shared<CForm>,
) -> Result<(), AllocError>
    requires light { PremisesAreLight whole.old }
    requires formula { plain_weight f ≤ 2 ^ 62 }
    ensures whole { OnOk result (whole.new ≡ Some (joined_with whole.old f)) }
    ensures light { OnOk result (PremisesAreLight whole.new) }
{
    let joined = join(alloc, whole.take(), f)?;
    *whole = Some(joined);
    Ok(())
}

// A formula after the others.
fn join(
    alloc: Global,
    whole: Option<Shared<CForm>>,
    f: Shared<CForm>,
) -> Result<Shared<CForm>, AllocError>
    requires light { PremisesAreLight whole }
    requires formula { plain_weight f ≤ 2 ^ 62 }
    ensures tree { IfOk result (λ g. g ≡ joined_with whole f) }
    ensures light { IfOk result (λ g. plain_weight g ≤ 2 ^ 62) }
{
    match whole {
        Some(g) => Shared::new(
            alloc,
            and_form(alloc, owned_form(alloc, g)?, owned_form(alloc, f)?)?,
        ),
        None => Ok(f),
    }
}

// Joins a copy of a formula.
pub(crate) fn add_copy(
    alloc: Global,
    whole: &mut Option<Shared<CForm>>,
    f: &CForm,
) -> Result<(), AllocError>
    requires light { PremisesAreLight whole.old }
    requires formula { plain_weight f.now ≤ 2 ^ 62 }
    ensures whole { OnOk result (whole.new ≡ Some (joined_with whole.old f.now)) }
    ensures light { OnOk result (PremisesAreLight whole.new) }
{
    let more = held_form(alloc, f)?;
    add(alloc, whole, more)
}

// Joins that a formula does not hold.
pub(crate) fn add_not(
    alloc: Global,
    whole: &mut Option<Shared<CForm>>,
    f: &CForm,
) -> Result<(), AllocError>
    requires light { PremisesAreLight whole.old }
    requires formula { plain_weight f.now ≤ 2 ^ 62 }
    ensures whole { OnOk result (whole.new ≡ Some (joined_with whole.old (fold.not_form f.now))) }
    ensures light { OnOk result (PremisesAreLight whole.new) }
{
    let other = Shared::new(alloc, not_form(alloc, copy_form(alloc, f)?)?)?;
    add(alloc, whole, other)
}

// All formulas of a list, joined.
pub(crate) fn joined(alloc: Global, forms: &[CForm]) -> Result<Option<Shared<CForm>>, AllocError>
    requires { All IsLight forms.now }
    ensures whole { IfOk result (λ whole. whole ≡ joined_all None forms.now) }
    ensures light { IfOk result PremisesAreLight }
{
    let mut whole = None;
    for f in forms {
        add_copy(alloc, &mut whole, f)?;
    }
    Ok(whole)
}

// The same premises, shared.
pub(crate) fn shared(premises: &Option<Shared<CForm>>) -> Result<Option<Shared<CForm>>, AllocError>
    ensures { IfOk result (λ whole. whole ≡ premises.now) }
{
    match premises {
        Some(f) => Ok(Some(f.share()?)),
        None => Ok(None),
    }
}

// Where the premises hold, so does the formula.
pub(crate) fn imply(
    alloc: Global,
    whole: Option<Shared<CForm>>,
    q: Shared<CForm>,
) -> Result<CForm, AllocError>
    requires light { PremisesAreLight whole }
    requires formula { plain_weight q ≤ 2 ^ 125 }
    ensures tree { IfOk result (λ f. f ≡ implied_by whole q) }
    ensures light { plain_weight q ≤ 2 ^ 62 → IfOk result IsLight }
{
    match whole {
        Some(f) => {
            let other = Shared::new(alloc, not_form(alloc, owned_form(alloc, f)?)?)?;
            or_form(alloc, owned_form(alloc, other)?, owned_form(alloc, q)?)
        }
        None => owned_form(alloc, q),
    }
}

/// That one of two formulas holds.
///
/// An error says that memory was refused.
pub fn either(alloc: Global, p: &CForm, q: &CForm) -> Result<Shared<CForm>, AllocError>
    requires { max (plain_weight p.now) (plain_weight q.now) ≤ 2 ^ 62 }
    ensures tree { IfOk result (λ f. f ≡ fold.or_form p.now q.now) }
    ensures light { IfOk result (λ f. plain_weight f ≤ 2 ^ 62) }
{
    let first = held_form(alloc, p)?;
    let second = held_form(alloc, q)?;
    Shared::new(
        alloc,
        or_form(alloc, owned_form(alloc, first)?, owned_form(alloc, second)?)?,
    )
}

/// That two formulas hold.
///
/// An error says that memory was refused.
pub fn both(alloc: Global, p: &CForm, q: &CForm) -> Result<Shared<CForm>, AllocError>
    requires { max (plain_weight p.now) (plain_weight q.now) ≤ 2 ^ 62 }
    ensures tree { IfOk result (λ f. f ≡ fold.and_form p.now q.now) }
    ensures light { IfOk result (λ f. plain_weight f ≤ 2 ^ 62) }
{
    let first = held_form(alloc, p)?;
    let second = held_form(alloc, q)?;
    Shared::new(
        alloc,
        and_form(alloc, owned_form(alloc, first)?, owned_form(alloc, second)?)?,
    )
}

// That two formulas hold, or that one of them does.
pub(crate) fn joined_two(
    alloc: Global,
    joining: Joining,
    p: &CForm,
    q: &CForm,
) -> Result<Shared<CForm>, AllocError>
    requires { max (plain_weight p.now) (plain_weight q.now) ≤ 2 ^ 62 }
    ensures { IfOk result (λ f. f ≡ joined_form joining p.now q.now) }
{
    match joining {
        Joining::Both => both(alloc, p, q),
        Joining::Either => either(alloc, p, q),
    }
}

// That the first formula does not hold, and the second does.
pub(crate) fn second_alone(alloc: Global, p: &CForm, q: &CForm) -> Result<Shared<CForm>, AllocError>
    requires { max (plain_weight p.now) (plain_weight q.now) ≤ 2 ^ 62 }
    ensures tree { IfOk result (λ f. f ≡ fold.and_form (fold.not_form p.now) q.now) }
    ensures light { IfOk result (λ f. plain_weight f ≤ 2 ^ 62) }
{
    let other = Shared::new(alloc, not_form(alloc, copy_form(alloc, p)?)?)?;
    both(alloc, other.get(), q)
}

// That one of three formulas holds.
pub(crate) fn one_of_three(
    alloc: Global,
    first: Shared<CForm>,
    second: Shared<CForm>,
    third: Shared<CForm>,
) -> Result<Shared<CForm>, AllocError>
    requires first { plain_weight first ≤ 2 ^ 62 }
    requires second { plain_weight second ≤ 2 ^ 62 }
    requires third { plain_weight third ≤ 2 ^ 62 }
    ensures { IfOk result (λ f. f ≡ fold.or_form (fold.or_form first second) third) }
{
    let two = Shared::new(
        alloc,
        or_form(alloc, owned_form(alloc, first)?, owned_form(alloc, second)?)?,
    )?;
    Shared::new(
        alloc,
        or_form(alloc, owned_form(alloc, two)?, owned_form(alloc, third)?)?,
    )
}
