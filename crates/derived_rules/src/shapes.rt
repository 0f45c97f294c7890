// How the formulas of records have to be alike.
ghost use Rattle.std.specs.Prelude.{◌≡◌, ◌≤◌, ◌^◌, ◌&&◌, max, IfOk};
ghost use Rattle.core_terms.specs.Folding as fold;
ghost use Rattle.core_terms.specs.Trees.{same_form};
ghost use Rattle.core_terms.specs.Weights.{plain_weight};
ghost use Rattle.core_terms.specs.declared.trees.CForm.{out-CForm};
ghost use Rattle.core_terms.specs.declared.trees.CForm.TheVariants.{Bottom};
ghost use Rattle.safety_rules.specs.from_rules_table.Further as further;

use core_terms::{CForm, copy_form, not_form};
use fair_rounds::Record;
use safety_rules::{either, is_same};
use std::alloc::{AllocError, Global};
use unity_base::Shared;

// Whether a formula is the alternative of two others.
pub(crate) fn is_either(alloc: Global, f: &CForm, q: &CForm, r: &CForm) -> Result<bool, AllocError>
    requires { max (plain_weight q.now) (plain_weight r.now) ≤ 2 ^ 62 }
    ensures { IfOk result (λ b. b ≡ same_form f.now (fold.or_form q.now r.now)) }
{
    let whole = either(alloc, q, r)?;
    Ok(is_same(f, whole.get()))
}

// Whether a formula says that another does not hold.
pub(crate) fn is_contrary(alloc: Global, f: &CForm, p: &CForm) -> Result<bool, AllocError>
    requires { plain_weight p.now ≤ 2 ^ 62 }
    ensures { IfOk result (λ b. b ≡ same_form f.now (fold.not_form p.now)) }
{
    let other = Shared::new(alloc, not_form(alloc, copy_form(alloc, p)?)?)?;
    Ok(is_same(f, other.get()))
}

// Whether a formula says that q holds where p does.
pub(crate) fn is_implication(
    alloc: Global,
    f: &CForm,
    p: &CForm,
    q: &CForm,
) -> Result<bool, AllocError>
    requires { max (plain_weight p.now) (plain_weight q.now) ≤ 2 ^ 62 }
    ensures { IfOk result (λ b. b ≡ same_form f.now (fold.or_form (fold.not_form p.now) q.now)) }
{
    let other = Shared::new(alloc, not_form(alloc, copy_form(alloc, p)?)?)?;
    is_either(alloc, f, other.get(), q)
}

// Whether both have the same p and the same q.
pub(crate) fn are_alike(a: &Record, b: &Record) -> bool
    ensures { result ≡ (same_form a.now.p b.now.p && same_form a.now.q b.now.q) }
{
    is_same(&a.p, &b.p) && is_same(&a.q, &b.q)
}

// Whether neither ends.
pub(crate) fn are_endless(a: &Record, b: &Record) -> bool
    ensures { result ≡ (same_form a.now.q Bottom && same_form b.now.q Bottom) }
{
    is_same(&a.q, &CForm::Bottom) && is_same(&b.q, &CForm::Bottom)
}

// Whether a formula is an alternative whose second side is this one.
pub(crate) fn ends_on(f: &CForm, m: &CForm) -> bool
    ensures { result ≡ further.ends_on (out-CForm f.now) m.now }
{
    match f {
        CForm::Or(_, second) => is_same(second.get(), m),
        _ => false,
    }
}

// The first side of an alternative.
fn first_side(alloc: Global, f: &CForm) -> Result<Shared<CForm>, AllocError>
    ensures { IfOk result (λ g. g ≡ further.first_side (out-CForm f.now)) }
{
    match f {
        CForm::Or(first, _) => first.share(),
        _ => Shared::new(alloc, CForm::Bottom),
    }
}

// The first side of an alternative, or another formula.
pub(crate) fn side_or(alloc: Global, f: &CForm, r: &CForm) -> Result<Shared<CForm>, AllocError>
    requires { max (plain_weight (further.first_side (out-CForm f.now))) (plain_weight r.now) ≤ 2 ^ 62 }
    ensures { IfOk result (λ g. g ≡ fold.or_form (further.first_side (out-CForm f.now)) r.now) }
{
    let first = first_side(alloc, f)?;
    either(alloc, first.get(), r)
}
