// What two records give: cancellation for a leads-to, `until`, `detects` and `constant`.
ghost use Rattle.std.specs.Prelude.{◌≡◌, ◌≤◌, ◌^◌, ◌&&◌, IfOk};
ghost use Rattle.core_terms.specs.Folding as fold;
ghost use Rattle.core_terms.specs.Trees.{same_form};
ghost use Rattle.core_terms.specs.Weights.{plain_weight};
ghost use Rattle.core_terms.specs.declared.trees.CForm.TheVariants.{Bottom};
ghost use Rattle.safety_rules.specs.from_rules_table.Further as further;
ghost use Rattle.safety_rules.specs.Answers.{site_of, IsPlace, IsPremiseAt, RuleAnswers};
ghost use Rattle.safety_rules.specs.Sound.{StandsAt, StandsWhereShown};

use crate::kinds::{always_and_leads, both_keep, both_lead, keeps_and_leads};
use crate::shapes::{are_alike, are_endless, ends_on, is_contrary, is_implication, side_or};
use crate::within::within;
use case_tables::{Code, Kind};
use core_terms::{CForm, held_form};
use fair_rounds::Record;
use safety_rules::{Derived, Place, RuleError};
use std::alloc::{AllocError, Global};
use unity_base::Shared;

/// `p leadsto q or r` from `p leadsto q or b` and `b leadsto r`: what p leads to besides q leads on to r. The bound is
/// the sum (chapter 3 of the book; the bounds are this profile's).
///
/// The faults are 32: a record is no leads-to; 33: the first does not end on an alternative whose second side is where
/// the second starts; 40: the sum is above 2^63; 42: the conclusion is too large.
pub fn lead_cancel_rule(
    alloc: Global,
    pl: &Place,
    a: &Record,
    b: &Record,
) -> Result<Derived, RuleError>
    requires place { IsPlace pl.now }
    requires a { IsPremiseAt pl.now a.now }
    requires b { IsPremiseAt pl.now b.now }
    ensures answer { RuleAnswers result pl.now.slots.now (further.lead_cancel_of (site_of pl.now) a.now b.now) }
    ensures sound { StandsAt pl.now a.now → StandsAt pl.now b.now → StandsWhereShown pl.now result }
{
    if !both_lead(a, b) {
        return Err(RuleError::Fault(Code::WrongKind));
    }
    if !ends_on(&a.q, &b.p) {
        return Err(RuleError::Fault(Code::MiddleDiffers));
    }
    let p = held_form(alloc, &a.p)?;
    let q = side_or(alloc, &a.q, &b.q)?;
    within(
        alloc,
        pl,
        Kind::Leadsto,
        p,
        q,
        a.under.as_slice(),
        b.under.as_slice(),
        u128::from(a.bound) + u128::from(b.bound),
    )
}

/// `p until q` from `p unless q` and `p leadsto q`, within the bound of the leads-to (this profile).
///
/// The faults are 32: a record of another kind; 33: their p or their q differ; 40: the bound is above 2^63; 42: the
/// conclusion is too large.
pub fn until_rule(alloc: Global, pl: &Place, a: &Record, b: &Record) -> Result<Derived, RuleError>
    requires place { IsPlace pl.now }
    requires a { IsPremiseAt pl.now a.now }
    requires b { IsPremiseAt pl.now b.now }
    ensures answer { RuleAnswers result pl.now.slots.now (further.until_of (site_of pl.now) a.now b.now) }
    ensures sound { StandsAt pl.now a.now → StandsAt pl.now b.now → StandsWhereShown pl.now result }
{
    if !keeps_and_leads(a, b) {
        return Err(RuleError::Fault(Code::WrongKind));
    }
    if !are_alike(a, b) {
        return Err(RuleError::Fault(Code::MiddleDiffers));
    }
    let p = held_form(alloc, &a.p)?;
    let q = held_form(alloc, &a.q)?;
    within(
        alloc,
        pl,
        Kind::Until,
        p,
        q,
        a.under.as_slice(),
        b.under.as_slice(),
        u128::from(b.bound),
    )
}

/// `p detects q` from `invariant p => q` and `q leadsto p`, within the bound of the leads-to (this profile).
///
/// The faults are 32: a record of another kind; 33: the invariant has another shape; 40: the bound is above 2^63; 42:
/// the conclusion is too large.
pub fn detects_rule(alloc: Global, pl: &Place, a: &Record, b: &Record) -> Result<Derived, RuleError>
    requires place { IsPlace pl.now }
    requires a { IsPremiseAt pl.now a.now }
    requires b { IsPremiseAt pl.now b.now }
    ensures answer { RuleAnswers result pl.now.slots.now (further.detects_of (site_of pl.now) a.now b.now) }
    ensures sound { StandsAt pl.now a.now → StandsAt pl.now b.now → StandsWhereShown pl.now result }
{
    if !always_and_leads(a, b) {
        return Err(RuleError::Fault(Code::WrongKind));
    }
    if !is_implication(alloc, &a.p, &b.q, &b.p)? {
        return Err(RuleError::Fault(Code::MiddleDiffers));
    }
    let p = held_form(alloc, &b.q)?;
    let q = held_form(alloc, &b.p)?;
    within(
        alloc,
        pl,
        Kind::Detects,
        p,
        q,
        a.under.as_slice(),
        b.under.as_slice(),
        u128::from(b.bound),
    )
}

// Whether the second says that the first's formula does not hold, and neither ends.
fn are_contrary(alloc: Global, a: &Record, b: &Record) -> Result<bool, AllocError>
    requires { plain_weight a.now.p ≤ 2 ^ 62 }
    ensures { IfOk result (λ t. t ≡ (same_form b.now.p (fold.not_form a.now.p)
        && (same_form a.now.q Bottom && same_form b.now.q Bottom))) }
{
    Ok(is_contrary(alloc, &b.p, &a.p)? && are_endless(a, b))
}

/// `constant p` from `stable p` and `stable not p` (this profile).
///
/// The faults are 32: a record is no unless; 33: the second is not of the contrary of the first, or one can end; 42:
/// the conclusion is too large.
pub fn constant_rule(
    alloc: Global,
    pl: &Place,
    a: &Record,
    b: &Record,
) -> Result<Derived, RuleError>
    requires place { IsPlace pl.now }
    requires a { IsPremiseAt pl.now a.now }
    requires b { IsPremiseAt pl.now b.now }
    ensures answer { RuleAnswers result pl.now.slots.now (further.constant_of (site_of pl.now) a.now b.now) }
    ensures sound { StandsAt pl.now a.now → StandsAt pl.now b.now → StandsWhereShown pl.now result }
{
    if !both_keep(a, b) {
        return Err(RuleError::Fault(Code::WrongKind));
    }
    if !are_contrary(alloc, a, b)? {
        return Err(RuleError::Fault(Code::MiddleDiffers));
    }
    let p = held_form(alloc, &a.p)?;
    let q = Shared::new(alloc, CForm::Bottom)?;
    within(
        alloc,
        pl,
        Kind::Constant,
        p,
        q,
        a.under.as_slice(),
        b.under.as_slice(),
        0,
    )
}
