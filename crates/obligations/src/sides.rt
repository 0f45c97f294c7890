//! The two sides of a formula that waits, settled on a branch one after the other.
ghost use Rattle.std.specs.Prelude.{◌≡◌, ◌≤◌, ◌^◌, true, OnOk};
ghost use Rattle.obligations.specs.Load.{need, is_light_branch};
ghost use Rattle.obligations.specs.Obligations.{AreVariables};
ghost use Rattle.obligations.specs.Settling.{settled, sides};
ghost use Rattle.obligations.specs.Sides.{side_of};

use crate::branches::{Branch, Variable};
use crate::settling::settle_onto;
use core_terms::CForm;
use std::alloc::{AllocError, Global};

/// One of the two sides of a formula that waits.
#[derive(Clone, Copy)]
pub enum Side {
    First,
    Second,
}

/// Settles a side of a formula onto a branch. The error is refused memory; what was added so far stays.
pub fn settle_side(
    alloc: Global,
    vs: &[Variable],
    form: &CForm,
    side: Side,
    branch: &mut Branch,
) -> Result<(), AllocError>
    requires variables { AreVariables vs.now }
    requires light { (need form.now).yes ≤ 2 ^ 63 }
    ensures branch { OnOk result (branch.new ≡ settled vs.now (side_of side form.now) branch.old) }
    ensures light { OnOk result (is_light_branch (2 ^ 63) branch.old ≡ true →
        is_light_branch (2 ^ 63) branch.new ≡ true) }
{
    settle_onto(alloc, vs, side_of(form, side), branch)?;
    Ok(())
}

/// A side of a formula that waits.
fn side_of(form: &CForm, side: Side) -> &CForm
    ensures { result.now ≡ side_of side form.now }
{
    let (first, second) = sides_of(form);
    match side {
        Side::First => first,
        Side::Second => second,
    }
}

/// The two sides of a formula that waits.
fn sides_of(form: &CForm) -> (&CForm, &CForm)
    ensures first { result.0.now ≡ (sides form.now).0 }
    ensures second { result.1.now ≡ (sides form.now).1 }
{
    match form {
        CForm::Or(a, b) => (a.get(), b.get()),
        _ => (form, form),
    }
}
