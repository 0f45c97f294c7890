// What is left to be shown, and the record of what is claimed.
ghost use Rattle.std.specs.Prelude.{◌≡◌, ◌≤◌, ◌++◌, ◌∷◌, [], length};
ghost use Rattle.core_terms.specs.Places.{form_slots, form_params};
ghost use Rattle.rules_table.specs.Limits.{fits};
ghost use Rattle.rules_table.specs.Table as table;
ghost use Rattle.safety_rules.specs.Answers.{site_of, IsPlace};
ghost use Rattle.safety_rules.specs.Goals.{Added, Concludes};
ghost use Rattle.safety_rules.specs.Usable.{NamesExist};

use crate::places::{Derived, Place, RuleError};
use crate::recording::{Claim, recorded};
use case_tables::Code;
use core_terms::{CForm, CSlot, Range, size_within, weight_of};
use fair_rounds::Record;
use obligations::{Obligation, TooLargeError, make};
use std::alloc::Global;
use unity_base::{Held, Seq};

// Whether a formula is small enough for a conclusion.
pub(crate) fn is_small(f: &CForm, slots: &[CSlot], params: &[Range]) -> bool
    requires { NamesExist slots.now params.now f.now }
    ensures { result ≡ fits slots.now params.now f.now }
{
    match size_within(f, 65_536) {
        Some(_) => weight_of(f, slots, params) <= 1 << 62,
        None => false,
    }
}

/// Adds the obligation that a formula holds at every state and all numbers of the parameters.
///
/// The fault is 42: the obligation is too large.
pub fn add_goal(
    alloc: Global,
    pl: &Place,
    goals: &mut Seq<Obligation>,
    form: CForm,
) -> Result<(), RuleError>
    requires place { IsPlace pl.now }
    requires names { NamesExist pl.now.slots.now pl.now.params.now form }
    ensures { Added result goals.old goals.new pl.now.slots.now pl.now.params.now (form ∷ []) }
{
    let goal = make(alloc, form, pl.slots, pl.params)?;
    goals.push(goal)?;
    Ok(())
}

/// The claim's record, with the step's name, program and parameters, and these obligations.
///
/// The fault is 42: p or q is too large.
pub fn conclude(
    alloc: Global,
    pl: &Place,
    claim: Claim,
    goals: Seq<Obligation>,
) -> Result<Derived, RuleError>
    requires p { NamesExist pl.now.slots.now pl.now.params.now claim.p }
    requires q { NamesExist pl.now.slots.now pl.now.params.now claim.q }
    ensures { Concludes result pl.now.slots.now pl.now.params.now (table.record_of (site_of pl.now) claim.entry.kind
        claim.entry.p claim.entry.q (claim.entry.first.now ++ claim.entry.second.now) claim.entry.helper) goals }
{
    let made = recorded(alloc, pl, claim)?;
    with_goals(pl, made, goals)
}

// A record with these obligations.
fn with_goals(pl: &Place, made: Held<Record>, goals: Seq<Obligation>) -> Result<Derived, RuleError>
    requires p { NamesExist pl.now.slots.now pl.now.params.now made.p }
    requires q { NamesExist pl.now.slots.now pl.now.params.now made.q }
    ensures { Concludes result pl.now.slots.now pl.now.params.now made goals }
{
    let record = made.get();
    let small = is_small(&record.p, pl.slots, pl.params)
        && is_small(&record.q, pl.slots, pl.params);
    if small {
        Ok(Derived {
            made: made.into_inner(),
            obligations: goals,
        })
    } else {
        Err(RuleError::Fault(Code::FormulaTooLarge))
    }
}
