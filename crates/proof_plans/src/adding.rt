// A step's record and obligations, added to those before.
ghost use Rattle.std.specs.Prelude.{◌≡◌, ◌++◌, ◌∷◌, ◌<◌, ◌^◌, [], length, map, reverse, IfOk, OnOk};
ghost use Rattle.proof_plans.specs.Verdicts.{grown, no_plan};

use crate::plans::Plan;
use obligations::Obligation;
use safety_rules::Derived;
use std::alloc::{AllocError, Global};
use unity_base::{Held, Seq};

// The plan of no steps.
pub(crate) fn new_plan(alloc: Global) -> Plan
    ensures { result ≡ no_plan }
{
    Plan {
        records: Seq::new(alloc),
        obligations: Seq::new(alloc),
        owner: Seq::new(alloc),
    }
}

// The obligations in the opposite order.
fn turned(alloc: Global, obligations: Seq<Obligation>) -> Result<Seq<Obligation>, AllocError>
    ensures { IfOk result (λ all. reverse all ≡ obligations) }
{
    let mut left = obligations;
    let mut all = Seq::new(alloc);
    'items: while let Some(obligation) = left.pop() {
        all.push(obligation)?;
    }
    Ok(all)
}

// Adds obligations, which are given in the opposite order, each with the place of its record.
fn add_turned(place: u32, obligations: Seq<Obligation>, plan: &mut Plan) -> Result<(), AllocError>
    ensures records { OnOk result (plan.new.records ≡ plan.old.records) }
    ensures obligations { OnOk result (plan.new.obligations ≡ plan.old.obligations ++ reverse obligations) }
    ensures owner { OnOk result (plan.new.owner ≡ plan.old.owner ++ map (λ o. place) (reverse obligations)) }
{
    let mut left = obligations;
    'items: while let Some(obligation) = left.pop() {
        plan.obligations.push(obligation)?;
        plan.owner.push(place)?;
    }
    Ok(())
}

// Adds the record and the obligations of a step.
pub(crate) fn add(alloc: Global, derived: Held<Derived>, plan: &mut Plan) -> Result<(), AllocError>
    requires { length plan.old.records < 2 ^ 31 }
    ensures { OnOk result (plan.new ≡ grown plan.old derived) }
{
    let place = plan.records.len() as u32;
    let Derived { made, obligations } = derived.into_inner();
    plan.records.push(made)?;
    let obligations = turned(alloc, obligations)?;
    add_turned(place, obligations, plan)
}
