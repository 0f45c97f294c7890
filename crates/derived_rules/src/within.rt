// What is concluded within a bound.
ghost use Rattle.std.specs.Prelude.{◌≡◌, ◌≤◌, ◌^◌, ◌++◌, nat_le, cond, None, Option, Some};
ghost use Rattle.safety_rules.specs.from_rules_table.Further as further;
ghost use Rattle.safety_rules.specs.Answers.{site_of, RuleAnswers};
ghost use Rattle.safety_rules.specs.Usable.{NamesExist};

use case_tables::{Code, Kind};
use core_terms::CForm;
use safety_rules::{Claim, Derived, Place, RuleError, conclude, lengthened};
use std::alloc::Global;
use unity_base::{Seq, Shared};

// The rounds, where they are at most 2^63.
fn bounded(rounds: u128) -> Option<u64>
    ensures { result ≡ cond (nat_le rounds (2 ^ 63)) (Some rounds) None }
{
    if rounds <= 1 << 63 {
        Some(rounds as u64)
    } else {
        None
    }
}

// The record of a kind, from p to q within so many rounds, under what the premises stand under.
pub(crate) fn within(
    alloc: Global,
    pl: &Place,
    kind: Kind,
    p: Shared<CForm>,
    q: Shared<CForm>,
    first: &[CForm],
    second: &[CForm],
    rounds: u128,
) -> Result<Derived, RuleError>
    requires p { NamesExist pl.now.slots.now pl.now.params.now p }
    requires q { NamesExist pl.now.slots.now pl.now.params.now q }
    ensures { RuleAnswers result pl.now.slots.now
        (further.concluded_within (site_of pl.now) kind p q (first.now ++ second.now) rounds) }
{
    let Some(bound) = bounded(rounds) else {
        return Err(RuleError::Fault(Code::BoundTooLarge));
    };
    let claim = Claim {
        kind,
        p,
        q,
        first,
        second,
        helper: None,
    };
    lengthened(conclude(alloc, pl, claim, Seq::new(alloc)), bound)
}
