//! Facts, as they are added to a branch.
ghost use Rattle.std.specs.Prelude.{◌≡◌, ◌<◌, ◌^◌, OnOk};
ghost use Rattle.std.specs.Int.RustNames.{unsigned_abs};
ghost use Rattle.obligations.specs.Opening.{at_most, at_least};
ghost use Rattle.obligations.specs.Settling.{added};

use obligations::{Branch, Fact, Factors};
use std::alloc::{AllocError, Global};

/// Adds a fact.
pub fn add(branch: &mut Branch, fact: Fact) -> Result<(), AllocError>
    ensures { OnOk result (branch.new ≡ added branch.old fact) }
{
    branch.facts.push(fact)
}

/// That a variable is at most a number.
pub fn bound_above(alloc: Global, variable: u32, at: i128) -> Fact
    ensures { result ≡ at_most variable at }
{
    Fact {
        factors: Factors::one(alloc, variable, -1),
        constant: at,
    }
}

/// That a variable is at least a number.
pub fn bound_below(alloc: Global, variable: u32, at: i128) -> Fact
    requires { unsigned_abs at < 2 ^ 100 }
    ensures { result ≡ at_least variable at }
{
    Fact {
        factors: Factors::one(alloc, variable, 1),
        constant: -at,
    }
}
