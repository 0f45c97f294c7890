//! Chains that close a branch at once.
ghost use Rattle.std.specs.Prelude.{◌≡◌, ◌<◌, ◌^◌};
ghost use Rattle.std.specs.Prelude.{false, IfOk, OnOk, MatchOption};
ghost use Rattle.std.specs.Prelude.{length, true};
ghost use Rattle.obligations.specs.Reach.{are_exact, some_out_of_reach};
ghost use Rattle.obligations.specs.Obligations.{AreVariables};
ghost use Rattle.search_tree.specs.Searching.{TriedShortly};

use crate::trail::{Ended, Trail, finish, is_allowed};
use linear_prover::{eliminate, is_plain_chain, reach_chain};
use obligations::{Branch, Fact, Variable};
use std::alloc::{AllocError, Global};

/// How many variables there are.
pub fn count_of(vs: &[Variable]) -> u32
    requires { length vs.now < 2 ^ 32 }
    ensures { result ≡ length vs.now }
{
    vs.len() as u32
}

/// Whether there is room for the numbers of so many facts. No memory holds as many as would be too many.
pub fn numbered(facts: &[Fact]) -> Result<(), AllocError>
    ensures { OnOk result (length facts.now < 2 ^ 62) }
{
    if facts.len() < 1 << 62 {
        Ok(())
    } else {
        Err(AllocError)
    }
}

/// Whether some fact is out of reach.
pub fn some_out_of_reach(alloc: Global, vs: &[Variable], facts: &[Fact]) -> Result<bool, AllocError>
    requires variables { AreVariables vs.now }
    requires exact { are_exact (length vs.now) facts.now ≡ true }
    ensures { IfOk result (λ b. b ≡ some_out_of_reach facts.now) }
{
    numbered(facts)?;
    match reach_chain(alloc, facts, count_of(vs))? {
        Some(_) => Ok(true),
        None => Ok(false),
    }
}

/// Closes a branch by a fact that is out of reach, where there is one.
#[tactic(auto, using(crate::proofs::TryLaws::reach_laws))]
fn try_reach(
    alloc: Global,
    vs: &[Variable],
    facts: &[Fact],
    trail: &mut Trail,
) -> Result<Option<Ended>, AllocError>
    requires variables { AreVariables vs.now }
    requires exact { are_exact (length vs.now) facts.now ≡ true }
    ensures { IfOk result (λ o. MatchOption o
        ((some_out_of_reach facts.now ≡ false) × (trail.new ≡ trail.old))
        (TriedShortly (length vs.now) facts.now trail.old trail.new)) }
{
    numbered(facts)?;
    match reach_chain(alloc, facts, count_of(vs))? {
        Some(chain) => Ok(Some(finish(trail, chain)?)),
        None => Ok(None),
    }
}

/// Closes a branch by a chain that elimination finds, where it finds one that may be used.
#[tactic(auto, using(crate::proofs::TryLaws::found_laws))]
fn try_eliminate(
    alloc: Global,
    vs: &[Variable],
    facts: &[Fact],
    trail: &mut Trail,
) -> Result<Option<Ended>, AllocError>
    requires { AreVariables vs.now }
    ensures { IfOk result (λ o. MatchOption o
        (trail.new ≡ trail.old)
        (TriedShortly (length vs.now) facts.now trail.old trail.new)) }
{
    numbered(facts)?;
    match eliminate(alloc, facts, count_of(vs))? {
        Some(chain) => {
            if is_allowed(vs.len(), chain.as_slice()) && is_plain_chain(chain.as_slice()) {
                Ok(Some(finish(trail, chain)?))
            } else {
                Ok(None)
            }
        }
        None => Ok(None),
    }
}

/// Closes a branch by a chain, where there is one that may be used: of a fact that is out of reach, or
/// where nothing waits, of an elimination.
pub fn try_close(
    alloc: Global,
    vs: &[Variable],
    branch: &Branch,
    trail: &mut Trail,
) -> Result<Option<Ended>, AllocError>
    requires variables { AreVariables vs.now }
    requires exact { are_exact (length vs.now) branch.now.facts ≡ true }
    ensures { IfOk result (λ o. MatchOption o
        ((some_out_of_reach branch.now.facts ≡ false) × (trail.new ≡ trail.old))
        (TriedShortly (length vs.now) branch.now.facts trail.old trail.new)) }
{
    let facts = branch.facts.as_slice();
    match try_reach(alloc, vs, facts, trail)? {
        Some(ended) => Ok(Some(ended)),
        None => {
            if branch.waiting.is_empty() {
                let ended = try_eliminate(alloc, vs, facts, trail)?;
                Ok(ended)
            } else {
                Ok(None)
            }
        }
    }
}
