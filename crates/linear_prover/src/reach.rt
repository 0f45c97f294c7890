//! Chains that close a branch by a fact that is out of reach.
ghost use Rattle.std.specs.Prelude.{◌≡◌, ◌+◌, ◌-◌, ◌≤◌, ◌<◌, ◌^◌, ◌∷◌, [], suc, pos, true, false, length, slice_get};
ghost use Rattle.std.specs.Prelude.{Some, IfOk, IfSome, MatchOption};
ghost use Rattle.std.specs.List.{list_any};
ghost use Rattle.obligations.specs.Reach.{are_exact, bounds_refute, clash, some_out_of_reach};
ghost use Rattle.linear_prover.specs.Chains.{ClosesShortly};
ghost use Rattle.linear_prover.specs.Tables.{BoundsTell};
ghost use Rattle.linear_prover.specs.Clashes.{clash_chain};

use crate::bounds::{Bounds, bounds_of, first_refuted, pairs_against};
use crate::clash::{Pair, first_clash};
use obligations::{Fact, Node};
use std::alloc::{AllocError, Global};
use unity_base::Seq;

/// A chain of one sum.
fn one_sum(alloc: Global, pairs: Seq<(i64, u64)>) -> Result<Seq<Node>, AllocError>
    ensures { IfOk result (λ ns. ns ≡ Node.Sum pairs ∷ []) }
{
    let mut nodes = Seq::new(alloc);
    nodes.push(Node::Sum(pairs))?;
    Ok(nodes)
}

/// The chain of a fact that the bounds refute. `None` exactly where they refute none.
fn sum_against(
    alloc: Global,
    bounds: &Bounds,
    facts: &[Fact],
    count: u32,
) -> Result<Option<Seq<Node>>, AllocError>
    requires exact { are_exact count facts.now ≡ true }
    requires room { length facts.now < 2 ^ 62 }
    requires bounds { BoundsTell count facts.now bounds.now }
    ensures reach { IfOk result (λ o. MatchOption o
        (list_any (bounds_refute facts.now) facts.now ≡ false)
        (λ ns. list_any (bounds_refute facts.now) facts.now ≡ true)) }
    ensures chain { IfOk result (λ o. IfSome o (ClosesShortly count facts.now)) }
{
    match first_refuted(bounds, facts) {
        Some(place) => {
            let pairs = pairs_against(alloc, bounds, place as u64 + 1, &facts[place])?;
            Ok(Some(one_sum(alloc, pairs)?))
        }
        None => Ok(None),
    }
}

/// The chain of a fact that the bounds of its variables refute. `None` exactly where there is no such
/// fact.
fn bound_chain(alloc: Global, facts: &[Fact], count: u32) -> Result<Option<Seq<Node>>, AllocError>
    requires exact { are_exact count facts.now ≡ true }
    requires room { length facts.now < 2 ^ 62 }
    ensures reach { IfOk result (λ o. MatchOption o
        (list_any (bounds_refute facts.now) facts.now ≡ false)
        (λ ns. list_any (bounds_refute facts.now) facts.now ≡ true)) }
    ensures chain { IfOk result (λ o. IfSome o (ClosesShortly count facts.now)) }
{
    let bounds = bounds_of(alloc, facts, count)?;
    sum_against(alloc, &bounds, facts, count)
}

/// A round of one fact.
fn round_of(alloc: Global, divisor: &i64, number: u64) -> Result<Node, AllocError>
    ensures { IfOk result (λ n. n ≡ Node.Round divisor.now ((pos 1, number) ∷ [])) }
{
    let mut pairs = Seq::new(alloc);
    pairs.push((1, number))?;
    Ok(Node::Round(*divisor, pairs))
}

/// The sum of two facts.
fn sum_of_two(alloc: Global, number: u64, next: u64) -> Result<Node, AllocError>
    ensures { IfOk result (λ n. n ≡ Node.Sum ((pos 1, number) ∷ (pos 1, next) ∷ [])) }
{
    let mut pairs = Seq::new(alloc);
    pairs.push((1, number))?;
    pairs.push((1, next))?;
    Ok(Node::Sum(pairs))
}

/// The chain of two facts that clash, among so many: a round of each, and the sum of the two new facts.
fn nodes_of(alloc: Global, total: usize, pair: Pair) -> Result<Seq<Node>, AllocError>
    requires total { total < 2 ^ 62 }
    requires one { pair.place < 2 ^ 62 }
    requires other { pair.partner.place < 2 ^ 62 }
    ensures { IfOk result (λ ns. ns ≡ clash_chain total pair.partner.divisor pair.place pair.partner.place) }
{
    let mut nodes = Seq::new(alloc);
    nodes.push(round_of(alloc, &pair.partner.divisor, pair.place as u64 + 1)?)?;
    nodes.push(round_of(alloc, &pair.partner.divisor, pair.partner.place as u64 + 1)?)?;
    nodes.push(sum_of_two(alloc, total as u64 + 1, total as u64 + 2)?)?;
    Ok(nodes)
}

/// The chain of two facts that clash. `None` exactly where no two do.
#[tactic(auto, using(crate::proofs::ChainLaws::clash_laws))]
fn two_facts(alloc: Global, facts: &[Fact], count: u32) -> Result<Option<Seq<Node>>, AllocError>
    requires exact { are_exact count facts.now ≡ true }
    requires room { length facts.now < 2 ^ 62 }
    ensures reach { IfOk result (λ o. MatchOption o
        (list_any (λ f. list_any (clash f) facts.now) facts.now ≡ false)
        (λ ns. list_any (λ f. list_any (clash f) facts.now) facts.now ≡ true)) }
    ensures chain { IfOk result (λ o. IfSome o (ClosesShortly count facts.now)) }
{
    match first_clash(alloc, facts)? {
        Some(pair) => Ok(Some(nodes_of(alloc, facts.len(), pair)?)),
        None => Ok(None),
    }
}

/// The chain of a fact that is out of reach, by the bounds of its variables or by a clash with another
/// fact. `None` exactly where there is no such fact.
#[tactic(auto, using(crate::proofs::ChainLaws::reach_laws))]
pub fn reach_chain(
    alloc: Global,
    facts: &[Fact],
    count: u32,
) -> Result<Option<Seq<Node>>, AllocError>
    requires exact { are_exact count facts.now ≡ true }
    requires room { length facts.now < 2 ^ 62 }
    ensures reach { IfOk result (λ o. MatchOption o
        (some_out_of_reach facts.now ≡ false)
        (λ ns. some_out_of_reach facts.now ≡ true)) }
    ensures chain { IfOk result (λ o. IfSome o (ClosesShortly count facts.now)) }
{
    match bound_chain(alloc, facts, count)? {
        Some(chain) => Ok(Some(chain)),
        None => {
            let chain = two_facts(alloc, facts, count)?;
            Ok(chain)
        }
    }
}
