//! Chains that close any branch with given facts.
ghost use Rattle.std.specs.Prelude.{◌≡◌, ◌<◌, ◌≤◌, ◌^◌, ℕ, zero, suc, true, drop, map, length, slice_set, IfOk, IfSome};
ghost use Rattle.std.specs.Prelude.{IsSomeAnd, OnOk};
ghost use Rattle.std.specs.List.{list_all};
ghost use Rattle.obligations.specs.Reach.{are_exact, is_within, some_out_of_reach};
ghost use Rattle.linear_prover.specs.Chains.{nulls, Closes, IsShort};
ghost use Rattle.linear_prover.specs.Exact.{factors_from, in_order, is_fact};

use crate::elimination::eliminate;
use crate::judging::no_sum;
use crate::reach::reach_chain;
use certificate_rules::rounded;
use obligations::{Fact, Line, Node};
use std::alloc::{AllocError, Global};
use unity_base::Seq;

/// Puts a factor into its place, where there is one.
fn put_factor(factor: &(u32, i128), line: &mut Seq<i128>)
    ensures { line.new ≡ slice_set line.old factor.now.0 factor.now.1 }
{
    if (factor.0 as usize) < line.len() {
        let _ = line.replace(factor.0 as usize, factor.1);
    }
}

/// Puts the factors into their places, of which the first is put last.
#[tactic(auto, using(crate::proofs::OrderLaws::factor_laws))]
fn put_factors(factors: &[(u32, i128)], count: u32, line: &mut Seq<i128>)
    requires null { line.old ≡ nulls count }
    requires within { is_within count factors.now ≡ true }
    ensures { line.new ≡ factors_from 0 count factors.now }
{
    let mut left = factors.len();
    'factors: while left > 0 {
        left -= 1;
        put_factor(&factors[left], line);
    }
}

/// A line with a fact's constant.
fn line_with(factors: Seq<i128>, fact: &Fact) -> Line
    ensures { result ≡ record { factors = factors; constant = fact.now.constant } }
{
    Line {
        factors,
        constant: fact.constant,
    }
}

/// The line of a fact.
fn line_of(alloc: Global, fact: &Fact, count: u32) -> Result<Line, AllocError>
    requires { is_within count fact.now.factors ≡ true }
    ensures { IfOk result (λ l. l ≡ record {
      factors = factors_from 0 count fact.now.factors;
      constant =
          fact.now.constant;
    }) }
{
    let Line { mut factors, .. } = no_sum(alloc, count)?;
    put_factors(fact.factors.as_slice(), count, &mut factors);
    Ok(line_with(factors, fact))
}

/// A fact in order.
#[tactic(auto, using(crate::proofs::OrderLaws::one_laws))]
fn ordered(alloc: Global, fact: &Fact, count: u32) -> Result<Fact, AllocError>
    requires { is_within count fact.now.factors ≡ true }
    ensures { IfOk result (λ f. f ≡ in_order count fact.now) }
{
    let line = line_of(alloc, fact, count)?;
    let fact = rounded(alloc, 1, &line)?;
    Ok(fact)
}

/// All facts in order.
#[tactic(auto, using(crate::proofs::OrderLaws::fact_laws))]
fn all_ordered(alloc: Global, facts: &[Fact], count: u32) -> Result<Seq<Fact>, AllocError>
    requires { list_all (is_fact count) facts.now ≡ true }
    ensures { IfOk result (λ fs. fs ≡ map (in_order count) facts.now) }
{
    let mut all = Seq::new(alloc);
    for fact in facts {
        all.push(ordered(alloc, fact, count)?)?;
    }
    Ok(all)
}

/// A chain for facts in order.
fn close_ordered(alloc: Global, facts: &[Fact], count: u32) -> Result<Option<Seq<Node>>, AllocError>
    requires { are_exact count facts.now ≡ true }
    ensures chain { IfOk result (λ o. IfSome o (Closes count facts.now)) }
    ensures reach { IfOk result (λ o. some_out_of_reach facts.now ≡ true → IsSomeAnd o (IsShort count)) }
{
    if facts.len() >= 1 << 62 {
        return Err(AllocError);
    }
    match reach_chain(alloc, facts, count)? {
        Some(chain) => Ok(Some(chain)),
        None => {
            let chain = eliminate(alloc, facts, count)?;
            Ok(chain)
        }
    }
}

/// A chain of rounds that ends in a sum and refutes facts over so many variables. Where a fact is out of
/// reach, by the bounds of its variables or by a clash with another, there is one, and it is short: at
/// most two rounds, at most the greater of `count` + 2 and 7 units, and no number past 2^62. Elsewhere
/// `None` says only that this attempt found no chain.
#[tactic(auto, using(crate::proofs::OrderLaws::close_laws))]
pub fn close(alloc: Global, facts: &[Fact], count: u32) -> Result<Option<Seq<Node>>, AllocError>
    requires { list_all (is_fact count) facts.now ≡ true }
    ensures chain { IfOk result (λ o. IfSome o (Closes count facts.now)) }
    ensures reach { IfOk result (λ o.
        some_out_of_reach (map (in_order count) facts.now) ≡ true → IsSomeAnd o (IsShort count)) }
{
    let ordered = all_ordered(alloc, facts, count)?;
    close_ordered(alloc, ordered.as_slice(), count)
}
