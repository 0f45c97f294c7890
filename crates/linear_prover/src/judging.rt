//! Whether a chain refutes facts, judged by the sums that the checker makes.
ghost use Rattle.std.specs.Prelude.{◌≡◌, ◌+◌, ◌<◌, ◌^◌, ◌++◌, ◌∷◌, [], pos, ◌≤ℤ◌, Ok, Err, Bool, true, false, length};
ghost use Rattle.std.specs.Prelude.{map, zero, suc, IfOk, IfSome, OnOk};
ghost use Rattle.std.specs.List.{list_all};
ghost use Rattle.std.specs.Int.{int_div_euclid, int_rem_euclid};
ghost use Rattle.meaning_states.specs.State.{int_eq};
ghost use Rattle.obligations.specs.LinearForms.{fact_of};
ghost use Rattle.certificate_rules.specs.Sums.{is_divisible, divided};
ghost use Rattle.certificate_rules.specs.Refutation.{made_sum, opens};
ghost use Rattle.linear_prover.specs.Chains.{nulls, null_line, total_pairs, Closes, IsTotal, IsRoundStep, AddsRound};
ghost use Rattle.linear_prover.specs.Chains.{is_plain_number, is_plain_pair, is_plain_node};

use certificate_rules::{add_pairs, closes, copy_fact, divides, rounded};
use obligations::{Fact, Line, Node};
use std::alloc::{AllocError, Global};
use unity_base::Seq;

/// The sum of nothing.
#[tactic(auto, using(crate::proofs::JudgingLaws::nulls_more))]
pub fn no_sum(alloc: Global, count: u32) -> Result<Line, AllocError>
    ensures { IfOk result (λ l. l ≡ null_line count) }
{
    let mut factors = Seq::new(alloc);
    'variables: for _ in 0..count {
        factors.push(0)?;
    }
    Ok(Line {
        factors,
        constant: 0,
    })
}

/// The sum of all pairs. `None` where a pair fails.
fn total(
    alloc: Global,
    facts: &[Fact],
    count: u32,
    pairs: &[(i64, u64)],
) -> Result<Option<Line>, AllocError>
    ensures { IfOk result (IsTotal count facts.now pairs.now) }
{
    let mut sum = no_sum(alloc, count)?;
    match add_pairs(facts, pairs, &mut sum) {
        Ok(()) => Ok(Some(sum)),
        Err(_) => Ok(None),
    }
}

/// Whether a sum closes a branch.
pub fn is_closing_sum(
    alloc: Global,
    facts: &[Fact],
    count: u32,
    pairs: &[(i64, u64)],
) -> Result<bool, AllocError>
    ensures { IfOk result (λ b. b ≡ true → made_sum (total_pairs count facts.now pairs.now) ≡ opens []) }
{
    match total(alloc, facts, count, pairs)? {
        Some(sum) => Ok(closes(&sum)),
        None => Ok(false),
    }
}

/// The fact that a line is after a round. `None` where the number doesn't divide all factors, or where
/// there are more variables than can be numbered.
fn fact_after(alloc: Global, line: &Line, divisor: i64) -> Result<Option<Fact>, AllocError>
    ensures { IfOk result (λ o. IfSome o (λ f. (is_divisible divisor line.now ≡ true) ×
        (f ≡ fact_of (divided divisor line.now)))) }
{
    if line.factors.len() < 1 << 32 && divides(divisor, line) {
        Ok(Some(rounded(alloc, divisor, line)?))
    } else {
        Ok(None)
    }
}

/// The fact that a round adds. `None` where the round fails.
fn round_fact(
    alloc: Global,
    facts: &[Fact],
    count: u32,
    divisor: i64,
    pairs: &[(i64, u64)],
) -> Result<Option<Fact>, AllocError>
    ensures { IfOk result (λ o. IfSome o (IsRoundStep count facts.now divisor pairs.now)) }
{
    match total(alloc, facts, count, pairs)? {
        Some(line) => fact_after(alloc, &line, divisor),
        None => Ok(None),
    }
}

/// Equal facts.
fn copy_facts(alloc: Global, facts: &[Fact]) -> Result<Seq<Fact>, AllocError>
    ensures { IfOk result (λ copy. copy ≡ facts.now) }
{
    let mut copy = Seq::new(alloc);
    for fact in facts {
        copy.push(copy_fact(alloc, fact)?)?;
    }
    Ok(copy)
}

/// Takes a round into the facts. Whether it can be taken.
fn add_round(
    alloc: Global,
    count: u32,
    divisor: i64,
    pairs: &[(i64, u64)],
    facts: &mut Seq<Fact>,
) -> Result<bool, AllocError>
    ensures { IfOk result (λ b. b ≡ true → AddsRound count divisor pairs.now facts.old facts.new) }
{
    match round_fact(alloc, facts.as_slice(), count, divisor, pairs)? {
        Some(fact) => {
            facts.push(fact)?;
            Ok(true)
        }
        None => Ok(false),
    }
}

/// Whether a chain refutes facts, to which its rounds are added.
#[tactic(auto, using(crate::proofs::JudgingLaws::closing_laws))]
fn is_closing_after(
    alloc: Global,
    count: u32,
    nodes: &[Node],
    facts: &mut Seq<Fact>,
) -> Result<bool, AllocError>
    ensures { IfOk result (λ b. b ≡ true → Closes count facts.old nodes.now) }
{
    for (place, node) in nodes.iter().enumerate() {
        match node {
            Node::Round(divisor, pairs) => {
                if !add_round(alloc, count, *divisor, pairs.as_slice(), facts)? {
                    return Ok(false);
                }
            }
            Node::Sum(pairs) => {
                if place + 1 < nodes.len() {
                    return Ok(false);
                }
                return is_closing_sum(alloc, facts.as_slice(), count, pairs.as_slice());
            }
            _ => return Ok(false),
        }
    }
    Ok(false)
}

/// Whether a chain refutes facts.
pub fn is_closing(
    alloc: Global,
    facts: &[Fact],
    count: u32,
    nodes: &[Node],
) -> Result<bool, AllocError>
    ensures { IfOk result (λ b. b ≡ true → Closes count facts.now nodes.now) }
{
    let mut more = copy_facts(alloc, facts)?;
    is_closing_after(alloc, count, nodes, &mut more)
}

/// Whether a number is within plus or minus 2^62.
pub fn is_plain_number(number: &i64) -> bool
    ensures { result ≡ is_plain_number number.now }
{
    number.unsigned_abs() <= 1 << 62
}

/// Whether all multipliers of a sum are within plus or minus 2^62.
pub fn are_plain_pairs(pairs: &[(i64, u64)]) -> bool
    ensures { result ≡ list_all is_plain_pair pairs.now }
{
    pairs.iter().all(|pair| is_plain_number(&pair.0))
}

/// Whether a node is one that version 1 has, and all its numbers are.
fn is_plain(node: &Node) -> bool
    ensures { result ≡ is_plain_node node.now }
{
    match node {
        Node::Case(_) => true,
        Node::Split(_, at) => is_plain_number(at),
        Node::Sum(pairs) => are_plain_pairs(pairs.as_slice()),
        Node::Round(divisor, pairs) => is_plain_number(divisor)
            && are_plain_pairs(pairs.as_slice()),
        Node::Quot(_) => false,
        Node::Share(_, _) => false,
    }
}

/// Whether no number of a chain is outside plus or minus 2^62.
pub fn is_plain_chain(nodes: &[Node]) -> bool
    ensures { result ≡ list_all is_plain_node nodes.now }
{
    nodes.iter().all(|node| is_plain(node))
}
