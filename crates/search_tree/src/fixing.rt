//! The values of the variables of a leaf, and the facts that say them.
ghost use Rattle.std.specs.Prelude.{◌≡◌, ℕ, ◌+◌, ◌-◌, ◌≤◌, ◌<◌, ◌^◌, ◌∷◌, [], ◌++◌, true, None};
ghost use Rattle.std.specs.Prelude.{length, map, ◌≤ℤ◌, pos, IfOk, OnOk, IsTrue};
ghost use Rattle.std.specs.List.{list_all};
ghost use Rattle.std.specs.Int.{int_div_euclid};
ghost use Rattle.std.specs.Int.RustNames.{unsigned_abs};
ghost use Rattle.obligations.specs.Obligations.{AreOwn};
ghost use Rattle.obligations.specs.Opening.{at_least, at_most};
ghost use Rattle.obligations.specs.Plain.{first_cut};
ghost use Rattle.obligations.specs.Reach.{is_within};
ghost use Rattle.certificate_rules.specs.Sums.{numbered};
ghost use Rattle.linear_prover.specs.Chains.{is_plain_number, is_plain_factor};
ghost use Rattle.search_tree.specs.Points.{pair_at, ends_in, IsFirst, front, last_size};
ghost use Rattle.search_tree.specs.Points.{worth_at, quotient_at, round_at, IsReadable, fixed_by, IsFixing};
ghost use Rattle.search_tree.specs.Searching.{Ready};

use crate::closing::numbered;
use crate::points::{Point, pair_of, points_of, sum_of_points};
use certificate_rules::copy_fact;
use core_terms::Range;
use obligations::{Branch, Fact, Factors, Node, Variable};
use std::alloc::{AllocError, Global};
use unity_base::Seq;

/// The facts of a branch and those of the rounds, the rounds, and the values of the variables that are fixed so far.
#[derive(Drop)]
pub struct Fixing {
    pub facts: Seq<Fact>,
    pub rounds: Seq<Node>,
    pub points: Seq<Point>,
}

/// The round by a divisor of a fact of this number, from which these factors are taken away.
#[tactic(auto, using(crate::proofs::BoundLaws::round_laws))]
fn round_of(
    alloc: Global,
    factors: &[(u32, i128)],
    number: u64,
    divisor: i64,
    points: &[Point],
) -> Result<Node, AllocError>
    requires known { is_within (length points.now) factors.now ≡ true }
    requires plain { list_all is_plain_factor factors.now ≡ true }
    ensures { IfOk result (λ n. n ≡ Node.Round divisor ((pos 1, number) ∷ map (pair_at points.now) factors.now)) }
{
    let mut pairs = Seq::new(alloc);
    pairs.push((1, number))?;
    let mut index = 0;
    'factors: while index < factors.len() {
        pairs.push(pair_of(&factors[index], points))?;
        index += 1;
    }
    Ok(Node::Round(divisor, pairs))
}

/// Whether a fact's last factor is that of a variable.
#[tactic(auto, using(crate::proofs::BoundLaws::last_laws))]
fn ends_in_variable(fact: &Fact, variable: u32) -> bool
    ensures { result ≡ ends_in variable fact.now.factors }
{
    let factors = fact.factors.as_slice();
    factors.len() > 0 && factors[factors.len() - 1].0 == variable
}

/// The place of the first fact that names a variable, which is its last one.
#[tactic(auto, using(crate::proofs::BoundLaws::first_laws))]
fn first_naming(facts: &[Fact], variable: u32) -> usize
    requires { (i : ℕ) × IsFirst facts.now variable i }
    ensures { IsFirst facts.now variable result }
{
    let mut index = 0;
    'facts: while index < facts.len() {
        if ends_in_variable(&facts[index], variable) {
            return index;
        }
        index += 1;
    }
    unreachable!()
}

/// All factors but the last.
fn front_of(factors: &[(u32, i128)]) -> &[(u32, i128)]
    requires { 0 < length factors.now }
    ensures { result.now ≡ front factors.now }
{
    &factors[..factors.len() - 1]
}

/// A factor's absolute value.
fn size_of(factor: &(u32, i128)) -> i64
    requires { IsTrue (is_plain_number factor.now.1) }
    ensures { result ≡ pos (unsigned_abs factor.now.1) }
{
    factor.1.unsigned_abs() as i64
}

/// The last factor's absolute value.
#[tactic(auto, using(crate::proofs::BoundLaws::size_laws))]
fn divisor_of(factors: &[(u32, i128)]) -> i64
    requires some { 0 < length factors.now }
    requires plain { list_all is_plain_factor factors.now ≡ true }
    ensures { result ≡ pos (last_size factors.now) }
{
    size_of(&factors[factors.len() - 1])
}

/// A fact's constant and all factors but the last, at the values.
#[tactic(auto, using(crate::proofs::BoundLaws::worth_laws))]
fn worth_of(fact: &Fact, points: &[Point]) -> i128
    requires { IsReadable points.now fact.now }
    ensures { result ≡ worth_at points.now fact.now }
{
    fact.constant + sum_of_points(front_of(fact.factors.as_slice()), points)
}

/// A number divided and rounded down.
fn divided(number: i128, divisor: i64) -> i64
    requires positive { pos 1 ≤ℤ divisor }
    requires small { unsigned_abs (int_div_euclid number divisor) ≤ 2 ^ 62 }
    ensures { result ≡ int_div_euclid number divisor }
{
    number.div_euclid(divisor as i128) as i64
}

/// What a fact says that its last variable is, where the others have values.
#[tactic(auto, using(crate::proofs::BoundLaws::quotient_laws))]
fn quotient_of(fact: &Fact, points: &[Point]) -> i64
    requires { IsReadable points.now fact.now }
    ensures { result ≡ quotient_at points.now fact.now }
{
    divided(worth_of(fact, points), divisor_of(fact.factors.as_slice()))
}

/// The round by its last factor of a fact of this number, from which the other factors are taken away.
#[tactic(auto, using(crate::proofs::BoundLaws::rounded_laws))]
fn round_by(alloc: Global, fact: &Fact, number: u64, points: &[Point]) -> Result<Node, AllocError>
    requires { IsReadable points.now fact.now }
    ensures { IfOk result (λ n. n ≡ round_at points.now number fact.now) }
{
    let factors = fact.factors.as_slice();
    round_of(
        alloc,
        front_of(factors),
        number,
        divisor_of(factors),
        points,
    )
}

/// A fact of one factor, and a constant.
fn bound_fact(alloc: Global, variable: u32, side: i128, constant: i128) -> Result<Fact, AllocError>
    ensures { IfOk result (λ f. f ≡ record { factors = (variable, side) ∷ []; constant = constant }) }
{
    let factors = Factors::one(alloc, variable, side);
    Ok(Fact { factors, constant })
}

/// Adds what two rounds give: that a variable is at most a value, and at least it.
fn add_values(
    alloc: Global,
    variable: u32,
    value: i64,
    facts: &mut Seq<Fact>,
) -> Result<(), AllocError>
    ensures { OnOk result (facts.new ≡ (facts.old ++ at_most variable value ∷ []) ++ at_least variable value ∷ []) }
{
    facts.push(bound_fact(alloc, variable, -1, value as i128)?)?;
    facts.push(bound_fact(alloc, variable, 1, -(value as i128))?)?;
    Ok(())
}

/// Adds two nodes.
fn add_rounds(low: Node, high: Node, rounds: &mut Seq<Node>) -> Result<(), AllocError>
    ensures { OnOk result (rounds.new ≡ (rounds.old ++ low ∷ []) ++ high ∷ []) }
{
    rounds.push(low)?;
    rounds.push(high)?;
    Ok(())
}

/// Gives a variable its value and its bounds, by the rounds of two facts, of which the first has this number.
fn fix_by(
    alloc: Global,
    variable: u32,
    number: u64,
    low: &Fact,
    high: &Fact,
    fixing: &mut Fixing,
) -> Result<(), AllocError>
    requires low { IsReadable fixing.old.points low.now }
    requires high { IsReadable fixing.old.points high.now }
    requires number { number < 2 ^ 63 }
    ensures { OnOk result (fixing.new ≡ fixed_by variable number low.now high.now fixing.old) }
{
    numbered(fixing.facts.as_slice())?;
    let points = fixing.points.as_slice();
    let value = quotient_of(low, points);
    let first = round_by(alloc, low, number, points)?;
    let second = round_by(alloc, high, number + 1, points)?;
    add_rounds(first, second, &mut fixing.rounds)?;
    let most = fixing.facts.len() as u64 + 1;
    let least = most + 1;
    fixing.points.push(Point { value, least, most })?;
    add_values(alloc, variable, value, &mut fixing.facts)?;
    Ok(())
}

/// The place of the first of the two facts by which the next of the added variables is fixed.
#[tactic(auto, using(crate::proofs::FixingLaws::next_laws))]
fn next_place(
    facts: &[Fact],
    vs: &[Variable],
    branch: &Branch,
    taken: u32,
    fixing: &Fixing,
) -> usize
    requires own { length vs.now ≤ 2 ^ 31 }
    requires added { branch.now.added ≤ 480 }
    requires room { length facts.now < 2 ^ 62 }
    requires facts { facts.now ≡ branch.now.facts }
    requires some { taken < branch.now.added }
    requires fixing { IsFixing vs.now branch.now taken fixing.now }
    ensures first { IsFirst facts.now (length vs.now + taken) result }
    ensures inside { result + 1 < length facts.now }
    ensures room { result < 2 ^ 62 }
{
    first_naming(facts, vs.len() as u32 + taken)
}

/// Fixes the next of the added variables.
#[tactic(auto, using(crate::proofs::FixingLaws::fix_laws))]
fn fix(
    alloc: Global,
    facts: &[Fact],
    vs: &[Variable],
    branch: &Branch,
    taken: u32,
    fixing: &mut Fixing,
) -> Result<(), AllocError>
    requires own { length vs.now ≤ 2 ^ 31 }
    requires added { branch.now.added ≤ 480 }
    requires room { length facts.now < 2 ^ 62 }
    requires facts { facts.now ≡ branch.now.facts }
    requires some { taken < branch.now.added }
    requires fixing { IsFixing vs.now branch.now taken fixing.old }
    ensures { OnOk result (IsFixing vs.now branch.now (taken + 1) fixing.new) }
{
    let place = next_place(facts, vs, branch, taken, fixing);
    let variable = vs.len() as u32 + taken;
    fix_by(
        alloc,
        variable,
        place as u64 + 1,
        &facts[place],
        &facts[place + 1],
        fixing,
    )?;
    Ok(())
}

/// Fixes all added variables.
#[tactic(auto, using(crate::proofs::FixingLaws::loop_laws))]
fn fix_all(
    alloc: Global,
    facts: &[Fact],
    vs: &[Variable],
    branch: &Branch,
    fixing: &mut Fixing,
) -> Result<(), AllocError>
    requires own { length vs.now ≤ 2 ^ 31 }
    requires added { branch.now.added ≤ 480 }
    requires room { length facts.now < 2 ^ 62 }
    requires facts { facts.now ≡ branch.now.facts }
    requires fixing { IsFixing vs.now branch.now 0 fixing.old }
    ensures { OnOk result (IsFixing vs.now branch.now branch.now.added fixing.new) }
{
    let mut taken = 0;
    'variables: while taken < branch.added {
        fix(alloc, facts, vs, branch, taken, fixing)?;
        taken += 1;
    }
    Ok(())
}

/// Equal facts.
fn copy_facts(alloc: Global, facts: &[Fact]) -> Result<Seq<Fact>, AllocError>
    ensures { IfOk result (λ copy. copy ≡ facts.now) }
{
    let mut copy = Seq::new(alloc);
    for fact in facts {
        copy.push(copy_fact(alloc, fact)?)?;
    }
    Ok(copy)
}

/// The obligation's own variables with their values, and no round yet.
#[tactic(auto, using(crate::proofs::FixingLaws::start_laws))]
fn start_of(
    alloc: Global,
    facts: &[Fact],
    vs: &[Variable],
    rest: u32,
    ranges: &[Range],
    branch: &Branch,
) -> Result<Fixing, AllocError>
    requires own { length vs.now ≤ 2 ^ 31 }
    requires ready { Ready vs.now rest ranges.now branch.now }
    requires fixed { first_cut 0 ranges.now ≡ None }
    requires room { length facts.now < 2 ^ 62 }
    requires facts { facts.now ≡ branch.now.facts }
    ensures { IfOk result (IsFixing vs.now branch.now 0) }
{
    let points = points_of(alloc, facts, ranges)?;
    let copy = copy_facts(alloc, facts)?;
    Ok(Fixing {
        facts: copy,
        rounds: Seq::new(alloc),
        points,
    })
}

/// All variables with their values, and the rounds that give the added ones theirs.
#[tactic(auto, using(crate::proofs::FixingLaws::own_laws))]
pub fn fixing_of(
    alloc: Global,
    vs: &[Variable],
    rest: u32,
    ranges: &[Range],
    branch: &Branch,
) -> Result<Fixing, AllocError>
    requires own { AreOwn vs.now }
    requires added { branch.now.added ≤ 480 }
    requires ready { Ready vs.now rest ranges.now branch.now }
    requires fixed { first_cut 0 ranges.now ≡ None }
    ensures { IfOk result (IsFixing vs.now branch.now branch.now.added) }
{
    let facts = branch.facts.as_slice();
    numbered(facts)?;
    let mut fixing = start_of(alloc, facts, vs, rest, ranges, branch)?;
    fix_all(alloc, facts, vs, branch, &mut fixing)?;
    Ok(fixing)
}
