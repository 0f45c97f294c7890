//! Values that are written nowhere: of such a value its quantifiers count, with their instances, and its divisors.

ghost use Rattle.std.specs.Prelude.{◌≡◌, ◌≤◌, ◌+◌, ◌^◌, ◌<◌, ◌+ℤ◌, pos, map, fold};
ghost use Rattle.std.specs.Int.RustNames.{unsigned_abs};
ghost use Rattle.case_tables.specs.declared.symbol_table.Symbol.{Symbol};
ghost use Rattle.unity_syntax.specs.declared.expression.Expr.{Expr};
ghost use Rattle.meaning_executions.specs.Counting.{count_up};
ghost use Rattle.expand_rules.specs.declared.effects.Count.{Count};
ghost use Rattle.expand_rules.specs.Forming as spec;
ghost use Rattle.expand_rules.specs.Forming.{fit_values, formed, numbers};
ghost use Rattle.expand_rules.specs.Counts as parts;
ghost use Rattle.expand_expressions.specs.Places.{IsReady, bound_names, scope};
ghost use Rattle.expand_expressions.specs.Sound.{IsSound, of_number};
ghost use Rattle.expand_assignments.specs.Adding.{TellsCount, inside_count, instances_count};

use crate::counts::{both_counts, flawed_count, index_count, is_large, one_node_more, stray_count};
use crate::places::bound_at;
use case_tables::Symbol;
use expand_expressions::{
    Env, Known, NumberCore, Numbers, Refusal, bad_divisor, first_byte, form, number, range_misfit,
    range_numbers, with_bound,
};
use expand_rules::{Count, Flaws};
use std::alloc::Global;
use unity_base::Seq;
use unity_syntax::{Expr, Name, Operator, Range};

// A count that is not too large.
fn within(count: Count) -> Result<Count, Refusal>
    ensures { TellsCount result count }
{
    if is_large(&count) {
        Err(Refusal::TooLarge)
    } else {
        Ok(count)
    }
}

fn nothing() -> Result<Count, Refusal>
    ensures { TellsCount result parts.no_count }
{
    Ok(Count {
        size: 0,
        most: 0,
        flaws: Flaws::none(),
    })
}

// Both together.
#[tactic(auto, using(crate::proofs::UnwrittenLaws::past_first, crate::proofs::UnwrittenLaws::past_second))]
fn joined(a: Result<Count, Refusal>, b: Result<Count, Refusal>) -> Result<Count, Refusal>
    ensures { (m n : Count) → TellsCount a m → TellsCount b n → TellsCount result (parts.both_counts m n) }
{
    match a {
        Err(refusal) => Err(refusal),
        Ok(first) => match b {
            Err(refusal) => Err(refusal),
            Ok(second) => within(both_counts(first, second)),
        },
    }
}

// One node more.
#[tactic(auto, using(crate::proofs::UnwrittenLaws::past_more))]
fn more(a: Result<Count, Refusal>) -> Result<Count, Refusal>
    ensures { (n : Count) → TellsCount a n → TellsCount result (parts.one_node_more n) }
{
    match a {
        Err(refusal) => Err(refusal),
        Ok(count) => within(one_node_more(count)),
    }
}

// With the place of an end that is too large.
#[tactic(auto, using(crate::proofs::UnwrittenLaws::past_ranged))]
fn ranged(misfit: Option<u64>, a: Result<Count, Refusal>) -> Result<Count, Refusal>
    ensures { (n : Count) → TellsCount a n → TellsCount result (parts.ranged_count misfit n) }
{
    match a {
        Err(refusal) => Err(refusal),
        Ok(count) => Ok(flawed_count(Flaws::of_range(misfit), count)),
    }
}

// A divisor, which begins at this byte.
fn divisor_count(at: u64, b: &NumberCore) -> Count
    requires sound { IsSound (of_number b.now) }
    requires light { b.now.measure.most ≤ 2 ^ 62 + 1 }
    ensures { result ≡ spec.divisor_count at (of_number b.now) }
{
    let count = if b.constant {
        index_count(b.measure)
    } else {
        stray_count(b.measure)
    };
    flawed_count(Flaws::of_divisor(bad_divisor(at, b)), count)
}

#[tactic(auto, using(crate::proofs::UnwrittenLaws::past_divisor))]
fn divisor(alloc: Global, e: &Expr, env: &Env, known: &Known) -> Result<Count, Refusal>
    requires { IsReady known.now }
    ensures { TellsCount result (spec.divisor_count (spec.first_byte e.now)
        (spec.as_number (formed e.now (scope known.now env.now)))) }
{
    let part = form(alloc, e, env, known)?;
    let b = number(alloc, part)?;
    within(divisor_count(first_byte(e), &b))
}

/// What counts of a value that is written nowhere. `TooLarge` exactly where it is past 65,536 nodes or a divisor
/// weighs more than 2^62; then no more than that was unfolded.
#[cycle(unwritten)]
pub fn unwritten(alloc: Global, e: &Expr, env: &Env, known: &Known) -> Result<Count, Refusal>
    requires { IsReady known.now }
    ensures { TellsCount result (spec.unwritten_count e.now (scope known.now env.now)) }
{
    match e {
        Expr::Implies { left, right, .. } => joined(
            unwritten(alloc, left.get(), env, known),
            unwritten(alloc, right.get(), env, known),
        ),
        Expr::And { first, rest, .. } => {
            let first = unwritten(alloc, first.get(), env, known);
            parts(alloc, first, rest, env, known)
        }
        Expr::Or { first, rest, .. } => {
            let first = unwritten(alloc, first.get(), env, known);
            parts(alloc, first, rest, env, known)
        }
        Expr::Not { of, .. } => unwritten(alloc, of.get(), env, known),
        Expr::Compare { left, right, .. } => joined(
            unwritten(alloc, left.get(), env, known),
            unwritten(alloc, right.get(), env, known),
        ),
        Expr::Sum { first, rest, .. } => {
            let first = unwritten(alloc, first.get(), env, known);
            terms(alloc, first, rest, env, known)
        }
        Expr::Product { first, rest, .. } => {
            let first = unwritten(alloc, first.get(), env, known);
            factors(alloc, first, rest, env, known)
        }
        Expr::Number { .. } | Expr::True { .. } | Expr::False { .. } => nothing(),
        Expr::Word { index, .. } => match index {
            None => nothing(),
            Some(index) => unwritten(alloc, index.get(), env, known),
        },
        Expr::Brackets { of, .. } => unwritten(alloc, of.get(), env, known),
        Expr::Quantified {
            name,
            range,
            of,
            ..
        } => quantified(alloc, name, range, of.get(), env, known),
    }
}

// A part, with those that follow it.
#[cycle(unwritten)]
fn parts(
    alloc: Global,
    first: Result<Count, Refusal>,
    rest: &Seq<Expr>,
    env: &Env,
    known: &Known,
) -> Result<Count, Refusal>
    requires { IsReady known.now }
    ensures { (n : Count) → TellsCount first n → TellsCount result (fold parts.both_counts n
        (map (λ (x : Expr). spec.unwritten_count x (scope known.now env.now)) rest.now)) }
{
    let mut whole = first;
    for e in rest.as_slice() {
        if whole.is_err() {
            return whole;
        }
        whole = joined(whole, unwritten(alloc, e, env, known));
    }
    whole
}

// The parts of a sum.
#[cycle(unwritten)]
fn terms(
    alloc: Global,
    first: Result<Count, Refusal>,
    rest: &Seq<(Symbol, Expr)>,
    env: &Env,
    known: &Known,
) -> Result<Count, Refusal>
    requires { IsReady known.now }
    ensures { (n : Count) → TellsCount first n → TellsCount result (fold parts.both_counts n
        (map (λ (p : Symbol × Expr). spec.unwritten_count p.1 (scope known.now env.now)) rest.now)) }
{
    let mut whole = first;
    for part in rest.as_slice() {
        if whole.is_err() {
            return whole;
        }
        whole = joined(whole, unwritten(alloc, &part.1, env, known));
    }
    whole
}

// The right operand of an operator of a product.
#[cycle(unwritten)]
fn operand(
    alloc: Global,
    op: Operator,
    e: &Expr,
    env: &Env,
    known: &Known,
) -> Result<Count, Refusal>
    requires { IsReady known.now }
    ensures { TellsCount result (spec.operand_in (scope known.now env.now) (op, e.now)) }
{
    match op {
        Operator::Times => unwritten(alloc, e, env, known),
        Operator::Div => divisor(alloc, e, env, known),
        Operator::Mod => divisor(alloc, e, env, known),
    }
}

// The operands of a product.
#[cycle(unwritten)]
fn factors(
    alloc: Global,
    first: Result<Count, Refusal>,
    rest: &Seq<(Operator, Expr)>,
    env: &Env,
    known: &Known,
) -> Result<Count, Refusal>
    requires { IsReady known.now }
    ensures { (n : Count) → TellsCount first n → TellsCount result (fold parts.both_counts n
        (map (spec.operand_in (scope known.now env.now)) rest.now)) }
{
    let mut whole = first;
    for part in rest.as_slice() {
        if whole.is_err() {
            return whole;
        }
        whole = joined(whole, operand(alloc, part.0, &part.1, env, known));
    }
    whole
}

#[cycle(unwritten)]
fn quantified(
    alloc: Global,
    name: &Name,
    range: &Range,
    of: &Expr,
    env: &Env,
    known: &Known,
) -> Result<Count, Refusal>
    requires { IsReady known.now }
    ensures { TellsCount result (spec.quantified_count (bound_names env.now) range.now
        (instances_count (scope known.now env.now) name.now of.now
        (fit_values (numbers (bound_names env.now)) range.now))) }
{
    let numbers = range_numbers(range, env);
    let whole = instances(alloc, name, &numbers, of, env, known);
    more(ranged(range_misfit(range, env), whole))
}

#[cycle(unwritten)]
fn instances(
    alloc: Global,
    name: &Name,
    numbers: &Numbers,
    of: &Expr,
    env: &Env,
    known: &Known,
) -> Result<Count, Refusal>
    requires ready { IsReady known.now }
    requires first { unsigned_abs numbers.now.first ≤ 1000000000 }
    requires count { numbers.now.count ≤ 2000000001 }
    ensures { TellsCount result (instances_count (scope known.now env.now) name.now of.now
        (count_up numbers.now.first numbers.now.count)) }
{
    let mut whole = nothing();
    for i in 0..numbers.count {
        if whole.is_err() {
            return whole;
        }
        whole = joined(whole, instance(alloc, name, numbers, i, of, env, known));
    }
    whole
}

#[cycle(unwritten)]
fn instance(
    alloc: Global,
    name: &Name,
    numbers: &Numbers,
    i: u64,
    of: &Expr,
    env: &Env,
    known: &Known,
) -> Result<Count, Refusal>
    requires ready { IsReady known.now }
    requires first { unsigned_abs numbers.now.first ≤ 1000000000 }
    requires within { i < 2 ^ 31 }
    ensures { TellsCount result (inside_count (scope known.now env.now) name.now of.now (numbers.now.first +ℤ pos i)) }
{
    let inner = with_bound(&*name, bound_at(numbers, i), &*env);
    more(unwritten(alloc, of, &inner, known))
}
