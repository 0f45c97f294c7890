//! The numbers of ranges.

ghost use Rattle.std.specs.Prelude.{◌≡◌, ◌+◌, ◌^◌, ◌≤◌, ◌<◌, ◌+ℤ◌, ◌≤ℤ◌, pos};
ghost use Rattle.std.specs.Int.RustNames.{unsigned_abs};
ghost use Rattle.case_tables.specs.declared.symbol_table.Symbol.{Symbol};
ghost use Rattle.meaning_executions.specs.Counting.{range_size, count_up};
ghost use Rattle.expand_rules.specs.from_meaning_documents.Names as names;
ghost use Rattle.expand_rules.specs.from_meaning_documents.Value as value;
ghost use Rattle.expand_rules.specs.Measures as spec;
ghost use Rattle.expand_rules.specs.Forming as forming;
ghost use Rattle.expand_expressions.specs.Places.{bound_names, bound_number};

use crate::measures::range_size;
use crate::places::{Env, find_bound};
use case_tables::Symbol;
use core_terms::Range as Ends;
use expand_rules::{Bound, nearer};
use unity_syntax::{End, Name, Range};

/// So many numbers from the first on.
#[derive(Clone, Copy)]
pub struct Numbers {
    pub first: i64,
    pub count: u64,
}

fn number_of(bound: Option<Bound>) -> i64
    ensures { result ≡ bound_number bound }
{
    match bound {
        Some(Bound::Number(number)) => number,
        Some(
            Bound::Param {
                number: _,
                weight: _,
            },
        ) => 0,
        None => 0,
    }
}

// The number that a name in an end stands for.
#[tactic(auto, using(crate::proofs::Ends::number_of_name))]
fn name_value(name: &Name, env: &Env) -> i64
    ensures { result ≡ names.or_zero (names.number_of name.now.text (forming.numbers (bound_names env.now))) }
{
    number_of(find_bound(env, name))
}

fn signed(minus: bool, number: u64) -> i128
    ensures value { result ≡ value.signed minus (pos number) }
    ensures bound { unsigned_abs result < 2 ^ 64 }
{
    if minus {
        -i128::from(number)
    } else {
        i128::from(number)
    }
}

// No symbol but `+` and `-` stands before an offset.
fn moved(number: i64, symbol: Symbol, by: u64) -> i128
    ensures value { result ≡ value.plus number symbol (pos by) }
    ensures bound { unsigned_abs result < 2 ^ 66 }
{
    match symbol {
        Symbol::Minus => i128::from(number) - i128::from(by),
        _ => i128::from(number) + i128::from(by),
    }
}

// The value of an end.
fn end_value(end: &End, env: &Env) -> i128
    ensures value { result ≡ value.end_value (forming.numbers (bound_names env.now)) end.now }
    ensures bound { unsigned_abs result < 2 ^ 66 }
{
    match end {
        End::Number {
            at: _,
            minus,
            number,
        } => signed(*minus, *number),
        End::Word {
            at: _,
            name,
            offset,
        } => {
            let number = name_value(name, env);
            match offset {
                None => i128::from(number),
                Some((symbol, by)) => moved(number, *symbol, *by),
            }
        }
    }
}

fn place(end: &End) -> u64
    ensures { result ≡ spec.place_of end.now }
{
    match end {
        End::Number {
            at,
            minus: _,
            number: _,
        } => *at,
        End::Word {
            at,
            name: _,
            offset: _,
        } => *at,
    }
}

// The place of an end that is too large.
fn misfit(end: &End, env: &Env) -> Option<u64>
    ensures { result ≡ spec.misfit (forming.numbers (bound_names env.now)) end.now }
{
    let number = end_value(end, env);
    if number.unsigned_abs() <= 1_000_000_000 {
        None
    } else {
        Some(place(end))
    }
}

/// The first place of an end that is too large.
pub fn range_misfit(range: &Range, env: &Env) -> Option<u64>
    ensures { result ≡ spec.range_misfit (forming.numbers (bound_names env.now)) range.now }
{
    nearer(misfit(&range.low, env), misfit(&range.high, env))
}

/// The numbers of a range; there are none where an end is too large.
pub fn range_numbers(range: &Range, env: &Env) -> Numbers
    ensures values { forming.fit_values (forming.numbers (bound_names env.now)) range.now ≡ count_up result.first
        result.count }
    ensures first { unsigned_abs result.first ≤ 1000000000 }
    ensures count { result.count ≤ 2000000001 }
{
    let low = end_value(&range.low, env);
    let high = end_value(&range.high, env);
    if (low.unsigned_abs() <= 1_000_000_000) & (high.unsigned_abs() <= 1_000_000_000) {
        between(low as i64, high as i64)
    } else {
        Numbers { first: 0, count: 0 }
    }
}

fn between(low: i64, high: i64) -> Numbers
    requires low { unsigned_abs low ≤ 1000000000 }
    requires high { unsigned_abs high ≤ 1000000000 }
    ensures first { result.first ≡ low }
    ensures count { result.count ≡ range_size (low, high) }
    ensures bound { result.count ≤ 2000000001 }
{
    Numbers {
        first: low,
        count: range_size(Ends { lo: low, hi: high }),
    }
}

fn is_number(bound: Option<Bound>) -> bool
    ensures { result ≡ forming.stands_for_number bound }
{
    match bound {
        None => true,
        Some(Bound::Number(_)) => true,
        Some(
            Bound::Param {
                number: _,
                weight: _,
            },
        ) => false,
    }
}

fn is_fixed(end: &End, env: &Env) -> bool
    ensures { result ≡ forming.is_number_end (bound_names env.now) end.now }
{
    match end {
        End::Number {
            at: _,
            minus: _,
            number: _,
        } => true,
        End::Word {
            at: _,
            name,
            offset: _,
        } => is_number(find_bound(env, name)),
    }
}

/// Whether the words in the ends of a range stand for numbers.
pub fn is_fixed_range(range: &Range, env: &Env) -> bool
    ensures { result ≡ forming.is_fixed_range (bound_names env.now) range.now }
{
    is_fixed(&range.low, env) & is_fixed(&range.high, env)
}
