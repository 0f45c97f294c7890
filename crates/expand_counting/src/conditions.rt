//! Conditions: what follows from the ends of a range, and lists in which the stricter of two alike stays.

ghost use Rattle.std.specs.Prelude.{◌≡◌, ◌<◌, ◌^◌, ◌++◌, ◌∷◌, [], length, None, OnOk, MatchOption};
ghost use Rattle.std.specs.Int.RustNames.{unsigned_abs};
ghost use Rattle.expand_counting.specs.Nests.{offset};
ghost use Rattle.expand_counting.specs.Conditions.{Entails, above_end, above_limit, are_same, at_least, at_most};
ghost use Rattle.expand_counting.specs.Conditions.{below_end};
ghost use Rattle.expand_counting.specs.Conditions.{below_limit};
ghost use Rattle.expand_counting.specs.Conditions.{fit_conditions, is_level, over, plain};

use crate::ranges::{Condition, NestEnd, NestRange};
use std::alloc::AllocError;
use unity_base::Seq;

pub fn is_level(level: Option<usize>, k: usize) -> bool
    ensures { result ≡ is_level level k }
{
    match level {
        None => false,
        Some(n) => n == k,
    }
}

/// The constant of an end, with its sign.
pub fn offset(end: &NestEnd) -> i128
    ensures value { result ≡ offset end.now }
    ensures bound { unsigned_abs result < 2 ^ 64 }
{
    let number = end.number as i128;
    if end.minus { -number } else { number }
}

/// The number of the range `k` is at least this end of it.
pub fn above_end(end: &NestEnd, k: usize) -> Condition
    ensures { result ≡ above_end end.now k }
{
    Condition {
        low: end.level,
        high: Some(k),
        gap: offset(end),
    }
}

/// The number of the range `k` is at most this end of it.
pub fn below_end(end: &NestEnd, k: usize) -> Condition
    ensures { result ≡ below_end end.now k }
{
    Condition {
        low: Some(k),
        high: end.level,
        gap: -offset(end),
    }
}

/// An end is at least -1,000,000,000.
pub fn at_least(end: &NestEnd) -> Condition
    ensures { result ≡ at_least end.now }
{
    Condition {
        low: None,
        high: end.level,
        gap: -1_000_000_000 - offset(end),
    }
}

/// An end is at most 1,000,000,000.
pub fn at_most(end: &NestEnd) -> Condition
    ensures { result ≡ at_most end.now }
{
    Condition {
        low: end.level,
        high: None,
        gap: offset(end) - 1_000_000_000,
    }
}

/// An end is above 1,000,000,000.
pub fn above_limit(end: &NestEnd) -> Condition
    ensures { result ≡ above_limit end.now }
{
    Condition {
        low: None,
        high: end.level,
        gap: 1_000_000_001 - offset(end),
    }
}

/// An end is below -1,000,000,000.
pub fn below_limit(end: &NestEnd) -> Condition
    ensures { result ≡ below_limit end.now }
{
    Condition {
        low: end.level,
        high: None,
        gap: offset(end) + 1_000_000_001,
    }
}

/// The low end of a range is above its high end.
pub fn over(range: &NestRange) -> Condition
    ensures { result ≡ over range.now }
{
    Condition {
        low: range.high.level,
        high: range.low.level,
        gap: offset(&range.high) + 1 - offset(&range.low),
    }
}

fn is_same(a: Option<usize>, b: Option<usize>) -> bool
    ensures { result ≡ are_same a b }
{
    match (a, b) {
        (None, None) => true,
        (Some(n), Some(m)) => n == m,
        _ => false,
    }
}

fn between_constants(gap: i128) -> Condition
    ensures { result ≡ record { low = None; high = None; gap = gap } }
{
    Condition {
        low: None,
        high: None,
        gap,
    }
}

/// A condition between a number and itself is one between constants.
pub fn plain(c: &Condition) -> Condition
    ensures { result ≡ plain c.now }
{
    if is_same(c.low, c.high) {
        between_constants(c.gap)
    } else {
        *c
    }
}

/// Puts the two conditions at the end that keep an end within the limit.
pub fn push_fit(end: &NestEnd, list: &mut Seq<Condition>) -> Result<(), AllocError>
    ensures { OnOk result (list.new ≡ list.old ++ fit_conditions end.now) }
{
    list.push(at_least(end))?;
    list.push(at_most(end))?;
    Ok(())
}

/// Where a condition on the same two numbers stands.
fn place_of(list: &[Condition], c: &Condition) -> Option<usize>
    ensures { MatchOption result (Unit {0}) (λ place. place < length list.now) }
{
    for (place, known) in list.iter().enumerate() {
        if is_same(known.low, c.low) && is_same(known.high, c.high) {
            return Some(place);
        }
    }
    None
}

#[tactic(auto, using(crate::proofs::FollowLaws::entails_set, crate::proofs::FollowLaws::entails_old))]
fn keep_stricter(c: Condition, place: usize, list: &mut Seq<Condition>)
    requires { place < length list.old }
    ensures { Entails (list.old ++ c ∷ []) list.new }
{
    if list.as_slice()[place].gap < c.gap {
        list.replace(place, c);
    }
}

/// Adds a condition. Of two on the same numbers the stricter stays.
#[tactic(auto, using(crate::proofs::FollowLaws::entails_same))]
pub fn add(c: Condition, list: &mut Seq<Condition>) -> Result<(), AllocError>
    ensures { OnOk result (Entails (list.old ++ c ∷ []) list.new) }
{
    match place_of(list.as_slice(), &c) {
        None => list.push(c),
        Some(place) => {
            keep_stricter(c, place, list);
            Ok(())
        }
    }
}

/// Adds conditions, each in its plain form.
#[tactic(auto, using(crate::proofs::FollowLaws::entails_added))]
pub fn add_all(conditions: &[Condition], list: &mut Seq<Condition>) -> Result<(), AllocError>
    ensures { OnOk result (Entails (list.old ++ conditions.now) list.new) }
{
    for c in conditions {
        add(plain(c), list)?;
    }
    Ok(())
}
