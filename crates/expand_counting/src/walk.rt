//! Counting the instances of nested ranges, over those numbers alone for which there may be one.

ghost use Rattle.std.specs.Prelude.{ℤ, ◌≡◌, ◌+◌, ◌^◌, ◌<◌, ◌≤◌, suc, pos, negsuc, ◌+ℤ◌, ◌-ℤ◌, ◌≤ℤ◌, [], ◌∷◌, ◌++◌};
ghost use Rattle.std.specs.Prelude.{length, IfOk, OnOk, Some, min, slice_index_or};
ghost use Rattle.std.specs.Int.RustNames.{unsigned_abs};
ghost use Rattle.std.specs.List.{flat_map};
ghost use Rattle.expand_counting.specs.Nests.{LeavesRoom, TakesTurns, most_turns, instances, between, end_number};
ghost use Rattle.expand_counting.specs.Nests.{end_fits};
ghost use Rattle.expand_counting.specs.Nests.{natural, number_at};
ghost use Rattle.expand_counting.specs.Conditions.{Narrows, Plans, Spans, all_hold, condition_holds, interval_of};
ghost use Rattle.expand_counting.specs.Conditions.{left_by};
ghost use Rattle.expand_counting.specs.Conditions.{lowered, meeting, raised, sum_over};

use crate::conditions::{is_level, offset};
use crate::ranges::{Condition, Interval, NestEnd, NestRange};
use std::alloc::{AllocError, Global};
use unity_base::Seq;

fn item(values: &[i64], n: usize) -> i64
    ensures { result ≡ slice_index_or values.now n (pos 0) }
{
    match values.get(n) {
        Some(value) => *value,
        None => 0,
    }
}

fn number(values: &[i64], level: Option<usize>) -> i128
    ensures value { result ≡ number_at values.now level }
    ensures bound { unsigned_abs result ≤ 2 ^ 63 }
{
    match level {
        None => 0,
        Some(n) => item(values, n) as i128,
    }
}

fn end_number(values: &[i64], end: &NestEnd) -> i128
    ensures { result ≡ end_number values.now end.now }
{
    number(values, end.level) + offset(end)
}

fn holds(values: &[i64], c: &Condition) -> bool
    ensures { result ≡ condition_holds values.now c.now }
{
    c.gap <= number(values, c.high) - number(values, c.low)
}

/// Whether these numbers meet all of the conditions.
pub fn do_hold(values: &[i64], conditions: &[Condition]) -> bool
    ensures { result ≡ all_hold values.now conditions.now }
{
    for c in conditions {
        if !holds(values, c) {
            return false;
        }
    }
    true
}

fn fits(z: i128) -> bool
    ensures { result ≡ end_fits z }
{
    z.unsigned_abs() <= 1_000_000_000
}

fn interval_of(ends: &Interval) -> Interval
    ensures { result ≡ interval_of ends.now.low ends.now.high }
{
    if fits(ends.low) & fits(ends.high) {
        *ends
    } else {
        Interval { low: 0, high: -1 }
    }
}

fn ends(values: &[i64], range: &NestRange) -> Interval
    ensures low { result.low ≡ end_number values.now range.now.low }
    ensures high { result.high ≡ end_number values.now range.now.high }
{
    Interval {
        low: end_number(values, &range.low),
        high: end_number(values, &range.high),
    }
}

/// The range's numbers; none where an end is too large.
#[tactic(auto, using(crate::proofs::NarrowLaws::spans_interval))]
fn interval(values: &[i64], range: &NestRange) -> Interval
    ensures { Spans values.now range.now result }
{
    interval_of(&ends(values, range))
}

fn left_by(
    c: &Condition,
    k: usize,
    old: &Interval,
    most: Option<i128>,
    least: Option<i128>,
) -> Interval
    ensures { result ≡ left_by c.now k old.now most least }
{
    if is_level(c.low, k) {
        if is_level(c.high, k) {
            *old
        } else {
            lowered(old, most)
        }
    } else if is_level(c.high, k) {
        raised(old, least)
    } else {
        *old
    }
}

/// The numbers that are left by a condition.
#[tactic(auto, using(crate::proofs::NarrowLaws::narrows_left))]
fn narrowed(values: &[i64], c: &Condition, k: usize, old: &Interval) -> Interval
    requires here { length values.now ≡ k }
    ensures { Narrows values.now (c.now ∷ []) old.now result }
{
    let most = most(values, c);
    let least = least(values, c);
    left_by(c, k, old, most, least)
}

fn most(values: &[i64], c: &Condition) -> Option<i128>
    ensures { (m : ℤ) → result ≡ Some m → m ≡ number_at values.now c.now.high -ℤ c.now.gap }
{
    number(values, c.high).checked_sub(c.gap)
}

fn least(values: &[i64], c: &Condition) -> Option<i128>
    ensures { (m : ℤ) → result ≡ Some m → m ≡ number_at values.now c.now.low +ℤ c.now.gap }
{
    number(values, c.low).checked_add(c.gap)
}

fn lowered(old: &Interval, most: Option<i128>) -> Interval
    ensures { result ≡ lowered old.now most }
{
    match most {
        Some(most) if most < old.high => Interval {
            low: old.low,
            high: most,
        },
        _ => *old,
    }
}

fn raised(old: &Interval, least: Option<i128>) -> Interval
    ensures { result ≡ raised old.now least }
{
    match least {
        Some(least) if old.low < least => Interval {
            low: least,
            high: old.high,
        },
        _ => *old,
    }
}

/// The numbers that are left by all conditions.
#[tactic(auto, using(crate::proofs::NarrowLaws::narrows_none, crate::proofs::NarrowLaws::narrows_more))]
fn kept(values: &[i64], conditions: &Seq<Condition>, k: usize, old: &Interval) -> Interval
    requires here { length values.now ≡ k }
    ensures { Narrows values.now conditions.now old.now result }
{
    let mut interval = *old;
    for c in conditions.as_slice() {
        interval = narrowed(values, c, k, &interval);
    }
    interval
}

fn how_many(interval: &Interval) -> u64
    requires low { negsuc 999999999 ≤ℤ interval.now.low }
    requires high { interval.now.high ≤ℤ pos 1000000000 }
    ensures { result ≡ natural (interval.now.high +ℤ pos 1 -ℤ interval.now.low) }
{
    if interval.low <= interval.high {
        (interval.high - interval.low + 1) as u64
    } else {
        0
    }
}

fn number_in(interval: &Interval, i: u64) -> i64
    requires low { negsuc 999999999 ≤ℤ interval.now.low }
    requires high { interval.now.high ≤ℤ pos 1000000000 }
    requires within { i < natural (interval.now.high +ℤ pos 1 -ℤ interval.now.low) }
    ensures { result ≡ interval.now.low +ℤ pos i }
{
    (interval.low + i as i128) as i64
}

/// The instance itself, where it meets the conditions.
fn one(values: &[i64], leaf: &[Condition], room: u64) -> Option<u64>
    ensures { LeavesRoom result room (meeting [] leaf.now values.now) }
{
    if do_hold(values, leaf) {
        room.checked_sub(1)
    } else {
        Some(room)
    }
}

/// One turn more, up to 2^64 - 1.
fn take_turn(turns: &mut u64)
    ensures { turns.new ≡ min most_turns (turns.old + 1) }
{
    *turns = turns.saturating_add(1);
}

/// Counts the instances of nested ranges that meet the conditions `leaf`, inside ranges with these numbers. The
/// answer is what is left of the room, and `None` where there is too little. An error says that memory was refused.
/// Each call is a turn.
#[cycle(count)]
pub fn count(
    ranges: &[NestRange],
    plans: &[Seq<Condition>],
    leaf: &[Condition],
    values: &mut Seq<i64>,
    room: u64,
    turns: &mut u64,
) -> Result<Option<u64>, AllocError>
    requires plans { Plans ranges.now leaf.now (length values.old) plans.now }
    ensures count { IfOk result (λ r. LeavesRoom r room (meeting ranges.now leaf.now values.old)) }
    ensures turns { IfOk result (λ r. TakesTurns r room turns.old turns.new) }
    ensures values { OnOk result (values.new ≡ values.old) }
{
    take_turn(turns);
    match ranges {
        [] => Ok(one(values.as_slice(), leaf, room)),
        [range, inner @ ..] => match plans {
            [] => Ok(None),
            [conditions, deeper @ ..] => {
                let whole = interval(values.as_slice(), range);
                let left = kept(values.as_slice(), conditions, values.len(), &whole);
                each(inner, deeper, leaf, &left, values, room, turns)
            }
        },
    }
}

#[cycle(count)]
fn each(
    inner: &[NestRange],
    deeper: &[Seq<Condition>],
    leaf: &[Condition],
    interval: &Interval,
    values: &mut Seq<i64>,
    room: u64,
    turns: &mut u64,
) -> Result<Option<u64>, AllocError>
    requires plans { Plans inner.now leaf.now (suc (length values.old)) deeper.now }
    requires low { negsuc 999999999 ≤ℤ interval.now.low }
    requires high { interval.now.high ≤ℤ pos 1000000000 }
    ensures count { IfOk result (λ r. LeavesRoom r room (sum_over
        (λ z. meeting inner.now leaf.now (values.old ++ z ∷ [])) (between interval.now.low interval.now.high))) }
    ensures turns { IfOk result (λ r. TakesTurns r room turns.old turns.new) }
    ensures values { OnOk result (values.new ≡ values.old) }
{
    let mut left = room;
    for i in 0..how_many(interval) {
        match at(inner, deeper, leaf, interval, i, values, left, turns)? {
            Some(fewer) => left = fewer,
            None => return Ok(None),
        }
    }
    Ok(Some(left))
}

#[cycle(count)]
fn at(
    inner: &[NestRange],
    deeper: &[Seq<Condition>],
    leaf: &[Condition],
    interval: &Interval,
    i: u64,
    values: &mut Seq<i64>,
    room: u64,
    turns: &mut u64,
) -> Result<Option<u64>, AllocError>
    requires plans { Plans inner.now leaf.now (suc (length values.old)) deeper.now }
    requires low { negsuc 999999999 ≤ℤ interval.now.low }
    requires high { interval.now.high ≤ℤ pos 1000000000 }
    requires within { i < natural (interval.now.high +ℤ pos 1 -ℤ interval.now.low) }
    ensures count { IfOk result (λ r. LeavesRoom r room
        (meeting inner.now leaf.now (values.old ++ (interval.now.low +ℤ pos i) ∷ []))) }
    ensures turns { IfOk result (λ r. TakesTurns r room turns.old turns.new) }
    ensures values { OnOk result (values.new ≡ values.old) }
{
    let number = number_in(interval, i);
    values.push(number)?;
    let counted = count(inner, deeper, leaf, values, room, turns)?;
    values.pop();
    Ok(counted)
}

fn copied(alloc: Global, values: &[i64]) -> Result<Seq<i64>, AllocError>
    ensures { IfOk result (λ copy. copy ≡ values.now) }
{
    let mut copy = Seq::new(alloc);
    for value in values {
        copy.push(*value)?;
    }
    Ok(copy)
}

/// Puts the instances of nested ranges inside ranges with these numbers at the end of a list, with no care for
/// ranges that have no instance inside: there is a turn for each number.
#[cycle(list)]
pub fn push_instances(
    alloc: Global,
    ranges: &[NestRange],
    values: &mut Seq<i64>,
    list: &mut Seq<Seq<i64>>,
) -> Result<(), AllocError>
    ensures list { OnOk result (list.new ≡ list.old ++ instances ranges.now values.old) }
    ensures values { OnOk result (values.new ≡ values.old) }
{
    match ranges {
        [] => list.push(copied(alloc, values.as_slice())?),
        [range, inner @ ..] => {
            let numbers = interval(values.as_slice(), range);
            push_each(alloc, inner, &numbers, values, list)
        }
    }
}

#[cycle(list)]
fn push_each(
    alloc: Global,
    inner: &[NestRange],
    interval: &Interval,
    values: &mut Seq<i64>,
    list: &mut Seq<Seq<i64>>,
) -> Result<(), AllocError>
    requires low { negsuc 999999999 ≤ℤ interval.now.low }
    requires high { interval.now.high ≤ℤ pos 1000000000 }
    ensures list { OnOk result (list.new ≡ list.old ++ flat_map
        (λ z. instances inner.now (values.old ++ z ∷ [])) (between interval.now.low interval.now.high)) }
    ensures values { OnOk result (values.new ≡ values.old) }
{
    for i in 0..how_many(interval) {
        push_at(alloc, inner, interval, i, values, list)?;
    }
    Ok(())
}

#[cycle(list)]
fn push_at(
    alloc: Global,
    inner: &[NestRange],
    interval: &Interval,
    i: u64,
    values: &mut Seq<i64>,
    list: &mut Seq<Seq<i64>>,
) -> Result<(), AllocError>
    requires low { negsuc 999999999 ≤ℤ interval.now.low }
    requires high { interval.now.high ≤ℤ pos 1000000000 }
    requires within { i < natural (interval.now.high +ℤ pos 1 -ℤ interval.now.low) }
    ensures list { OnOk result (list.new ≡
        list.old ++ instances inner.now (values.old ++ (interval.now.low +ℤ pos i) ∷ [])) }
    ensures values { OnOk result (values.new ≡ values.old) }
{
    let number = number_in(interval, i);
    values.push(number)?;
    push_instances(alloc, inner, values, list)?;
    values.pop();
    Ok(())
}
