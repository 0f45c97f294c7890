//! What is necessary for an instance, range by range from the innermost outward: the conditions that name the
//! number of a range are taken together by twos, so that its name falls away.

ghost use Rattle.std.specs.Prelude.{List, ℤ, [], false, IsTrue, ◌≡◌, ◌∷◌, ◌++◌, ◌<◌, ◌^◌, ◌+◌, ◌+ℤ◌, true, IfOk, OnOk};
ghost use Rattle.std.specs.Prelude.{MatchOption, length};
ghost use Rattle.expand_counting.specs.Conditions.{Entails, FollowsOut, Necessary, Pair, Plans, all_hold};
ghost use Rattle.expand_counting.specs.Conditions.{condition_holds};
ghost use Rattle.expand_counting.specs.Conditions.{high_conditions};
ghost use Rattle.expand_counting.specs.Conditions.{is_level, low_conditions, own};

use crate::conditions::{above_end, add, add_all, below_end, is_level, plain, push_fit};
use crate::ranges::{Condition, NestEnd, NestRange};
use std::alloc::{AllocError, Global};
use unity_base::Seq;

fn push_low(end: &NestEnd, k: usize, list: &mut Seq<Condition>) -> Result<(), AllocError>
    ensures { OnOk result (list.new ≡ list.old ++ low_conditions end.now k) }
{
    if is_level(end.level, k) {
        return Ok(());
    }
    list.push(above_end(end, k))?;
    push_fit(end, list)
}

fn push_high(end: &NestEnd, k: usize, list: &mut Seq<Condition>) -> Result<(), AllocError>
    ensures { OnOk result (list.new ≡ list.old ++ high_conditions end.now k) }
{
    if is_level(end.level, k) {
        return Ok(());
    }
    list.push(below_end(end, k))?;
    push_fit(end, list)
}

/// What holds for a number of the range `k`: it lies between the ends, and these are within the limit.
fn own(alloc: Global, range: &NestRange, k: usize) -> Result<Seq<Condition>, AllocError>
    ensures { IfOk result (λ list. list ≡ own range.now k) }
{
    let mut list = Seq::new(alloc);
    push_low(&range.low, k, &mut list)?;
    push_high(&range.high, k, &mut list)?;
    Ok(list)
}

/// The range's own conditions with those of the ranges inside it.
fn gathered(
    alloc: Global,
    range: &NestRange,
    k: usize,
    inner: &[Condition],
) -> Result<Seq<Condition>, AllocError>
    ensures { IfOk result (λ list. Entails (own range.now k ++ inner.now) list) }
{
    let mut list = own(alloc, range, k)?;
    add_all(inner, &mut list)?;
    Ok(list)
}

/// What follows from a condition that has the range's number below, and one that has it above. `None` where
/// the sum of the gaps is past 2^127.
fn combined(a: &Condition, b: &Condition) -> Option<Condition>
    ensures { MatchOption result (Unit {0})
        (λ c. (c.low ≡ b.now.low) × (c.high ≡ a.now.high) × (c.gap ≡ a.now.gap +ℤ b.now.gap)) }
{
    let gap = a.gap.checked_add(b.gap)?;
    Some(Condition {
        low: b.low,
        high: a.high,
        gap,
    })
}

/// What two conditions say together of the outer numbers, where the one has the range's number below and the
/// other has it above.
fn paired(a: &Condition, b: &Condition, k: usize) -> Option<Condition>
    ensures { MatchOption result (Unit {0}) (λ c. Pair k a.now b.now c) }
{
    if is_level(a.low, k) & !is_level(a.high, k) & is_level(b.high, k) & !is_level(b.low, k) {
        combined(a, b)
    } else {
        None
    }
}

fn is_outer(a: &Condition, k: usize) -> bool
    ensures { IsTrue result → (is_level a.now.low k ≡ false) × (is_level a.now.high k ≡ false) }
{
    !is_level(a.low, k) & !is_level(a.high, k)
}

#[tactic(auto, using(crate::proofs::FollowLaws::follows_pair))]
fn add_pair(
    a: &Condition,
    b: &Condition,
    all: &Seq<Condition>,
    k: usize,
    out: &mut Seq<Condition>,
) -> Result<(), AllocError>
    requires first { (vs : List ℤ) → all_hold vs all.now ≡ true → condition_holds vs a.now ≡ true }
    requires second { (vs : List ℤ) → all_hold vs all.now ≡ true → condition_holds vs b.now ≡ true }
    requires follows { FollowsOut k all.now out.old }
    ensures { OnOk result (FollowsOut k all.now out.new) }
{
    match paired(a, b, k) {
        Some(c) => add(plain(&c), out),
        None => Ok(()),
    }
}

/// What follows from a condition that has the range's number below, with each that has it above.
fn add_pairs(
    a: &Condition,
    all: &Seq<Condition>,
    k: usize,
    out: &mut Seq<Condition>,
) -> Result<(), AllocError>
    requires among { (vs : List ℤ) → all_hold vs all.now ≡ true → condition_holds vs a.now ≡ true }
    requires follows { FollowsOut k all.now out.old }
    ensures { OnOk result (FollowsOut k all.now out.new) }
{
    for b in all.as_slice() {
        add_pair(a, b, all, k, out)?;
    }
    Ok(())
}

/// What follows from one of the conditions.
#[tactic(auto, using(crate::proofs::FollowLaws::follows_outer))]
fn add_following(
    a: &Condition,
    all: &Seq<Condition>,
    k: usize,
    out: &mut Seq<Condition>,
) -> Result<(), AllocError>
    requires among { (vs : List ℤ) → all_hold vs all.now ≡ true → condition_holds vs a.now ≡ true }
    requires follows { FollowsOut k all.now out.old }
    ensures { OnOk result (FollowsOut k all.now out.new) }
{
    if is_outer(a, k) {
        add(*a, out)
    } else if is_level(a.low, k) {
        add_pairs(a, all, k, out)
    } else {
        Ok(())
    }
}

/// What follows for the numbers of the ranges around the range `k`.
#[tactic(auto, using(crate::proofs::FollowLaws::follows_none))]
fn following(alloc: Global, all: &Seq<Condition>, k: usize) -> Result<Seq<Condition>, AllocError>
    ensures { IfOk result (λ out. FollowsOut k all.now out) }
{
    let mut out = Seq::new(alloc);
    for a in all.as_slice() {
        add_following(a, all, k, &mut out)?;
    }
    Ok(out)
}

/// What is necessary for a range, from what is necessary for the ranges inside it.
#[tactic(auto, using(crate::proofs::FollowLaws::follows_entailed))]
fn outside(
    alloc: Global,
    range: &NestRange,
    k: usize,
    inner: &Seq<Condition>,
) -> Result<Seq<Condition>, AllocError>
    ensures { IfOk result (λ out. FollowsOut k (own range.now k ++ inner.now) out) }
{
    let all = gathered(alloc, range, k, inner.as_slice())?;
    following(alloc, &all, k)
}

/// What is asked of an instance, in plain form.
#[tactic(auto, using(crate::proofs::PlanLaws::necessary_leaf))]
fn asked(alloc: Global, k: usize, leaf: &[Condition]) -> Result<Seq<Condition>, AllocError>
    ensures { IfOk result (λ out. Necessary [] leaf.now k out) }
{
    let mut list = Seq::new(alloc);
    add_all(leaf, &mut list)?;
    Ok(list)
}

/// For each range what is necessary for the ranges inside it, and what is necessary for all of them, where each
/// instance is to meet the conditions `leaf`.
pub fn plan(
    alloc: Global,
    ranges: &[NestRange],
    k: usize,
    leaf: &[Condition],
    plans: &mut Seq<Seq<Condition>>,
) -> Result<Seq<Condition>, AllocError>
    requires count { k + length ranges.now < 2 ^ 64 }
    requires empty { plans.old ≡ [] }
    ensures { IfOk result (λ out. Plans ranges.now leaf.now k plans.new × Necessary ranges.now leaf.now k out) }
{
    match ranges {
        [] => asked(alloc, k, leaf),
        [range, inner @ ..] => {
            let conditions = plan(alloc, inner, k + 1, leaf, plans)?;
            let out = outside(alloc, range, k, &conditions)?;
            plans.insert(0, conditions)?;
            Ok(out)
        }
    }
}
