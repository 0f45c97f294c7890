// The formula of where a statement is defined.
ghost use Rattle.std.specs.Prelude.{◌≡◌, ◌^◌, ◌≤◌, ◌&&◌, true, false, IfOk, OnOk, Some, All, map, slice_get};
ghost use Rattle.std.specs.List.{list_any};
ghost use Rattle.std.specs.Option.{is_some};
ghost use Rattle.core_terms.specs.declared.trees.CTerm.TheVariants.{Const};
ghost use Rattle.core_terms.specs.Weights.{plain_weights, plain_weight};
ghost use Rattle.core_terms.specs.Conditions.{StatementFits};
ghost use Rattle.core_terms.specs.Folding as fold;
ghost use Rattle.wp_substitution.specs.Preconditions.{inside_form, write_form, pair_form, writes_to, pair_forms};
ghost use Rattle.wp_substitution.specs.Preconditions.{defined_form};
ghost use Rattle.wp_substitution.specs.Joined.{joined_with, joined_all, ConjunctionKnown, IsLight, IsLightWrite};
ghost use Rattle.wp_substitution.specs.Joined.{known_write};
ghost use Rattle.wp_substitution.specs.Joined.{IsSmallKnown};
ghost use Rattle.wp_substitution.specs.Oversized.{is_open};
ghost use Rattle.wp_substitution.specs.Exact.{HoldsWhereDefined};

use crate::agreeing::agree;
use crate::conjunction::Conjunction;
use crate::counting::any_open;
use crate::known::{Known, known_pair, known_writes};
use core_terms::from_unity_base::Shared;
use core_terms::{
    CForm, CSlot, CStmt, CTerm, CWrite, Joining, Pairing, Range, Sense, held_form, held_term,
    joined_known, not_known, number_of, owned_form, paired_known, sense_known, truth_of,
};
use std::alloc::{AllocError, Global};

/// The formula that holds exactly where the statement is defined: no write lies outside an array, each
/// value lies in the range of its slot, and no slot would get two values. It is
/// folded (this profile).
///
/// An error says that memory was refused.
pub fn defined(alloc: Global, s: &CStmt, slots: &[CSlot]) -> Result<CForm, AllocError>
    requires { StatementFits slots.now s.now }
    ensures tree { IfOk result (λ f. f ≡ defined_form slots.now s.now) }
    ensures weight { IfOk result (λ f. plain_weight f ≤ 2 ^ 65) }
    ensures meaning { IfOk result (HoldsWhereDefined slots.now s.now) }
{
    let mut truth = None;
    Ok(owned_form(alloc, held_defined(alloc, s, slots, &mut truth)?)?)
}

/// The same in a place of its own; `truth` is then that of the result.
pub fn held_defined(
    alloc: Global,
    s: &CStmt,
    slots: &[CSlot],
    truth: &mut Option<bool>,
) -> Result<Shared<CForm>, AllocError>
    requires outside { All IsLight s.now.outside }
    requires writes { All IsLightWrite s.now.writes }
    ensures tree { IfOk result (λ f. f ≡ defined_form slots.now s.now) }
    ensures truth { IfOk result (λ f. truth.new ≡ fold.truth_of f) }
    ensures weight { IfOk result (λ f. plain_weight f ≤ 2 ^ 65) }
{
    let mut all = Conjunction::new();
    add_outside(alloc, &mut all, s.outside.as_slice())?;
    add_writes(alloc, &mut all, s.writes.as_slice(), slots)?;
    add_pairs(alloc, &mut all, s.writes.as_slice())?;
    *truth = all.truth;
    all.into_form(alloc)
}

// That no write lies outside.
#[tactic(auto, using(crate::proofs::KnownLaws::folded_laws))]
fn add_outside(alloc: Global, all: &mut Conjunction, outside: &[CForm]) -> Result<(), AllocError>
    requires known { ConjunctionKnown all.old }
    requires light { All IsLight outside.now }
    ensures whole { OnOk result (all.new.whole ≡ joined_all all.old.whole (map fold.not_form outside.now)) }
    ensures known { OnOk result (ConjunctionKnown all.new) }
{
    for f in outside {
        let mut truth = None;
        let idle = idle(alloc, f, &mut truth)?;
        all.add(alloc, idle, truth)?;
    }
    Ok(())
}

// That the values of all writes lie in their slots' ranges.
#[tactic(auto, using(crate::proofs::KnownLaws::folded_laws))]
fn add_writes(
    alloc: Global,
    all: &mut Conjunction,
    writes: &[CWrite],
    slots: &[CSlot],
) -> Result<(), AllocError>
    requires known { ConjunctionKnown all.old }
    requires light { All IsLightWrite writes.now }
    ensures whole { OnOk result (all.new.whole ≡ joined_all all.old.whole (map (write_form slots.now) writes.now)) }
    ensures known { OnOk result (ConjunctionKnown all.new) }
{
    for w in writes {
        let mut truth = None;
        let need = write_need(alloc, w, slots, &mut truth)?;
        all.add(alloc, need, truth)?;
    }
    Ok(())
}

// That no slot gets two values.
fn add_pairs(alloc: Global, all: &mut Conjunction, writes: &[CWrite]) -> Result<(), AllocError>
    requires known { ConjunctionKnown all.old }
    requires light { All IsLightWrite writes.now }
    ensures whole { OnOk result (all.new.whole ≡ joined_all all.old.whole (pair_forms writes.now)) }
    ensures known { OnOk result (ConjunctionKnown all.new) }
{
    if all.is_settled() && !any_open(writes) {
        return add_closed(alloc, all, writes);
    }
    let knowns = known_writes(alloc, writes)?;
    let knowns = knowns.as_slice();
    for (place, w) in writes.iter().enumerate() {
        let later = place + 1;
        add_pairs_of(
            alloc,
            all,
            w,
            knowns[place],
            &writes[later..],
            &knowns[later..],
        )?;
    }
    Ok(())
}

// The same where nothing hangs on the state: the whole stays as it is, or fails.
fn add_closed(alloc: Global, all: &mut Conjunction, writes: &[CWrite]) -> Result<(), AllocError>
    requires known { ConjunctionKnown all.old }
    requires light { All IsLightWrite writes.now }
    requires settled { (is_some all.old.whole && is_some all.old.truth) ≡ true }
    requires closed { list_any is_open writes.now ≡ false }
    ensures whole { OnOk result (all.new.whole ≡ joined_all all.old.whole (pair_forms writes.now)) }
    ensures known { OnOk result (ConjunctionKnown all.new) }
{
    if !agree(alloc, writes)? {
        all.fail(alloc)?;
    }
    Ok(())
}

// That the later writes to the slot of a write agree with it.
fn add_pairs_of(
    alloc: Global,
    all: &mut Conjunction,
    w: &CWrite,
    known: Known,
    later: &[CWrite],
    knowns: &[Known],
) -> Result<(), AllocError>
    requires known { ConjunctionKnown all.old }
    requires write { IsLightWrite w.now }
    requires light { All IsLightWrite later.now }
    requires first { known ≡ known_write w.now }
    requires small { IsSmallKnown known }
    requires others { knowns.now ≡ map known_write later.now }
    requires all_small { All IsSmallKnown knowns.now }
    ensures whole { OnOk result
        (all.new.whole ≡ joined_all all.old.whole (map (pair_form w.now) (writes_to w.now.slot later.now))) }
    ensures known { OnOk result (ConjunctionKnown all.new) }
{
    for (place, v) in later.iter().enumerate() {
        if w.slot == v.slot {
            add_pair(alloc, all, w, v, known_pair(known, knowns[place]))?;
        }
    }
    Ok(())
}

// That two writes agree; `truth` is that of what they need, where known. What changes nothing is not made.
#[tactic(auto, using(crate::proofs::KnownLaws::folded_laws))]
fn add_pair(
    alloc: Global,
    all: &mut Conjunction,
    v: &CWrite,
    w: &CWrite,
    truth: Option<bool>,
) -> Result<(), AllocError>
    requires known { ConjunctionKnown all.old }
    requires first { IsLightWrite v.now }
    requires second { IsLightWrite w.now }
    requires truth { fold.truth_of (pair_form v.now w.now) ≡ truth }
    ensures whole { OnOk result (all.new.whole ≡ Some (joined_with all.old.whole (pair_form v.now w.now))) }
    ensures known { OnOk result (ConjunctionKnown all.new) }
{
    if all.stays_with(truth) {
        return Ok(());
    }
    let mut truth = None;
    let agree = pair_need(alloc, v, w, &mut truth)?;
    all.add(alloc, agree, truth)?;
    Ok(())
}

// That a formula does not hold.
fn idle(alloc: Global, when: &CForm, truth: &mut Option<bool>) -> Result<Shared<CForm>, AllocError>
    requires { IsLight when.now }
    ensures tree { IfOk result (λ f. f ≡ fold.not_form when.now) }
    ensures truth { IfOk result (λ f. truth.new ≡ fold.truth_of f) }
    ensures weight { IfOk result (λ f. plain_weight f ≤ 2 ^ 62) }
{
    *truth = truth_of(when);
    let when = held_form(alloc, when)?;
    not_known(alloc, when, truth)
}

// Where the write is made, its value lies in the range of its slot.
fn write_need(
    alloc: Global,
    w: &CWrite,
    slots: &[CSlot],
    truth: &mut Option<bool>,
) -> Result<Shared<CForm>, AllocError>
    requires { IsLightWrite w.now }
    ensures tree { IfOk result (λ f. f ≡ write_form slots.now w.now) }
    ensures truth { IfOk result (λ f. truth.new ≡ fold.truth_of f) }
    ensures weight { IfOk result (λ f. plain_weight f ≤ 2 ^ 65) }
{
    let mut first = None;
    let idle = idle(alloc, &w.when, &mut first)?;
    let inside = inside(alloc, &w.value, slots, w.slot, truth)?;
    joined_known(alloc, Joining::Either, idle, first, inside, truth)
}

// The value lies in the range of the slot, if there is one.
fn inside(
    alloc: Global,
    value: &CTerm,
    slots: &[CSlot],
    slot: u32,
    truth: &mut Option<bool>,
) -> Result<Shared<CForm>, AllocError>
    requires own { (plain_weights value.now).own ≤ 2 ^ 62 }
    requires most { (plain_weights value.now).most ≤ 2 ^ 62 }
    ensures tree { IfOk result (λ f. f ≡ inside_form value.now (slice_get slots.now slot)) }
    ensures truth { IfOk result (λ f. truth.new ≡ fold.truth_of f) }
    ensures weight { IfOk result (λ f. plain_weight f ≤ 2 ^ 65) }
{
    match slots.get(slot as usize) {
        Some(slot) => within(alloc, value, slot.range, truth),
        None => {
            *truth = Some(false);
            Shared::new(alloc, CForm::Bottom)
        }
    }
}

fn within(
    alloc: Global,
    value: &CTerm,
    range: Range,
    truth: &mut Option<bool>,
) -> Result<Shared<CForm>, AllocError>
    requires own { (plain_weights value.now).own ≤ 2 ^ 62 }
    requires most { (plain_weights value.now).most ≤ 2 ^ 62 }
    ensures tree { IfOk result (λ f. f ≡
        fold.and_form (fold.at_least_form (fold.difference_term value.now (Const range.lo)))
        (fold.at_least_form (fold.difference_term (Const range.hi) value.now))) }
    ensures truth { IfOk result (λ f. truth.new ≡ fold.truth_of f) }
    ensures weight { IfOk result (λ f. plain_weight f ≤ 2 ^ 65) }
{
    let mut first = None;
    let above = at_least(alloc, value, range.lo, &mut first)?;
    let below = at_most(alloc, value, range.hi, truth)?;
    joined_known(alloc, Joining::Both, above, first, below, truth)
}

// A value is at least a number.
fn at_least(
    alloc: Global,
    value: &CTerm,
    low: i64,
    truth: &mut Option<bool>,
) -> Result<Shared<CForm>, AllocError>
    requires own { (plain_weights value.now).own ≤ 2 ^ 62 }
    requires most { (plain_weights value.now).most ≤ 2 ^ 62 }
    ensures tree { IfOk result (λ f. f ≡ fold.at_least_form (fold.difference_term value.now (Const low))) }
    ensures truth { IfOk result (λ f. truth.new ≡ fold.truth_of f) }
    ensures weight { IfOk result (λ f. plain_weight f ≤ 2 ^ 65) }
{
    let mut number = Some(low as i128);
    let first = number_of(value);
    let value = held_term(alloc, value)?;
    let low = Shared::new(alloc, CTerm::Const(low))?;
    let above = paired_known(alloc, Pairing::Difference, value, first, low, &mut number)?;
    sense_known(alloc, Sense::AtLeast, above, number, truth)
}

// A value is at most a number.
fn at_most(
    alloc: Global,
    value: &CTerm,
    high: i64,
    truth: &mut Option<bool>,
) -> Result<Shared<CForm>, AllocError>
    requires own { (plain_weights value.now).own ≤ 2 ^ 62 }
    requires most { (plain_weights value.now).most ≤ 2 ^ 62 }
    ensures tree { IfOk result (λ f. f ≡ fold.at_least_form (fold.difference_term (Const high) value.now)) }
    ensures truth { IfOk result (λ f. truth.new ≡ fold.truth_of f) }
    ensures weight { IfOk result (λ f. plain_weight f ≤ 2 ^ 65) }
{
    let mut number = number_of(value);
    let value = held_term(alloc, value)?;
    let first = Shared::new(alloc, CTerm::Const(high))?;
    let below = paired_known(
        alloc,
        Pairing::Difference,
        first,
        Some(high as i128),
        value,
        &mut number,
    )?;
    sense_known(alloc, Sense::AtLeast, below, number, truth)
}

// Where both writes are made, their values are equal.
fn pair_need(
    alloc: Global,
    v: &CWrite,
    w: &CWrite,
    truth: &mut Option<bool>,
) -> Result<Shared<CForm>, AllocError>
    requires first { IsLightWrite v.now }
    requires second { IsLightWrite w.now }
    ensures tree { IfOk result (λ f. f ≡ pair_form v.now w.now) }
    ensures truth { IfOk result (λ f. truth.new ≡ fold.truth_of f) }
    ensures weight { IfOk result (λ f. plain_weight f ≤ 2 ^ 65) }
{
    let mut first = None;
    let apart = not_both(alloc, &v.when, &w.when, &mut first)?;
    let equal = equal(alloc, &v.value, &w.value, truth)?;
    joined_known(alloc, Joining::Either, apart, first, equal, truth)
}

fn not_both(
    alloc: Global,
    f: &CForm,
    g: &CForm,
    truth: &mut Option<bool>,
) -> Result<Shared<CForm>, AllocError>
    requires first { IsLight f.now }
    requires second { IsLight g.now }
    ensures tree { IfOk result (λ h. h ≡ fold.not_form (fold.and_form f.now g.now)) }
    ensures truth { IfOk result (λ h. truth.new ≡ fold.truth_of h) }
    ensures weight { IfOk result (λ h. plain_weight h ≤ 2 ^ 62) }
{
    *truth = truth_of(g);
    let known = truth_of(f);
    let first = held_form(alloc, f)?;
    let second = held_form(alloc, g)?;
    let both = joined_known(alloc, Joining::Both, first, known, second, truth)?;
    not_known(alloc, both, truth)
}

fn equal(
    alloc: Global,
    a: &CTerm,
    b: &CTerm,
    truth: &mut Option<bool>,
) -> Result<Shared<CForm>, AllocError>
    requires first { (plain_weights a.now).own ≤ 2 ^ 62 }
    requires second { (plain_weights b.now).own ≤ 2 ^ 62 }
    requires first_most { (plain_weights a.now).most ≤ 2 ^ 62 }
    requires second_most { (plain_weights b.now).most ≤ 2 ^ 62 }
    ensures tree { IfOk result (λ f. f ≡ fold.zero_form (fold.difference_term a.now b.now)) }
    ensures truth { IfOk result (λ f. truth.new ≡ fold.truth_of f) }
    ensures weight { IfOk result (λ f. plain_weight f ≤ 2 ^ 65) }
{
    let mut number = number_of(b);
    let known = number_of(a);
    let first = held_term(alloc, a)?;
    let second = held_term(alloc, b)?;
    let apart = paired_known(
        alloc,
        Pairing::Difference,
        first,
        known,
        second,
        &mut number,
    )?;
    sense_known(alloc, Sense::Zero, apart, number, truth)
}
