//! Writes at an index that may be any number.

ghost use Rattle.std.specs.Prelude.{◌≡◌, ◌∷◌, [], ◌++◌, ◌+◌, ◌-◌, ◌^◌, ◌≤◌, ◌<◌, pos, ◌+ℤ◌, IfOk, OnOk, fold};
ghost use Rattle.core_terms.specs.declared.trees.CTerm.TheVariants.{Const};
ghost use Rattle.core_terms.specs.Folding.{and_form, difference_term, not_form, or_form, truth_of, zero_form};
ghost use Rattle.meaning_executions.specs.Counting.{range_size};
ghost use Rattle.expand_expressions.specs.Sound.{IsSound, of_number, of_truth};
ghost use Rattle.expand_rules.specs.Assigning.{any_of, equations, spread};
ghost use Rattle.expand_assignments.specs.Adding.{slot_ends, spread_write};

use crate::places::ArraySlots;
use core_terms::{
    CForm, CTerm, CWrite, Joining, Pairing, Sense, copy_term, joined_known, not_known, owned_form,
    paired_known, sense_known,
};
use expand_expressions::{NumberCore, TruthCore};
use std::alloc::{AllocError, Global};
use unity_base::{Seq, Shared};

// That an index is this number.
fn equation(
    alloc: Global,
    index: &NumberCore,
    number: i64,
    truth: &mut Option<bool>,
) -> Result<Shared<CForm>, AllocError>
    requires sound { IsSound (of_number index.now) }
    requires light { index.now.measure.most ≤ 2 ^ 62 }
    ensures form { IfOk result (λ f. f ≡ zero_form (difference_term index.now.term (Const number))) }
    ensures truth { IfOk result (λ f. truth.new ≡ truth_of f) }
{
    let mut known = Some(number as i128);
    let constant = Shared::new(alloc, CTerm::Const(number))?;
    let copy = index.term.share()?;
    let less = paired_known(
        alloc,
        Pairing::Difference,
        copy,
        index.known,
        constant,
        &mut known,
    )?;
    sense_known(alloc, Sense::Zero, less, known, truth)
}

// The condition, and that the index is this number.
fn guarded(
    alloc: Global,
    index: &NumberCore,
    number: i64,
    c: &TruthCore,
) -> Result<Shared<CForm>, AllocError>
    requires index { IsSound (of_number index.now) }
    requires light { index.now.measure.most ≤ 2 ^ 62 }
    requires condition { IsSound (of_truth c.now) }
    ensures { IfOk result (λ f. f ≡ and_form c.now.form (zero_form (difference_term index.now.term (Const number)))) }
{
    let mut truth = None;
    let same = equation(alloc, index, number, &mut truth)?;
    let condition = c.form.share()?;
    joined_known(alloc, Joining::Both, condition, c.known, same, &mut truth)
}

// The write of one slot, where the index is that slot's.
fn push_write(
    alloc: Global,
    index: &NumberCore,
    slots: &ArraySlots,
    place: u64,
    c: &TruthCore,
    v: &CTerm,
    writes: &mut Seq<CWrite>,
) -> Result<(), AllocError>
    requires index { IsSound (of_number index.now) }
    requires light { index.now.measure.most ≤ 2 ^ 62 }
    requires condition { IsSound (of_truth c.now) }
    requires within { place < range_size (slot_ends slots.now) }
    ensures { OnOk result (writes.new ≡ writes.old ++
        spread_write index.now.term (slots.now.ends.lo +ℤ pos place) (slots.now.first + place) c.now.form v.now ∷ []) }
{
    let when = owned_form(alloc, guarded(alloc, index, slots.index_at(place), c)?)?;
    let value = copy_term(alloc, v)?;
    writes.push(CWrite {
        slot: slots.slot(place),
        when,
        value,
    })
}

/// A write for each slot, where the index is that slot's.
pub fn push_spread(
    alloc: Global,
    index: &NumberCore,
    slots: &ArraySlots,
    c: &TruthCore,
    v: &CTerm,
    writes: &mut Seq<CWrite>,
) -> Result<(), AllocError>
    requires index { IsSound (of_number index.now) }
    requires light { index.now.measure.most ≤ 2 ^ 62 }
    requires condition { IsSound (of_truth c.now) }
    ensures { OnOk result (writes.new ≡ writes.old ++
        spread index.now.term slots.now.ends.lo slots.now.first (range_size (slot_ends slots.now)) c.now.form v.now) }
{
    for place in 0..slots.len() {
        push_write(alloc, index, slots, place, c, v, writes)?;
    }
    Ok(())
}

// That a form holds, or that the index is the one at a place.
fn or_equal(
    alloc: Global,
    first: Shared<CForm>,
    index: &NumberCore,
    slots: &ArraySlots,
    place: u64,
    truth: &mut Option<bool>,
) -> Result<Shared<CForm>, AllocError>
    requires known { truth.old ≡ truth_of first }
    requires sound { IsSound (of_number index.now) }
    requires light { index.now.measure.most ≤ 2 ^ 62 }
    requires within { place < range_size (slot_ends slots.now) }
    ensures form { IfOk result (λ f. f ≡
        or_form first (zero_form (difference_term index.now.term (Const (slots.now.ends.lo +ℤ pos place))))) }
    ensures truth { IfOk result (λ f. truth.new ≡ truth_of f) }
{
    let known = *truth;
    let same = equation(alloc, index, slots.index_at(place), truth)?;
    joined_known(alloc, Joining::Either, first, known, same, truth)
}

// That the index is one of the array's, of which there is at least one.
fn some_equal(
    alloc: Global,
    index: &NumberCore,
    slots: &ArraySlots,
    truth: &mut Option<bool>,
) -> Result<Shared<CForm>, AllocError>
    requires sound { IsSound (of_number index.now) }
    requires light { index.now.measure.most ≤ 2 ^ 62 }
    requires some { 0 < range_size (slot_ends slots.now) }
    ensures form { IfOk result (λ f. f ≡
        any_of (equations index.now.term slots.now.ends.lo (range_size (slot_ends slots.now)))) }
    ensures truth { IfOk result (λ f. truth.new ≡ truth_of f) }
{
    let mut form = equation(alloc, index, slots.ends.lo, truth)?;
    for place in 1..slots.len() {
        form = or_equal(alloc, form, index, slots, place, truth)?;
    }
    Ok(form)
}

fn any_equal(
    alloc: Global,
    index: &NumberCore,
    slots: &ArraySlots,
    truth: &mut Option<bool>,
) -> Result<Shared<CForm>, AllocError>
    requires sound { IsSound (of_number index.now) }
    requires light { index.now.measure.most ≤ 2 ^ 62 }
    ensures form { IfOk result (λ f. f ≡
        any_of (equations index.now.term slots.now.ends.lo (range_size (slot_ends slots.now)))) }
    ensures truth { IfOk result (λ f. truth.new ≡ truth_of f) }
{
    if slots.len() == 0 {
        *truth = Some(false);
        Shared::new(alloc, CForm::Bottom)
    } else {
        some_equal(alloc, index, slots, truth)
    }
}

/// The condition, and that the index is none of the array's.
pub fn outside(
    alloc: Global,
    index: &NumberCore,
    slots: &ArraySlots,
    c: &TruthCore,
) -> Result<Shared<CForm>, AllocError>
    requires index { IsSound (of_number index.now) }
    requires light { index.now.measure.most ≤ 2 ^ 62 }
    requires condition { IsSound (of_truth c.now) }
    ensures { IfOk result (λ f. f ≡ and_form c.now.form
        (not_form (any_of (equations index.now.term slots.now.ends.lo (range_size (slot_ends slots.now)))))) }
{
    let mut truth = None;
    let any = any_equal(alloc, index, slots, &mut truth)?;
    let none = not_known(alloc, any, &mut truth)?;
    let condition = c.form.share()?;
    joined_known(alloc, Joining::Both, condition, c.known, none, &mut truth)
}
