// The start state of a program.
ghost use Rattle.std.specs.Prelude.{◌≡◌, ◌∷◌, [], IfOk, IsTrue, All, option_and_then, slice_get};
ghost use Rattle.std.specs.List.{filter_map};
ghost use Rattle.meaning_states.specs.State.{in_range, is_state};
ghost use Rattle.meaning_states.specs.Step.{put};
ghost use Rattle.core_terms.specs.Conditions.{IsSlot, IsProgram};
ghost use Rattle.core_terms.specs.Steps.{slot_ranges};
ghost use Rattle.executor.specs.StartState as start;
ghost use Rattle.executor.specs.Placing.{placed, lowest};

use core_terms::from_unity_base::Seq;
use core_terms::{CForm, CProgram, CSlot, CTerm, Print};
use std::alloc::{AllocError, Global};

/// The start state of a program: each slot has the number that the start section gives it; else the one
/// that the first conjunct of the initially section fixes which is an equation of the slot and a number in
/// its range, or a boolean slot or its negation; else the lowest of its range. (This profile's rule.)
///
/// An error says that memory was refused.
pub fn start_of(alloc: Global, p: &CProgram, slots: &[CSlot]) -> Result<Seq<i64>, AllocError>
    ensures numbers { IfOk result (λ state. state ≡ start.start_state slots.now p.now) }

    // For a program of a document it is a state.
    ensures ranges { IfOk result (λ state. All IsSlot slots.now → IsProgram slots.now p.now →
        IsTrue (is_state (slot_ranges slots.now) state)) }
{
    let mut state = lowest_numbers(alloc, slots)?;
    put_fixed(&mut state, slots, &p.initially);
    put_entries(&mut state, p.start.as_slice());
    Ok(state)
}

// The lowest number of each slot.
fn lowest_numbers(alloc: Global, slots: &[CSlot]) -> Result<Seq<i64>, AllocError>
    ensures { IfOk result (λ state. state ≡ lowest slots.now) }
{
    let mut state = Seq::new(alloc);
    for slot in slots {
        state.push(slot.range.lo)?;
    }
    Ok(state)
}

// Puts what the conjuncts of a formula fix, from the last to the first.
#[inline(never)]
fn put_fixed(state: &mut Seq<i64>, slots: &[CSlot], f: &CForm)
    ensures { state.new ≡ placed state.old (filter_map (start.fixed slots.now) (start.conjuncts f.now)) }
{
    match f {
        CForm::And(g, h) => {
            put_fixed(state, slots, h.get());
            put_fixed(state, slots, g.get());
        }
        _ => put_conjunct(state, slots, f),
    }
}

// Puts what one conjunct fixes.
fn put_conjunct(state: &mut Seq<i64>, slots: &[CSlot], f: &CForm)
    ensures { state.new ≡ placed state.old (filter_map (start.fixed slots.now) (f.now ∷ [])) }
{
    if let Some((slot, number)) = fixed(slots, f) {
        put_number(state, slot, number);
    }
}

// Puts the entries of a start section, from the last to the first.
fn put_entries(state: &mut Seq<i64>, entries: &[(u32, i64)])
    ensures { state.new ≡ placed state.old entries.now }
{
    for place in (0..entries.len()).rev() {
        let (slot, number) = entries[place];
        put_number(state, slot, number);
    }
}

// Gives a slot a number. A slot that isn't there is passed over.
fn put_number(state: &mut Seq<i64>, slot: u32, number: i64)
    ensures { state.new ≡ put state.old slot number }
{
    let place = slot as usize;
    if place < state.len() {
        let _old = state.replace(place, number);
    }
}

// The slot that a conjunct fixes, and its number.
fn fixed(slots: &[CSlot], f: &CForm) -> Option<(u32, i64)>
    ensures { result ≡ start.fixed slots.now f.now }
{
    match f {
        CForm::Zero(t) => {
            let (slot, number) = difference(t)?;
            if is_in_range(slots, slot, number) {
                Some((slot, number))
            } else {
                None
            }
        }
        CForm::AtLeast(t) => Some((boolean_of(slots, t)?, 1)),
        CForm::Not(g) => Some((boolean_slot(slots, g.get())?, 0)),
        _ => None,
    }
}

fn is_in_range(slots: &[CSlot], slot: u32, number: i64) -> bool
    ensures { result ≡ in_range (start.range_at slots.now slot) number }
{
    match slots.get(slot as usize) {
        Some(found) => found.range.lo <= number && number <= found.range.hi,
        None => false,
    }
}

// The boolean slot that is the formula.
fn boolean_slot(slots: &[CSlot], f: &CForm) -> Option<u32>
    ensures { result ≡ start.boolean_slot slots.now f.now }
{
    match f {
        CForm::AtLeast(t) => boolean_of(slots, t),
        _ => None,
    }
}

// The boolean slot whose difference to 1 is the term.
fn boolean_of(slots: &[CSlot], t: &CTerm) -> Option<u32>
    ensures { result ≡ option_and_then (start.truth_of slots.now) (start.difference t.now) }
{
    let (slot, number) = difference(t)?;
    if number == 1 && is_boolean(slots, slot) {
        Some(slot)
    } else {
        None
    }
}

fn is_boolean(slots: &[CSlot], slot: u32) -> bool
    ensures { result ≡ start.is_truth_slot (slice_get slots.now slot) }
{
    match slots.get(slot as usize) {
        Some(found) => is_truth(&found.print),
        None => false,
    }
}

fn is_truth(print: &Print) -> bool
    ensures { result ≡ start.is_truth print.now }
{
    match print {
        Print::Truth => true,
        _ => false,
    }
}

// The slot and the number of a difference.
fn difference(t: &CTerm) -> Option<(u32, i64)>
    ensures { result ≡ start.difference t.now }
{
    match t {
        CTerm::Sub(a, b) => Some((slot_number(a.get())?, constant(b.get())?)),
        _ => None,
    }
}

fn slot_number(t: &CTerm) -> Option<u32>
    ensures { result ≡ start.slot_number t.now }
{
    match t {
        CTerm::Slot(n) => Some(*n),
        _ => None,
    }
}

fn constant(t: &CTerm) -> Option<i64>
    ensures { result ≡ start.constant t.now }
{
    match t {
        CTerm::Const(c) => Some(*c),
        _ => None,
    }
}
