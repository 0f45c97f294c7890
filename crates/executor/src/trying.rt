// A step that is tried: it is made in another state, or found to be undefined, and takes no memory.
ghost use Rattle.std.specs.Prelude.{◌≡◌, ◌<◌, ◌∷◌, ◌++◌, ◌&&◌, [], length, IsTrue, Some, None, not};
ghost use Rattle.std.specs.List.{list_all};
ghost use Rattle.std.specs.Option.{is_some};
ghost use Rattle.meaning_states.specs.State.{is_state, in_range};
ghost use Rattle.meaning_states.specs.Step.{is_inside, agrees, all_agree, is_defined, written};
ghost use Rattle.core_terms.specs.Steps.{slot_ranges, inside_writes, core_writes};
ghost use Rattle.executor.specs.Fitting.{StatementRuns, StatementsRun, WriteRuns, WritesRun};
ghost use Rattle.executor.specs.Preparing.{write_at};
ghost use Rattle.executor.specs.Running.{chosen_step};
ghost use Rattle.executor.specs.Trying.{slots_rise};

use crate::preparing::{narrowed, writes_outside};
use crate::runner::{Stepped, chosen};
use core_terms::{CProgram, CSlot, CStmt, CWrite, Range, holds, value};

/// Makes, in `into`, the step of the statement with this number, from 0. `into` has room for a state; after
/// `Undefined` it is as it was. It takes no memory.
pub fn would_step(
    p: &CProgram,
    slots: &[CSlot],
    state: &[i64],
    choice: u32,
    into: &mut [i64],
) -> Stepped
    requires fits { StatementsRun slots.now p.now.statements }
    requires state { IsTrue (is_state (slot_ranges slots.now) state.now) }
    requires into { length into.old ≡ length state.now }
    requires choice { choice < length p.now.statements }
    ensures done { result ≡ Stepped.Done → chosen_step slots.now p.now choice state.now ≡ Some into.new }
    ensures undefined { result ≡ Stepped.Undefined → chosen_step slots.now p.now choice state.now ≡ None }
    ensures unchanged { result ≡ Stepped.Undefined → into.new ≡ into.old }
{
    let statement = chosen(p, choice);
    if !is_step_defined(slots, state, statement) {
        return Stepped::Undefined;
    }
    into.copy_from_slice(state);
    make_writes(slots, state, statement.writes.as_slice(), into);
    Stepped::Done
}

/// Whether the step of the statement with this number, from 0, is defined. It takes no memory.
pub fn can_step(p: &CProgram, slots: &[CSlot], state: &[i64], choice: u32) -> bool
    requires fits { StatementsRun slots.now p.now.statements }
    requires state { IsTrue (is_state (slot_ranges slots.now) state.now) }
    requires choice { choice < length p.now.statements }
    ensures { result ≡ is_some (chosen_step slots.now p.now choice state.now) }
{
    is_step_defined(slots, state, chosen(p, choice))
}

// Whether the step of a statement is defined.
fn is_step_defined(slots: &[CSlot], state: &[i64], statement: &CStmt) -> bool
    requires state { IsTrue (is_state (slot_ranges slots.now) state.now) }
    requires fits { StatementRuns slots.now statement.now }
    ensures { result ≡ is_defined (slot_ranges slots.now) (core_writes state.now statement.now) }
{
    if writes_outside(slots, state, statement.outside.as_slice()) {
        return false;
    }
    let writes = statement.writes.as_slice();
    are_inside(slots, state, writes) && do_agree(slots, state, writes)
}

// Whether each number that is written lies in its slot's range.
fn are_inside(slots: &[CSlot], state: &[i64], writes: &[CWrite]) -> bool
    requires state { IsTrue (is_state (slot_ranges slots.now) state.now) }
    requires fits { WritesRun slots.now writes.now }
    ensures { result ≡ list_all (is_inside (slot_ranges slots.now)) (inside_writes state.now writes.now) }
{
    for write in writes {
        if !is_write_inside(slots, state, write) {
            return false;
        }
    }
    true
}

fn is_write_inside(slots: &[CSlot], state: &[i64], write: &CWrite) -> bool
    requires state { IsTrue (is_state (slot_ranges slots.now) state.now) }
    requires fits { WriteRuns slots.now write.now }
    ensures { result ≡ list_all (is_inside (slot_ranges slots.now)) (write_at state.now write.now) }
{
    if !holds(&write.when, state, &[]) {
        return true;
    }
    lies_in(
        slots[write.slot as usize].range,
        value(&write.value, state, &[]),
    )
}

fn lies_in(range: Range, number: i128) -> bool
    ensures { result ≡ in_range (Some (range.lo, range.hi)) number }
{
    range.lo as i128 <= number && number <= range.hi as i128
}

// Whether no slot gets two numbers. Where the slots of the writes rise, no two are for one slot.
fn do_agree(slots: &[CSlot], state: &[i64], writes: &[CWrite]) -> bool
    requires state { IsTrue (is_state (slot_ranges slots.now) state.now) }
    requires fits { WritesRun slots.now writes.now }
    ensures { result ≡ all_agree (inside_writes state.now writes.now) }
{
    are_rising(writes) || agree_in_pairs(slots, state, writes)
}

fn are_rising(writes: &[CWrite]) -> bool
    ensures { result ≡ slots_rise 0 writes.now }
{
    let mut least = 0u64;
    for write in writes {
        if u64::from(write.slot) < least {
            return false;
        }
        least = u64::from(write.slot) + 1;
    }
    true
}

fn agree_in_pairs(slots: &[CSlot], state: &[i64], writes: &[CWrite]) -> bool
    requires state { IsTrue (is_state (slot_ranges slots.now) state.now) }
    requires fits { WritesRun slots.now writes.now }
    ensures { result ≡ all_agree (inside_writes state.now writes.now) }
{
    for place in 0..writes.len() {
        if !agrees_with_later(slots, state, &writes[place], &writes[place + 1..]) {
            return false;
        }
    }
    true
}

// Whether a write, if it is made, gives its slot the number that those after it give it.
fn agrees_with_later(slots: &[CSlot], state: &[i64], write: &CWrite, later: &[CWrite]) -> bool
    requires state { IsTrue (is_state (slot_ranges slots.now) state.now) }
    requires fits { WriteRuns slots.now write.now }
    requires later { WritesRun slots.now later.now }
    ensures { (result && all_agree (inside_writes state.now later.now))
        ≡ all_agree (write_at state.now write.now ++ inside_writes state.now later.now) }
{
    if !holds(&write.when, state, &[]) {
        return true;
    }
    agree_with(
        slots,
        state,
        write.slot,
        value(&write.value, state, &[]),
        later,
    )
}

// Whether no write gives the slot another number.
fn agree_with(slots: &[CSlot], state: &[i64], slot: u32, number: i128, writes: &[CWrite]) -> bool
    requires state { IsTrue (is_state (slot_ranges slots.now) state.now) }
    requires fits { WritesRun slots.now writes.now }
    ensures { result ≡ list_all (agrees (Some slot, number)) (inside_writes state.now writes.now) }
{
    for write in writes {
        if !agrees_with(slots, state, slot, number, write) {
            return false;
        }
    }
    true
}

fn agrees_with(slots: &[CSlot], state: &[i64], slot: u32, number: i128, write: &CWrite) -> bool
    requires state { IsTrue (is_state (slot_ranges slots.now) state.now) }
    requires fits { WriteRuns slots.now write.now }
    ensures { result ≡ list_all (agrees (Some slot, number)) (write_at state.now write.now) }
{
    if write.slot != slot {
        return true;
    }
    if !holds(&write.when, state, &[]) {
        return true;
    }
    value(&write.value, state, &[]) == number
}

// Makes the writes of a state, from the last to the first.
fn make_writes(slots: &[CSlot], state: &[i64], writes: &[CWrite], into: &mut [i64])
    requires state { IsTrue (is_state (slot_ranges slots.now) state.now) }
    requires fits { WritesRun slots.now writes.now }
    requires inside { IsTrue (list_all (is_inside (slot_ranges slots.now)) (inside_writes state.now writes.now)) }
    requires into { length into.old ≡ length state.now }
    ensures { into.new ≡ written into.old (inside_writes state.now writes.now) }
{
    for place in (0..writes.len()).rev() {
        make_write(slots, state, &writes[place], into);
    }
}

fn make_write(slots: &[CSlot], state: &[i64], write: &CWrite, into: &mut [i64])
    requires state { IsTrue (is_state (slot_ranges slots.now) state.now) }
    requires fits { WriteRuns slots.now write.now }
    requires inside { IsTrue (list_all (is_inside (slot_ranges slots.now)) (write_at state.now write.now)) }
    requires into { length into.old ≡ length state.now }
    ensures { into.new ≡ written into.old (write_at state.now write.now) }
{
    if !holds(&write.when, state, &[]) {
        return;
    }
    let place = write.slot as usize;
    let number = match narrowed(slots[place].range, value(&write.value, state, &[])) {
        Some(number) => number,
        None => return,
    };
    into[place] = number;
}
