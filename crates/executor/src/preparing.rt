// A step in the making. Writes are added from the last to the first, all evaluated in the old state.
ghost use Rattle.std.specs.Prelude.{◌≡◌, ◌<◌, ◌++◌, ℕ, List, [], length, IsTrue, false, slice_get, slice_set, Some};
ghost use Rattle.std.specs.Prelude.{None, true, cond, not, ◌||◌, slice_index_or};
ghost use Rattle.std.specs.List.{list_any};
ghost use Rattle.meaning_states.specs.State.{is_state, in_range, int_eq};
ghost use Rattle.meaning_states.specs.Step.{Write, is_defined, put, written};
ghost use Rattle.core_terms.specs.declared.programs.CWrite.{CWrite};
ghost use Rattle.core_terms.specs.Values.{form_value, number_at};
ghost use Rattle.core_terms.specs.Steps.{slot_ranges, inside_writes, core_step};
ghost use Rattle.executor.specs.Fitting.{FormsRun, StatementRuns, WriteRuns, WritesRun};
ghost use Rattle.executor.specs.Preparing.{IsStepPrepared, TouchesOnly, write_at, is_addable, unmarked};

use core_terms::{CForm, CSlot, CStmt, CWrite, Range, holds, value};

/// Makes the step of a statement. False, and the state stays, exactly where it is undefined.
///
/// Before and after, `next` is the same as the state and no slot is marked.
pub fn make_step(
    slots: &[CSlot],
    state: &mut [i64],
    next: &mut [i64],
    marked: &mut [bool],
    statement: &CStmt,
) -> bool
    requires state { IsTrue (is_state (slot_ranges slots.now) state.old) }
    requires fits { StatementRuns slots.now statement.now }
    requires next { next.old ≡ state.old }
    requires marked { marked.old ≡ unmarked state.old }
    ensures done { IsTrue result → core_step slots.now statement.now state.old ≡ Some state.new }
    ensures undefined { result ≡ false → core_step slots.now statement.now state.old ≡ None }
    ensures unchanged { result ≡ false → state.new ≡ state.old }
    ensures ranges { IsTrue (is_state (slot_ranges slots.now) state.new) }
    ensures next { next.new ≡ state.new }
    ensures marked { marked.new ≡ unmarked state.new }
{
    if writes_outside(slots, state, statement.outside.as_slice()) {
        return false;
    }
    let writes = statement.writes.as_slice();
    if prepare(slots, state, next, marked, writes) {
        level(next, state, marked, writes);
        true
    } else {
        level(state, next, marked, writes);
        false
    }
}

/// Whether a statement writes outside an array.
pub fn writes_outside(slots: &[CSlot], state: &[i64], outside: &[CForm]) -> bool
    requires state { IsTrue (is_state (slot_ranges slots.now) state.now) }
    requires fits { FormsRun slots.now outside.now }
    ensures { result ≡ list_any (form_value state.now []) outside.now }
{
    for form in outside {
        if holds(form, state, &[]) {
            return true;
        }
    }
    false
}

// Prepares the step of the writes: makes it in `next`, which is the old state before, and marks the slots that
// it changes. False exactly where the step is undefined.
fn prepare(
    slots: &[CSlot],
    state: &[i64],
    next: &mut [i64],
    marked: &mut [bool],
    writes: &[CWrite],
) -> bool
    requires state { IsTrue (is_state (slot_ranges slots.now) state.now) }
    requires fits { WritesRun slots.now writes.now }
    requires next { next.old ≡ state.now }
    requires marked { marked.old ≡ unmarked state.now }
    ensures defined { result ≡ is_defined (slot_ranges slots.now) (inside_writes state.now writes.now) }
    ensures next { IsTrue result → next.new ≡ written state.now (inside_writes state.now writes.now) }
    ensures touched { TouchesOnly writes.now state.now next.new marked.new }
{
    for place in (0..writes.len()).rev() {
        if !add_write(slots, state, next, marked, &writes[place]) {
            return false;
        }
    }
    true
}

// Adds a write. False, and nothing is changed, where the step would be undefined.
fn add_write(
    slots: &[CSlot],
    state: &[i64],
    next: &mut [i64],
    marked: &mut [bool],
    write: &CWrite,
) -> bool
    requires state { IsTrue (is_state (slot_ranges slots.now) state.now) }
    requires fits { WriteRuns slots.now write.now }
    requires next { length next.old ≡ length state.now }
    requires marked { length marked.old ≡ length state.now }
    ensures added { IsTrue result → (ws : List Write) →
        IsStepPrepared (slot_ranges slots.now) state.now next.old marked.old ws →
        IsStepPrepared (slot_ranges slots.now) state.now next.new marked.new (write_at state.now write.now ++ ws) }
    ensures refused { result ≡ false → (ws : List Write) →
        IsStepPrepared (slot_ranges slots.now) state.now next.old marked.old ws →
        is_defined (slot_ranges slots.now) (write_at state.now write.now ++ ws) ≡ false }
    ensures next { result ≡ false → next.new ≡ next.old }
    ensures marked { result ≡ false → marked.new ≡ marked.old }
{
    if !holds(&write.when, state, &[]) {
        return true;
    }
    let number = value(&write.value, state, &[]);
    give_number(slots, next, marked, write.slot, number)
}

// Gives a slot its next number. False, and nothing is changed, where the number is out of range or the slot is
// given another one.
fn give_number(
    slots: &[CSlot],
    next: &mut [i64],
    marked: &mut [bool],
    slot: u32,
    number: i128,
) -> bool
    requires slot { slot < length slots.now }
    requires next { length next.old ≡ length slots.now }
    requires marked { length marked.old ≡ length slots.now }
    ensures addable { result ≡ is_addable (slot_ranges slots.now) next.old marked.old slot number }
    ensures put { IsTrue result → next.new ≡ put next.old slot number }
    ensures mark { IsTrue result → marked.new ≡ slice_set marked.old slot true }
    ensures next { result ≡ false → next.new ≡ next.old }
    ensures marked { result ≡ false → marked.new ≡ marked.old }
{
    let place = slot as usize;
    let number = match narrowed(slots[place].range, number) {
        Some(number) => number,
        None => return false,
    };
    if !agrees(next, marked, place, number) {
        return false;
    }
    next[place] = number;
    marked[place] = true;
    true
}

// Whether no other number is prepared for the slot.
fn agrees(next: &[i64], marked: &[bool], place: usize, number: i64) -> bool
    requires next { place < length next.now }
    requires marked { place < length marked.now }
    ensures { result ≡ (not (slice_index_or marked.now place false) || int_eq number (number_at next.now place)) }
{
    !marked[place] || number == next[place]
}

// The number, where it lies in the range.
pub(crate) fn narrowed(range: Range, number: i128) -> Option<i64>
    ensures { result ≡ cond (in_range (Some (range.lo, range.hi)) number) (Some number) None }
{
    let narrow = i64::try_from(number).ok()?;
    if range.lo <= narrow && narrow <= range.hi {
        Some(narrow)
    } else {
        None
    }
}

// Makes the one state the same as the other, and takes the marks away. They differ at targets of the writes alone.
fn level(state: &[i64], next: &mut [i64], marked: &mut [bool], writes: &[CWrite])
    requires next { length next.old ≡ length state.now }
    requires marked { length marked.old ≡ length state.now }
    requires targets { (place : ℕ) (w : CWrite) → slice_get writes.now place ≡ Some w → w.slot < length state.now }
    requires touched { TouchesOnly writes.now state.now next.old marked.old }
    ensures next { next.new ≡ state.now }
    ensures marked { marked.new ≡ unmarked state.now }
{
    for write in writes {
        let place = write.slot as usize;
        next[place] = state[place];
        marked[place] = false;
    }
}
