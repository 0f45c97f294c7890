// Programs that are written as tables of moves.
ghost use Rattle.std.specs.Prelude.{◌≡◌, ◌↔◌, ◌<◌, ◌≤◌, ◌^◌, ℕ, pos, List, [], length, IfOk, IsTrue, All};
ghost use Rattle.core_terms.specs.Conditions.{FormFits, IsProgram, StatementFits, NamesShown, is_shown, any_place};
ghost use Rattle.core_terms.specs.Conditions.{EachPair, WriteFits};
ghost use Rattle.meaning_states.specs.State.{State};
ghost use Rattle.core_terms.specs.Values.{form_value, number_at};
ghost use Rattle.core_terms.specs.Places.{form_names_only, term_names_only};
ghost use Rattle.core_terms.specs.Weights.{slot_weight};
ghost use Rattle.core_terms.specs.declared.programs.CStmt.{CStmt};
ghost use Rattle.examples_bounds.specs.Readable.{FormIsReadable};
ghost use Rattle.examples_bounds.specs.Tables.{SlotsAreLight, AreNumbered};

use core_terms::{CForm, CProgram, CSlot, CStmt, CTerm, CWrite, Print, Range};
use std::alloc::{AllocError, Global};
use unity_base::{Seq, Shared};

/// What a statement does at some states: where one slot has a number, a slot, which may be another, gets a number.
#[derive(Clone, Copy)]
pub struct Move {
    pub at: u32,
    pub from: u32,
    pub slot: u32,
    pub to: u32,
}

/// Slots with these greatest numbers, and the lowest 0.
///
/// An error says that memory was refused.
pub fn slots_to(alloc: Global, tops: &[u32]) -> Result<Seq<CSlot>, AllocError>
    ensures light { IfOk result SlotsAreLight }
    ensures count { IfOk result (λ slots. length slots ≡ length tops.now) }
{
    let mut slots = Seq::new(alloc);
    for top in tops {
        slots.push(CSlot {
            name: 0,
            index: None,
            range: Range {
                lo: 0,
                hi: *top as i64,
            },
            print: Print::Number,
        })?;
    }
    Ok(slots)
}

/// That a slot has a number; for a slot that isn't there, what never holds.
///
/// An error says that memory was refused.
pub fn equals(alloc: Global, slots: &[CSlot], slot: u32, number: u32) -> Result<CForm, AllocError>
    requires { SlotsAreLight slots.now }
    ensures fits { IfOk result (FormFits slots.now []) }
    ensures readable { IfOk result (FormIsReadable slots.now []) }
    ensures meaning { IfOk result (λ f. (state : State) → IsTrue (form_value state [] f) ↔
        ((slot < length slots.now) × (number_at state slot ≡ pos number))) }
    ensures shown { IfOk result (λ f. (shown : List ℕ) → ((n : ℕ) → n < length slots.now → IsTrue (is_shown shown n)) →
        IsTrue (form_names_only (is_shown shown) any_place f)) }
{
    if slots.len() <= slot as usize {
        return Ok(CForm::Bottom);
    }
    let place = Shared::new(alloc, CTerm::Slot(slot))?;
    let other = Shared::new(alloc, CTerm::Const(number as i64))?;
    Ok(CForm::Zero(CTerm::Sub(place, other)))
}

/// What always holds.
pub fn always(slots: &[CSlot]) -> CForm
    ensures readable { FormIsReadable slots.now [] result }
    ensures meaning { (state : State) → IsTrue (form_value state [] result) }
{
    CForm::Top
}

// A write that makes a move. A move of a slot that isn't there is never made.
fn write_of(alloc: Global, slots: &[CSlot], step: Move) -> Result<CWrite, AllocError>
    requires light { SlotsAreLight slots.now }
    requires slot { step.slot < length slots.now }
    ensures fits { IfOk result (WriteFits slots.now) }
    ensures slot { IfOk result (λ w. w.slot ≡ step.slot) }
    ensures when { IfOk result (λ w. (shown : List ℕ) →
        ((n : ℕ) → n < length slots.now → IsTrue (is_shown shown n)) →
        IsTrue (form_names_only (is_shown shown) any_place w.when)) }
    ensures value { IfOk result (λ w. (shown : List ℕ) →
        IsTrue (term_names_only (is_shown shown) any_place w.value)) }
{
    Ok(CWrite {
        slot: step.slot,
        when: equals(alloc, slots, step.at, step.from)?,
        value: CTerm::Const(step.to as i64),
    })
}

// The statement of these moves; those of slots that aren't there are left out.
fn statement_of(
    alloc: Global,
    slots: &[CSlot],
    shown: &[u32],
    label: u32,
    moves: &[Move],
) -> Result<CStmt, AllocError>
    requires light { SlotsAreLight slots.now }
    requires shown { (n : ℕ) → n < length slots.now → IsTrue (is_shown shown.now n) }
    ensures label { IfOk result (λ s. s.label ≡ label) }
    ensures fits { IfOk result (StatementFits slots.now) }
    ensures shown { IfOk result (NamesShown shown.now) }
{
    let mut writes = Seq::new(alloc);
    for step in moves {
        if (step.slot as usize) < slots.len() {
            writes.push(write_of(alloc, slots, *step)?)?;
        }
    }
    Ok(CStmt {
        label,
        indices: Seq::new(alloc),
        outside: Seq::new(alloc),
        writes,
    })
}

// The statements of these lists of moves, with labels from 0 on.
fn statements_of(
    alloc: Global,
    slots: &[CSlot],
    shown: &[u32],
    rows: &[&[Move]],
) -> Result<Seq<Shared<CStmt>>, AllocError>
    requires light { SlotsAreLight slots.now }
    requires shown { (n : ℕ) → n < length slots.now → IsTrue (is_shown shown.now n) }
    requires few { length rows.now ≤ 4096 }
    ensures labels { IfOk result AreNumbered }
    ensures count { IfOk result (λ statements. length statements ≡ length rows.now) }
    ensures fits { IfOk result (All (StatementFits slots.now)) }
    ensures shown { IfOk result (All (NamesShown shown.now)) }
{
    let mut statements = Seq::new(alloc);
    for label in 0..rows.len() {
        let statement = statement_of(alloc, slots, shown, label as u32, rows[label])?;
        statements.push(Shared::new(alloc, statement)?)?;
    }
    Ok(statements)
}

// The numbers of all slots.
fn all_shown(alloc: Global, count: u32) -> Result<Seq<u32>, AllocError>
    ensures all { IfOk result (λ shown. (n : ℕ) → n < count → IsTrue (is_shown shown n)) }
    ensures some { IfOk result (All (λ n. n < count)) }
    ensures rising { IfOk result (EachPair (λ m n. m < n)) }
{
    let mut shown = Seq::new(alloc);
    for slot in 0..count {
        shown.push(slot)?;
    }
    Ok(shown)
}

/// The program whose statements make these moves, and whose executions begin where the slot has the number.
///
/// An error says that memory was refused.
pub fn table(
    alloc: Global,
    slots: &[CSlot],
    rows: &[&[Move]],
    slot: u32,
    number: u32,
) -> Result<CProgram, AllocError>
    requires light { SlotsAreLight slots.now }
    requires slots { length slots.now < 2 ^ 32 }
    requires some { 1 ≤ length rows.now }
    requires few { length rows.now ≤ 4096 }
    ensures { IfOk result (IsProgram slots.now) }
{
    let shown = all_shown(alloc, slots.len() as u32)?;
    let statements = statements_of(alloc, slots, shown.as_slice(), rows)?;
    let initially = equals(alloc, slots, slot, number)?;
    Ok(CProgram {
        name: 0,
        parts: None,
        shown,
        initially,
        start: Seq::new(alloc),
        statements,
    })
}
