// Whether a state is a fixed point.
ghost use Rattle.std.specs.Prelude.{◌≡◌, ◌<◌, length, IsTrue, MatchOption, ◌&&◌, []};
ghost use Rattle.std.specs.List.{list_all};
ghost use Rattle.std.specs.Option.{is_none};
ghost use Rattle.meaning_states.specs.State.{is_state};
ghost use Rattle.core_terms.specs.Steps.{slot_ranges, core_step};
ghost use Rattle.executor.specs.Fitting.{StatementRuns, StatementsRun, WriteRuns, WritesRun};
ghost use Rattle.executor.specs.CoreSystem.{core_system};
ghost use Rattle.fixed_points.specs.FixedPoints as fixed;
ghost use Rattle.fixed_points.specs.Leaving.{leaves};

use core_terms::{CProgram, CSlot, CStmt, CWrite, holds, value};
use executor::writes_outside;
use unity_base::Shared;

/// Whether a state is a fixed point of the program: the step of each statement is defined and leads back. It takes no
/// memory.
pub fn is_fixed(p: &CProgram, slots: &[CSlot], state: &[i64]) -> bool
    requires fits { StatementsRun slots.now p.now.statements }
    requires state { IsTrue (is_state (slot_ranges slots.now) state.now) }
    ensures { result ≡ fixed.is_fixed (core_system slots.now p.now) state.now }
{
    changing(p, slots, state, 0).is_none()
}

/// `None` exactly where the state is a fixed point of the program. Else a place at which the test of a later state
/// may begin: this one begins at a place, goes round about, and ends at the first statement whose step is undefined or
/// leads elsewhere. It takes no memory.
pub fn changing(p: &CProgram, slots: &[CSlot], state: &[i64], from: usize) -> Option<usize>
    requires fits { StatementsRun slots.now p.now.statements }
    requires state { IsTrue (is_state (slot_ranges slots.now) state.now) }
    ensures { is_none result ≡ fixed.is_fixed (core_system slots.now p.now) state.now }
{
    let all = p.statements.as_slice();
    let from = from.min(all.len());
    match changing_among(slots, state, &all[from..]) {
        Some(place) => Some(from + place),
        None => changing_among(slots, state, &all[..from]),
    }
}

// The place of the first of these statements whose step is undefined or leads elsewhere.
fn changing_among(slots: &[CSlot], state: &[i64], statements: &[Shared<CStmt>]) -> Option<usize>
    requires state { IsTrue (is_state (slot_ranges slots.now) state.now) }
    requires fits { StatementsRun slots.now statements.now }
    ensures none { is_none result ≡
        list_all (λ s. fixed.leads_to (core_step slots.now s state.now) state.now) statements.now }
    ensures place { MatchOption result (Unit {0}) (λ place. place < length statements.now) }
{
    for place in 0..statements.len() {
        if !leads_back(slots, state, statements[place].get()) {
            return Some(place);
        }
    }
    None
}

// Whether the step of a statement is defined and leads back.
fn leads_back(slots: &[CSlot], state: &[i64], statement: &CStmt) -> bool
    requires state { IsTrue (is_state (slot_ranges slots.now) state.now) }
    requires fits { StatementRuns slots.now statement.now }
    ensures { result ≡ fixed.leads_to (core_step slots.now statement.now state.now) state.now }
{
    !writes_outside(slots, state, statement.outside.as_slice())
        && leaves_all(slots, state, statement.writes.as_slice())
}

// Whether each write, where it is made, leaves its slot as it is.
fn leaves_all(slots: &[CSlot], state: &[i64], writes: &[CWrite]) -> bool
    requires state { IsTrue (is_state (slot_ranges slots.now) state.now) }
    requires fits { WritesRun slots.now writes.now }
    ensures { result ≡ list_all (leaves state.now) writes.now }
{
    for write in writes {
        if !leaves(slots, state, write) {
            return false;
        }
    }
    true
}

fn leaves(slots: &[CSlot], state: &[i64], write: &CWrite) -> bool
    requires state { IsTrue (is_state (slot_ranges slots.now) state.now) }
    requires fits { WriteRuns slots.now write.now }
    ensures { result ≡ leaves state.now write.now }
{
    !holds(&write.when, state, &[])
        || value(&write.value, state, &[]) == i128::from(state[write.slot as usize])
}
