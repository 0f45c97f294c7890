// A place of a trace: the program, the state that it has reached, and the one before.
ghost use Rattle.std.specs.Prelude.{◌≤◌, IsTrue, length};
ghost use Rattle.meaning_states.specs.State.{is_state};
ghost use Rattle.core_terms.specs.Steps.{slot_ranges};
ghost use Rattle.executor.specs.Fitting.{StatementsRun};

use core_terms::{CProgram, CSlot};

#[derive(Clone, Copy)]
pub(crate) struct Place<'a> {
    pub(crate) program: &'a CProgram,
    pub(crate) slots: &'a [CSlot],
    /// The state of the place before; at the first place, its own.
    pub(crate) before: &'a [i64],
    pub(crate) state: &'a [i64],
    ghost fits: { StatementsRun slots.now program.now.statements },
    ghost few: { length program.now.statements ≤ 4096 },
    ghost is_state: { IsTrue (is_state (slot_ranges slots.now) state.now) },
}
