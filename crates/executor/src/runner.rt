// A program that is run step by step.
ghost use Rattle.std.specs.Prelude.{◌≡◌, ◌<◌, length, Some, None, true, false, IsTrue, IfOk, IsErrOf, ◌↔◌, []};
ghost use Rattle.std.specs.Prelude.{slice_get};
ghost use Rattle.meaning_states.specs.State.{is_state};
ghost use Rattle.core_terms.specs.Values.{form_value};
ghost use Rattle.core_terms.specs.Steps.{slot_ranges};
ghost use Rattle.core_terms.specs.Conditions.{IsProgram};
ghost use Rattle.executor.specs.Fitting.{StatementsRun};
ghost use Rattle.executor.specs.Preparing.{unmarked};

use crate::preparing::make_step;
use core_terms::{CProgram, CSlot, CStmt, holds};
use std::alloc::{AllocError, Global};
use thiserror::Error;

/// Whether a step was made.
#[derive(Clone, Copy, Debug, PartialEq, Eq)]
pub enum Stepped {
    /// The state is the one after the step.
    Done,
    /// The step is undefined: a write lies outside an array, a number lies outside its slot's range, or a slot would
    /// get two numbers. The state is as it was.
    Undefined,
}

/// Why a program can't be run.
#[derive(Clone, Copy, Debug, PartialEq, Eq, Error)]
pub enum StartError {
    /// The start state does not meet the initially section.
    #[error("the start state does not meet the initially section")]
    NotInitial,
    /// Memory was refused.
    #[error("memory was refused")]
    Memory,
}

impl From<AllocError> for StartError {
    ghost use Rattle.executor.specs.declared.runner.StartError.TheVariants.{Memory};

    ghost from_gives = { λ _ error. error ≡ Memory };

    fn from(_: AllocError) -> Self {
        StartError::Memory
    }
}

/// An execution of a program: the state that its steps so far have reached. A step takes no memory, and as much time
/// as its own statement.
#[derive(Drop)]
pub struct Runner<'a> {
    program: &'a CProgram,
    slots: &'a [CSlot],
    state: Vec<i64>,
    /// Between two steps, the same as `state`.
    next: Vec<i64>,
    /// The slots that the step in the making changes; between two steps, none.
    marked: Vec<bool>,
    ghost fits: { StatementsRun slots.now program.now.statements },
    ghost is_state: { IsTrue (is_state (slot_ranges slots.now) state.items) },
    ghost level: { next.items ≡ state.items },
    ghost clear: { marked.items ≡ unmarked state.items },
}

impl<'a> Runner<'a> {
    ghost use Rattle.executor.specs.Running.{program_of, slots_of, state_of, chosen_step};

    /// Runs a program from a state. All memory that the steps need is taken here.
    pub fn new(
        alloc: Global,
        p: &'a CProgram,
        slots: &'a [CSlot],
        start: &[i64],
    ) -> Result<Runner<'a>, StartError>
        requires program { IsProgram slots.now p.now }
        requires start { IsTrue (is_state (slot_ranges slots.now) start.now) }
        ensures program { IfOk result (λ r. program_of r ≡ p.now) }
        ensures slots { IfOk result (λ r. slots_of r ≡ slots.now) }
        ensures state { IfOk result (λ r. state_of r ≡ start.now) }
        ensures initial { IfOk result (λ r. IsTrue (form_value start.now [] p.now.initially)) }
        ensures not_initial { IsErrOf result StartError.NotInitial ↔ (form_value start.now [] p.now.initially ≡ false) }
    {
        if !holds(&p.initially, start, &[]) {
            return Err(StartError::NotInitial);
        }
        Ok(Runner {
            program: p,
            slots,
            state: Vec::from_slice(alloc, start)?,
            next: Vec::from_slice(alloc, start)?,
            marked: vec![in alloc; false; start.len()]?,
        })
    }

    /// Makes the step of the statement with this number, from 0.
    pub fn step(&mut self, choice: u32) -> Stepped
        requires { choice < length (program_of self.old).statements }
        ensures done { result ≡ Stepped.Done →
            chosen_step (slots_of self.old) (program_of self.old) choice (state_of self.old)
            ≡ Some (state_of self.new) }
        ensures undefined { result ≡ Stepped.Undefined →
            chosen_step (slots_of self.old) (program_of self.old) choice (state_of self.old) ≡ None }
        ensures unchanged { result ≡ Stepped.Undefined → state_of self.new ≡ state_of self.old }
        ensures program { program_of self.new ≡ program_of self.old }
        ensures slots { slots_of self.new ≡ slots_of self.old }
    {
        let statement = chosen(self.program, choice);
        if make_step(
            self.slots,
            &mut self.state,
            &mut self.next,
            &mut self.marked,
            statement,
        ) {
            Stepped::Done
        } else {
            Stepped::Undefined
        }
    }

    /// The state that was reached.
    pub fn state(&self) -> &[i64]
        ensures { result.now ≡ state_of self.now }
    {
        &self.state
    }
}

// The statement of this number.
pub(crate) fn chosen(p: &CProgram, choice: u32) -> &CStmt
    requires { choice < length p.now.statements }
    ensures { slice_get p.now.statements choice ≡ Some result.now }
{
    p.statements.as_slice()[choice as usize].get()
}
