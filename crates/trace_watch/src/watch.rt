// A trace that is watched.
ghost use Rattle.std.specs.Prelude.{◌≡◌, ◌<◌, ◌≤◌, length, All, IfOk, IsTrue};
ghost use Rattle.meaning_states.specs.State.{is_state};
ghost use Rattle.core_terms.specs.Steps.{slot_ranges};
ghost use Rattle.executor.specs.Fitting.{StatementsRun};
ghost use Rattle.trace_watch.specs.Places.{RecordFormsFit};
ghost use Rattle.trace_watch.specs.Stepping.{StepFits, StepSaw};

use crate::looking::look;
use crate::making::steps_of;
use crate::numbers::{MOST_CASES, total_cases};
use crate::place::Place;
use crate::step::Step;
use crate::trial::Trial;
use crate::violations::{Violation, WatchError};
use core_terms::{CProgram, CSlot};
use fair_rounds::Record;
use std::alloc::Global;

// No watch has so many records, or more.
const RECORDS_END: usize = 1 << 31;

/// A trace of a program, watched for the first violation of the steps of its proof. For which traces it stands is said
/// by `WatchStandsFor`. All memory is taken by `new`.
#[derive(Drop)]
pub struct Watch<'a> {
    program: &'a CProgram,
    slots: &'a [CSlot],
    steps: Vec<Step<'a>>,
    /// The state of the last place.
    state: Vec<i64>,
    trial: Trial,
    /// What is violated at place 0.
    first: Option<Violation>,
    ghost program_fits: { StatementsRun slots.now program.now.statements },
    ghost few: { length program.now.statements ≤ 4096 },
    ghost steps_fit: { All (StepFits slots.now) steps.items },
    ghost saw: { All (StepSaw program.now state.items) steps.items },
    ghost size: { length state.items ≡ length slots.now },
    ghost room: { length trial.room.items ≡ length slots.now },
}

impl<'a> Watch<'a> {
    ghost use Rattle.std.specs.Prelude.{ℕ, List, [], ◌∷◌, ◌++◌, ◌↔◌, IsErrOf};
    ghost use Rattle.meaning_states.specs.State.{State};
    ghost use Rattle.core_terms.specs.Conditions.{IsProgram};
    ghost use Rattle.trace_watch.specs.Cases.{total_cases as cases_in, watched};
    ghost use Rattle.trace_watch.specs.Violations.{violation, violation_at};
    ghost use Rattle.trace_watch.specs.Watching.{program_of, slots_of, steps_of as steps_in, system_of, WatchStandsFor};

    /// Watches a program from a start state, at place 0 of a trace. The records are those of a plan, in order; those of
    /// other programs are passed over.
    ///
    /// `TooManyCases` comes exactly where the program's steps have more than 4,096 cases in all. Of 2^31 records or
    /// more there is no watch: `Memory` comes, as where memory was refused.
    pub fn new(
        alloc: Global,
        p: &'a CProgram,
        slots: &'a [CSlot],
        records: &'a [Record],
        start: &[i64],
    ) -> Result<Watch<'a>, WatchError>
        requires program { IsProgram slots.now p.now }
        requires start { IsTrue (is_state (slot_ranges slots.now) start.now) }
        requires fits { All (RecordFormsFit slots.now) records.now }
        ensures program { IfOk result (λ w. program_of w ≡ p.now) }
        ensures slots { IfOk result (λ w. slots_of w ≡ slots.now) }
        ensures steps { IfOk result (λ w. steps_in w ≡ watched p.now records.now) }
        ensures begun { IfOk result (λ w. WatchStandsFor w (start.now ∷ []) []) }
        ensures many { IsErrOf result WatchError.TooManyCases ↔ (4096 < cases_in p.now records.now) }
    {
        if total_cases(p, records) > MOST_CASES {
            return Err(WatchError::TooManyCases);
        }
        if records.len() >= RECORDS_END {
            return Err(WatchError::Memory);
        }
        let mut steps = steps_of(alloc, p, slots, records)?;
        let state = Vec::from_slice(alloc, start)?;
        let mut trial = Trial::new(alloc, start)?;
        let here = Place {
            program: p,
            slots,
            before: start,
            state: start,
        };
        let first = look(&here, None, &mut trial, &mut steps);
        Ok(Watch {
            program: p,
            slots,
            steps,
            state,
            trial,
            first,
        })
    }

    /// What is violated first at place 0.
    pub fn first(&self) -> Option<Violation>
        ensures { (states : List State) (choices : List ℕ) → WatchStandsFor self.now states choices →
            result ≡ violation_at (system_of self.now) (steps_in self.now) states choices 0 }
    {
        self.first
    }

    /// One place more, with the state that the choice led to: what is violated first there.
    pub fn step(&mut self, choice: u32, next: &[i64]) -> Option<Violation>
        requires choice { choice < length (program_of self.old).statements }
        requires next { IsTrue (is_state (slot_ranges (slots_of self.old)) next.now) }
        ensures program { program_of self.new ≡ program_of self.old }
        ensures slots { slots_of self.new ≡ slots_of self.old }
        ensures steps { steps_in self.new ≡ steps_in self.old }
        ensures longer { (states : List State) (choices : List ℕ) → WatchStandsFor self.old states choices →
            WatchStandsFor self.new (states ++ next.now ∷ []) (choices ++ choice ∷ []) }
        ensures exact { (states : List State) (choices : List ℕ) → WatchStandsFor self.old states choices →
            result ≡ violation (system_of self.old) (steps_in self.old) (states ++ next.now ∷ [])
            (choices ++ choice ∷ []) }
    {
        let here = Place {
            program: self.program,
            slots: self.slots,
            before: self.state.as_slice(),
            state: next,
        };
        let found = look(&here, Some(choice), &mut self.trial, &mut self.steps);
        self.state.copy_from_slice(next);
        found
    }
}
