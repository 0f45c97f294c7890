// The schedule of a document, watched for the steps of its program's proof.
ghost use Rattle.std.specs.Prelude.{◌≡◌, ◌<◌, ◌^◌, All, Contains, length, Some, IfOk, IfErr, IsTrue, true};
ghost use Rattle.meaning_states.specs.State.{is_state};
ghost use Rattle.core_terms.specs.Conditions.{IsCoreDocument};
ghost use Rattle.core_terms.specs.Steps.{slot_ranges};
ghost use Rattle.executor.specs.Running.{program_of, slots_of, state_of};
ghost use Rattle.executor.specs.StartState.{start_state};
ghost use Rattle.watch_schedules.specs.Schedules as schedules;
ghost use Rattle.watch_schedules.specs.Schedules.{FindsWatched, IsScheduled, IsBookOf, HasNoBook, starts};

use crate::error::WatchStop;
use core_terms::{CDocument, CProgram};
use executor::{Runner, start_of};
use fair_rounds::Record;
use run_traces::scheduled_program;
use schedule_replay::read_schedule;
use std::alloc::Global;
use step_plans::book_of;
use trace_watch::{Ending, Watch, watch_choices};
use unity_base::Seq;

/// A schedule that was watched.
#[derive(Drop)]
pub struct WatchedSchedule<'a> {
    pub program: &'a CProgram,
    /// The instances that were chosen, by their places.
    pub choices: Seq<u32>,
    /// The records of all steps of the document's proofs, in order.
    pub records: Seq<Record>,
    pub ending: Ending,
    /// The state at the last place that was looked at.
    pub state: Vec<i64>,
}

/// Replays the document's schedule and watches it for the steps of the proof of its program.
///
/// The error is the first cause, in the order of `WatchStop`, for which it is not watched; `Memory` may come in place
/// of any answer.
pub fn watch_schedule(alloc: Global, doc: &CDocument) -> Result<WatchedSchedule<'_>, WatchStop>
    requires { IsCoreDocument doc.now }
    ensures { FindsWatched doc.now result }
{
    let choices = read_schedule(alloc, doc)?;
    match scheduled_program(doc) {
        Some(program) => watch_program(alloc, doc, program, choices),
        None => Err(WatchStop::NoSchedule),
    }
}

// Watches the program of the schedule, by these choices among its instances.
fn watch_program<'a>(
    alloc: Global,
    doc: &'a CDocument,
    program: &'a CProgram,
    choices: Seq<u32>,
) -> Result<WatchedSchedule<'a>, WatchStop>
    requires document { IsCoreDocument doc.now }
    requires scheduled { IsScheduled doc.now program.now choices }
    ensures { FindsWatched doc.now result }
{
    let start = start_of(alloc, program, doc.slots.as_slice())?;
    let runner = Runner::new(alloc, program, doc.slots.as_slice(), start.as_slice())?;
    if !is_proved(doc, program) {
        return Err(WatchStop::NoProof);
    }
    let records = records_of(alloc, doc)?;
    watch_records(alloc, doc, program, choices, records, runner)
}

// Whether the program has a proof.
fn is_proved(doc: &CDocument, program: &CProgram) -> bool
    ensures { result ≡ schedules.is_proved doc.now program.now }
{
    for proof in doc.proofs.as_slice() {
        if proof.program == program.name {
            return true;
        }
    }
    false
}

// The records of all steps of the document's proofs. What is left to be shown is let go, step by step.
fn records_of(alloc: Global, doc: &CDocument) -> Result<Seq<Record>, WatchStop>
    requires { IsCoreDocument doc.now }
    ensures records { IfOk result (IsBookOf doc.now) }
    ensures refused { IfErr result (HasNoBook doc.now) }
{
    Ok(book_of(alloc, doc)?)
}

// Watches a program from the runner's state for the steps of its proof that are among these records.
fn watch_records<'a>(
    alloc: Global,
    doc: &CDocument,
    program: &'a CProgram,
    choices: Seq<u32>,
    records: Seq<Record>,
    runner: Runner,
) -> Result<WatchedSchedule<'a>, WatchStop>
    requires document { IsCoreDocument doc.now }
    requires scheduled { IsScheduled doc.now program.now choices }
    requires initial { starts doc.now program.now ≡ true }
    requires proved { schedules.is_proved doc.now program.now ≡ true }
    requires records { IsBookOf doc.now records }
    requires program { program_of runner ≡ program.now }
    requires slots { slots_of runner ≡ doc.now.slots }
    requires start { state_of runner ≡ start_state doc.now.slots program.now }
    ensures { FindsWatched doc.now result }
{
    let mut runner = runner;
    let (ending, state) = {
        let slots = doc.slots.as_slice();
        let mut watch = Watch::new(alloc, program, slots, records.as_slice(), runner.state())?;
        let ending = watch_choices(&mut runner, &mut watch, choices.as_slice());
        (ending, Vec::from_slice(alloc, runner.state())?)
    };
    Ok(WatchedSchedule {
        program,
        choices,
        records,
        ending,
        state,
    })
}
