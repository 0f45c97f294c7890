// The trace of a program from its start state, up to the first fixed point.
ghost use Rattle.std.specs.Prelude.{◌≡◌, ◌≤◌, [], length, IsErrOf, IsTrue, Contains, IsErr};
ghost use Rattle.unity_base.specs.Streams.{IsTold};
ghost use Rattle.core_terms.specs.Conditions.{IsCoreDocument, IsProgram};
ghost use Rattle.meaning_states.specs.State.{is_state};
ghost use Rattle.core_terms.specs.Steps.{slot_ranges};
ghost use Rattle.core_terms.specs.Values.{form_value};
ghost use Rattle.executor.specs.StartState.{start_state};
ghost use Rattle.executor.specs.Running.{program_of, slots_of, state_of};
ghost use Rattle.schedule_replay.specs.Schedules.{turns};
ghost use Rattle.fixed_runs.specs.Answers.{CoreFixedTraces};

use crate::traces::write_trace;
use core_terms::{CDocument, CProgram};
use executor::{Runner, Stepped, start_of};
use run_traces::TraceError;
use std::alloc::Global;
use unity_base::Sink;

// Writes the trace of a program of a document from the program's start state. All memory is taken before the
// first byte is written. The errors are those of a run.
pub(crate) fn trace_program<K: Sink>(
    alloc: Global,
    doc: &CDocument,
    p: &CProgram,
    steps: u64,
    out: &mut K,
) -> Result<Stepped, TraceError>
    requires document { IsCoreDocument doc.now }
    requires program { Contains doc.now.programs p.now }
    ensures answer { CoreFixedTraces doc.now p.now (start_state doc.now.slots p.now)
        (turns (length p.now.statements) steps) (K.written out.old) (K.written out.new) result }
    ensures cause { IsTold (K.faults out.old) (K.faults out.new) (IsErrOf result TraceError.Failed) }
    ensures untouched { IsErr result → (IsErrOf result TraceError.Failed → ⊥) → out.new ≡ out.old }
{
    let start = start_of(alloc, p, doc.slots.as_slice())?;
    trace_from(alloc, doc, p, steps, start.as_slice(), out)
}

// Writes the trace from a state.
fn trace_from<K: Sink>(
    alloc: Global,
    doc: &CDocument,
    p: &CProgram,
    steps: u64,
    start: &[i64],
    out: &mut K,
) -> Result<Stepped, TraceError>
    requires program { IsProgram doc.now.slots p.now }
    requires start { IsTrue (is_state (slot_ranges doc.now.slots) start.now) }
    ensures answer { CoreFixedTraces doc.now p.now start.now (turns (length p.now.statements) steps)
        (K.written out.old) (K.written out.new) result }
    ensures cause { IsTold (K.faults out.old) (K.faults out.new) (IsErrOf result TraceError.Failed) }
    ensures untouched { IsErr result → (IsErrOf result TraceError.Failed → ⊥) → out.new ≡ out.old }
{
    match Runner::new(alloc, p, doc.slots.as_slice(), start) {
        Ok(mut runner) => trace_by(doc, p, steps, &mut runner, out),
        Err(error) => Err(TraceError::from(error)),
    }
}

// Writes the trace from the runner's state, which is an initial one.
fn trace_by<K: Sink>(
    doc: &CDocument,
    p: &CProgram,
    steps: u64,
    runner: &mut Runner,
    out: &mut K,
) -> Result<Stepped, TraceError>
    requires is_program { IsProgram doc.now.slots p.now }
    requires is_state { IsTrue (is_state (slot_ranges doc.now.slots) (state_of runner.old)) }
    requires program { program_of runner.old ≡ p.now }
    requires slots { slots_of runner.old ≡ doc.now.slots }
    requires initial { IsTrue (form_value (state_of runner.old) [] p.now.initially) }
    ensures answer { CoreFixedTraces doc.now p.now (state_of runner.old) (turns (length p.now.statements) steps)
        (K.written out.old) (K.written out.new) result }
    ensures cause { IsTold (K.faults out.old) (K.faults out.new) (IsErrOf result TraceError.Failed) }
    ensures untouched { IsErr result → (IsErrOf result TraceError.Failed → ⊥) → out.new ≡ out.old }
{
    match write_trace(doc, p, steps, runner, out) {
        Ok(end) => Ok(end),
        Err(_) => Err(TraceError::Failed),
    }
}
