// The trace of a program from its start state.
ghost use Rattle.std.specs.Prelude.{◌≡◌, ◌≤◌, [], length, IsErrOf, IsTrue, Contains, IsErr};
ghost use Rattle.unity_base.specs.Streams.{IsTold};
ghost use Rattle.core_terms.specs.Conditions.{IsCoreDocument, IsProgram};
ghost use Rattle.meaning_states.specs.State.{is_state};
ghost use Rattle.core_terms.specs.Steps.{slot_ranges};
ghost use Rattle.core_terms.specs.Values.{form_value};
ghost use Rattle.executor.specs.StartState.{start_state};
ghost use Rattle.executor.specs.Running.{program_of, slots_of, state_of};
ghost use Rattle.run_traces.specs.TraceAnswers.{CoreTraces};
ghost use Rattle.run_traces.specs.Choices.{AreAmong};
ghost use Rattle.run_traces.specs.Cores.{core_choices};

use crate::choices::Choices;
use crate::trace_error::TraceError;
use crate::traces::write_trace;
use core_terms::{CDocument, CProgram};
use executor::{Runner, Stepped, start_of};
use schedule_replay::Heading;
use std::alloc::Global;
use unity_base::Sink;

// Writes the trace of a program of a document from the program's start state. All memory is taken before the
// first byte is written.
//
// `Done` where every step was defined, and `Undefined` where the one after the last state that was written is
// not. But for want of memory, `NotInitial` comes exactly where the start state does not meet the initially section.
// `Failed` comes only where the sink's count of faults rose.
pub(crate) fn trace_program<K: Sink>(
    alloc: Global,
    doc: &CDocument,
    p: &CProgram,
    heading: Heading,
    choices: &Choices,
    out: &mut K,
) -> Result<Stepped, TraceError>
    requires document { IsCoreDocument doc.now }
    requires program { Contains doc.now.programs p.now }
    requires instances { AreAmong (length p.now.statements) choices.now }
    ensures answer { CoreTraces doc.now p.now heading (start_state doc.now.slots p.now) (core_choices p.now choices.now)
        (K.written out.old) (K.written out.new) result }
    ensures cause { IsTold (K.faults out.old) (K.faults out.new) (IsErrOf result TraceError.Failed) }
    ensures untouched { IsErr result → (IsErrOf result TraceError.Failed → ⊥) → out.new ≡ out.old }
{
    let start = start_of(alloc, p, doc.slots.as_slice())?;
    trace_from(alloc, doc, p, heading, choices, start.as_slice(), out)
}

// Writes the trace from a state.
fn trace_from<K: Sink>(
    alloc: Global,
    doc: &CDocument,
    p: &CProgram,
    heading: Heading,
    choices: &Choices,
    start: &[i64],
    out: &mut K,
) -> Result<Stepped, TraceError>
    requires program { IsProgram doc.now.slots p.now }
    requires start { IsTrue (is_state (slot_ranges doc.now.slots) start.now) }
    requires instances { AreAmong (length p.now.statements) choices.now }
    ensures answer { CoreTraces doc.now p.now heading start.now (core_choices p.now choices.now)
        (K.written out.old) (K.written out.new) result }
    ensures cause { IsTold (K.faults out.old) (K.faults out.new) (IsErrOf result TraceError.Failed) }
    ensures untouched { IsErr result → (IsErrOf result TraceError.Failed → ⊥) → out.new ≡ out.old }
{
    match Runner::new(alloc, p, doc.slots.as_slice(), start) {
        Ok(mut runner) => trace_by(doc, p, heading, choices, &mut runner, out),
        Err(error) => Err(TraceError::from(error)),
    }
}

// Writes the trace from the runner's state, which is an initial one.
fn trace_by<K: Sink>(
    doc: &CDocument,
    p: &CProgram,
    heading: Heading,
    choices: &Choices,
    runner: &mut Runner,
    out: &mut K,
) -> Result<Stepped, TraceError>
    requires program { program_of runner.old ≡ p.now }
    requires slots { slots_of runner.old ≡ doc.now.slots }
    requires initial { IsTrue (form_value (state_of runner.old) [] p.now.initially) }
    requires some { 1 ≤ length p.now.statements }
    requires few { length p.now.statements ≤ 4096 }
    requires instances { AreAmong (length p.now.statements) choices.now }
    ensures answer { CoreTraces doc.now p.now heading (state_of runner.old) (core_choices p.now choices.now)
        (K.written out.old) (K.written out.new) result }
    ensures cause { IsTold (K.faults out.old) (K.faults out.new) (IsErrOf result TraceError.Failed) }
    ensures untouched { IsErr result → (IsErrOf result TraceError.Failed → ⊥) → out.new ≡ out.old }
{
    match write_trace(doc, p, heading, choices, runner, out) {
        Ok(end) => Ok(end),
        Err(_) => Err(TraceError::Failed),
    }
}
