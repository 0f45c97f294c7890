// The two commands that write traces.
ghost use Rattle.std.specs.Prelude.{◌≡◌, length, IsErrOf, Contains, Some, IsErr};
ghost use Rattle.unity_base.specs.Streams.{IsTold};
ghost use Rattle.core_terms.specs.Conditions.{IsCoreDocument};
ghost use Rattle.run_traces.specs.Choices.{AreAmong};
ghost use Rattle.run_traces.specs.Cores.{core_choices};
ghost use Rattle.run_traces.specs.Programs as named;
ghost use Rattle.run_traces.specs.Answers.{TraceAnswers, CoreRuns, CoreReplays};

use crate::choices::Choices;
use crate::error::RunError;
use crate::finding::{program_called, scheduled_program};
use crate::programs::trace_program;
use core_terms::{CDocument, CProgram};
use executor::Stepped;
use schedule_replay::{Heading, read_schedule};
use std::alloc::Global;
use unity_base::Sink;

/// Writes the trace of so many steps of the first program of this name, from its start state, each instance in turn.
///
/// `Done` where every step was defined, and `Undefined` where the one after the last state that was written is not.
/// `NoProgram` comes exactly where no program has the name. Else, but for want of memory, `NotInitial` comes exactly
/// where the start state does not meet the initially section. `Failed` comes only where the sink's count of faults
/// rose. All memory is taken before the first byte is written.
pub fn run_program<K: Sink>(
    alloc: Global,
    doc: &CDocument,
    program: &[u8],
    steps: u64,
    out: &mut K,
) -> Result<Stepped, RunError>
    requires { IsCoreDocument doc.now }
    ensures answer { CoreRuns doc.now program.now steps (K.written out.old) (K.written out.new) result }
    ensures cause { IsTold (K.faults out.old) (K.faults out.new) (IsErrOf result RunError.Failed) }
    ensures untouched { IsErr result → (IsErrOf result RunError.Failed → ⊥) → out.new ≡ out.old }
{
    match program_called(doc, program) {
        Some(p) => write_program(alloc, doc, p, Heading::Run, &Choices::Turns(steps), out),
        None => Err(RunError::NoProgram),
    }
}

/// Writes the trace of the document's schedule, from the start state of its program.
///
/// `Done` and `Undefined` as for `run_program`. `NoSchedule` comes exactly where the document has no schedule. Else,
/// but for want of memory, `NoSuchStatement` comes exactly where a choice names no instance of the program, at the
/// first such choice, and `NotInitial` exactly where all name one and the start state does not meet the initially
/// section. `Failed` comes only where the sink's count of faults rose. All memory is taken before the first byte is
/// written.
pub fn replay_schedule<K: Sink>(
    alloc: Global,
    doc: &CDocument,
    out: &mut K,
) -> Result<Stepped, RunError>
    requires { IsCoreDocument doc.now }
    ensures answer { CoreReplays doc.now (K.written out.old) (K.written out.new) result }
    ensures cause { IsTold (K.faults out.old) (K.faults out.new) (IsErrOf result RunError.Failed) }
    ensures untouched { IsErr result → (IsErrOf result RunError.Failed → ⊥) → out.new ≡ out.old }
{
    match scheduled_program(doc) {
        Some(p) => replay_program(alloc, doc, p, out),
        None => Err(RunError::NoSchedule),
    }
}

// Writes the trace of the document's schedule, which is one of this program.
fn replay_program<K: Sink>(
    alloc: Global,
    doc: &CDocument,
    p: &CProgram,
    out: &mut K,
) -> Result<Stepped, RunError>
    requires document { IsCoreDocument doc.now }
    requires program { named.scheduled_program doc.now ≡ Some p.now }
    ensures answer { CoreReplays doc.now (K.written out.old) (K.written out.new) result }
    ensures cause { IsTold (K.faults out.old) (K.faults out.new) (IsErrOf result RunError.Failed) }
    ensures untouched { IsErr result → (IsErrOf result RunError.Failed → ⊥) → out.new ≡ out.old }
{
    match read_schedule(alloc, doc) {
        Ok(choices) => write_program(
            alloc,
            doc,
            p,
            Heading::Replay,
            &Choices::Listed(choices.as_slice()),
            out,
        ),
        Err(error) => Err(RunError::from(error)),
    }
}

// Writes the trace of a program of the document from its start state.
fn write_program<K: Sink>(
    alloc: Global,
    doc: &CDocument,
    p: &CProgram,
    heading: Heading,
    choices: &Choices,
    out: &mut K,
) -> Result<Stepped, RunError>
    requires document { IsCoreDocument doc.now }
    requires program { Contains doc.now.programs p.now }
    requires instances { AreAmong (length p.now.statements) choices.now }
    ensures answer { TraceAnswers doc.now p.now heading (core_choices p.now choices.now)
        (K.written out.old) (K.written out.new) result }
    ensures cause { IsTold (K.faults out.old) (K.faults out.new) (IsErrOf result RunError.Failed) }
    ensures untouched { IsErr result → (IsErrOf result RunError.Failed → ⊥) → out.new ≡ out.old }
{
    match trace_program(alloc, doc, p, heading, choices, out) {
        Ok(end) => Ok(end),
        Err(error) => Err(RunError::from(error)),
    }
}
