// The command `fixed`.
ghost use Rattle.std.specs.Prelude.{◌≡◌, IsErrOf, IsErr};
ghost use Rattle.unity_base.specs.Streams.{IsTold};
ghost use Rattle.core_terms.specs.Conditions.{IsCoreDocument};
ghost use Rattle.fixed_runs.specs.Answers.{CoreFixedRuns};

use crate::programs::trace_program;
use core_terms::CDocument;
use executor::Stepped;
use run_traces::{RunError, TraceError, program_called};
use std::alloc::Global;
use unity_base::Sink;

/// Writes the trace of the first program of this name, from its start state, each instance in turn, up to its first
/// fixed point, or of so many steps where none of their states is one. The line of a fixed point stands before that of
/// the rounds.
///
/// `Done` where every step was defined, and `Undefined` where the one after the last state that was written is not.
/// `NoProgram` comes exactly where no program has the name. Else, but for want of memory, `NotInitial` comes exactly
/// where the start state does not meet the initially section. `Failed` comes only where the sink's count of faults
/// rose. All memory is taken before the first byte is written.
pub fn run_to_fixed<K: Sink>(
    alloc: Global,
    doc: &CDocument,
    program: &[u8],
    steps: u64,
    out: &mut K,
) -> Result<Stepped, RunError>
    requires { IsCoreDocument doc.now }
    ensures answer { CoreFixedRuns doc.now program.now steps (K.written out.old) (K.written out.new) result }
    ensures cause { IsTold (K.faults out.old) (K.faults out.new) (IsErrOf result RunError.Failed) }
    ensures untouched { IsErr result → (IsErrOf result RunError.Failed → ⊥) → out.new ≡ out.old }
{
    let p = match program_called(doc, program) {
        Some(p) => p,
        None => return Err(RunError::NoProgram),
    };
    match trace_program(alloc, doc, p, steps, out) {
        Ok(end) => Ok(end),
        Err(error) => Err(RunError::from(error)),
    }
}
