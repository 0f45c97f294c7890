// What makes the steps of a run, and the run that stops at the first fixed point.
ghost use Rattle.std.specs.Prelude.{◌≡◌, ◌<◌, length, Some, None, IsErr, IsErrOf};
ghost use Rattle.unity_base.specs.Streams.{IsTold};
ghost use Rattle.core_terms.specs.Conditions.{IsCoreDocument};
ghost use Rattle.executor.specs.Running.{program_of, slots_of, state_of, chosen_step};
ghost use Rattle.fixed_runs.specs.Answers.{CoreFixedRuns};

use core_terms::CDocument;
use executor::{Runner, Stepped};
use run_traces::RunError;
use std::alloc::Global;
use unity_base::Sink;

/// The call `step` of a runner, with its clauses.
pub fn step(runner: &mut Runner, choice: u32) -> Stepped
    requires { choice < length (program_of runner.old).statements }
    ensures done { result ≡ Stepped.Done →
        chosen_step (slots_of runner.old) (program_of runner.old) choice (state_of runner.old)
        ≡ Some (state_of runner.new) }
    ensures undefined { result ≡ Stepped.Undefined →
        chosen_step (slots_of runner.old) (program_of runner.old) choice (state_of runner.old) ≡ None }
    ensures unchanged { result ≡ Stepped.Undefined → state_of runner.new ≡ state_of runner.old }
    ensures program { program_of runner.new ≡ program_of runner.old }
    ensures slots { slots_of runner.new ≡ slots_of runner.old }
{
    runner.step(choice)
}

/// The call `run_to_fixed` of `fixed_runs`, with its clauses.
pub fn run_to_fixed<K: Sink>(
    alloc: Global,
    doc: &CDocument,
    program: &[u8],
    steps: u64,
    out: &mut K,
) -> Result<Stepped, RunError>
    requires { IsCoreDocument doc.now }
    ensures answer { CoreFixedRuns doc.now program.now steps (K.written out.old) (K.written out.new) result }
    ensures cause { IsTold (K.faults out.old) (K.faults out.new) (IsErrOf result RunError.Failed) }
    ensures untouched { IsErr result → (IsErrOf result RunError.Failed → ⊥) → out.new ≡ out.old }
{
    fixed_runs::run_to_fixed(alloc, doc, program, steps, out)
}
