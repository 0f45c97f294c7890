// The command `fixed`: the trace of a program of a document up to its first fixed point.
ghost use Rattle.std.specs.Prelude.{◌≡◌};
ghost use Rattle.unity_base.specs.Streams.{IsTold};
ghost use Rattle.cli_words.specs.Requests.{fixed};
ghost use Rattle.unity_cli.specs.Admitted.{greatest_size};
ghost use Rattle.unity_cli.specs.Answering.{TellsAdmitted};
ghost use Rattle.unity_cli.specs.Input.{IsSomeAdmitted};

use crate::output::write_end;
use crate::status::Status;
use fixed_runs::run_to_fixed;
use std::alloc::Global;
use streamed_documents::ReadDocument;
use unity_base::Sink;

/// Writes what `fixed PROGRAM STEPS` answers for a document.
pub fn fixed_document<K: Sink>(
    alloc: Global,
    program: &str,
    steps: u64,
    reading: &ReadDocument,
    out: &mut K,
) -> Status
    requires { IsSomeAdmitted greatest_size reading.now }
    ensures told { TellsAdmitted (fixed program.now steps) reading.now (K.written out.old) (K.written out.new) result }
    ensures nothing { result ≡ Status.WantOfMemory → out.new ≡ out.old }
    ensures never { result ≡ Status.ReadFault → ⊥ }
    ensures cause { IsTold (K.faults out.old) (K.faults out.new) (result ≡ Status.WriteFault) }
{
    let ended = run_to_fixed(alloc, &reading.core, program.as_bytes(), steps, out);
    write_end(alloc, ended, out)
}
