// The command `replay`: the trace of a document's schedule.
ghost use Rattle.std.specs.Prelude.{◌≡◌};
ghost use Rattle.unity_base.specs.Streams.{IsTold};
ghost use Rattle.cli_words.specs.Requests.{replay};
ghost use Rattle.unity_cli.specs.Admitted.{greatest_size};
ghost use Rattle.unity_cli.specs.Answering.{TellsAdmitted};
ghost use Rattle.unity_cli.specs.Input.{IsSomeAdmitted};

use crate::output::write_end;
use crate::status::Status;
use run_traces::replay_schedule;
use std::alloc::Global;
use streamed_documents::ReadDocument;
use unity_base::Sink;

/// Writes what `replay` answers for a document.
pub fn replay_document<K: Sink>(alloc: Global, reading: &ReadDocument, out: &mut K) -> Status
    requires { IsSomeAdmitted greatest_size reading.now }
    ensures told { TellsAdmitted replay reading.now (K.written out.old) (K.written out.new) result }
    ensures nothing { result ≡ Status.WantOfMemory → out.new ≡ out.old }
    ensures never { result ≡ Status.ReadFault → ⊥ }
    ensures cause { IsTold (K.faults out.old) (K.faults out.new) (result ≡ Status.WriteFault) }
{
    let ended = replay_schedule(alloc, &reading.core, out);
    write_end(alloc, ended, out)
}
