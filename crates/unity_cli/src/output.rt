// Writing answers.
ghost use Rattle.std.specs.Prelude.{◌≡◌, ◌≢◌, ◌⊎◌, List, ℕ, IfOk, Err};
ghost use Rattle.run_traces.specs.declared.error.RunError.{RunError};
ghost use Rattle.std.specs.Io.KnownBytes.{Appends};
ghost use Rattle.unity_base.specs.Streams.{IsTold, AppendsPart};
ghost use Rattle.unity_cli.specs.Status.{HasText};
ghost use Rattle.unity_cli.specs.Answering.{TellsBad, CommandEndsAs};

use crate::status::Status;
use case_tables::Code;
use cli_texts::{document_fault, input_refusal};
use executor::Stepped;
use run_traces::RunError;
use std::alloc::{AllocError, Global};
use unity_base::{Sink, write_all};

/// A status with its whole text.
#[derive(Drop)]
pub struct Answer {
    pub status: Status,
    pub text: Vec<u8>,
}

impl Answer {
    /// What cannot be used, with the text that says why.
    pub fn bad(text: Vec<u8>) -> Answer
        ensures status { result.status ≡ Status.BadDocument }
        ensures text { result.text.items ≡ text.items }
    {
        Answer {
            status: Status::BadDocument,
            text,
        }
    }
}

/// Writes the text of an answer. The status is the answer's, or `WriteFault` where a write failed.
pub fn write_answer<K: Sink>(answer: &Answer, out: &mut K) -> Status
    requires { HasText answer.now.status }
    ensures whole { HasText result → Appends (K.written out.old) (K.written out.new) answer.now.text.items }
    ensures status { HasText result → result ≡ answer.now.status }
    ensures part { result ≡ Status.WriteFault →
        AppendsPart (K.written out.old) (K.written out.new) answer.now.text.items }
    ensures never { (result ≡ Status.ReadFault) ⊎ (result ≡ Status.WantOfMemory) → ⊥ }
    ensures cause { IsTold (K.faults out.old) (K.faults out.new) (result ≡ Status.WriteFault) }
{
    match write_all(out, &answer.text) {
        Ok(()) => answer.status,
        Err(_) => Status::WriteFault,
    }
}

/// Writes why something cannot be used. `WantOfMemory` comes where there is no text, and then nothing is written.
pub fn write_bad<K: Sink>(text: Result<Vec<u8>, AllocError>, out: &mut K) -> Status
    ensures told { (bytes : List ℕ) → IfOk text (λ t. t.items ≡ bytes) →
        TellsBad bytes (K.written out.old) (K.written out.new) result }
    ensures nothing { result ≡ Status.WantOfMemory → out.new ≡ out.old }
    ensures never { result ≡ Status.ReadFault → ⊥ }
    ensures cause { IsTold (K.faults out.old) (K.faults out.new) (result ≡ Status.WriteFault) }
{
    let Ok(text) = text else {
        return Status::WantOfMemory;
    };
    match write_all(out, &text) {
        Ok(()) => Status::BadDocument,
        Err(_) => Status::WriteFault,
    }
}

/// The status of a run or a replay that ended so, once its refusal is written where it has one.
pub fn write_end<K: Sink>(alloc: Global, ended: Result<Stepped, RunError>, out: &mut K) -> Status
    ensures told { CommandEndsAs ended (K.written out.old) (K.written out.new) result }
    ensures nothing { result ≡ Status.WantOfMemory → out.new ≡ out.old }
    ensures never { result ≡ Status.ReadFault → ⊥ }
    ensures failed { ended ≡ Err RunError.Failed → (result ≡ Status.WriteFault) × (out.new ≡ out.old) }
    ensures cause { ended ≢ Err RunError.Failed →
        IsTold (K.faults out.old) (K.faults out.new) (result ≡ Status.WriteFault) }
{
    match ended {
        Ok(Stepped::Done) => Status::Done,
        Ok(Stepped::Undefined) => Status::Undefined,
        Err(RunError::NoProgram) => write_bad(input_refusal(alloc, Code::NoProgram), out),
        Err(RunError::NoSchedule) => write_bad(input_refusal(alloc, Code::NoSchedule), out),
        Err(RunError::NoSuchStatement { at }) => {
            write_bad(document_fault(alloc, Code::NoSuchStatement, at), out)
        }
        Err(RunError::NotInitial) => write_bad(input_refusal(alloc, Code::NoStart), out),
        Err(RunError::Failed) => Status::WriteFault,
        Err(RunError::Memory) => Status::WantOfMemory,
    }
}
