// The command `watch`: the trace of a document's schedule, read for what the proof of its program claims.
ghost use Rattle.std.specs.Prelude.{◌≡◌, IfOk, Ok, Err};
ghost use Rattle.unity_base.specs.Streams.{IsTold};
ghost use Rattle.cli_words.specs.Requests as requests;
ghost use Rattle.watch_correct.specs.Watched as watched;
ghost use Rattle.unity_cli.specs.Admitted.{greatest_size};
ghost use Rattle.unity_cli.specs.Answer.Watch.{ending_status};
ghost use Rattle.unity_cli.specs.Answering.{IsWatchedFor, IsStoppedFor, IsWatchedIn, TellsInput};
ghost use Rattle.unity_cli.specs.Input.{IsSomeInput, IsSomeAdmitted};

use crate::input::Input;
use crate::output::{Answer, write_answer};
use crate::status::Status;
use case_tables::Code;
use cli_texts::{document_fault, input_refusal, rejected};
use std::alloc::{AllocError, Global};
use streamed_documents::ReadDocument;
use trace_watch::Ending;
use unity_base::{Seq, Sink};
use watch_schedules::{WatchStop, ending_text, watch_schedule};

// What `watch` answers for the input.
fn watch(alloc: Global, input: &Input) -> Result<Answer, AllocError>
    requires { IsSomeInput greatest_size input.now }
    ensures { IfOk result (IsWatchedFor input.now) }
{
    match input {
        Input::TooLong => Ok(Answer::bad(input_refusal(alloc, Code::TooLong)?)),
        Input::Fault { code, at } => Ok(Answer::bad(document_fault(alloc, *code, *at)?)),
        Input::Document(reading) => watch_document(alloc, reading.get()),
    }
}

// What `watch` answers for a document.
fn watch_document(alloc: Global, reading: &ReadDocument) -> Result<Answer, AllocError>
    requires { IsSomeAdmitted greatest_size reading.now }
    ensures { IfOk result (IsWatchedIn reading.now) }
{
    match watch_schedule(alloc, &reading.core) {
        Ok(found) => Ok(Answer {
            status: status_of(found.ending),
            text: ending_text(alloc, &reading.core, &found)?,
        }),
        Err(stop) => stopped(alloc, reading.core.words.as_slice(), stop),
    }
}

// The status of a trace that ends so.
fn status_of(ending: Ending) -> Status
    ensures { result ≡ ending_status ending }
{
    match ending {
        Ending::Violated { .. } => Status::Violated,
        Ending::Unviolated => Status::Done,
    }
}

// What is answered where the schedule is not watched.
fn stopped(alloc: Global, words: &[Seq<u8>], stop: WatchStop) -> Result<Answer, AllocError>
    ensures { IfOk result (IsStoppedFor words.now stop) }
{
    match stop {
        WatchStop::NoSchedule => Ok(Answer::bad(input_refusal(alloc, Code::NoSchedule)?)),
        WatchStop::NoSuchStatement { at } => {
            Ok(Answer::bad(document_fault(alloc, Code::NoSuchStatement, at)?))
        }
        WatchStop::NotInitial => Ok(Answer::bad(input_refusal(alloc, Code::NoStart)?)),
        WatchStop::NoProof => Ok(Answer::bad(input_refusal(alloc, Code::NoProof)?)),
        WatchStop::Step(fault) => Ok(Answer {
            status: Status::Rejected,
            text: rejected(alloc, words, &fault)?,
        }),
        WatchStop::TooManyCases => Ok(Answer::bad(input_refusal(alloc, Code::TooManyCases)?)),
        WatchStop::Memory => Err(AllocError),
    }
}

/// Writes what `watch` answers for the input.
pub fn write_watch<K: Sink>(alloc: Global, input: &Input, out: &mut K) -> Status
    requires { IsSomeInput greatest_size input.now }
    ensures told { TellsInput requests.watch input.now (K.written out.old) (K.written out.new) result }
    ensures nothing { result ≡ Status.WantOfMemory → out.new ≡ out.old }
    ensures never { result ≡ Status.ReadFault → ⊥ }
    ensures cause { IsTold (K.faults out.old) (K.faults out.new) (result ≡ Status.WriteFault) }
{
    match watch(alloc, input) {
        Ok(answer) => write_answer(&answer, out),
        Err(_) => Status::WantOfMemory,
    }
}
