// The command `upgrade`: a document in version 2.
ghost use Rattle.std.specs.Prelude.{◌≡◌, ◌<◌, ◌++◌, ◌∷◌, suc, length, take, drop, IfOk};
ghost use Rattle.unity_base.specs.Streams.{IsTold};
ghost use Rattle.unity_cli.specs.Admitted.{greatest_bare_size};
ghost use Rattle.unity_cli.specs.Answer.Upgrade.{Upgraded};
ghost use Rattle.cli_words.specs.Requests as requests;
ghost use Rattle.unity_cli.specs.Answering.{IsUpgradedFor, TellsText};
ghost use Rattle.unity_cli.specs.Input.{IsAdmittedAs, IsSomeText};

use crate::check::check_bytes;
use crate::input::{Input, Text};
use crate::output::{Answer, write_answer};
use crate::status::Status;
use case_tables::Code;
use cli_texts::{document_fault, input_refusal};
use std::alloc::{AllocError, Global};
use streamed_documents::ReadDocument;
use unity_base::Sink;

// What `upgrade` answers for a text.
fn upgrade(alloc: Global, text: Text) -> Result<Answer, AllocError>
    requires { IsSomeText greatest_bare_size text }
    ensures { IfOk result (IsUpgradedFor text) }
{
    let Text { bytes, input } = text;
    match input {
        Input::TooLong => Ok(Answer::bad(input_refusal(alloc, Code::TooLong)?)),
        Input::Fault { code, at } => Ok(Answer::bad(document_fault(alloc, code, at)?)),
        Input::Document(reading) => upgrade_document(alloc, bytes, reading.into_inner()),
    }
}

// What `upgrade` answers for a document of these bytes.
fn upgrade_document(
    alloc: Global,
    bytes: Vec<u8>,
    reading: ReadDocument,
) -> Result<Answer, AllocError>
    requires { IsAdmittedAs greatest_bare_size bytes.items reading }
    ensures { IfOk result (λ a. Upgraded bytes.items a.status a.text.items) }
{
    let place = number_of(reading);
    let answer = check_bytes(alloc, &bytes)?;
    match answer.status {
        Status::Done => Ok(Answer {
            status: Status::Done,
            text: with_two(bytes, place),
        }),
        _ => Ok(answer),
    }
}

// The place of the version's number in a document, which is let go.
fn number_of(reading: ReadDocument) -> u64
    ensures { result ≡ reading.number_at }
{
    reading.number_at
}

// The text with a `2` at the place.
fn with_two(bytes: Vec<u8>, place: u64) -> Vec<u8>
    requires { place < length bytes.items }
    ensures { result.items ≡ take place bytes.items ++ 50 ∷ drop (suc place) bytes.items }
{
    let mut text = bytes;
    text[place as usize] = b'2';
    text
}

/// Writes what `upgrade` answers for the text.
pub fn write_upgrade<K: Sink>(alloc: Global, text: Text, out: &mut K) -> Status
    requires { IsSomeText greatest_bare_size text }
    ensures told { TellsText requests.upgrade text (K.written out.old) (K.written out.new) result }
    ensures nothing { result ≡ Status.WantOfMemory → out.new ≡ out.old }
    ensures never { result ≡ Status.ReadFault → ⊥ }
    ensures cause { IsTold (K.faults out.old) (K.faults out.new) (result ≡ Status.WriteFault) }
{
    match upgrade(alloc, text) {
        Ok(answer) => write_answer(&answer, out),
        Err(_) => Status::WantOfMemory,
    }
}
