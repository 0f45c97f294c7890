// What a source gives: a document without a fault, or why there is none.
ghost use Rattle.std.specs.Prelude.{◌≤◌, ◌⊎◌, ◌^◌, ℕ, List, IfOk, OnOk, IsErrOf};
ghost use Rattle.std.specs.Io.KnownBytes.{IsAtEnd};
ghost use Rattle.unity_base.specs.Streams.{IsTold, IsLongerThan, LeavesRest};
ghost use Rattle.streamed_documents.specs.Found.{IsReading, IsRefused};
ghost use Rattle.unity_cli.specs.Input.{IsInput, IsTextOf};

use crate::stop::Stop;
use case_tables::Code;
use std::alloc::{AllocError, Global};
use streamed_documents::{self as documents, Flaw, ReadDocument, Reading};
use unity_base::{Held, ReadError, Source, read_all};

/// What some bytes are.
#[derive(Drop)]
pub enum Input {
    /// They are more than the command takes.
    TooLong,
    /// They are no document without a fault, with the code and the place of the first fault: of the text,
    /// or else of the names, or else of the expansion.
    Fault { code: Code, at: u64 },
    /// They are a document, of which this is kept.
    Document(Held<ReadDocument>),
}

// What bytes are that are refused so.
fn refused(flaw: Flaw) -> Input
    ensures { (most : ℕ) (bytes : List ℕ) → IsRefused most bytes flaw → IsInput most bytes result }
{
    match flaw {
        Flaw::TooLong => Input::TooLong,
        Flaw::Fault { code, at } => Input::Fault { code, at },
    }
}

// What bytes are that are read so.
fn input_of(reading: Reading) -> Input
    ensures { (most : ℕ) (bytes : List ℕ) → IsReading most bytes reading → IsInput most bytes result }
{
    match reading {
        Reading::Refused(flaw) => refused(flaw),
        Reading::Document(document) => Input::Document(document),
    }
}

/// What the bytes are. The certificates of a document are read token by token, and not kept.
pub fn read_bytes(alloc: Global, bytes: &[u8], most: usize) -> Result<Input, AllocError>
    requires { most ≤ 2 ^ 29 }
    ensures { IfOk result (IsInput most bytes.now) }
{
    let reading = documents::read_bytes(alloc, bytes, most)?;
    Ok(input_of(reading))
}

/// What a source gave.
#[derive(Drop)]
pub struct Text {
    /// The bytes; none where they are too many.
    pub bytes: Vec<u8>,
    /// What they are.
    pub input: Input,
}

/// Reads the source to its end, or past so many bytes, and says what it gave.
pub fn read_input<S: Source>(alloc: Global, src: &mut S, most: usize) -> Result<Text, Stop>
    requires { most ≤ 2 ^ 29 }
    ensures input { IfOk result (IsTextOf most (S.left src.old)) }
    ensures end { OnOk result (IsAtEnd (S.left src.new) ⊎ IsLongerThan most (S.left src.old)) }
    ensures rest { LeavesRest (S.left src.old) (S.left src.new) }
    ensures never { IsErrOf result Stop.WriteFault → ⊥ }
    ensures cause { IsTold (S.faults src.old) (S.faults src.new) (IsErrOf result Stop.ReadFault) }
{
    match read_all(alloc, src, most) {
        Ok(bytes) => {
            let input = read_bytes(alloc, &bytes, most)?;
            Ok(Text { bytes, input })
        }
        Err(ReadError::TooLong) => Ok(Text {
            bytes: Vec::new(alloc),
            input: Input::TooLong,
        }),
        Err(ReadError::Failed) => Err(Stop::ReadFault),
        Err(ReadError::Memory) => Err(Stop::Memory),
    }
}
