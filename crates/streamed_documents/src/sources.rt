//! What a source has: the verdict on it, or what it is read as.
ghost use Rattle.std.specs.Prelude.{◌≡◌, ◌⊎◌, ◌^◌, ◌≤◌, ℕ, List, Some, IfOk, OnOk, IsErrOf};
ghost use Rattle.std.specs.Io.KnownBytes.{IsAtEnd};
ghost use Rattle.unity_base.specs.Streams.{IsTold, IsLongerThan, LeavesRest};
ghost use Rattle.streamed_documents.specs.Found.{IsFound, IsReading};
ghost use Rattle.streamed_documents.specs.Fronts.{IsPassage, IsPassageFor};

use crate::found::{Finding, Flaw, Reading, SourceStop};
use crate::fronts::{Listener, Passage, pass_front};
use crate::outcomes::{read_as, settled};
use crate::rests::drained;
use crate::slices::SliceSource;
use std::alloc::{AllocError, Global};
use unity_base::{Source, Window};
use unity_lexer::{FrontError, read_front};

/// Reads a source to its end, or past so many bytes, and tells a listener the certificates of the document that it
/// gave.
fn read_through<S: Source>(
    alloc: Global,
    src: &mut S,
    most: usize,
    listener: Listener,
) -> Result<Passage, SourceStop>
    requires { most ≤ 2 ^ 29 }
    ensures found { IfOk result (λ found. (bytes : List ℕ) → S.left src.old ≡ Some bytes →
        IsPassage most bytes found) }
    ensures ready { IfOk result (IsPassageFor listener) }
    ensures end { OnOk result (IsAtEnd (S.left src.new) ⊎ IsLongerThan most (S.left src.old)) }
    ensures rest { LeavesRest (S.left src.old) (S.left src.new) }
    ensures cause { IsTold (S.faults src.old) (S.faults src.new) (IsErrOf result SourceStop.Failed) }
{
    let mut w = Window::new(alloc, most as u64)?;
    match read_front(alloc, &mut w, src) {
        Ok(front) => pass_front(alloc, &mut w, src, front, listener),
        Err(FrontError::Fault { code, at }) => {
            Ok(Passage::Refused(drained(&mut w, src, code, at)?))
        }
        Err(FrontError::TooLong) => Ok(Passage::Refused(Flaw::TooLong)),
        Err(FrontError::Failed) => Err(SourceStop::Failed),
        Err(FrontError::Memory) => Err(SourceStop::Memory),
    }
}

/// Reads a source to its end, or past so many bytes, and says what text it gave: a document without a fault, with the
/// verdict on its proofs and certificates, or why there is none.
///
/// What stands before the word `certificates` is held until the section begins; the section is never held. Nothing is
/// read twice. A fault of an earlier kind comes before one of a later kind, wherever they stand: more bytes than the
/// limit, bytes that are no token, a token that no document has there, a fault of names, of the expansion, and then the
/// verdict.
///
/// The error is that a read failed, only where the source's count of faults rose, or that memory was refused.
pub fn judge_source<S: Source>(
    alloc: Global,
    src: &mut S,
    most: usize,
) -> Result<Finding, SourceStop>
    requires { most ≤ 2 ^ 29 }
    ensures found { IfOk result (λ found. (bytes : List ℕ) → S.left src.old ≡ Some bytes → IsFound most bytes found) }
    ensures end { OnOk result (IsAtEnd (S.left src.new) ⊎ IsLongerThan most (S.left src.old)) }
    ensures rest { LeavesRest (S.left src.old) (S.left src.new) }
    ensures cause { IsTold (S.faults src.old) (S.faults src.new) (IsErrOf result SourceStop.Failed) }
{
    match read_through(alloc, src, most, Listener::Judge)? {
        Passage::Refused(flaw) => Ok(Finding::Refused(flaw)),
        Passage::Passed(pending) => Ok(settled(alloc, pending)?),
    }
}

/// Reads a source as `judge_source` does, and says what text it gave: a document without a fault, or why there is none.
/// Its certificates are read and not judged.
pub fn read_source<S: Source>(
    alloc: Global,
    src: &mut S,
    most: usize,
) -> Result<Reading, SourceStop>
    requires { most ≤ 2 ^ 29 }
    ensures found { IfOk result (λ found. (bytes : List ℕ) → S.left src.old ≡ Some bytes →
        IsReading most bytes found) }
    ensures end { OnOk result (IsAtEnd (S.left src.new) ⊎ IsLongerThan most (S.left src.old)) }
    ensures rest { LeavesRest (S.left src.old) (S.left src.new) }
    ensures cause { IsTold (S.faults src.old) (S.faults src.new) (IsErrOf result SourceStop.Failed) }
{
    match read_through(alloc, src, most, Listener::Nobody)? {
        Passage::Refused(flaw) => Ok(Reading::Refused(flaw)),
        Passage::Passed(pending) => Ok(read_as(pending)),
    }
}

/// What `judge_source` finds of a source that has these bytes. The error is that memory was refused.
pub fn judge_bytes(alloc: Global, bytes: &[u8], most: usize) -> Result<Finding, AllocError>
    requires { most ≤ 2 ^ 29 }
    ensures { IfOk result (IsFound most bytes.now) }
{
    match judge_source(alloc, &mut SliceSource::new(bytes), most) {
        Ok(found) => Ok(found),
        Err(SourceStop::Failed) => unreachable!(),
        Err(SourceStop::Memory) => Err(AllocError),
    }
}

/// What `read_source` finds of a source that has these bytes. The error is that memory was refused.
pub fn read_bytes(alloc: Global, bytes: &[u8], most: usize) -> Result<Reading, AllocError>
    requires { most ≤ 2 ^ 29 }
    ensures { IfOk result (IsReading most bytes.now) }
{
    match read_source(alloc, &mut SliceSource::new(bytes), most) {
        Ok(found) => Ok(found),
        Err(SourceStop::Failed) => unreachable!(),
        Err(SourceStop::Memory) => Err(AllocError),
    }
}
