// What reads and judges a document as it comes.
ghost use Rattle.std.specs.Prelude.{◌≡◌, ◌⊎◌, ◌≤◌, ◌^◌, ℕ, List, Some, IfOk, IsErrOf, OnOk};
ghost use Rattle.std.specs.Io.KnownBytes.{IsAtEnd};
ghost use Rattle.unity_base.specs.Streams.{IsLongerThan, IsTold, LeavesRest};
ghost use Rattle.streamed_documents.specs.Found.{IsFound, IsReading};

use std::alloc::{AllocError, Global};
use streamed_documents::{Finding, Reading, SourceStop};
use unity_base::Source;

/// The call `judge_source` of `streamed_documents`, with its clauses.
pub fn judge_source<S: Source>(
    alloc: Global,
    src: &mut S,
    most: usize,
) -> Result<Finding, SourceStop>
    requires { most ≤ 2 ^ 29 }
    ensures found { IfOk result (λ found. (bytes : List ℕ) → S.left src.old ≡ Some bytes → IsFound most bytes found) }
    ensures end { OnOk result (IsAtEnd (S.left src.new) ⊎ IsLongerThan most (S.left src.old)) }
    ensures rest { LeavesRest (S.left src.old) (S.left src.new) }
    ensures cause { IsTold (S.faults src.old) (S.faults src.new) (IsErrOf result SourceStop.Failed) }
{
    streamed_documents::judge_source(alloc, src, most)
}

/// The call `read_source` of `streamed_documents`, with its clauses.
pub fn read_source<S: Source>(
    alloc: Global,
    src: &mut S,
    most: usize,
) -> Result<Reading, SourceStop>
    requires { most ≤ 2 ^ 29 }
    ensures found { IfOk result (λ found. (bytes : List ℕ) → S.left src.old ≡ Some bytes →
        IsReading most bytes found) }
    ensures end { OnOk result (IsAtEnd (S.left src.new) ⊎ IsLongerThan most (S.left src.old)) }
    ensures rest { LeavesRest (S.left src.old) (S.left src.new) }
    ensures cause { IsTold (S.faults src.old) (S.faults src.new) (IsErrOf result SourceStop.Failed) }
{
    streamed_documents::read_source(alloc, src, most)
}

/// The call `read_bytes` of `streamed_documents`, with its clause.
pub fn read_bytes(alloc: Global, bytes: &[u8], most: usize) -> Result<Reading, AllocError>
    requires { most ≤ 2 ^ 29 }
    ensures { IfOk result (IsReading most bytes.now) }
{
    streamed_documents::read_bytes(alloc, bytes, most)
}
