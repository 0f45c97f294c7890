// What the process does: the answer over a reader and a writer, and its exit.
ghost use Rattle.std.specs.Prelude.{◌≡◌, ◌≢◌, ◌≤◌, ◌↔◌, ℕ, List, Some, false};
ghost use Rattle.std.specs.Process.{exit_status};
ghost use Rattle.unity_syntax.specs.declared.document.Document.{Document};
ghost use Rattle.unity_parser.specs.Document.{IsDocument};
ghost use Rattle.cli_words.specs.Requests.{asked, check, watch};
ghost use Rattle.unity_cli.specs.Answer.{reads_source, IsSaidOf};
ghost use Rattle.unity_cli.specs.Exits.{ExitTells, IsAnswered};
ghost use Rattle.unity_cli.specs.Truth.{ClaimsAreTrue, ProgramsRun};
ghost use Rattle.unity_cli.specs.Starts.{ProgramsStart};
ghost use Rattle.unity_cli.specs.Following.{FollowsTheRules};

use crate::top::unity;
use std::alloc::Global;
use std::io::{Read, Write};
use std::process::ExitCode;
use unity_base::{RealSink, RealSource};

/// Answers the words over what a reader gives, on a writer. The exit is the number of the status of `unity`.
///
/// A writer may take bytes and tell nothing of it, so nothing is said here of what was written: the clauses of `unity`
/// say it, of a sink that tells.
pub fn exit_for<R: Read + Drop, W: Write + Drop>(
    alloc: Global,
    words: &[String],
    reader: R,
    writer: W,
) -> ExitCode
    ensures number { exit_status result ≤ 10 }
    // The exit is that of the answer for the words and the bytes that the reader had left.
    ensures answer { IsAnswered (exit_status result) → IsSaidOf (asked words.now) (R.remaining reader) →
        ExitTells (asked words.now) (R.remaining reader) (exit_status result) }

    // `check` exits with 0 exactly where the document's proofs follow the rules, and then what they claim is true, and
    // their programs have executions, one of which begins with the program's start state.
    ensures follows { IsAnswered (exit_status result) → asked words.now ≡ Some check → (bytes : List ℕ) →
        R.remaining reader ≡ Some bytes → (exit_status result ≡ 0) ↔ FollowsTheRules bytes }
    ensures safe { exit_status result ≡ 0 → asked words.now ≡ Some check → (bytes : List ℕ) (d : Document) →
        R.remaining reader ≡ Some bytes → IsDocument bytes d → ClaimsAreTrue d }
    ensures runs { exit_status result ≡ 0 → asked words.now ≡ Some check → (bytes : List ℕ) (d : Document) →
        R.remaining reader ≡ Some bytes → IsDocument bytes d → ProgramsRun d }
    ensures starts { exit_status result ≡ 0 → asked words.now ≡ Some check → (bytes : List ℕ) (d : Document) →
        R.remaining reader ≡ Some bytes → IsDocument bytes d → ProgramsStart d }

    // A trace that violates a step is none of an accepted document.
    ensures kept { exit_status result ≡ 10 → asked words.now ≡ Some watch → (bytes : List ℕ) →
        R.remaining reader ≡ Some bytes → FollowsTheRules bytes → ⊥ }

    // For words that are no command, and for a ring, the reader is not read.
    ensures not_read { reads_source (asked words.now) ≡ false → exit_status result ≢ 7 }
{
    let mut src = RealSource::new(reader);
    let mut out = RealSink::new(writer);
    let status = unity(alloc, words, &mut src, &mut out);
    ExitCode::from(status.number())
}
