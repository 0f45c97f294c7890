// The top call.
ghost use Rattle.std.specs.Prelude.{◌≡◌, ◌≢◌, ◌⊎◌, ◌↔◌, ℕ, List, Some, true, false};
ghost use Rattle.std.specs.Io.KnownBytes.{IsAtEnd};
ghost use Rattle.unity_base.specs.Streams.{IsTold, IsLongerThan, LeavesRest};
ghost use Rattle.unity_syntax.specs.declared.document.Document.{Document};
ghost use Rattle.unity_parser.specs.Document.{IsDocument};
ghost use Rattle.cli_words.specs.Requests.{asked, check, watch};
ghost use Rattle.unity_cli.specs.Status.{HasText};
ghost use Rattle.unity_cli.specs.Answer.Check.{WritesCheckText, WritesCheckPart};
ghost use Rattle.unity_cli.specs.Answer.{most_bytes, reads_source, IsSaidOf, Tells, TellsPart};
ghost use Rattle.unity_cli.specs.Truth.{ClaimsAreTrue, ProgramsRun, WritesWhatIsTrue};
ghost use Rattle.unity_cli.specs.Starts.{ProgramsStart};
ghost use Rattle.unity_cli.specs.Following.{FollowsTheRules};
ghost use Rattle.unity_cli.specs.Watching.{WritesEnding, WritesFirstViolation};
ghost use Rattle.trace_watch.specs.declared.tracing.Ending.{Ending};

use crate::check::check_source;
use crate::commands::{most_bytes, write_command};
use crate::constants::{constant_of, write_constant};
use crate::demo::write_demo;
use crate::input::read_input;
use crate::status::Status;
use cli_words::{Command, read_words};
use std::alloc::Global;
use unity_base::{Sink, Source, write_all};

/// Reads the words, and the source where they ask for it, and writes the answer.
pub fn unity<S: Source, K: Sink>(
    alloc: Global,
    words: &[String],
    src: &mut S,
    out: &mut K,
) -> Status
    // What is written is the answer for the words and the bytes that were left.
    ensures answer { HasText result → IsSaidOf (asked words.now) (S.left src.old) →
        Tells (asked words.now) (S.left src.old) result (K.written out.old) (K.written out.new) }
    ensures part { result ≡ Status.WriteFault → IsSaidOf (asked words.now) (S.left src.old) →
        TellsPart (asked words.now) (S.left src.old) (K.written out.old) (K.written out.new) }
    // Of whatever source, what `check` writes has the form of its answers.
    ensures form { HasText result → asked words.now ≡ Some check →
        WritesCheckText result (K.written out.old) (K.written out.new) }
    ensures part_form { result ≡ Status.WriteFault → asked words.now ≡ Some check →
        WritesCheckPart (K.written out.old) (K.written out.new) }
    ensures nothing { (result ≡ Status.ReadFault) ⊎ (result ≡ Status.WantOfMemory) → out.new ≡ out.old }

    // A document is accepted exactly where its proofs follow the rules.
    ensures follows { HasText result → asked words.now ≡ Some check → (bytes : List ℕ) →
        S.left src.old ≡ Some bytes → (result ≡ Status.Done) ↔ FollowsTheRules bytes }

    // What the proofs of an accepted document claim is true, each leads-to within the bound that is written; and their
    // programs have executions, one of which begins with the program's start state.
    ensures safe { result ≡ Status.Done → asked words.now ≡ Some check → (bytes : List ℕ) (d : Document) →
        S.left src.old ≡ Some bytes → IsDocument bytes d → ClaimsAreTrue d }
    ensures bounds { result ≡ Status.Done → asked words.now ≡ Some check → (bytes : List ℕ) (d : Document) →
        S.left src.old ≡ Some bytes → IsDocument bytes d →
        WritesWhatIsTrue d (K.written out.old) (K.written out.new) }
    ensures runs { result ≡ Status.Done → asked words.now ≡ Some check → (bytes : List ℕ) (d : Document) →
        S.left src.old ≡ Some bytes → IsDocument bytes d → ProgramsRun d }
    ensures starts { result ≡ Status.Done → asked words.now ≡ Some check → (bytes : List ℕ) (d : Document) →
        S.left src.old ≡ Some bytes → IsDocument bytes d → ProgramsStart d }

    // The trace of a document's schedule is told to violate a step exactly at its first violation of what the
    // document's own proof claims, by its own steps: at the least place, there of the first step, and of this in the
    // first case. Where the document is accepted there is none.
    ensures violated { result ≡ Status.Violated → asked words.now ≡ Some watch → (bytes : List ℕ) (d : Document) →
        S.left src.old ≡ Some bytes → IsDocument bytes d →
        WritesFirstViolation d (K.written out.old) (K.written out.new) }
    ensures unviolated { result ≡ Status.Done → asked words.now ≡ Some watch → (bytes : List ℕ) (d : Document) →
        S.left src.old ≡ Some bytes → IsDocument bytes d →
        WritesEnding d Ending.Unviolated (K.written out.old) (K.written out.new) }
    ensures kept { result ≡ Status.Violated → asked words.now ≡ Some watch → (bytes : List ℕ) →
        S.left src.old ≡ Some bytes → FollowsTheRules bytes → ⊥ }

    // For words that are no command, for a ring, and for a text that is always the same, the source is not read.
    ensures untouched { reads_source (asked words.now) ≡ false → src.new ≡ src.old }
    ensures not_read { reads_source (asked words.now) ≡ false → result ≢ Status.ReadFault }

    // A source that was read was read to its end, or past the greatest number of bytes for them.
    ensures end { reads_source (asked words.now) ≡ true → result ≢ Status.ReadFault → result ≢ Status.WantOfMemory →
        IsAtEnd (S.left src.new) ⊎ IsLongerThan (most_bytes (asked words.now)) (S.left src.old) }
    ensures rest { LeavesRest (S.left src.old) (S.left src.new) }

    // A fault has its cause, and none is taken for something else.
    ensures source { IsTold (S.faults src.old) (S.faults src.new) (result ≡ Status.ReadFault) }
    ensures sink { IsTold (K.faults out.old) (K.faults out.new) (result ≡ Status.WriteFault) }
{
    let Some(command) = read_words(words) else {
        return match write_all(out, b"bad words\n") {
            Ok(()) => Status::BadWords,
            Err(_) => Status::WriteFault,
        };
    };
    if let Some(text) = constant_of(&command) {
        return write_constant(text, out);
    }
    if let Command::Demo { places } = command {
        return write_demo(alloc, places, out);
    }
    if let Command::Check = command {
        return check_source(alloc, src, out);
    }
    match read_input(alloc, src, most_bytes(&command)) {
        Ok(text) => write_command(alloc, &command, text, out),
        Err(stop) => stop.status(),
    }
}
