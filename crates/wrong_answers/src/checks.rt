// What the program's one call accepts.
ghost use Rattle.std.specs.Prelude.{◌≡◌, ◌↔◌, ℕ, List, Some};
ghost use Rattle.unity_syntax.specs.declared.document.Document.{Document};
ghost use Rattle.unity_parser.specs.Document.{IsDocument};
ghost use Rattle.cli_words.specs.Requests.{asked, check};
ghost use Rattle.unity_cli.specs.Status.{HasText};
ghost use Rattle.unity_cli.specs.Answer.Check.{WritesCheckText, WritesCheckPart};
ghost use Rattle.unity_cli.specs.Truth.{ClaimsAreTrue, ProgramsRun, WritesWhatIsTrue};
ghost use Rattle.unity_cli.specs.Starts.{ProgramsStart};
ghost use Rattle.unity_cli.specs.Following.{FollowsTheRules};

use std::alloc::Global;
use unity_base::{Sink, Source};
use unity_cli::Status;

/// The call `unity` of `unity_cli`, with its clauses on `check`.
pub fn unity_checks<S: Source, K: Sink>(
    alloc: Global,
    words: &[String],
    src: &mut S,
    out: &mut K,
) -> Status
    ensures form { HasText result → asked words.now ≡ Some check →
        WritesCheckText result (K.written out.old) (K.written out.new) }
    ensures part_form { result ≡ Status.WriteFault → asked words.now ≡ Some check →
        WritesCheckPart (K.written out.old) (K.written out.new) }
    ensures follows { HasText result → asked words.now ≡ Some check → (bytes : List ℕ) →
        S.left src.old ≡ Some bytes → (result ≡ Status.Done) ↔ FollowsTheRules bytes }
    ensures safe { result ≡ Status.Done → asked words.now ≡ Some check → (bytes : List ℕ) (d : Document) →
        S.left src.old ≡ Some bytes → IsDocument bytes d → ClaimsAreTrue d }
    ensures bounds { result ≡ Status.Done → asked words.now ≡ Some check → (bytes : List ℕ) (d : Document) →
        S.left src.old ≡ Some bytes → IsDocument bytes d →
        WritesWhatIsTrue d (K.written out.old) (K.written out.new) }
    ensures runs { result ≡ Status.Done → asked words.now ≡ Some check → (bytes : List ℕ) (d : Document) →
        S.left src.old ≡ Some bytes → IsDocument bytes d → ProgramsRun d }
    ensures starts { result ≡ Status.Done → asked words.now ≡ Some check → (bytes : List ℕ) (d : Document) →
        S.left src.old ≡ Some bytes → IsDocument bytes d → ProgramsStart d }
{
    unity_cli::unity(alloc, words, src, out)
}
