// What the program's one call says of a watched trace.
ghost use Rattle.std.specs.Prelude.{◌≡◌, ℕ, List, Some};
ghost use Rattle.unity_syntax.specs.declared.document.Document.{Document};
ghost use Rattle.unity_parser.specs.Document.{IsDocument};
ghost use Rattle.cli_words.specs.Requests.{asked, watch};
ghost use Rattle.unity_cli.specs.Following.{FollowsTheRules};
ghost use Rattle.unity_cli.specs.Watching.{WritesEnding, WritesFirstViolation};
ghost use Rattle.trace_watch.specs.declared.tracing.Ending.{Ending};

use std::alloc::Global;
use unity_base::{Sink, Source};
use unity_cli::Status;

/// The call `unity` of `unity_cli`, with its clauses on `watch`.
pub fn unity_watches<S: Source, K: Sink>(
    alloc: Global,
    words: &[String],
    src: &mut S,
    out: &mut K,
) -> Status
    ensures violated { result ≡ Status.Violated → asked words.now ≡ Some watch → (bytes : List ℕ) (d : Document) →
        S.left src.old ≡ Some bytes → IsDocument bytes d →
        WritesFirstViolation d (K.written out.old) (K.written out.new) }
    ensures unviolated { result ≡ Status.Done → asked words.now ≡ Some watch → (bytes : List ℕ) (d : Document) →
        S.left src.old ≡ Some bytes → IsDocument bytes d →
        WritesEnding d Ending.Unviolated (K.written out.old) (K.written out.new) }
    ensures kept { result ≡ Status.Violated → asked words.now ≡ Some watch → (bytes : List ℕ) →
        S.left src.old ≡ Some bytes → FollowsTheRules bytes → ⊥ }
{
    unity_cli::unity(alloc, words, src, out)
}
