// What the program's one call writes.
ghost use Rattle.std.specs.Prelude.{◌≡◌};
ghost use Rattle.cli_words.specs.Requests.{asked};
ghost use Rattle.unity_cli.specs.Status.{HasText};
ghost use Rattle.unity_cli.specs.Answer.{IsSaidOf, Tells, TellsPart};

use std::alloc::Global;
use unity_base::{Sink, Source};
use unity_cli::Status;

/// The call `unity` of `unity_cli`, with its clauses on the text that is written.
pub fn unity_tells<S: Source, K: Sink>(
    alloc: Global,
    words: &[String],
    src: &mut S,
    out: &mut K,
) -> Status
    ensures answer { HasText result → IsSaidOf (asked words.now) (S.left src.old) →
        Tells (asked words.now) (S.left src.old) result (K.written out.old) (K.written out.new) }
    ensures part { result ≡ Status.WriteFault → IsSaidOf (asked words.now) (S.left src.old) →
        TellsPart (asked words.now) (S.left src.old) (K.written out.old) (K.written out.new) }
{
    unity_cli::unity(alloc, words, src, out)
}
