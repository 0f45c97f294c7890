// What the program's one call reads, and which faults it tells.
ghost use Rattle.std.specs.Prelude.{◌≡◌, ◌≢◌, ◌⊎◌, true, false};
ghost use Rattle.std.specs.Io.KnownBytes.{IsAtEnd};
ghost use Rattle.unity_base.specs.Streams.{IsTold, IsLongerThan, LeavesRest};
ghost use Rattle.cli_words.specs.Requests.{asked};
ghost use Rattle.unity_cli.specs.Answer.{most_bytes, reads_source};

use std::alloc::Global;
use unity_base::{Sink, Source};
use unity_cli::Status;

/// The call `unity` of `unity_cli`, with its clauses on what is read and on faults.
pub fn unity_reads<S: Source, K: Sink>(
    alloc: Global,
    words: &[String],
    src: &mut S,
    out: &mut K,
) -> Status
    ensures nothing { (result ≡ Status.ReadFault) ⊎ (result ≡ Status.WantOfMemory) → out.new ≡ out.old }
    ensures untouched { reads_source (asked words.now) ≡ false → src.new ≡ src.old }
    ensures not_read { reads_source (asked words.now) ≡ false → result ≢ Status.ReadFault }
    ensures end { reads_source (asked words.now) ≡ true → result ≢ Status.ReadFault → result ≢ Status.WantOfMemory →
        IsAtEnd (S.left src.new) ⊎ IsLongerThan (most_bytes (asked words.now)) (S.left src.old) }
    ensures rest { LeavesRest (S.left src.old) (S.left src.new) }
    ensures source { IsTold (S.faults src.old) (S.faults src.new) (result ≡ Status.ReadFault) }
    ensures sink { IsTold (K.faults out.old) (K.faults out.new) (result ≡ Status.WriteFault) }
{
    unity_cli::unity(alloc, words, src, out)
}
