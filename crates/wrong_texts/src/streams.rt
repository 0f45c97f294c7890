// What reads and writes whole, and the window in which a source's bytes are looked at.
ghost use Rattle.std.specs.Prelude.{◌≡◌, ◌≤◌, length, IfOk, OnOk, OnErr, IsErrOf, IsTrue, IsFalse};
ghost use Rattle.std.specs.Io.KnownBytes.{Appends, IsAtEnd};
ghost use Rattle.unity_base.specs.Streams.{AppendsPart, HasCause, IsTold, IsLongerThan, IsWithin, LeavesRest, Was};
ghost use Rattle.unity_base.specs.Window.{HasRead, held};

use std::alloc::Global;
use unity_base::{Failed, ReadError, Sink, Source, Window};

/// The call `read_all` of `unity_base`, with its clauses.
pub fn read_all<S: Source>(alloc: Global, src: &mut S, limit: usize) -> Result<Vec<u8>, ReadError>
    ensures bytes { IfOk result (λ bytes. Was (S.left src.old) bytes.items) }
    ensures end { OnOk result (IsAtEnd (S.left src.new)) }
    ensures within { IfOk result (λ bytes. length bytes.items ≤ limit) }
    ensures rest { LeavesRest (S.left src.old) (S.left src.new) }
    ensures too_long { IsErrOf result ReadError.TooLong → IsLongerThan limit (S.left src.old) }
    ensures not_longer { OnOk result (IsWithin limit (S.left src.old)) }
    ensures cause { IsTold (S.faults src.old) (S.faults src.new) (IsErrOf result ReadError.Failed) }
{
    unity_base::read_all(alloc, src, limit)
}

/// The call `write_all` of `unity_base`, with its clauses.
pub fn write_all<K: Sink>(out: &mut K, piece: &[u8]) -> Result<(), Failed>
    ensures whole { OnOk result (Appends (K.written out.old) (K.written out.new) piece.now) }
    ensures part { OnErr result (AppendsPart (K.written out.old) (K.written out.new) piece.now) }
    ensures cause { HasCause (K.faults out.old) (K.faults out.new) result }
{
    unity_base::write_all(out, piece)
}

/// The call `fill` of a window, with its clauses.
pub fn window_fill<S: Source>(w: &mut Window, src: &mut S) -> Result<bool, Failed>
    ensures full { IfOk result (λ full. IsTrue full → length (held w.new) ≡ 65536) }
    ensures end { IfOk result (λ full. IsFalse full → IsAtEnd (S.left src.new)) }
    ensures read { HasRead w.old w.new (S.left src.old) (S.left src.new) }
    ensures cause { HasCause (S.faults src.old) (S.faults src.new) result }
{
    w.fill(src)
}
