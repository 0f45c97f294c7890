// What is written to a sink in pieces, through a buffer of a fixed size. It takes no memory.
ghost use Rattle.std.specs.Prelude.{◌≡◌, ◌≤◌, ◌++◌, ℕ, List, Option, [], false, OnOk, OnErr};
ghost use Rattle.std.specs.Io.KnownBytes.{Appends};
ghost use Rattle.unity_base.specs.Streams.{AppendsPart, HasCause};

use unity_base::{Failed, Sink, write_all};

/// How many bytes wait at most.
const ROOM: usize = 1024;

/// The end of a text, which waits to be written. After a write that failed nothing is written any more.
#[derive(Drop)]
pub struct Buffer {
    bytes: [u8; 1024],
    len: usize,
    failed: bool,
    ghost in_room: { len ≤ 1024 },
}

impl Buffer {
    ghost use Rattle.schedule_replay.specs.Buffered.{IsSoFar, IsPut};

    /// Nothing waits.
    pub fn new() -> Buffer
        ensures { (old : Option (List ℕ)) (count : ℕ) → IsSoFar old old count count result [] }
    {
        Buffer {
            bytes: [0; 1024],
            len: 0,
            failed: false,
        }
    }

    /// Puts a piece at the end of the text.
    pub fn put<K: Sink>(&mut self, out: &mut K, piece: &[u8])
        ensures { IsPut (K.written out.old) (K.written out.new) (K.faults out.old)
            (K.faults out.new) self.old self.new piece.now }
    {
        if piece.len() <= ROOM - self.len {
            self.bytes[self.len..self.len + piece.len()].copy_from_slice(piece);
            self.len += piece.len();
        } else {
            self.send(out, piece);
        }
    }

    // Writes what waits, and a piece after it.
    fn send<K: Sink>(&mut self, out: &mut K, piece: &[u8])
        ensures put { IsPut (K.written out.old) (K.written out.new) (K.faults out.old)
            (K.faults out.new) self.old self.new piece.now }
        ensures none_waits { self.new.failed ≡ false → self.new.len ≡ 0 }
    {
        if self.failed {
            return;
        }
        self.failed = write_both(out, &self.bytes[..self.len], piece).is_err();
        self.len = 0;
    }

    /// Writes what waits. `Failed` comes where a write failed, now or before.
    pub fn finish<K: Sink>(mut self, out: &mut K) -> Result<(), Failed>
        ensures whole { OnOk result ((old : Option (List ℕ)) (count : ℕ) (text : List ℕ) →
            IsSoFar old (K.written out.old) count (K.faults out.old) self text → Appends old (K.written out.new) text) }
        ensures part { OnErr result ((old : Option (List ℕ)) (count : ℕ) (text : List ℕ) →
            IsSoFar old (K.written out.old) count (K.faults out.old) self text → AppendsPart old
            (K.written out.new) text) }
        ensures cause { (old : Option (List ℕ)) (count : ℕ) (text : List ℕ) →
            IsSoFar old (K.written out.old) count (K.faults out.old) self text → HasCause count
            (K.faults out.new) result }
    {
        self.send(out, &[]);
        if self.failed { Err(Failed) } else { Ok(()) }
    }
}

// Writes one piece and then another.
fn write_both<K: Sink>(out: &mut K, first: &[u8], second: &[u8]) -> Result<(), Failed>
    ensures whole { OnOk result (Appends (K.written out.old) (K.written out.new) (first.now ++ second.now)) }
    ensures part { OnErr result (AppendsPart (K.written out.old) (K.written out.new) (first.now ++ second.now)) }
    ensures cause { HasCause (K.faults out.old) (K.faults out.new) result }
{
    write_all(out, first)?;
    write_all(out, second)
}
