// The bytes of a source, looked at a few ahead of the first that was not dropped, up to a limit.
ghost use Rattle.std.specs.Prelude.{◌≡◌, ℕ, ◌+◌, ◌-◌, ◌<◌, ◌≤◌, ◌↔◌, List, [], Option, length, min, take, vec_len};
ghost use Rattle.std.specs.Prelude.{IfOk, IsTrue, IsFalse};
ghost use Rattle.std.specs.Io.KnownBytes.{Consumes, IsAtEnd};
ghost use Rattle.unity_base.specs.Streams.{HasCause};

use crate::{Failed, Source};
use std::alloc::{AllocError, Global};

/// What stands at a place of the input.
#[derive(Clone, Copy, Debug, PartialEq, Eq)]
pub enum Look {
    /// This byte, at a place below the limit.
    Byte(u8),
    /// No byte: the input ends at this place or before it.
    End,
    /// A byte, at the limit or behind it.
    TooLong,
}

/// The bytes that were read from a source and not yet dropped, at most 65,536, and the place of the first of them in
/// the input. From the limit on, a place may have no byte.
///
/// A call that may read is handed the source. The bytes still to come are those held, and then those that the source
/// has left, where it tells them. The end of the input is not kept: it is asked for again.
#[derive(Drop)]
pub struct Window {
    buffer: Vec<u8>,
    from: usize,
    // Behind the last byte that is held below the limit.
    end: usize,
    to: usize,
    at: u64,
    limit: u64,
    ghost in_order: { from ≤ to },
    ghost up_to_limit: { end ≡ from + min (to - from) (limit - at) },
    ghost in_buffer: { to ≤ vec_len buffer },
    ghost of_one_size: { vec_len buffer ≡ 65536 },
    ghost in_limit: { at ≤ limit },
}

impl Window {
    ghost use Rattle.unity_base.specs.Window.{held, coming, window_at, window_limit, window_bytes, Sees, IsDrained};
    ghost use Rattle.unity_base.specs.Window.{PassesLimit, EndsWithinLimit, HasRead, HasDropped, HasPassed};

    /// A window at place 0 that holds nothing. It takes all its memory here.
    pub fn new(alloc: Global, limit: u64) -> Result<Window, AllocError>
        ensures held { IfOk result (λ w. held w ≡ []) }
        ensures at { IfOk result (λ w. window_at w ≡ 0) }
        ensures limit { IfOk result (λ w. window_limit w ≡ limit) }
    {
        Ok(Window {
            buffer: vec![in alloc; 0; 65_536]?,
            from: 0,
            end: 0,
            to: 0,
            at: 0,
            limit,
        })
    }

    /// The place of the first byte still to come.
    pub fn at(&self) -> u64
        ensures { result ≡ window_at self.now }
    {
        self.at
    }

    /// The bytes held, up to the limit.
    pub fn bytes(&self) -> &[u8]
        ensures { result.now ≡ window_bytes self.now }
    {
        &self.buffer[self.from..self.end]
    }

    /// Whether a byte is held at the limit or behind it.
    pub fn is_past_limit(&self) -> bool
        ensures { IsTrue result ↔ (window_limit self.now < window_at self.now + length (held self.now)) }
    {
        self.limit - self.at < (self.to - self.from) as u64
    }

    /// The byte so many places ahead of the first, read as far as that where it is not held. Nothing is dropped.
    pub fn look<S: Source>(&mut self, src: &mut S, ahead: usize) -> Result<Look, Failed>
        requires { ahead ≤ 2 }
        ensures seen { IfOk result (Sees self.new (S.left src.new) ahead) }
        ensures read { HasRead self.old self.new (S.left src.old) (S.left src.new) }
        ensures cause { HasCause (S.faults src.old) (S.faults src.new) result }
    {
        'reads: while self.to - self.from <= ahead {
            if self.read_more(src)? == 0 {
                return Ok(Look::End);
            }
        }
        Ok(self.held_at(ahead))
    }

    /// Reads until 65,536 bytes are held, and is then true, or until the input ends. Nothing is dropped.
    pub fn fill<S: Source>(&mut self, src: &mut S) -> Result<bool, Failed>
        ensures full { IfOk result (λ full. IsTrue full → length (held self.new) ≡ 65536) }
        ensures end { IfOk result (λ full. IsFalse full → IsAtEnd (S.left src.new)) }
        ensures read { HasRead self.old self.new (S.left src.old) (S.left src.new) }
        ensures cause { HasCause (S.faults src.old) (S.faults src.new) result }
    {
        'reads: while self.to - self.from < self.buffer.len() {
            if self.read_more(src)? == 0 {
                return Ok(false);
            }
        }
        Ok(true)
    }

    /// Drops the first byte.
    pub fn advance(&mut self)
        requires holds { 0 < length (held self.old) }
        requires in_limit { window_at self.old < window_limit self.old }
        ensures dropped { HasDropped self.old self.new 1 }
        ensures coming { (left : Option (List ℕ)) →
            Consumes (coming self.old left) (coming self.new left) (take 1 (held self.old)) }
    {
        self.skip(1);
    }

    /// Drops the first bytes, so many.
    pub fn skip(&mut self, count: usize)
        requires holds { count ≤ length (held self.old) }
        requires in_limit { window_at self.old + count ≤ window_limit self.old }
        ensures dropped { HasDropped self.old self.new count }
        ensures coming { (left : Option (List ℕ)) →
            Consumes (coming self.old left) (coming self.new left) (take count (held self.old)) }
    {
        self.from += count;
        self.at += count as u64;
    }

    /// Drops all that comes up to the limit: `End`, or `TooLong` where there is a byte behind it.
    pub fn drain<S: Source>(&mut self, src: &mut S) -> Result<Look, Failed>
        ensures drained { IfOk result (IsDrained self.new (S.left src.new)) }
        ensures passed { HasPassed self.old self.new (S.left src.old) (S.left src.new) }
        ensures cause { HasCause (S.faults src.old) (S.faults src.new) result }

        // More bytes than the limit are told as that, and nothing else is.
        ensures too_long { IfOk result (λ look. look ≡ Look.TooLong →
            PassesLimit self.old (coming self.old (S.left src.old))) }
        ensures not_longer { IfOk result (λ look. look ≡ Look.End →
            EndsWithinLimit self.old (coming self.old (S.left src.old))) }
    {
        'reads: while !self.is_past_limit() {
            self.skip(self.to - self.from);
            if self.read_more(src)? == 0 {
                return Ok(Look::End);
            }
        }
        Ok(Look::TooLong)
    }

    // What is held so many places ahead.
    fn held_at(&self, ahead: usize) -> Look
        requires { ahead < length (held self.now) }
        ensures { (left : Option (List ℕ)) → Sees self.now left ahead result }
    {
        if self.limit - self.at <= ahead as u64 {
            return Look::TooLong;
        }
        Look::Byte(self.buffer[self.from + ahead])
    }

    // Reads once behind what is held, and says how many bytes came: none where the source is at its end.
    fn read_more<S: Source>(&mut self, src: &mut S) -> Result<usize, Failed>
        requires { length (held self.old) < 65536 }
        ensures count { IfOk result (λ n. length (held self.new) ≡ length (held self.old) + n) }
        ensures end { IfOk result (λ n. n ≡ 0 → IsAtEnd (S.left src.new)) }
        ensures read { HasRead self.old self.new (S.left src.old) (S.left src.new) }
        ensures cause { HasCause (S.faults src.old) (S.faults src.new) result }
    {
        if self.to == self.buffer.len() {
            self.move_to_front();
        }
        self.read_behind(src)
    }

    // Reads once into the room behind what is held.
    fn read_behind<S: Source>(&mut self, src: &mut S) -> Result<usize, Failed>
        requires { self.old.to < 65536 }
        ensures count { IfOk result (λ n. length (held self.new) ≡ length (held self.old) + n) }
        ensures end { IfOk result (λ n. n ≡ 0 → IsAtEnd (S.left src.new)) }
        ensures read { HasRead self.old self.new (S.left src.old) (S.left src.new) }
        ensures cause { HasCause (S.faults src.old) (S.faults src.new) result }
    {
        let to = self.to;
        let count = src.read(&mut self.buffer[to..])?;
        self.to = to + count;
        self.end = self.from + (self.to - self.from).min((self.limit - self.at) as usize);
        Ok(count)
    }

    // Moves what is held to the front of the buffer.
    fn move_to_front(&mut self)
        ensures held { held self.new ≡ held self.old }
        ensures from { self.new.from ≡ 0 }
        ensures to { self.new.to ≡ self.old.to - self.old.from }
        ensures at { self.new.at ≡ self.old.at }
        ensures limit { self.new.limit ≡ self.old.limit }
    {
        let (from, to) = (self.from, self.to);
        self.buffer.copy_within(from..to, 0);
        self.from = 0;
        self.end -= from;
        self.to = to - from;
    }
}
