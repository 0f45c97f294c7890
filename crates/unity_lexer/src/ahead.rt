//! What the bytes of a window begin with.

ghost use Rattle.std.specs.Prelude.{◌≡◌, ℕ, ◌≤◌, ◌<◌, ◌+◌, ◌++◌, ◌↔◌, List, Option, length, IfOk, IfSome, IsTrue};
ghost use Rattle.std.specs.Prelude.{IsFalse};
ghost use Rattle.std.specs.Io.KnownBytes.{IsAtEnd};
ghost use Rattle.unity_base.specs.Streams.{HasCause};
ghost use Rattle.unity_base.specs.declared.window.Window.{Window};
ghost use Rattle.unity_base.specs.Window.{held, window_bytes, HasRead};
ghost use Rattle.unity_lexer.specs.Pieces.{BeginsWith};
ghost use Rattle.unity_lexer.specs.Windows.{piece_size, IsDecided, Comes, IsAhead, IsHeld};

use crate::piece::{Piece, first_piece};
use unity_base::{Failed, Source, Window};

/// What comes next.
#[derive(Clone, Copy)]
pub(crate) enum Next {
    /// A piece that is held.
    Piece(Piece),
    /// A comment, of which a front part is held.
    Comment,
    /// A word longer than each reserved one, of which a front part is held.
    Word,
    /// The end of the input.
    End,
    /// More bytes than the limit, and no piece that is known to end before it.
    TooLong,
}

/// Whether two more bytes stand after the piece, in so many.
pub(crate) fn is_decided(piece: Piece, len: usize) -> bool
    ensures { IsTrue result ↔ (piece_size piece + 2 ≤ len) }
{
    let size = match piece {
        Piece::Gap(size) => size,
        Piece::Token(_, size) => size,
        Piece::Fault(_) => 1,
    };
    len >= 2 && size <= len - 2
}

/// The piece with which each text begins that begins with these bytes. `None` where they may be too few.
fn decided_piece(text: &[u8]) -> Option<Piece>
    ensures begins { IfSome result (BeginsWith text.now) }
    ensures decided { IfSome result (IsDecided text.now) }
{
    if text.is_empty() {
        return None;
    }
    let piece = first_piece(text);
    if !is_decided(piece, text.len()) {
        return None;
    }
    Some(piece)
}

/// What a piece is that more bytes may go on with, of a text that fills the window.
fn long_piece(text: &[u8], piece: Piece) -> Next
    requires begins { BeginsWith text.now piece }
    requires open { length text.now < piece_size piece + 2 }
    requires full { length text.now ≡ 65536 }
    ensures comes { (limit at : ℕ) → (more : List ℕ) → Comes limit at (text.now ++ more) result }
    ensures held { (w : Window) → (left : Option (List ℕ)) → 0 < length (window_bytes w) → IsHeld w left result }
{
    match piece {
        Piece::Gap(_) => Next::Comment,
        Piece::Token(_, _) => Next::Word,
        Piece::Fault(_) => Next::Piece(piece),
    }
}

/// What comes, where the window is full, or else holds all that comes.
fn settled(w: &Window, full: bool) -> Next
    requires { IsTrue full → length (held w.now) ≡ 65536 }
    ensures ahead { (left : Option (List ℕ)) → (IsFalse full → IsAtEnd left) → IsAhead w.now left result }
    ensures held { (left : Option (List ℕ)) → (IsFalse full → IsAtEnd left) → IsHeld w.now left result }
{
    let bytes = w.bytes();
    if bytes.is_empty() {
        return if w.is_past_limit() {
            Next::TooLong
        } else {
            Next::End
        };
    }
    let piece = first_piece(bytes);
    if is_decided(piece, bytes.len()) {
        Next::Piece(piece)
    } else if w.is_past_limit() {
        Next::TooLong
    } else if full {
        long_piece(bytes, piece)
    } else {
        Next::Piece(piece)
    }
}

/// What comes next. Nothing is dropped.
pub(crate) fn next_piece<S: Source>(w: &mut Window, src: &mut S) -> Result<Next, Failed>
    ensures ahead { IfOk result (IsAhead w.new (S.left src.new)) }
    ensures held { IfOk result (IsHeld w.new (S.left src.new)) }
    ensures read { HasRead w.old w.new (S.left src.old) (S.left src.new) }
    ensures cause { HasCause (S.faults src.old) (S.faults src.new) result }
{
    if let Some(piece) = decided_piece(w.bytes()) {
        return Ok(Next::Piece(piece));
    }
    let full = w.fill(src)?;
    Ok(settled(w, full))
}
