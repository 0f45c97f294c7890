//! The piece with which a text begins.

ghost use Rattle.std.specs.Prelude.{◌≡◌, ◌<◌, ◌≤◌, ◌==◌, ◌^◌, ◌&&◌, ◌||◌, not, nat_le, nat_lt, length, slice_index};
ghost use Rattle.std.specs.Prelude.{IsTrue};
ghost use Rattle.std.specs.Char.{is_ascii_alphabetic, is_ascii_digit};
ghost use Rattle.unity_lexer.specs.Pieces.{BeginsWith, is_other};

use crate::reserved::reserved_word;
use crate::runs::{digits, is_blank, line_len, word_len};
use crate::symbols::first_symbol;
use case_tables::Code;
use unity_syntax::TokenKind;

/// What a text begins with.
#[derive(Clone, Copy)]
pub(crate) enum Piece {
    /// So many bytes between tokens.
    Gap(usize),
    /// A token of so many bytes.
    Token(TokenKind, usize),
    /// Bytes that are read as no token.
    Fault(Code),
}

/// The greatest number of a text.
const MAX_NUMBER: u64 = 1 << 62;

/// The piece with which a text begins.
pub(crate) fn first_piece(text: &[u8]) -> Piece
    requires { 0 < length text.now }
    ensures { BeginsWith text.now result }
{
    let first = text[0];
    if is_blank(first) {
        Piece::Gap(1)
    } else if first == b'#' {
        Piece::Gap(line_len(text))
    } else if first.is_ascii_alphabetic() {
        word(text)
    } else if first.is_ascii_digit() {
        number(text)
    } else {
        symbol(text)
    }
}

/// A word or a reserved word.
fn word(text: &[u8]) -> Piece
    requires some { 0 < length text.now }
    requires letter { IsTrue (is_ascii_alphabetic (slice_index text.now 0)) }
    ensures { BeginsWith text.now result }
{
    let len = word_len(text);
    match reserved_word(&text[..len]) {
        Some(word) => Piece::Token(TokenKind::Reserved(word), len),
        None => Piece::Token(TokenKind::Word, len),
    }
}

/// A number, or digits that are none.
#[inline(always)]
pub(crate) fn number(text: &[u8]) -> Piece
    requires some { 0 < length text.now }
    requires digit { IsTrue (is_ascii_digit (slice_index text.now 0)) }
    ensures { BeginsWith text.now result }
{
    let (len, value) = digits(text);
    if is_number(len, text[0], value) {
        Piece::Token(TokenKind::Number(value), len)
    } else {
        Piece::Fault(Code::BadNumber)
    }
}

/// Whether so many digits, of which this is the first, write a number.
fn is_number(len: usize, first: u8, value: u64) -> bool
    ensures { result ≡ (nat_le value (2 ^ 62) && not (nat_lt 1 len && first == 48)) }
{
    value <= MAX_NUMBER && !(len > 1 && first == b'0')
}

/// A symbol, or a byte with which no token begins.
fn symbol(text: &[u8]) -> Piece
    requires some { 0 < length text.now }
    requires other { IsTrue (is_other (slice_index text.now 0)) }
    ensures { BeginsWith text.now result }
{
    match first_symbol(text) {
        Some((symbol, len)) => Piece::Token(TokenKind::Symbol(symbol), len),
        None => Piece::Fault(Code::BadByte),
    }
}
