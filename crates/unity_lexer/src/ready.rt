//! Tokens that are held with two more bytes behind them. Most are so, and each is taken by one look at the window.

ghost use Rattle.std.specs.Prelude.{◌≡◌, ℕ, ◌+◌, ◌<◌, ◌≤◌, List, Option, Some, None, length, drop, IfSome, IsTrue};
ghost use Rattle.std.specs.List.{prefix_len};
ghost use Rattle.unity_lexer.specs.Tokens.{is_blank};
ghost use Rattle.unity_base.specs.Window.{coming, window_at, window_limit, window_bytes, HasPassed};
ghost use Rattle.unity_syntax.specs.declared.token.TokenKind.TheVariants as kind;
ghost use Rattle.unity_lexer.specs.declared.piece.Piece.TheVariants as pieces;
ghost use Rattle.unity_lexer.specs.declared.scan.Scan.TheVariants as scan;
ghost use Rattle.unity_lexer.specs.Pieces.{BeginsWith, is_other, are_four, are_five, are_six};
ghost use Rattle.unity_lexer.specs.Scans.{IsScan};
ghost use Rattle.unity_lexer.specs.Symbols.{symbol_after};

use crate::ahead::is_decided;
use crate::piece::{Piece, first_piece, number};
use crate::runs::{blank_len, is_blank};
use case_tables::{Symbol, Word};
use unity_base::Window;
use unity_syntax::{Token, TokenKind};

/// A symbol of one byte that begins no longer one, and that certificates have.
#[inline(always)]
fn lone_symbol(first: u8) -> Option<Symbol>
    ensures symbol { IfSome result (λ symbol. (rest : List ℕ) → symbol_after first rest ≡ Some (symbol, 1)) }
    ensures other { IfSome result (λ symbol. IsTrue (is_other first)) }
{
    match first {
        b'*' => Some(Symbol::Times),
        b'-' => Some(Symbol::Minus),
        b';' => Some(Symbol::Semicolon),
        _ => None,
    }
}

/// Whether the text begins with `sum` and a space.
#[inline(always)]
fn begins_sum(text: &[u8]) -> bool
    requires { 6 ≤ length text.now }
    ensures { result ≡ are_four text.now 115 117 109 32 }
{
    text[0] == b's' && text[1] == b'u' && text[2] == b'm' && text[3] == b' '
}

/// Whether the text begins with `case` and a space.
#[inline(always)]
fn begins_case(text: &[u8]) -> bool
    requires { 6 ≤ length text.now }
    ensures { result ≡ are_five text.now 99 97 115 101 32 }
{
    text[0] == b'c' && text[1] == b'a' && text[2] == b's' && text[3] == b'e' && text[4] == b' '
}

/// Whether the text begins with `round` and a space.
#[inline(always)]
fn begins_round(text: &[u8]) -> bool
    requires { 6 ≤ length text.now }
    ensures { result ≡ are_six text.now 114 111 117 110 100 32 }
{
    text[0] == b'r'
        && text[1] == b'o'
        && text[2] == b'u'
        && text[3] == b'n'
        && text[4] == b'd'
        && text[5] == b' '
}

/// Whether the text begins with `split` and a space.
#[inline(always)]
fn begins_split(text: &[u8]) -> bool
    requires { 6 ≤ length text.now }
    ensures { result ≡ are_six text.now 115 112 108 105 116 32 }
{
    text[0] == b's'
        && text[1] == b'p'
        && text[2] == b'l'
        && text[3] == b'i'
        && text[4] == b't'
        && text[5] == b' '
}

/// The word with which a node of a certificate begins, and its size, where the text begins with it and a space.
#[inline(always)]
fn long_node_word(text: &[u8]) -> Option<(Word, usize)>
    requires { 6 ≤ length text.now }
    ensures begins { IfSome result (λ found. BeginsWith text.now (pieces.Token (kind.Reserved found.0) found.1)) }
    ensures short { IfSome result (λ found. found.1 ≤ 5) }
{
    if begins_sum(text) {
        Some((Word::Sum, 3))
    } else if begins_round(text) {
        Some((Word::Round, 5))
    } else if begins_split(text) {
        Some((Word::Split, 5))
    } else if begins_case(text) {
        Some((Word::Case, 4))
    } else {
        None
    }
}

/// The same, where the text may be short.
#[inline(always)]
fn node_word(text: &[u8]) -> Option<(Word, usize)>
    ensures { IfSome result (λ found. BeginsWith text.now (pieces.Token (kind.Reserved found.0) found.1)) }
{
    if text.len() < 6 {
        return None;
    }
    long_node_word(text)
}

/// The same, and two more bytes stand behind it.
#[inline(always)]
fn decided_word(text: &[u8]) -> Option<(Word, usize)>
    ensures begins { IfSome result (λ found. BeginsWith text.now (pieces.Token (kind.Reserved found.0) found.1)) }
    ensures decided { IfSome result (λ found. found.1 + 2 ≤ length text.now) }
{
    if text.len() < 7 {
        return None;
    }
    long_node_word(text)
}

/// The piece with which a text begins. What certificates have most is looked for first.
#[inline(always)]
fn common_piece(text: &[u8]) -> Piece
    requires { 0 < length text.now }
    ensures { BeginsWith text.now result }
{
    let first = text[0];
    if first.is_ascii_digit() {
        number(text)
    } else if let Some(symbol) = lone_symbol(first) {
        Piece::Token(TokenKind::Symbol(symbol), 1)
    } else if let Some((word, size)) = node_word(text) {
        Piece::Token(TokenKind::Reserved(word), size)
    } else {
        first_piece(text)
    }
}

/// The token, and its size, with which each text begins that begins with these bytes, where they are enough to tell.
#[inline(always)]
fn decided_token(text: &[u8]) -> Option<(TokenKind, usize)>
    ensures begins { IfSome result (λ found. BeginsWith text.now (pieces.Token found.0 found.1)) }
    ensures decided { IfSome result (λ found. found.1 + 2 ≤ length text.now) }
{
    if text.is_empty() {
        return None;
    }
    let piece = common_piece(text);
    if !is_decided(piece, text.len()) {
        return None;
    }
    match piece {
        Piece::Token(kind, size) => Some((kind, size)),
        _ => None,
    }
}

/// The number, and its size, with which each text begins that begins with these bytes, where they are enough to tell.
#[inline(always)]
pub(crate) fn decided_number(text: &[u8]) -> Option<(u64, usize)>
    ensures begins { IfSome result (λ n. BeginsWith text.now (pieces.Token (kind.Number n.0) n.1)) }
    ensures decided { IfSome result (λ n. n.1 + 2 ≤ length text.now) }
{
    if text.len() < 3 || !text[0].is_ascii_digit() {
        return None;
    }
    match number(text) {
        Piece::Token(TokenKind::Number(value), size) if size <= text.len() - 2 => {
            Some((value, size))
        }
        _ => None,
    }
}

/// How many blanks there are at the front. Mostly it is one space.
#[inline(always)]
fn blanks_ahead(text: &[u8]) -> usize
    ensures { result ≡ prefix_len is_blank text.now }
{
    if text.len() > 1 && text[0] == b' ' && !is_blank(text[1]) {
        return 1;
    }
    blank_len(text)
}

/// Reads a token that is held with two more bytes behind it, and the blanks before it.
#[inline(always)]
fn take_ready(w: &mut Window, blanks: usize, kind: TokenKind, size: usize) -> Token
    requires blanks { blanks ≡ prefix_len is_blank (window_bytes w.old) }
    requires begins { BeginsWith (drop blanks (window_bytes w.old)) (pieces.Token kind size) }
    requires decided { size + 2 ≤ length (drop blanks (window_bytes w.old)) }
    ensures kind { result.kind ≡ kind }
    ensures scan { (left : Option (List ℕ)) → (bytes : List ℕ) → coming w.old left ≡ Some bytes →
        IsScan (window_limit w.old) (window_at w.old) bytes (window_at w.new) (coming w.new left) (scan.Token result) }
    ensures rises { window_at w.old < window_at w.new }
    ensures passed { (left : Option (List ℕ)) → HasPassed w.old w.new left left }
{
    w.skip(blanks + size);
    let end = w.at();
    let start = end - size as u64;
    Token { kind, start, end }
}

/// Reads a token that is ready, and the blanks before it.
#[inline(always)]
pub(crate) fn ready_token(w: &mut Window) -> Option<Token>
    ensures scan { IfSome result (λ t. (left : Option (List ℕ)) → (bytes : List ℕ) → coming w.old left ≡ Some bytes →
        IsScan (window_limit w.old) (window_at w.old) bytes (window_at w.new) (coming w.new left) (scan.Token t)) }
    ensures rises { IfSome result (λ t. window_at w.old < window_at w.new) }
    ensures passed { (left : Option (List ℕ)) → HasPassed w.old w.new left left }
    ensures none { result ≡ None → w.new ≡ w.old }
{
    let bytes = w.bytes();
    let blanks = blanks_ahead(bytes);
    let Some((kind, size)) = decided_token(&bytes[blanks..]) else {
        return None;
    };
    Some(take_ready(w, blanks, kind, size))
}

/// Reads a number that is held with two more bytes behind it, and the blanks before it. `None` says nothing of what
/// comes.
#[inline(always)]
pub fn ready_number(w: &mut Window) -> Option<Token>
    ensures scan { IfSome result (λ t. (left : Option (List ℕ)) → (bytes : List ℕ) → coming w.old left ≡ Some bytes →
        IsScan (window_limit w.old) (window_at w.old) bytes (window_at w.new) (coming w.new left) (scan.Token t)) }
    ensures rises { IfSome result (λ t. window_at w.old < window_at w.new) }
    ensures passed { (left : Option (List ℕ)) → HasPassed w.old w.new left left }
    ensures none { result ≡ None → w.new ≡ w.old }
{
    let bytes = w.bytes();
    let blanks = blanks_ahead(bytes);
    let Some((value, size)) = decided_number(&bytes[blanks..]) else {
        return None;
    };
    Some(take_ready(w, blanks, TokenKind::Number(value), size))
}

/// Reads a word with which a node of a certificate begins, where it is held with two more bytes behind it, and the
/// blanks before it. `None` says nothing of what comes.
#[inline(always)]
pub fn ready_word(w: &mut Window) -> Option<Token>
    ensures scan { IfSome result (λ t. (left : Option (List ℕ)) → (bytes : List ℕ) → coming w.old left ≡ Some bytes →
        IsScan (window_limit w.old) (window_at w.old) bytes (window_at w.new) (coming w.new left) (scan.Token t)) }
    ensures rises { IfSome result (λ t. window_at w.old < window_at w.new) }
    ensures passed { (left : Option (List ℕ)) → HasPassed w.old w.new left left }
    ensures none { result ≡ None → w.new ≡ w.old }
{
    let bytes = w.bytes();
    let blanks = blanks_ahead(bytes);
    let Some((word, size)) = decided_word(&bytes[blanks..]) else {
        return None;
    };
    Some(take_ready(w, blanks, TokenKind::Reserved(word), size))
}
