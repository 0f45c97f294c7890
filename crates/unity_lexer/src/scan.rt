//! One token, read from a window.

ghost use Rattle.std.specs.Prelude.{◌≡◌, ℕ, ◌+◌, ◌<◌, ◌≤◌, List, [], ◌∷◌, Some, length, IfOk, IsTrue, IsFalse};
ghost use Rattle.std.specs.Io.KnownBytes.{IsAtEnd};
ghost use Rattle.std.specs.List.{prefix_len};
ghost use Rattle.unity_base.specs.Streams.{HasCause};
ghost use Rattle.unity_base.specs.Window.{held, coming, window_at, window_limit, window_bytes, HasDropped, HasPassed};
ghost use Rattle.unity_base.specs.Window.{PassesLimit};
ghost use Rattle.unity_lexer.specs.Tokens.{is_blank};
ghost use Rattle.unity_lexer.specs.Windows.{IsAhead, PassesGap};
ghost use Rattle.unity_lexer.specs.Scans.{IsScan, TokenRises};

use crate::ahead::{Next, next_piece};
use crate::piece::Piece;
use crate::ready::ready_token;
use crate::runs::blank_len;
use crate::stretches::{Run, skip_run};
use case_tables::Code;
use unity_base::{Failed, Source, Window};
use unity_syntax::{Token, TokenKind};

/// What is read next.
#[derive(Clone, Copy, Debug, PartialEq, Eq)]
pub enum Scan {
    /// This token, which was dropped.
    Token(Token),
    /// The end of the input, with no token before it.
    End,
    /// Bytes that are read as no token. They were not dropped.
    Fault {
        /// `BadByte` or `BadNumber`.
        code: Code,
        /// The place of the first of them.
        at: u64,
    },
    /// More bytes than the limit of the window.
    TooLong,
}

/// Drops the blanks with which the bytes held begin.
fn skip_blanks(w: &mut Window)
    ensures { HasDropped w.old w.new (prefix_len is_blank (window_bytes w.old)) }
{
    let size = blank_len(w.bytes());
    w.skip(size);
}

/// Drops a comment. False where the limit is passed.
fn skip_comment<S: Source>(w: &mut Window, src: &mut S) -> Result<bool, Failed>
    requires { 0 < length (window_bytes w.old) }
    ensures gap { IfOk result (λ whole. IsTrue whole →
        (rest : List ℕ) → coming w.old (S.left src.old) ≡ Some (35 ∷ rest) →
        PassesGap (window_at w.old) (35 ∷ rest) (window_at w.new) (coming w.new (S.left src.new))) }
    ensures long { IfOk result (λ whole. IsFalse whole → PassesLimit w.old (coming w.old (S.left src.old))) }
    ensures rises { window_at w.old < window_at w.new }
    ensures passed { HasPassed w.old w.new (S.left src.old) (S.left src.new) }
    ensures cause { HasCause (S.faults src.old) (S.faults src.new) result }
{
    w.advance();
    skip_run(Run::Line, w, src)?;
    Ok(!w.is_past_limit())
}

/// Reads a word that is longer than each reserved one.
fn long_word<S: Source>(w: &mut Window, src: &mut S) -> Result<Scan, Failed>
    requires ahead { IsAhead w.old (S.left src.old) Next.Word }
    requires some { 0 < length (window_bytes w.old) }
    ensures scan { IfOk result (λ scan. (bytes : List ℕ) → coming w.old (S.left src.old) ≡ Some bytes →
        IsScan (window_limit w.old) (window_at w.old) bytes (window_at w.new) (coming w.new (S.left src.new)) scan) }
    ensures no_end { IfOk result (λ scan. ¬ (scan ≡ Scan.End)) }
    ensures rises { IfOk result (TokenRises (window_at w.old) (window_at w.new)) }
    ensures passed { HasPassed w.old w.new (S.left src.old) (S.left src.new) }
    ensures cause { HasCause (S.faults src.old) (S.faults src.new) result }
{
    let start = w.at();
    w.advance();
    skip_run(Run::Word, w, src)?;
    if w.is_past_limit() {
        return Ok(Scan::TooLong);
    }
    let end = w.at();
    Ok(Scan::Token(Token {
        kind: TokenKind::Word,
        start,
        end,
    }))
}

/// Reads a token that is held.
fn held_token(w: &mut Window, kind: TokenKind, size: usize) -> Token
    requires { size ≤ length (window_bytes w.old) }
    ensures token { result ≡ record { kind = kind; start = window_at w.old; end = window_at w.old + size } }
    ensures dropped { HasDropped w.old w.new size }
{
    let start = w.at();
    w.skip(size);
    let end = w.at();
    Token { kind, start, end }
}

/// Reads the next token, piece by piece.
#[cold]
#[inline(never)]
fn passing_token<S: Source>(w: &mut Window, src: &mut S) -> Result<Scan, Failed>
    ensures scan { IfOk result (λ scan. (bytes : List ℕ) → coming w.old (S.left src.old) ≡ Some bytes →
        IsScan (window_limit w.old) (window_at w.old) bytes (window_at w.new) (coming w.new (S.left src.new)) scan) }
    ensures rises { IfOk result (TokenRises (window_at w.old) (window_at w.new)) }
    ensures end { IfOk result (λ scan. scan ≡ Scan.End → (held w.new ≡ []) × IsAtEnd (S.left src.new)) }
    ensures passed { HasPassed w.old w.new (S.left src.old) (S.left src.new) }
    ensures cause { HasCause (S.faults src.old) (S.faults src.new) result }
{
    skip_blanks(w);
    'gaps: loop {
        match next_piece(w, src)? {
            Next::Piece(Piece::Gap(size)) => w.skip(size),
            Next::Comment => {
                if !skip_comment(w, src)? {
                    return Ok(Scan::TooLong);
                }
            }
            Next::Piece(Piece::Token(kind, size)) => {
                return Ok(Scan::Token(held_token(w, kind, size)));
            }
            Next::Piece(Piece::Fault(code)) => return Ok(Scan::Fault { code, at: w.at() }),
            Next::Word => return long_word(w, src),
            Next::End => return Ok(Scan::End),
            Next::TooLong => return Ok(Scan::TooLong),
        }
    }
}

/// Reads the next token, passing the blanks and comments before it. It takes no memory.
///
/// Tokens are read as `lex` reads them: the tokens of successive calls are those of the whole input. A token has a
/// byte, also where the source does not tell its bytes. `Failed` comes only where the source's count of faults rose.
#[inline(always)]
pub fn next_token<S: Source>(w: &mut Window, src: &mut S) -> Result<Scan, Failed>
    ensures scan { IfOk result (λ scan. (bytes : List ℕ) → coming w.old (S.left src.old) ≡ Some bytes →
        IsScan (window_limit w.old) (window_at w.old) bytes (window_at w.new) (coming w.new (S.left src.new)) scan) }
    ensures rises { IfOk result (TokenRises (window_at w.old) (window_at w.new)) }
    ensures end { IfOk result (λ scan. scan ≡ Scan.End → (held w.new ≡ []) × IsAtEnd (S.left src.new)) }
    ensures passed { HasPassed w.old w.new (S.left src.old) (S.left src.new) }
    ensures cause { HasCause (S.faults src.old) (S.faults src.new) result }
{
    match ready_token(w) {
        Some(token) => Ok(Scan::Token(token)),
        None => passing_token(w, src),
    }
}
