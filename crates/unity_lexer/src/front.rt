//! All that stands before the certificates, read from a window.

ghost use Rattle.std.specs.Prelude.{◌≡◌, ℕ, ◌+◌, ◌<◌, ◌≤◌, ◌++◌, List, Some, length, IfOk, IfErr, OnOk, IsErrOf};
ghost use Rattle.std.specs.Prelude.{IsTrue};
ghost use Rattle.std.specs.Prelude.{◌↔◌, [], ◌∷◌, None, OnErr, take, All};
ghost use Rattle.std.specs.Io.KnownBytes.{IsAtEnd};
ghost use Rattle.unity_base.specs.Streams.{IsTold};
ghost use Rattle.unity_base.specs.Window.{held, coming, window_at, window_limit, window_bytes, HasDropped};
ghost use Rattle.unity_base.specs.Window.{HasPassed};
ghost use Rattle.unity_lexer.specs.Windows.{IsAhead, IsStop, HasGiven, PassesGap, PassesWord};
ghost use Rattle.unity_syntax.specs.declared.token.TokenKind.TheVariants as kind;
ghost use Rattle.unity_lexer.specs.Tokens.{AreInOrder};
ghost use Rattle.unity_lexer.specs.Scans.{section_kind, IsFront, IsFrontError, IsNoSection, IsSmall};

use crate::ahead::{Next, next_piece};
use crate::piece::Piece;
use crate::stretches::{Run, keep, keep_run};
use case_tables::{Code, Word};
use std::alloc::{AllocError, Global};
use unity_base::{Failed, Seq, Source, Window};
use unity_syntax::{Token, TokenKind};

/// What stands before the first word `certificates`, or all where there is no such word.
#[derive(Drop)]
pub struct Front {
    /// The bytes.
    pub bytes: Vec<u8>,
    /// Their tokens.
    pub tokens: Seq<Token>,
    /// The place of that word.
    pub cut: Option<u64>,
}

/// Why there is no front.
#[derive(Clone, Copy, Debug, PartialEq, Eq)]
pub enum FrontError {
    /// The first bytes that are read as no token.
    Fault {
        /// `BadByte` or `BadNumber`.
        code: Code,
        /// The place of the first of them.
        at: u64,
    },
    /// More bytes than the limit of the window.
    TooLong,
    /// A read failed: only where the source's count of faults rose.
    Failed,
    /// Memory was refused.
    Memory,
}

impl From<Failed> for FrontError {
    ghost use Rattle.unity_lexer.specs.declared.front.FrontError.TheVariants.{Failed};

    ghost from_gives = { λ _ e. e ≡ Failed };

    fn from(_: Failed) -> Self {
        FrontError::Failed
    }
}

impl From<AllocError> for FrontError {
    ghost use Rattle.unity_lexer.specs.declared.front.FrontError.TheVariants.{Memory};

    ghost from_gives = { λ _ e. e ≡ Memory };

    fn from(_: AllocError) -> Self {
        FrontError::Memory
    }
}

/// Keeps a comment.
fn keep_comment<S: Source>(
    w: &mut Window,
    src: &mut S,
    kept: &mut Vec<u8>,
) -> Result<(), FrontError>
    requires { 0 < length (window_bytes w.old) }
    ensures gap { OnOk result ((rest : List ℕ) → coming w.old (S.left src.old) ≡ Some (35 ∷ rest) →
        PassesGap (window_at w.old) (35 ∷ rest) (window_at w.new) (coming w.new (S.left src.new))) }
    ensures taken { OnOk result (HasGiven w.old w.new (S.left src.old) (S.left src.new) kept.old.items kept.new.items) }
    ensures rises { OnOk result (window_at w.old < window_at w.new) }
    ensures stop { IfErr result (IsStop w.old (coming w.old (S.left src.old))) }
    ensures passed { HasPassed w.old w.new (S.left src.old) (S.left src.new) }
    ensures cause { IsTold (S.faults src.old) (S.faults src.new) (IsErrOf result FrontError.Failed) }
{
    keep(w, 1, kept)?;
    keep_run(Run::Line, w, src, kept)?;
    if w.is_past_limit() {
        return Err(FrontError::TooLong);
    }
    Ok(())
}

/// Keeps a word that is longer than each reserved one.
fn keep_word<S: Source>(
    w: &mut Window,
    src: &mut S,
    kept: &mut Vec<u8>,
) -> Result<Token, FrontError>
    requires ahead { IsAhead w.old (S.left src.old) Next.Word }
    requires some { 0 < length (window_bytes w.old) }
    ensures word { OnOk result ((bytes : List ℕ) → coming w.old (S.left src.old) ≡ Some bytes →
        PassesWord (window_at w.old) bytes (window_at w.new) (coming w.new (S.left src.new))) }
    ensures token { IfOk result (λ t. t ≡ record { kind = kind.Word; start = window_at w.old; end = window_at w.new }) }
    ensures taken { OnOk result (HasGiven w.old w.new (S.left src.old) (S.left src.new) kept.old.items kept.new.items) }
    ensures rises { OnOk result (window_at w.old < window_at w.new) }
    ensures stop { IfErr result (IsStop w.old (coming w.old (S.left src.old))) }
    ensures passed { HasPassed w.old w.new (S.left src.old) (S.left src.new) }
    ensures cause { IsTold (S.faults src.old) (S.faults src.new) (IsErrOf result FrontError.Failed) }
{
    let start = w.at();
    keep(w, 1, kept)?;
    keep_run(Run::Word, w, src, kept)?;
    if w.is_past_limit() {
        return Err(FrontError::TooLong);
    }
    let end = w.at();
    Ok(Token {
        kind: TokenKind::Word,
        start,
        end,
    })
}

/// Keeps a token that is held.
fn keep_token(
    w: &mut Window,
    kind: TokenKind,
    size: usize,
    kept: &mut Vec<u8>,
) -> Result<Token, AllocError>
    requires { size ≤ length (window_bytes w.old) }
    ensures token { IfOk result (λ t.
        t ≡ record { kind = kind; start = window_at w.old; end = window_at w.old + size }) }
    ensures dropped { OnOk result (HasDropped w.old w.new size) }
    ensures kept { OnOk result (kept.new.items ≡ kept.old.items ++ take size (held w.old)) }
    ensures same { OnErr result (w.new ≡ w.old) }
{
    let start = w.at();
    keep(w, size, kept)?;
    let end = w.at();
    Ok(Token { kind, start, end })
}

/// Whether this is the word `certificates`.
fn is_section(kind: TokenKind) -> bool
    ensures { IsTrue result ↔ (kind ≡ section_kind) }
{
    kind == TokenKind::Reserved(Word::Certificates)
}

/// Reads all before the first word `certificates` and drops that word, or reads to the end of the input where there is
/// no such word. What stands behind the word is still to come, and is not looked at.
///
/// The tokens are those of `lex`. They stand in order and no number among them is above 2^62, also where the source
/// does not tell its bytes. A front is refused at its first bytes that are read as no token, as by `lex`, or
/// where the input passes the limit of the window before the front ends.
pub fn read_front<S: Source>(
    alloc: Global,
    w: &mut Window,
    src: &mut S,
) -> Result<Front, FrontError>
    ensures front { IfOk result (λ f. window_at w.old ≡ 0 →
        (bytes : List ℕ) → coming w.old (S.left src.old) ≡ Some bytes →
        IsFront (window_limit w.old) bytes f (coming w.new (S.left src.new))) }
    ensures places { IfOk result (λ f. AreInOrder (window_at w.old) (window_at w.new) f.tokens) }
    ensures numbers { IfOk result (λ f. All IsSmall f.tokens) }
    ensures none { IfOk result (λ f. All IsNoSection f.tokens) }
    ensures end { IfOk result (λ f. f.cut ≡ None → (held w.new ≡ []) × IsAtEnd (S.left src.new)) }
    ensures error { IfErr result (λ e. window_at w.old ≡ 0 →
        (bytes : List ℕ) → coming w.old (S.left src.old) ≡ Some bytes →
        IsFrontError (window_limit w.old) bytes e) }
    ensures passed { HasPassed w.old w.new (S.left src.old) (S.left src.new) }
    ensures cause { IsTold (S.faults src.old) (S.faults src.new) (IsErrOf result FrontError.Failed) }
{
    let mut bytes = Vec::new(alloc);
    let mut tokens = Seq::new(alloc);
    'pieces: loop {
        match next_piece(w, src)? {
            Next::Piece(Piece::Gap(size)) => keep(w, size, &mut bytes)?,
            Next::Piece(Piece::Token(kind, size)) => {
                if is_section(kind) {
                    let cut = Some(w.at());
                    w.skip(size);
                    return Ok(Front { bytes, tokens, cut });
                }
                tokens.push(keep_token(w, kind, size, &mut bytes)?)?;
            }
            Next::Piece(Piece::Fault(code)) => return Err(FrontError::Fault { code, at: w.at() }),
            Next::Comment => keep_comment(w, src, &mut bytes)?,
            Next::Word => tokens.push(keep_word(w, src, &mut bytes)?)?,
            Next::End => return Ok(Front {
                bytes,
                tokens,
                cut: None,
            }),
            Next::TooLong => return Err(FrontError::TooLong),
        }
    }
}
