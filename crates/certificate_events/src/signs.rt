//! What a token says in a section of certificates.
ghost use Rattle.std.specs.Prelude.{◌≡◌, if◌then◌else◌};
ghost use Rattle.certificate_events.specs.Signs.{sign_of_word, sign_of_symbol, sign_of};

use case_tables::{Symbol, Word};
use unity_syntax::TokenKind;

/// A token that may stand in a section of certificates, or any other.
#[derive(Clone, Copy, Debug, PartialEq, Eq)]
pub enum Sign {
    Number(u64),
    Minus,
    Times,
    Colon,
    Semicolon,
    End,
    Case,
    Split,
    Sum,
    Round,
    Quot,
    Share,
    Other,
}

/// What a word says that only version 2 has.
#[inline(always)]
fn later_sign(later: bool, sign: Sign) -> Sign
    ensures { result ≡ if later then sign else Sign.Other }
{
    if later { sign } else { Sign::Other }
}

#[inline(always)]
fn sign_of_word(later: bool, word: Word) -> Sign
    ensures { result ≡ sign_of_word later word }
{
    match word {
        Word::End => Sign::End,
        Word::Case => Sign::Case,
        Word::Split => Sign::Split,
        Word::Sum => Sign::Sum,
        Word::Round => Sign::Round,
        Word::Quot => later_sign(later, Sign::Quot),
        Word::Share => later_sign(later, Sign::Share),
        _ => Sign::Other,
    }
}

#[inline(always)]
fn sign_of_symbol(symbol: Symbol) -> Sign
    ensures { result ≡ sign_of_symbol symbol }
{
    match symbol {
        Symbol::Minus => Sign::Minus,
        Symbol::Times => Sign::Times,
        Symbol::Colon => Sign::Colon,
        Symbol::Semicolon => Sign::Semicolon,
        _ => Sign::Other,
    }
}

/// What a token of this kind says; `later` says whether the text is of version 2.
#[inline(always)]
pub fn sign_of(later: bool, kind: TokenKind) -> Sign
    ensures { result ≡ sign_of later kind }
{
    match kind {
        TokenKind::Word => Sign::Other,
        TokenKind::Number(value) => Sign::Number(value),
        TokenKind::Reserved(word) => sign_of_word(later, word),
        TokenKind::Symbol(symbol) => sign_of_symbol(symbol),
    }
}
