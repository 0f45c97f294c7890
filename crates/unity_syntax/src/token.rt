//! The tokens of a text.

use case_tables::{Symbol, Word};

/// What a token is.
#[derive(Clone, Copy, Debug, PartialEq, Eq)]
pub enum TokenKind {
    /// A name: an ASCII letter and then ASCII letters, digits and `_`, and no reserved word.
    Word,
    /// A number, from 0 to 2^62.
    Number(u64),
    /// A reserved word.
    Reserved(Word),
    /// A symbol.
    Symbol(Symbol),
}

/// A token and its place in the text.
#[derive(Clone, Copy, Debug, PartialEq, Eq)]
pub struct Token {
    /// What it is.
    pub kind: TokenKind,
    /// The place of its first byte, counted in bytes from 0.
    pub start: u64,
    /// The place after its last byte.
    pub end: u64,
}
