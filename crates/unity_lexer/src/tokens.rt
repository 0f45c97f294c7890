//! The tokens of a text.

ghost use Rattle.std.specs.Prelude.{IfOk, IfErr, length, All};
ghost use Rattle.unity_lexer.specs.Tokens.{IsTokens, IsTokenRefusal, AreInOrder, IsSpelledIn};

use crate::piece::{Piece, first_piece};
use std::alloc::Global;
use unity_base::Seq;
use unity_syntax::{SyntaxFault, Token};

/// Reads a whole text into its tokens, which have their places in the text, in bytes from 0.
///
/// The blanks are space, tab, line feed and carriage return, and a comment goes from `#` up to the
/// next line feed, or to the end. At each place the longest word, numeral or symbol is read.
///
/// Refused, at the first such place, are a byte that begins no token, blank or comment (`BadByte`)
/// and a numeral that is above 2^62 or has a `0` before another digit (`BadNumber`). The fault is
/// `Memory` where memory is refused.
pub fn lex(alloc: Global, bytes: &[u8]) -> Result<Seq<Token>, SyntaxFault>
    ensures tokens { IfOk result (λ tokens. IsTokens bytes.now tokens) }
    ensures places { IfOk result (λ tokens. AreInOrder 0 (length bytes.now) tokens) }
    ensures spelled { IfOk result (λ tokens. All (IsSpelledIn bytes.now) tokens) }
    ensures fault { IfErr result (λ fault. IsTokenRefusal bytes.now fault) }
{
    let mut tokens = Seq::new(alloc);
    let mut at = 0;
    while at < bytes.len() {
        match first_piece(&bytes[at..]) {
            Piece::Gap(size) => at += size,
            Piece::Token(kind, size) => {
                tokens.push(Token {
                    kind,
                    start: at as u64,
                    end: (at + size) as u64,
                })?;
                at += size;
            }
            Piece::Fault(code) => {
                return Err(SyntaxFault::Fault {
                    code,
                    at: at as u64,
                });
            }
        }
    }
    Ok(tokens)
}
