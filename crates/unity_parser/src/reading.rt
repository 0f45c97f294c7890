//! The one document of a text's tokens, or why there is none.

ghost use Rattle.std.specs.Prelude.{◌≡◌, IfOk, IfErr, length};
ghost use Rattle.unity_syntax.specs.Classes.{says_later};
ghost use Rattle.grammar_theory.specs.Reader.{ended, read_whole};
ghost use Rattle.grammar_theory.specs.Words.{words};
ghost use Rattle.unity_syntax.specs.Grammar.{grammar, document_};
ghost use Rattle.unity_syntax.specs.View.{view};
ghost use Rattle.unity_lexer.specs.Tokens.{AreInOrder};
ghost use Rattle.parser_programs.specs.from_parser_expressions.Gives.{Gives, Reads, remaining};
ghost use Rattle.unity_parser.specs.ParseAnswers.{beginning, Names, IsDocumentOf, IsRefusedFor, WordsRise};

use crate::documents::document;
use case_tables::Code;
use parser_programs::from_parser_expressions::{Cursor, Stop};
use std::alloc::Global;
use unity_syntax::{Document, SyntaxFault, Token, TokenKind};

/// How many brackets may be open at once.
const MOST_BRACKETS: u32 = 200;

/// The document, where no token is left.
fn ended<'a>(document: Document, rest: Cursor<'a>) -> Result<Document, Stop<'a>>
    ensures { Gives view result (ended (view document) (remaining rest.entry)) }
{
    match rest.tokens {
        [] => Ok(document),
        [_, ..] => Err(Stop::Unexpected(rest)),
    }
}

/// The document that all of the tokens are, with the tokens that are left from a fault on.
fn whole<'a>(alloc: Global, text: Cursor<'a>) -> Result<Document, Stop<'a>>
    ensures { Gives view result (read_whole grammar 200 document_ (remaining text.entry)) }
{
    let (document, rest) = document(alloc, MOST_BRACKETS, text)?;
    ended(document, rest)
}

/// Whether the text says that it is of version 2: by its second token, as a document begins with the word `unity` and
/// a number.
pub fn says_later(tokens: &[Token]) -> bool
    ensures { result ≡ says_later tokens.now }
{
    match tokens {
        [_, second, ..] => match second.kind {
            TokenKind::Number(number) => number == 2,
            _ => false,
        },
        _ => false,
    }
}

/// The place of the first token that is left, or the end of the text where none is.
fn beginning(bytes: &[u8], rest: Cursor) -> u64
    ensures { result ≡ beginning (length bytes.now) (remaining rest.entry) }
{
    match rest.tokens {
        [] => bytes.len() as u64,
        [first, ..] => first.start,
    }
}

/// The fault of the text.
fn refusal(bytes: &[u8], stop: Stop) -> SyntaxFault
    ensures { Names bytes.now stop.entry result }
{
    let (code, rest) = match stop {
        Stop::Memory => return SyntaxFault::Memory,
        Stop::Unexpected(rest) => (Code::Unexpected, rest),
        Stop::OtherVersion(rest) => (Code::Version, rest),
        Stop::TooDeep(rest) => (Code::TooDeep, rest),
    };
    let at = beginning(bytes, rest);
    SyntaxFault::Fault { code, at }
}

/// Reads the tokens of a text into the one document that they are.
///
/// `bytes` are the text's, which names are copied from, and `tokens` all of its tokens. `Ok` means
/// that the tokens are those of the document by the language's grammar, with no more than 200
/// brackets open at once. In a text that doesn't say that it is of version 2, no document has a word
/// that only version 2 has.
///
/// A text is refused at its first bad token, in one of three ways:
/// - `Unexpected`: no document begins with the tokens up to this one, or the text ends too early,
///   and the place is its length;
/// - `Version`: a document may go on with this number, but only of another version than 1 and 2;
/// - `TooDeep`: a document may go on with this opening bracket, but 200 brackets are open.
///
/// The fault is `Memory` where memory is refused.
pub fn parse(alloc: Global, bytes: &[u8], tokens: &[Token]) -> Result<Document, SyntaxFault>
    ensures tree { IfOk result (λ d. IsDocumentOf bytes.now tokens.now d) }
    ensures fault { IfErr result (λ fault. IsRefusedFor bytes.now tokens.now fault) }
    ensures words { IfOk result (λ d.
        AreInOrder 0 (length bytes.now) tokens.now → WordsRise 0 (length bytes.now) (words (view d))) }
{
    let later = says_later(tokens);
    let text = Cursor {
        bytes,
        tokens,
        later,
    };
    match whole(alloc, text) {
        Ok(document) => Ok(document),
        Err(stop) => Err(refusal(bytes, stop)),
    }
}
