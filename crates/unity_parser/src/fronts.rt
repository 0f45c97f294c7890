//! Documents whose certificates are read elsewhere: what stands before them.

ghost use Rattle.std.specs.Prelude.{◌≡◌, IfOk, IfErr};
ghost use Rattle.unity_parser.specs.Fronts.{word_at, front_tokens, FaultStays, NamesStay};
ghost use Rattle.unity_parser.specs.ParseAnswers.{IsDocumentOf, IsRefusedFor};

use crate::reading::parse;
use case_tables::Word;
use std::alloc::{AllocError, Global};
use unity_base::Seq;
use unity_lexer::Front;
use unity_syntax::{Document, SyntaxFault, Token, TokenKind};

/// A reserved word of no length, where a front ends.
fn word_at(cut: u64, word: Word) -> Token
    ensures { result ≡ word_at cut word }
{
    Token {
        kind: TokenKind::Reserved(word),
        start: cut,
        end: cut,
    }
}

fn copied(alloc: Global, tokens: &[Token]) -> Result<Seq<Token>, AllocError>
    ensures { IfOk result (λ copy. copy ≡ tokens.now) }
{
    let mut copy = Seq::new(alloc);
    'tokens: for token in tokens {
        copy.push(*token)?;
    }
    Ok(copy)
}

/// The tokens of a front, and after a cut those of an empty section.
fn front_tokens(alloc: Global, f: &Front) -> Result<Seq<Token>, AllocError>
    ensures { IfOk result (λ tokens. tokens ≡ front_tokens f.now) }
{
    let mut tokens = copied(alloc, f.tokens.as_slice())?;
    if let Some(cut) = f.cut {
        tokens.push(word_at(cut, Word::Certificates))?;
        tokens.push(word_at(cut, Word::End))?;
    }
    Ok(tokens)
}

/// Reads the tokens of a front into the document that they are, as `parse` does. Where the front is cut before the word
/// `certificates`, the document has an empty section at that place, and the word is refused as any token is, if it may
/// not stand there.
pub fn parse_front(alloc: Global, f: &Front) -> Result<Document, SyntaxFault>
    ensures tree { IfOk result (λ d. IsDocumentOf f.now.bytes.items (front_tokens f.now) d) }
    ensures fault { IfErr result (λ fault. IsRefusedFor f.now.bytes.items (front_tokens f.now) fault) }
{
    let tokens = front_tokens(alloc, f)?;
    parse(alloc, &f.bytes, tokens.as_slice())
}

/// A fault before or at a token that opens no bracket is the same one, whatever follows that token; and the names of a
/// front are those of the whole text. This function does nothing.
pub fn front_laws()
    ensures faults { FaultStays }
    ensures names { NamesStay }
{}
