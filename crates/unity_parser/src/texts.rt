// The reading of a text: its document, or its first fault.
ghost use Rattle.std.specs.Prelude.{IfOk, IfErr, length};
ghost use Rattle.grammar_theory.specs.Words.{words};
ghost use Rattle.unity_syntax.specs.View.{view};
ghost use Rattle.unity_lexer.specs.Tokens.{IsTokens};
ghost use Rattle.unity_parser.specs.ParseAnswers.{WordsRise};
ghost use Rattle.unity_parser.specs.Document.{IsDocument, IsTextFault, SomeReading, OneDocument, NoFault, OneFault};

use crate::reading::parse;
use std::alloc::Global;
use unity_lexer::lex;
use unity_syntax::{Document, SyntaxFault, Token};

/// The document that a text's tokens are, or the first fault.
fn of_tokens(alloc: Global, bytes: &[u8], tokens: &[Token]) -> Result<Document, SyntaxFault>
    requires { IsTokens bytes.now tokens.now }
    ensures document { IfOk result (IsDocument bytes.now) }
    ensures fault { IfErr result (IsTextFault bytes.now) }
    ensures words { IfOk result (λ d. WordsRise 0 (length bytes.now) (words (view d))) }
{
    parse(alloc, bytes, tokens)
}

/// Reads the document that the bytes are. Its words stand at rising places in them.
///
/// The fault is that of the first place where no token can be read (`BadByte`, `BadNumber`); or else
/// the first token that no document has after those before it (`Unexpected`), the number of another
/// version (`Version`), or the first opening bracket that may stand there while 200 are open
/// (`TooDeep`). It is `Memory` where memory is refused.
pub fn read_document(alloc: Global, bytes: &[u8]) -> Result<Document, SyntaxFault>
    ensures document { IfOk result (IsDocument bytes.now) }
    ensures fault { IfErr result (IsTextFault bytes.now) }
    ensures words { IfOk result (λ d. WordsRise 0 (length bytes.now) (words (view d))) }
{
    let tokens = lex(alloc, bytes)?;
    of_tokens(alloc, bytes, tokens.as_slice())
}

/// Bytes are one document or have one first fault, and never both. This function does nothing.
pub fn one_reading()
    ensures some { SomeReading }
    ensures document { OneDocument }
    ensures either { NoFault }
    ensures fault { OneFault }
{}
