// What reads a text: tokens and what stands before the certificates as they come, expressions, documents, and the
// section of certificates.
ghost use Rattle.std.specs.Prelude.{◌≡◌, ◌<◌, ◌+◌, ◌-◌, ◌^◌, ◌==◌, ◌⊎◌, ◌∷◌, ◌++◌, ℕ, Bool, List, [], All};
ghost use Rattle.std.specs.Prelude.{Some, None, IfOk, IfErr, IsErrOf};
ghost use Rattle.std.specs.Io.KnownBytes.{IsAtEnd};
ghost use Rattle.unity_base.specs.Streams.{HasCause, IsTold};
ghost use Rattle.unity_base.specs.Window.{HasPassed, coming, held, window_at, window_limit};
ghost use Rattle.unity_syntax.specs.declared.token.Token.{Token};
ghost use Rattle.unity_syntax.specs.Grammar.{pred_};
ghost use Rattle.unity_syntax.specs.View.{view_expr};
ghost use Rattle.unity_lexer.specs.Scans.{IsFront, IsFrontError, IsNoSection, IsScan, IsSmall, TokenRises};
ghost use Rattle.unity_lexer.specs.Tokens.{AreInOrder};
ghost use Rattle.parser_expressions.specs.Gives.{Reads};
ghost use Rattle.unity_parser.specs.Fronts.{front_tokens};
ghost use Rattle.unity_parser.specs.ParseAnswers.{IsDocumentOf, IsRefusedFor};
ghost use Rattle.certificate_events.specs.Sections.{ReaderStands, TokenTakes, reader_count, told};

use certificate_events::{CertReader, Taken};
use parser_expressions::{Cursor, Parsed};
use std::alloc::Global;
use unity_base::{Failed, Held, Source, Window};
use unity_lexer::{Front, FrontError, Scan};
use unity_syntax::{Document, Expr, SyntaxFault, Token};

/// The call `next_token` of `unity_lexer`, with its clauses.
pub fn next_token<S: Source>(w: &mut Window, src: &mut S) -> Result<Scan, Failed>
    ensures scan { IfOk result (λ scan. (bytes : List ℕ) → coming w.old (S.left src.old) ≡ Some bytes →
        IsScan (window_limit w.old) (window_at w.old) bytes (window_at w.new) (coming w.new (S.left src.new)) scan) }
    ensures rises { IfOk result (TokenRises (window_at w.old) (window_at w.new)) }
    ensures end { IfOk result (λ scan. scan ≡ Scan.End → (held w.new ≡ []) × IsAtEnd (S.left src.new)) }
    ensures passed { HasPassed w.old w.new (S.left src.old) (S.left src.new) }
    ensures cause { HasCause (S.faults src.old) (S.faults src.new) result }
{
    unity_lexer::next_token(w, src)
}

/// The call `read_front` of `unity_lexer`, with its clauses.
pub fn read_front<S: Source>(
    alloc: Global,
    w: &mut Window,
    src: &mut S,
) -> Result<Front, FrontError>
    ensures front { IfOk result (λ f. window_at w.old ≡ 0 →
        (bytes : List ℕ) → coming w.old (S.left src.old) ≡ Some bytes →
        IsFront (window_limit w.old) bytes f (coming w.new (S.left src.new))) }
    ensures places { IfOk result (λ f. AreInOrder (window_at w.old) (window_at w.new) f.tokens) }
    ensures numbers { IfOk result (λ f. All IsSmall f.tokens) }
    ensures none { IfOk result (λ f. All IsNoSection f.tokens) }
    ensures end { IfOk result (λ f. f.cut ≡ None → (held w.new ≡ []) × IsAtEnd (S.left src.new)) }
    ensures error { IfErr result (λ e. window_at w.old ≡ 0 →
        (bytes : List ℕ) → coming w.old (S.left src.old) ≡ Some bytes →
        IsFrontError (window_limit w.old) bytes e) }
    ensures passed { HasPassed w.old w.new (S.left src.old) (S.left src.new) }
    ensures cause { IsTold (S.faults src.old) (S.faults src.new) (IsErrOf result FrontError.Failed) }
{
    unity_lexer::read_front(alloc, w, src)
}

/// The call `pred` of `parser_expressions`, with its clause.
pub fn pred<'a>(alloc: Global, depth: u32, text: Cursor<'a>) -> Parsed<'a, Held<Expr>>
    ensures { Reads view_expr result pred_ depth text.entry }
{
    parser_expressions::pred(alloc, depth, text)
}

/// The call `parse_front` of `unity_parser`, with its clauses.
pub fn parse_front(alloc: Global, f: &Front) -> Result<Document, SyntaxFault>
    ensures tree { IfOk result (λ d. IsDocumentOf f.now.bytes.items (front_tokens f.now) d) }
    ensures fault { IfErr result (λ fault. IsRefusedFor f.now.bytes.items (front_tokens f.now) fault) }
{
    unity_parser::parse_front(alloc, f)
}

/// The call `new` of a reader of certificates, with its clauses.
pub fn section_reader(version: u64) -> CertReader
    requires { (version ≡ 1) ⊎ (version ≡ 2) }
    ensures stands { ReaderStands (version == 2) result [] }
    ensures count { reader_count result ≡ 0 }
{
    CertReader::new(version)
}

/// The call `take` of a reader of certificates, with its clauses.
pub fn section_take(reader: &mut CertReader, t: Token) -> Taken
    requires { reader_count reader.old < 2 ^ 64 - 1 }
    ensures stands { (later : Bool) (ts : List Token) → ReaderStands later reader.old ts →
        ReaderStands later reader.new (ts ++ t ∷ []) }
    ensures takes { (later : Bool) (ts : List Token) → ReaderStands later reader.old ts → TokenTakes later ts t result }
    ensures told { (later : Bool) (ts : List Token) → ReaderStands later reader.old ts →
        told later (ts ++ t ∷ []) ≡ told later ts ++ result ∷ [] }
    ensures count { reader_count reader.new ≡ reader_count reader.old + 1 }
{
    reader.take(t)
}
