//! Whole documents.

ghost use Rattle.std.specs.Prelude.{◌≡◌, [], ◌∷◌};
ghost use Rattle.case_tables.specs.declared.word_table.Word.{Word};
ghost use Rattle.grammar_theory.specs.Ebnf.{many, maybe, node, version};
ghost use Rattle.grammar_theory.specs.LookAhead.{first};
ghost use Rattle.grammar_theory.specs.Reader.{begins};
ghost use Rattle.unity_syntax.specs.Classes.{number_class, reserved};
ghost use Rattle.unity_syntax.specs.Kinds.{Kind, kind};
ghost use Rattle.unity_syntax.specs.Grammar.{made, program_, proof_, part_, schedule_, certificates_, document_};
ghost use Rattle.unity_syntax.specs.View.{view, view_certificates, view_list, view_number, view_option, view_part};
ghost use Rattle.unity_syntax.specs.View.{view_schedule};
ghost use Rattle.parser_programs.specs.from_parser_expressions.Gives.{Reads, remaining};

use crate::certificate::certificates;
use crate::schedules::schedule;
use case_tables::Word;
use parser_programs::from_parser_expressions::{Cursor, Parsed, Stop};
use parser_programs::program;
use parser_proofs::proof;
use std::alloc::Global;
use unity_base::{Held, Seq};
use unity_syntax::{Certificates, Document, Part, Schedule, TokenKind};

/// The number of the version, which has to be 1 or 2, and its place.
fn version<'a>(text: Cursor<'a>) -> Parsed<'a, (u64, u64)>
    ensures { Reads (λ x. node (kind Kind.version) x.0 (view_number x.1)) result
        (made Kind.version (version number_class (1 ∷ 2 ∷ []))) 0 text.entry }
{
    let [first, tokens @ ..] = text.tokens else {
        return Err(Stop::Unexpected(text));
    };
    match first.kind {
        TokenKind::Number(number) if number == 1 || number == 2 => Ok((
            (first.start, number),
            Cursor { tokens, ..text },
        )),
        TokenKind::Number(_) => Err(Stop::OtherVersion(text)),
        _ => Err(Stop::Unexpected(text)),
    }
}

/// Whether a program begins here.
#[tactic(auto, unfolding(unity_syntax::specs::Grammar::program_))]
fn begins_program(text: Cursor) -> bool
    ensures { result ≡ begins (first program_) (remaining text.entry) }
{
    text.begins_reserved(Word::Program)
}

/// A program, as a part of a document.
fn program_part<'a>(alloc: Global, depth: u32, text: Cursor<'a>) -> Parsed<'a, Part>
    ensures { Reads view_part result (made Kind.part_program program_) depth text.entry }
{
    let at = text.place();
    let (of, text) = program(alloc, depth, text)?;
    Ok((Part::Program { at, of }, text))
}

/// A proof, as a part of a document.
fn proof_part<'a>(alloc: Global, depth: u32, text: Cursor<'a>) -> Parsed<'a, Part>
    ensures { Reads view_part result (made Kind.part_proof proof_) depth text.entry }
{
    let at = text.place();
    let (of, text) = proof(alloc, depth, text)?;
    Ok((Part::Proof { at, of }, text))
}

/// `program | proof`
#[tactic(auto, unfolding(unity_syntax::specs::Grammar::part_))]
fn part<'a>(alloc: Global, depth: u32, text: Cursor<'a>) -> Parsed<'a, Part>
    ensures { Reads view_part result part_ depth text.entry }
{
    if begins_program(text) {
        return program_part(alloc, depth, text);
    }
    proof_part(alloc, depth, text)
}

/// Whether a part of a document begins here.
fn begins_part(text: Cursor) -> bool
    ensures { result ≡ begins (reserved Word.Program ∷ reserved Word.Proof ∷ []) (remaining text.entry) }
{
    text.begins_one_reserved(&[Word::Program, Word::Proof])
}

/// `{ program | proof }`
fn parts<'a>(alloc: Global, depth: u32, text: Cursor<'a>) -> Parsed<'a, Seq<Part>>
    ensures { Reads (view_list view_part) result (many part_) depth text.entry }
{
    let mut found = Seq::new(alloc);
    let mut rest = text;
    'items: while begins_part(rest) {
        let (item, later) = part(alloc, depth, rest)?;
        found.push(item)?;
        rest = later;
    }
    Ok((found, rest))
}

/// Whether a schedule begins here.
#[tactic(auto, unfolding(unity_syntax::specs::Grammar::schedule_))]
fn begins_schedule(text: Cursor) -> bool
    ensures { result ≡ begins (first schedule_) (remaining text.entry) }
{
    text.begins_reserved(Word::Schedule)
}

/// `[ schedule ]`
fn maybe_schedule<'a>(
    alloc: Global,
    depth: u32,
    text: Cursor<'a>,
) -> Parsed<'a, Held<Option<Schedule>>>
    ensures { Reads (view_option view_schedule) result (maybe schedule_) depth text.entry }
{
    if !begins_schedule(text) {
        let none = Held::new(alloc, None)?;
        return Ok((none, text));
    }
    let (found, text) = schedule(alloc, depth, text)?;
    let found = Held::new(alloc, Some(found))?;
    Ok((found, text))
}

/// Whether certificates begin here.
#[tactic(auto, unfolding(unity_syntax::specs::Grammar::certificates_))]
fn begins_certificates(text: Cursor) -> bool
    ensures { result ≡ begins (first certificates_) (remaining text.entry) }
{
    text.begins_reserved(Word::Certificates)
}

/// `[ certificates ]`
fn maybe_certificates<'a>(
    alloc: Global,
    depth: u32,
    text: Cursor<'a>,
) -> Parsed<'a, Option<Certificates>>
    ensures { Reads (view_option view_certificates) result (maybe certificates_) depth text.entry }
{
    if !begins_certificates(text) {
        return Ok((None, text));
    }
    let (found, text) = certificates(alloc, depth, text)?;
    Ok((Some(found), text))
}

/// `document = "unity" number { program | proof } [ schedule ] [ certificates ]`
#[tactic(auto, unfolding(unity_syntax::specs::Grammar::document_))]
pub fn document<'a>(alloc: Global, depth: u32, text: Cursor<'a>) -> Parsed<'a, Document>
    ensures { Reads view result document_ depth text.entry }
{
    let at = text.place();
    let text = text.reserved(Word::Unity)?;
    let ((number_at, number), text) = version(text)?;
    let (parts, text) = parts(alloc, depth, text)?;
    let (schedule, text) = maybe_schedule(alloc, depth, text)?;
    let (certificates, text) = maybe_certificates(alloc, depth, text)?;
    let document = Document {
        at,
        number_at,
        number,
        parts,
        schedule: schedule.into_inner(),
        certificates,
    };
    Ok((document, text))
}
