//! Terms, and what stands in their parentheses.

ghost use Rattle.std.specs.Prelude.{◌≡◌, [], ◌∷◌, map};
ghost use Rattle.case_tables.specs.declared.word_table.Word.{Word};
ghost use Rattle.grammar_theory.specs.Ebnf.{both, choice, node, one_of, pair};
ghost use Rattle.grammar_theory.specs.LookAhead.{first};
ghost use Rattle.grammar_theory.specs.Reader.{begins};
ghost use Rattle.unity_syntax.specs.Classes.{reserved};
ghost use Rattle.unity_syntax.specs.Kinds.{Kind, kind, Contents, contents};
ghost use Rattle.unity_syntax.specs.Grammar.{made, past, then_, in_parentheses, bodies, at_number, ref_, pred_, imply_};
ghost use Rattle.unity_syntax.specs.Grammar.{pair_, exists_, induct_, psp_, weaken_, other_term_, term_};
ghost use Rattle.unity_syntax.specs.View.{view_term};
ghost use Rattle.parser_expressions.specs.Gives.{Reads, ReadsAs, remaining};
ghost use Rattle.parser_proofs.specs.Forms.{form_, enclosed_contents, enclosing};
ghost use Rattle.parser_proofs.specs.TermParts.{view_descent, view_weakening};

use crate::forms::{Enclosed, Form};
use crate::term_parts;
use crate::term_parts::{Descent, Weakening};
use case_tables::{Symbol, Word};
use parser_expressions::{Cursor, Parsed, Stop, bound, pred, reference};
use std::alloc::Global;
use unity_base::Held;
use unity_syntax::Term;

/// The words that terms of two terms begin with.
const PAIRS: &[Word] = &[Word::Trans, Word::Either];

/// The words that the terms begin with, but for `weaken`.
const OTHER_TERMS: &[Word] = &[
    Word::Imply,
    Word::From,
    Word::Trans,
    Word::Either,
    Word::Exists,
    Word::Induct,
    Word::Psp,
];

/// Whether a term begins here, and with no `weaken`.
#[tactic(auto, unfolding(unity_syntax::specs::Grammar::other_term_))]
fn begins_other_term(text: Cursor) -> bool
    ensures { result ≡ begins (first other_term_) (remaining text.entry) }
{
    text.begins_one_reserved(OTHER_TERMS)
}

/// Whether a term of two terms begins here.
fn begins_pair(text: Cursor) -> bool
    ensures { result ≡ begins (map reserved (Word.Trans ∷ Word.Either ∷ [])) (remaining text.entry) }
{
    text.begins_one_reserved(PAIRS)
}

/// `"trans" | "either"`
fn pair_word<'a>(text: Cursor<'a>) -> Parsed<'a, Word>
    ensures { Reads (λ x. choice (reserved x)) result
        (one_of (map reserved (Word.Trans ∷ Word.Either ∷ []))) 0 text.entry }
{
    text.one_reserved(PAIRS)
}

/// `term = "imply" "(" pred "," pred ")" | "from" ref
///       | ( "trans" | "either" ) "(" term "," term ")"
///       | "exists" "(" word ":" range "," term ")"
///       | "induct" "(" word ":" range "," pred "," pred "," pred "," term ")"
///       | "psp" "(" term "," ref ")" | "weaken" "(" pred "," pred "," term ")"`
#[tactic(auto, unfolding(unity_syntax::specs::Grammar::term_))]
#[cycle(terms)]
pub fn term<'a>(alloc: Global, depth: u32, text: Cursor<'a>) -> Parsed<'a, Held<Term>>
    ensures { Reads view_term result term_ depth text.entry }
{
    if begins_other_term(text) {
        return other_term(alloc, depth, text);
    }
    form_term(alloc, depth, Form::Weaken, text)
}

/// The terms that do not begin with `weaken`.
#[tactic(auto, unfolding(unity_syntax::specs::Grammar::other_term_))]
#[cycle(terms)]
pub fn other_term<'a>(alloc: Global, depth: u32, text: Cursor<'a>) -> Parsed<'a, Held<Term>>
    ensures { Reads view_term result other_term_ depth text.entry }
{
    if text.begins_reserved(Word::Imply) {
        return form_term(alloc, depth, Form::Imply, text);
    }
    if text.begins_reserved(Word::From) {
        return from_term(alloc, depth, text);
    }
    if begins_pair(text) {
        return pair_term(alloc, depth, text);
    }
    if text.begins_reserved(Word::Exists) {
        return form_term(alloc, depth, Form::Exists, text);
    }
    if text.begins_reserved(Word::Induct) {
        return form_term(alloc, depth, Form::Induct, text);
    }
    form_term(alloc, depth, Form::Psp, text)
}

/// `"from" ref`
fn from_term<'a>(alloc: Global, depth: u32, text: Cursor<'a>) -> Parsed<'a, Held<Term>>
    ensures { Reads view_term result (made Kind.term_from (past (reserved Word.From) ref_)) depth text.entry }
{
    let at = text.place();
    let text = text.reserved(Word::From)?;
    let (of, text) = reference(alloc, depth, text)?;
    let whole = term_parts::from(alloc, at, of)?;
    Ok((whole, text))
}

/// The word of the form, and `"(" .. ")"`
#[cycle(terms)]
fn form_term<'a>(alloc: Global, depth: u32, form: Form, text: Cursor<'a>) -> Parsed<'a, Held<Term>>
    ensures { Reads view_term result (form_ form) depth text.entry }
{
    let at = text.place();
    let text = text.reserved(form.word())?;
    enclosed(alloc, depth, at, Enclosed::Parts(form), text)
}

/// `"(" .. ")"`, of the term that begins at this place
#[tactic(auto, using(parser_expressions::proofs::Levels::after_level, parser_expressions::proofs::Levels::after_none))]
#[cycle(terms)]
pub fn enclosed<'a>(
    alloc: Global,
    depth: u32,
    at: u64,
    what: Enclosed,
    text: Cursor<'a>,
) -> Parsed<'a, Held<Term>>
    ensures { ReadsAs (enclosing what at)
        view_term result (in_parentheses (enclosed_contents what)) depth text.entry }
{
    let rest = text.symbol(Symbol::OpenParenthesis)?;
    if depth == 0 {
        return Err(Stop::TooDeep(text));
    }
    let (whole, rest) = parts(alloc, depth - 1, at, what, rest)?;
    let rest = rest.symbol(Symbol::CloseParenthesis)?;
    Ok((whole, rest))
}

/// What stands in the parentheses of the term that begins at this place.
#[cycle(terms)]
fn parts<'a>(
    alloc: Global,
    depth: u32,
    at: u64,
    what: Enclosed,
    text: Cursor<'a>,
) -> Parsed<'a, Held<Term>>
    ensures { ReadsAs (enclosing what at)
        view_term result (at_number bodies (contents (enclosed_contents what))) depth text.entry }
{
    match what {
        Enclosed::Parts(Form::Imply) => imply(alloc, depth, at, text),
        Enclosed::Parts(Form::Exists) => exists(alloc, depth, at, text),
        Enclosed::Parts(Form::Induct) => induct(alloc, depth, at, text),
        Enclosed::Parts(Form::Psp) => psp(alloc, depth, at, text),
        Enclosed::Parts(Form::Weaken) => weaken(alloc, depth, at, text),
        Enclosed::Terms(which) => two_terms(alloc, depth, at, which, text),
    }
}

/// `pred "," pred`
#[tactic(auto, unfolding(unity_syntax::specs::Grammar::imply_))]
fn imply<'a>(alloc: Global, depth: u32, at: u64, text: Cursor<'a>) -> Parsed<'a, Held<Term>>
    ensures { ReadsAs (node (kind Kind.term_imply) at) view_term result imply_ depth text.entry }
{
    let (p, text) = pred(alloc, depth, text)?;
    let text = text.symbol(Symbol::Comma)?;
    let (q, text) = pred(alloc, depth, text)?;
    let whole = term_parts::imply(alloc, at, p, q)?;
    Ok((whole, text))
}

/// `( "trans" | "either" ) "(" term "," term ")"`
#[cycle(terms)]
fn pair_term<'a>(alloc: Global, depth: u32, text: Cursor<'a>) -> Parsed<'a, Held<Term>>
    ensures { Reads view_term result
        (made Kind.term_pair
        (both (one_of (map reserved (Word.Trans ∷ Word.Either ∷ []))) (in_parentheses Contents.pair)))
        depth text.entry }
{
    let at = text.place();
    let (which, text) = pair_word(text)?;
    enclosed(alloc, depth, at, Enclosed::Terms(which), text)
}

/// `term "," term`
#[tactic(auto, unfolding(unity_syntax::specs::Grammar::pair_))]
#[cycle(terms)]
fn two_terms<'a>(
    alloc: Global,
    depth: u32,
    at: u64,
    which: Word,
    text: Cursor<'a>,
) -> Parsed<'a, Held<Term>>
    ensures { ReadsAs (λ x. node (kind Kind.term_pair) at (pair (choice (reserved which)) x))
        view_term result pair_ depth text.entry }
{
    let (first, text) = term(alloc, depth, text)?;
    let text = text.symbol(Symbol::Comma)?;
    let (second, text) = term(alloc, depth, text)?;
    let whole = term_parts::pair(alloc, at, which, first, second)?;
    Ok((whole, text))
}

/// `word ":" range "," term`
#[cycle(terms)]
fn exists<'a>(alloc: Global, depth: u32, at: u64, text: Cursor<'a>) -> Parsed<'a, Held<Term>>
    ensures { ReadsAs (node (kind Kind.term_exists) at) view_term result exists_ depth text.entry }
{
    let (bound, text) = bound(alloc, depth, Symbol::Comma, text)?;
    let (of, text) = term(alloc, depth, text)?;
    let whole = term_parts::exists(alloc, at, bound, of)?;
    Ok((whole, text))
}

/// `word ":" range "," pred "," pred "," pred "," term`
#[cycle(terms)]
fn induct<'a>(alloc: Global, depth: u32, at: u64, text: Cursor<'a>) -> Parsed<'a, Held<Term>>
    ensures { ReadsAs (node (kind Kind.term_induct) at) view_term result induct_ depth text.entry }
{
    let (bound, text) = bound(alloc, depth, Symbol::Comma, text)?;
    let (parts, text) = descent(alloc, depth, text)?;
    let whole = term_parts::induct(alloc, at, bound, parts)?;
    Ok((whole, text))
}

/// `pred "," pred "," pred "," term`
#[tactic(auto, unfolding(unity_syntax::specs::Grammar::weaken_))]
#[cycle(terms)]
fn descent<'a>(alloc: Global, depth: u32, text: Cursor<'a>) -> Parsed<'a, Descent>
    ensures { Reads view_descent result (both pred_ (then_ weaken_)) depth text.entry }
{
    let (measure, text) = pred(alloc, depth, text)?;
    let text = text.symbol(Symbol::Comma)?;
    let (Weakening { p, q, of }, text) = weakening(alloc, depth, text)?;
    let parts = Descent { measure, p, q, of };
    Ok((parts, text))
}

/// `term "," ref`
#[tactic(auto, unfolding(unity_syntax::specs::Grammar::psp_))]
#[cycle(terms)]
fn psp<'a>(alloc: Global, depth: u32, at: u64, text: Cursor<'a>) -> Parsed<'a, Held<Term>>
    ensures { ReadsAs (node (kind Kind.term_psp) at) view_term result psp_ depth text.entry }
{
    let (of, text) = term(alloc, depth, text)?;
    let text = text.symbol(Symbol::Comma)?;
    let (by, text) = reference(alloc, depth, text)?;
    let whole = term_parts::psp(alloc, at, of, by)?;
    Ok((whole, text))
}

/// `pred "," pred "," term`, as a term
#[cycle(terms)]
fn weaken<'a>(alloc: Global, depth: u32, at: u64, text: Cursor<'a>) -> Parsed<'a, Held<Term>>
    ensures { ReadsAs (node (kind Kind.term_weaken) at) view_term result weaken_ depth text.entry }
{
    let (parts, text) = weakening(alloc, depth, text)?;
    let whole = term_parts::weaken(alloc, at, parts)?;
    Ok((whole, text))
}

/// `pred "," pred "," term`
#[tactic(auto, unfolding(unity_syntax::specs::Grammar::weaken_))]
#[cycle(terms)]
fn weakening<'a>(alloc: Global, depth: u32, text: Cursor<'a>) -> Parsed<'a, Weakening>
    ensures { Reads view_weakening result weaken_ depth text.entry }
{
    let (p, text) = pred(alloc, depth, text)?;
    let text = text.symbol(Symbol::Comma)?;
    let (q, text) = pred(alloc, depth, text)?;
    let text = text.symbol(Symbol::Comma)?;
    let (of, text) = term(alloc, depth, text)?;
    Ok((Weakening { p, q, of }, text))
}
