//! The rule of a step.

ghost use Rattle.std.specs.Prelude.{◌≡◌};
ghost use Rattle.case_tables.specs.declared.word_table.Word.{Word};
ghost use Rattle.grammar_theory.specs.Ebnf.{both, choice, either, maybe, named, pair};
ghost use Rattle.grammar_theory.specs.LookAhead.{first};
ghost use Rattle.grammar_theory.specs.Reader.{begins};
ghost use Rattle.unity_syntax.specs.Classes.{reserved};
ghost use Rattle.unity_syntax.specs.Kinds.{Kind, Contents};
ghost use Rattle.unity_syntax.specs.Grammar.{made, past, in_parentheses, make_weaken, pairrule_, inst_, ref_};
ghost use Rattle.unity_syntax.specs.Grammar.{other_term_, rule_};
ghost use Rattle.unity_syntax.specs.View.{view_inst, view_option, view_ref, view_rule};
ghost use Rattle.parser_expressions.specs.Gives.{Reads, remaining};

use crate::forms::{Enclosed, Form};
use crate::terms::{enclosed, other_term};
use case_tables::Word;
use parser_expressions::{Cursor, Parsed, begins_reference, inst, reference};
use std::alloc::Global;
use unity_syntax::{Inst, Ref, Rule};

/// The words of the rules of two references.
const PAIR_RULES: &[Word] = &[
    Word::Conj,
    Word::Simpleconj,
    Word::Disj,
    Word::Simpledisj,
    Word::Cancel,
    Word::Union,
    Word::Until,
    Word::Detects,
    Word::Constant,
];

/// Whether a rule of two references begins here.
fn begins_pair_rule(text: Cursor) -> bool
    ensures { result ≡ begins (first pairrule_) (remaining text.entry) }
{
    text.begins_one_reserved(PAIR_RULES)
}

/// `pairrule = "conj" | "simpleconj" | "disj" | "simpledisj" | "cancel" | "union"
///           | "until" | "detects" | "constant"`
fn pair_rule_word<'a>(text: Cursor<'a>) -> Parsed<'a, Word>
    ensures { Reads (λ x. choice (reserved x)) result pairrule_ 0 text.entry }
{
    text.one_reserved(PAIR_RULES)
}

/// `[ "with" inst ]`
fn with_inst<'a>(alloc: Global, depth: u32, text: Cursor<'a>) -> Parsed<'a, Option<Inst>>
    ensures { Reads (view_option view_inst) result (maybe (past (reserved Word.With) inst_)) depth text.entry }
{
    if !text.begins_reserved(Word::With) {
        return Ok((None, text));
    }
    let text = text.reserved(Word::With)?;
    let (found, text) = inst(alloc, depth, text)?;
    Ok((Some(found), text))
}

/// `"text" [ "with" inst ]`
fn text_rule<'a>(alloc: Global, depth: u32, text: Cursor<'a>) -> Parsed<'a, Rule>
    ensures { Reads view_rule result
        (made Kind.rule_text (past (reserved Word.Text) (maybe (past (reserved Word.With) inst_)))) depth text.entry }
{
    let at = text.place();
    let text = text.reserved(Word::Text)?;
    let (with, text) = with_inst(alloc, depth, text)?;
    Ok((Rule::Text { at, with }, text))
}

/// `"weaken" ref | "weaken" "(" pred "," pred "," term ")"`
fn weaken_rule<'a>(alloc: Global, depth: u32, text: Cursor<'a>) -> Parsed<'a, Rule>
    ensures { Reads view_rule result
        (named make_weaken (past (reserved Word.Weaken) (either ref_ (in_parentheses Contents.weaken))))
        depth text.entry }
{
    let at = text.place();
    let text = text.reserved(Word::Weaken)?;
    if begins_reference(text) {
        let (of, text) = reference(alloc, depth, text)?;
        return Ok((Rule::Weaken { at, of }, text));
    }
    let (of, text) = enclosed(alloc, depth, at, Enclosed::Parts(Form::Weaken), text)?;
    let of = of.into_inner();
    Ok((Rule::Term { at, of }, text))
}

/// `ref ref`
fn two_references<'a>(alloc: Global, depth: u32, text: Cursor<'a>) -> Parsed<'a, (Ref, Ref)>
    ensures { Reads (λ x. pair (view_ref x.0) (view_ref x.1)) result (both ref_ ref_) depth text.entry }
{
    let (first, text) = reference(alloc, depth, text)?;
    let (second, text) = reference(alloc, depth, text)?;
    Ok(((first, second), text))
}

/// `pairrule ref ref`
fn pair_rule<'a>(alloc: Global, depth: u32, text: Cursor<'a>) -> Parsed<'a, Rule>
    ensures { Reads view_rule result (made Kind.rule_pair (both pairrule_ (both ref_ ref_))) depth text.entry }
{
    let at = text.place();
    let (which, text) = pair_rule_word(text)?;
    let ((first, second), text) = two_references(alloc, depth, text)?;
    let rule = Rule::Pair {
        at,
        which,
        first,
        second,
    };
    Ok((rule, text))
}

/// `"superpose" ref`
fn superpose_rule<'a>(alloc: Global, depth: u32, text: Cursor<'a>) -> Parsed<'a, Rule>
    ensures { Reads view_rule result
        (made Kind.rule_superpose (past (reserved Word.Superpose) ref_)) depth text.entry }
{
    let at = text.place();
    let text = text.reserved(Word::Superpose)?;
    let (of, text) = reference(alloc, depth, text)?;
    Ok((Rule::Superpose { at, of }, text))
}

/// `"complete" ref ref ref ref`
fn complete_rule<'a>(alloc: Global, depth: u32, text: Cursor<'a>) -> Parsed<'a, Rule>
    ensures { Reads view_rule result
        (made Kind.rule_complete (past (reserved Word.Complete) (both ref_ (both ref_ (both ref_ ref_)))))
        depth text.entry }
{
    let at = text.place();
    let text = text.reserved(Word::Complete)?;
    let (first, text) = reference(alloc, depth, text)?;
    let (second, text) = reference(alloc, depth, text)?;
    let ((third, fourth), text) = two_references(alloc, depth, text)?;
    let rule = Rule::Complete {
        at,
        first,
        second,
        third,
        fourth,
    };
    Ok((rule, text))
}

/// A term that does not begin with `weaken`.
fn term_rule<'a>(alloc: Global, depth: u32, text: Cursor<'a>) -> Parsed<'a, Rule>
    ensures { Reads view_rule result (made Kind.rule_term other_term_) depth text.entry }
{
    let at = text.place();
    let (of, text) = other_term(alloc, depth, text)?;
    let of = of.into_inner();
    Ok((Rule::Term { at, of }, text))
}

/// `rule = "text" [ "with" inst ] | "weaken" ref | pairrule ref ref | "superpose" ref
///       | "complete" ref ref ref ref | term`
#[tactic(auto, unfolding(unity_syntax::specs::Grammar::rule_))]
pub(crate) fn rule<'a>(alloc: Global, depth: u32, text: Cursor<'a>) -> Parsed<'a, Rule>
    ensures { Reads view_rule result rule_ depth text.entry }
{
    if text.begins_reserved(Word::Text) {
        return text_rule(alloc, depth, text);
    }
    if text.begins_reserved(Word::Weaken) {
        return weaken_rule(alloc, depth, text);
    }
    if begins_pair_rule(text) {
        return pair_rule(alloc, depth, text);
    }
    if text.begins_reserved(Word::Superpose) {
        return superpose_rule(alloc, depth, text);
    }
    if text.begins_reserved(Word::Complete) {
        return complete_rule(alloc, depth, text);
    }
    term_rule(alloc, depth, text)
}
