//! The claim of a step.

ghost use Rattle.std.specs.Prelude.{[], ◌∷◌, map};
ghost use Rattle.case_tables.specs.declared.word_table.Word.{Word};
ghost use Rattle.grammar_theory.specs.Ebnf.{both, choice, fixed, one_of};
ghost use Rattle.unity_syntax.specs.Classes.{reserved};
ghost use Rattle.unity_syntax.specs.Kinds.{Kind};
ghost use Rattle.unity_syntax.specs.Grammar.{made, pred_, claim_};
ghost use Rattle.unity_syntax.specs.View.{view_claim};
ghost use Rattle.parser_expressions.specs.Gives.{Reads};
ghost use Rattle.parser_proofs.specs.Forms.{property_};

use crate::forms::Property;
use case_tables::Word;
use parser_expressions::{Cursor, Parsed, pred};
use std::alloc::Global;
use unity_syntax::Claim;

/// The words that stand between two predicates.
const BETWEEN: &[Word] = &[
    Word::Unless,
    Word::Ensures,
    Word::Leadsto,
    Word::Until,
    Word::Detects,
];

/// `"unless" | "ensures" | "leadsto" | "until" | "detects"`
fn between_word<'a>(text: Cursor<'a>) -> Parsed<'a, Word>
    ensures { Reads (λ x. choice (reserved x)) result
        (one_of (map reserved (Word.Unless ∷ Word.Ensures ∷ Word.Leadsto ∷ Word.Until ∷ Word.Detects ∷ [])))
        0 text.entry }
{
    text.one_reserved(BETWEEN)
}

/// `"defined"`
fn defined_claim<'a>(text: Cursor<'a>) -> Parsed<'a, Claim>
    ensures { Reads view_claim result (made Kind.claim_defined (fixed (reserved Word.Defined))) 0 text.entry }
{
    let at = text.place();
    let text = text.reserved(Word::Defined)?;
    Ok((Claim::Defined { at }, text))
}

/// The word of a property, and its predicate.
fn property_claim<'a>(
    alloc: Global,
    depth: u32,
    property: Property,
    text: Cursor<'a>,
) -> Parsed<'a, Claim>
    ensures { Reads view_claim result (property_ property) depth text.entry }
{
    let at = text.place();
    let text = text.reserved(property.word())?;
    let (of, text) = pred(alloc, depth, text)?;
    Ok((property.claim(at, of.into_inner()), text))
}

/// `pred ( "unless" | "ensures" | "leadsto" | "until" | "detects" ) pred`
fn between_claim<'a>(alloc: Global, depth: u32, text: Cursor<'a>) -> Parsed<'a, Claim>
    ensures { Reads view_claim result
        (made Kind.claim_between
        (both pred_ (both (one_of (map reserved
        (Word.Unless ∷ Word.Ensures ∷ Word.Leadsto ∷ Word.Until ∷ Word.Detects ∷ []))) pred_)))
        depth text.entry }
{
    let at = text.place();
    let (p, text) = pred(alloc, depth, text)?;
    let (which, text) = between_word(text)?;
    let (q, text) = pred(alloc, depth, text)?;
    let claim = Claim::Between {
        at,
        p: p.into_inner(),
        which,
        q: q.into_inner(),
    };
    Ok((claim, text))
}

/// `claim = "defined" | "invariant" pred | "stable" pred | "constant" pred | "fixed" pred
///        | pred ( "unless" | "ensures" | "leadsto" | "until" | "detects" ) pred`
#[tactic(auto, unfolding(unity_syntax::specs::Grammar::claim_))]
pub(crate) fn claim<'a>(alloc: Global, depth: u32, text: Cursor<'a>) -> Parsed<'a, Claim>
    ensures { Reads view_claim result claim_ depth text.entry }
{
    if text.begins_reserved(Word::Defined) {
        return defined_claim(text);
    }
    if text.begins_reserved(Word::Invariant) {
        return property_claim(alloc, depth, Property::Invariant, text);
    }
    if text.begins_reserved(Word::Stable) {
        return property_claim(alloc, depth, Property::Stable, text);
    }
    if text.begins_reserved(Word::Constant) {
        return property_claim(alloc, depth, Property::Constant, text);
    }
    if text.begins_reserved(Word::Fixed) {
        return property_claim(alloc, depth, Property::Fixed, text);
    }
    between_claim(alloc, depth, text)
}
