//! Proofs and their steps.

ghost use Rattle.case_tables.specs.declared.symbol_table.Symbol.{Symbol};
ghost use Rattle.grammar_theory.specs.Ebnf.{both, many};
ghost use Rattle.unity_syntax.specs.Classes.{symbol};
ghost use Rattle.unity_syntax.specs.Grammar.{one_or_more, ref_, claim_, using_, step_, proof_};
ghost use Rattle.unity_syntax.specs.View.{view_list, view_option, view_proof, view_ref, view_some, view_step};
ghost use Rattle.parser_expressions.specs.Gives.{Reads};
ghost use Rattle.parser_proofs.specs.Reasons.{reason_, view_claimed, view_reason};

use crate::claims::claim;
use crate::params::maybe_params;
use crate::rules::rule;
use case_tables::{Symbol, Word};
use parser_expressions::{Cursor, Front, Parsed, listed, reference, repeated, section};
use std::alloc::Global;
use unity_base::{Held, Seq};
use unity_syntax::{Claim, Proof, Ref, Rule, Step};

/// `ref { "," ref }`
fn references<'a>(alloc: Global, depth: u32, text: Cursor<'a>) -> Parsed<'a, (Ref, Seq<Ref>)>
    ensures { Reads (view_some view_ref) result (one_or_more (symbol Symbol.Comma) ref_) depth text.entry }
{
    listed(
        alloc,
        Symbol::Comma,
        text,
        |text| reference(alloc, depth, text),
    )
}

/// `[ "using" ref { "," ref } ]`
fn using<'a>(
    alloc: Global,
    depth: u32,
    text: Cursor<'a>,
) -> Parsed<'a, Held<Option<(Ref, Seq<Ref>)>>>
    ensures { Reads (view_option (view_some view_ref)) result using_ depth text.entry }
{
    section(
        alloc,
        Word::Using,
        text,
        |text| references(alloc, depth, text),
    )
}

/// What a step gives for its claim: its rule, and the references that the rule may use.
#[derive(Drop)]
struct Reason {
    rule: Held<Rule>,
    using: Held<Option<(Ref, Seq<Ref>)>>,
}

/// `"by" rule [ "using" ref { "," ref } ] ";"`
fn by_rule<'a>(alloc: Global, depth: u32, text: Cursor<'a>) -> Parsed<'a, Reason>
    ensures { Reads view_reason result reason_ depth text.entry }
{
    let text = text.reserved(Word::By)?;
    let (rule, text) = rule(alloc, depth, text)?;
    let rule = Held::new(alloc, rule)?;
    let (using, text) = using(alloc, depth, text)?;
    let text = text.symbol(Symbol::Semicolon)?;
    Ok((Reason { rule, using }, text))
}

/// A claim, and its reason.
#[derive(Drop)]
struct Claimed {
    claim: Held<Claim>,
    reason: Reason,
}

/// `claim "by" rule [ "using" ref { "," ref } ] ";"`
fn claim_by_rule<'a>(alloc: Global, depth: u32, text: Cursor<'a>) -> Parsed<'a, Claimed>
    ensures { Reads view_claimed result (both claim_ reason_) depth text.entry }
{
    let (claim, text) = claim(alloc, depth, text)?;
    let claim = Held::new(alloc, claim)?;
    let (reason, text) = by_rule(alloc, depth, text)?;
    Ok((Claimed { claim, reason }, text))
}

/// `step = word [ "(" param { "," param } ")" ] ":" claim "by" rule [ "using" ref { "," ref } ] ";"`
#[tactic(auto, unfolding(unity_syntax::specs::Grammar::step_))]
fn step<'a>(alloc: Global, depth: u32, text: Cursor<'a>) -> Parsed<'a, Step>
    ensures { Reads view_step result step_ depth text.entry }
{
    let at = text.place();
    let (name, text) = text.name(alloc)?;
    let (params, text) = maybe_params(alloc, depth, text)?;
    let text = text.symbol(Symbol::Colon)?;
    let (Claimed { claim, reason }, text) = claim_by_rule(alloc, depth, text)?;
    let step = Step {
        at,
        name,
        params: params.into_inner(),
        claim: claim.into_inner(),
        rule: reason.rule.into_inner(),
        using: reason.using.into_inner(),
    };
    Ok((step, text))
}

/// `{ step }`
fn steps<'a>(alloc: Global, depth: u32, text: Cursor<'a>) -> Parsed<'a, Seq<Step>>
    ensures { Reads (view_list view_step) result (many step_) depth text.entry }
{
    repeated(alloc, Front::Name, text, |text| step(alloc, depth, text))
}

/// `proof = "proof" word { step } "end"`
#[tactic(auto, unfolding(unity_syntax::specs::Grammar::proof_))]
pub fn proof<'a>(alloc: Global, depth: u32, text: Cursor<'a>) -> Parsed<'a, Proof>
    ensures { Reads view_proof result proof_ depth text.entry }
{
    let at = text.place();
    let text = text.reserved(Word::Proof)?;
    let (program, text) = text.name(alloc)?;
    let (steps, text) = steps(alloc, depth, text)?;
    let text = text.end()?;
    let proof = Proof { at, program, steps };
    Ok((proof, text))
}
