//! The words that proofs name.

ghost use Rattle.std.specs.Prelude.{◌≡◌, ◌++◌, map, OnOk};
ghost use Rattle.std.specs.List.{flat_map};
ghost use Rattle.names_rules.specs.Scope.{seen_keys};
ghost use Rattle.names_rules.specs.Declarations.{some_of};
ghost use Rattle.expand_declarations.specs.Texts as texts_of;
ghost use Rattle.expand_declarations.specs.WordNumbers.{with_texts};

use crate::lists::first_and_rest;
use crate::words::{Gathered, add_listed, add_name};
use std::alloc::AllocError;
use unity_base::Seq;
use unity_syntax::{Inst, Proof, Ref, Rule, Step, Term};

fn add_ref<'a>(r: &'a Ref, words: &mut Gathered<'a>) -> Result<(), AllocError>
    ensures { OnOk result (seen_keys words.new ≡ with_texts (seen_keys words.old) (texts_of.ref_texts r.now)) }
{
    add_name(&r.name, words)?;
    match &r.step {
        None => Ok(()),
        Some(step) => add_name(step, words),
    }
}

fn add_refs<'a>(refs: &'a [Ref], words: &mut Gathered<'a>) -> Result<(), AllocError>
    ensures { OnOk result (seen_keys words.new
        ≡ with_texts (seen_keys words.old) (flat_map texts_of.ref_texts refs.now)) }
{
    for r in refs {
        add_ref(r, words)?;
    }
    Ok(())
}

fn add_using<'a>(
    list: &'a Option<(Ref, Seq<Ref>)>,
    words: &mut Gathered<'a>,
) -> Result<(), AllocError>
    ensures { OnOk result (seen_keys words.new
        ≡ with_texts (seen_keys words.old) (flat_map texts_of.ref_texts (some_of list.now))) }
{
    let (first, rest) = first_and_rest(list);
    add_refs(first, words)?;
    add_refs(rest, words)
}

fn add_helper<'a>(helper: &'a Option<Inst>, words: &mut Gathered<'a>) -> Result<(), AllocError>
    ensures { OnOk result (seen_keys words.new
        ≡ with_texts (seen_keys words.old) (texts_of.helper_texts helper.now)) }
{
    match helper {
        None => Ok(()),
        Some(helper) => add_name(&helper.label, words),
    }
}

fn add_term<'a>(t: &'a Term, words: &mut Gathered<'a>) -> Result<(), AllocError>
    ensures { OnOk result (seen_keys words.new ≡ with_texts (seen_keys words.old) (texts_of.term_texts t.now)) }
{
    match t {
        Term::Imply { .. } => Ok(()),
        Term::From { of, .. } => add_ref(of, words),
        Term::Pair { first, second, .. } => {
            add_term(first.get(), words)?;
            add_term(second.get(), words)
        }
        Term::Exists { name, of, .. } => {
            add_name(name, words)?;
            add_term(of.get(), words)
        }
        Term::Induct { name, of, .. } => {
            add_name(name, words)?;
            add_term(of.get(), words)
        }
        Term::Psp { of, by, .. } => {
            add_term(of.get(), words)?;
            add_ref(by, words)
        }
        Term::Weaken { of, .. } => add_term(of.get(), words),
    }
}

fn add_pair<'a>(r: &'a Ref, s: &'a Ref, words: &mut Gathered<'a>) -> Result<(), AllocError>
    ensures { OnOk result (seen_keys words.new
        ≡ with_texts (seen_keys words.old) (texts_of.ref_texts r.now ++ texts_of.ref_texts s.now)) }
{
    add_ref(r, words)?;
    add_ref(s, words)
}

fn add_rule<'a>(rule: &'a Rule, words: &mut Gathered<'a>) -> Result<(), AllocError>
    ensures { OnOk result (seen_keys words.new ≡ with_texts (seen_keys words.old) (texts_of.rule_texts rule.now)) }
{
    match rule {
        Rule::Text { at: _, with } => add_helper(with, words),
        Rule::Weaken { at: _, of } => add_ref(of, words),
        Rule::Pair {
            at: _,
            which: _,
            first,
            second,
        } => add_pair(first, second, words),
        Rule::Superpose { at: _, of } => add_ref(of, words),
        Rule::Complete {
            at: _,
            first,
            second,
            third,
            fourth,
        } => {
            add_pair(first, second, words)?;
            add_pair(third, fourth, words)
        }
        Rule::Term { at: _, of } => add_term(of, words),
    }
}

fn add_step<'a>(step: &'a Step, words: &mut Gathered<'a>) -> Result<(), AllocError>
    ensures { OnOk result (seen_keys words.new ≡ with_texts (seen_keys words.old) (texts_of.step_texts step.now)) }
{
    add_name(&step.name, words)?;
    add_listed(&step.params, words)?;
    add_rule(&step.rule, words)?;
    add_using(&step.using, words)
}

fn add_steps<'a>(steps: &'a [Step], words: &mut Gathered<'a>) -> Result<(), AllocError>
    ensures { OnOk result (seen_keys words.new
        ≡ with_texts (seen_keys words.old) (flat_map texts_of.step_texts steps.now)) }
{
    for step in steps {
        add_step(step, words)?;
    }
    Ok(())
}

/// Adds the words that a proof names.
pub fn add_proof<'a>(proof: &'a Proof, words: &mut Gathered<'a>) -> Result<(), AllocError>
    ensures { OnOk result (seen_keys words.new ≡ with_texts (seen_keys words.old) (texts_of.proof_texts proof.now)) }
{
    add_name(&proof.program, words)?;
    add_steps(proof.steps.as_slice(), words)
}
