//! The rule of a step.
ghost use Rattle.std.specs.Prelude.{◌≡◌, [], ◌∷◌, IfOk};
ghost use Rattle.core_terms.specs.declared.trees.CForm.TheVariants.{Bottom};
ghost use Rattle.names_rules.specs.Scope.{bounds, entries};
ghost use Rattle.expand_expressions.specs.Places.{IsReady, scope};
ghost use Rattle.expand_declarations.specs.References.{core_ref};
ghost use Rattle.expand_steps.specs.Elements.{GivesOne, form_in, truth_in};
ghost use Rattle.expand_steps.specs.ProofTerms.{place};
ghost use Rattle.expand_steps.specs.Steps as spec;

use crate::formulas::formula;
use crate::steps::small;
use crate::terms::{Here, imply, ref_in, term};
use case_tables::Word;
use core_terms::{CForm, CRule};
use expand_declarations::{pair_rule, text_rule};
use expand_expressions::Env as BoundEnv;
use expand_rules::Flaws;
use names_rules::{Env, NameFault};
use std::alloc::{AllocError, Global};
use unity_syntax::{Claim, Expr, Proof, Ref as TextRef, Rule, Term};

// What a step claims.

fn invariant(
    alloc: Global,
    of: &Expr,
    here: &Here,
    env: &BoundEnv,
    bad: &mut Flaws,
) -> Result<(CForm, CForm), NameFault>
    requires { IsReady here.now.known.now }
    ensures { GivesOne result (form_in (scope here.now.known.now env.now) of.now, Bottom) here.now.front bad.old bad.new
        (truth_in (scope here.now.known.now env.now) of.now ∷ []) }
{
    let p = formula(alloc, of, here.known, env, here.front, bad)?;
    Ok((p, CForm::Bottom))
}

pub fn claim(
    alloc: Global,
    c: &Claim,
    here: &Here,
    env: &BoundEnv,
    bad: &mut Flaws,
) -> Result<(CForm, CForm), NameFault>
    requires { IsReady here.now.known.now }
    ensures { GivesOne result (spec.claim_pair (scope here.now.known.now env.now) c.now) here.now.front bad.old bad.new
        (spec.claim_formulas (scope here.now.known.now env.now) c.now) }
{
    match c {
        Claim::Defined { at: _ } => Ok((CForm::Top, CForm::Top)),
        Claim::Invariant { at: _, of } => invariant(alloc, of, here, env, bad),
        Claim::Stable { at: _, of } => invariant(alloc, of, here, env, bad),
        Claim::Constant { at: _, of } => invariant(alloc, of, here, env, bad),
        Claim::Fixed { at: _, of } => invariant(alloc, of, here, env, bad),
        Claim::Between {
            at: _,
            p,
            which: _,
            q,
        } => imply(alloc, p, q, here, env, bad),
    }
}

// How a step is justified.

fn premise(alloc: Global, r: &TextRef, here: &Here, names: &Env) -> Result<CRule, AllocError>
    ensures { IfOk result (λ rule. rule ≡ CRule.WeakenStep (core_ref here.now.words.now here.now.owner.now.text
        (bounds names.now) (entries here.now.params.now) r.now)) }
{
    Ok(CRule::WeakenStep(ref_in(alloc, r, here, names)?))
}

fn premises(
    alloc: Global,
    which: Word,
    first: &TextRef,
    second: &TextRef,
    here: &Here,
    names: &Env,
) -> Result<CRule, AllocError>
    ensures { IfOk result (λ rule. rule ≡ spec.two_premises here.now names.now which first.now second.now) }
{
    let first = ref_in(alloc, first, here, names)?;
    let second = ref_in(alloc, second, here, names)?;
    Ok(pair_rule(which, first, second))
}

fn layer(alloc: Global, r: &TextRef, here: &Here, names: &Env) -> Result<CRule, AllocError>
    ensures { IfOk result (λ rule. rule ≡ spec.one_below here.now names.now r.now) }
{
    Ok(CRule::Superpose(ref_in(alloc, r, here, names)?))
}

fn completion(
    alloc: Global,
    first: &TextRef,
    second: &TextRef,
    third: &TextRef,
    fourth: &TextRef,
    here: &Here,
    names: &Env,
) -> Result<CRule, AllocError>
    ensures { IfOk result (λ rule. rule ≡
        spec.four_premises here.now names.now first.now second.now third.now fourth.now) }
{
    let first = ref_in(alloc, first, here, names)?;
    let second = ref_in(alloc, second, here, names)?;
    let third = ref_in(alloc, third, here, names)?;
    let fourth = ref_in(alloc, fourth, here, names)?;
    Ok(CRule::Complete(first, second, third, fourth))
}

fn proof_term(
    alloc: Global,
    t: &Term,
    here: &Here,
    names: &Env,
    env: &BoundEnv,
    bad: &mut Flaws,
) -> Result<CRule, NameFault>
    requires { IsReady here.now.known.now }
    ensures { GivesOne result (CRule.Proof (spec.step_term here.now names.now env.now t.now).core) here.now.front
        bad.old bad.new (spec.step_term here.now names.now env.now t.now).formulas }
{
    let mut next = small(here.params.len())?;
    let core = term(alloc, t, here, names, env, &mut next, bad)?;
    Ok(CRule::Proof(core.into_inner()))
}

pub fn rule(
    alloc: Global,
    r: &Rule,
    here: &Here,
    names: &Env,
    env: &BoundEnv,
    bad: &mut Flaws,
) -> Result<CRule, NameFault>
    requires { IsReady here.now.known.now }
    ensures { GivesOne result (spec.core_rule (place here.now names.now env.now) r.now) here.now.front
        bad.old bad.new (spec.rule_formulas (place here.now names.now env.now) r.now) }
{
    match r {
        Rule::Text { at: _, with } => {
            Ok(text_rule(alloc, with, here.words, here.params, names)?)
        }
        Rule::Weaken { at: _, of } => Ok(premise(alloc, of, here, names)?),
        Rule::Pair {
            at: _,
            which,
            first,
            second,
        } => Ok(premises(alloc, *which, first, second, here, names)?),
        Rule::Superpose { at: _, of } => Ok(layer(alloc, of, here, names)?),
        Rule::Complete {
            at: _,
            first,
            second,
            third,
            fourth,
        } => Ok(completion(alloc, first, second, third, fourth, here, names)?),
        Rule::Term { at: _, of } => proof_term(alloc, of, here, names, env, bad),
    }
}
