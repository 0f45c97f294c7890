//! Steps and proofs.
ghost use Rattle.std.specs.Prelude.{◌≡◌, [], ◌∷◌, map, fold, IfOk, OnOk};
ghost use Rattle.names_rules.specs.Scope.{bounds, entries};
ghost use Rattle.names_rules.specs.Declarations.{some_of};
ghost use Rattle.expand_expressions.specs.Places.{IsReady};
ghost use Rattle.expand_declarations.specs.References.{step_params};
ghost use Rattle.expand_rules.specs.Lists.{flaws_fault};
ghost use Rattle.expand_steps.specs.Elements.{GivesOne, element_fault};
ghost use Rattle.expand_steps.specs.ProofTerms.{place};
ghost use Rattle.expand_steps.specs.Steps as spec;

use crate::step_rules::{claim, rule};
use crate::terms::{Here, param_bound};
use core_terms::{CForm, CProof, CRule, CStep};
use expand_declarations::{
    WordTable, claim_kind, core_refs, first_and_rest, param_names, param_ranges, step_params,
};
use expand_expressions::{Env as BoundEnv, Known, ParamBounds, among_params};
use expand_rules::Flaws;
use indexmap::IndexMap;
use names_rules::{Env, NameFault, ParamTable, outside};
use std::alloc::{AllocError, Global};
use unity_base::Seq;
use unity_syntax::{Name, Param, Proof, Step};

// What the parameters of a step stand for.

fn add_bound<'a>(p: &'a Param, bounds: &mut ParamBounds<'a>) -> Result<(), AllocError>
    ensures { OnOk result (entries bounds.new ≡ spec.with_param_bound (entries bounds.old) p.now) }
{
    let number = small(bounds.len())?;
    let bound = param_bound(number, &p.range)?;
    bounds.insert(p.name.text.as_slice(), bound)?;
    Ok(())
}

// Fails where the number is not below 2^32: so many parameters are more than any memory holds.
pub fn small(number: usize) -> Result<u32, AllocError>
    ensures { IfOk result (λ n. n ≡ number) }
{
    if number > u32::MAX as usize {
        return Err(AllocError);
    }
    Ok(number as u32)
}

fn add_bounds<'a>(ps: &'a [Param], bounds: &mut ParamBounds<'a>) -> Result<(), AllocError>
    ensures { OnOk result (entries bounds.new ≡ fold spec.with_param_bound (entries bounds.old) ps.now) }
{
    for p in ps {
        add_bound(p, bounds)?;
    }
    Ok(())
}

fn param_bounds<'a>(
    alloc: Global,
    list: &'a Option<(Param, Seq<Param>)>,
) -> Result<ParamBounds<'a>, AllocError>
    ensures { IfOk result (λ bounds. entries bounds ≡ spec.param_bounds (some_of list.now)) }
{
    let (first, rest) = first_and_rest(list);
    let mut bounds = IndexMap::new(alloc);
    add_bounds(first, &mut bounds)?;
    add_bounds(rest, &mut bounds)?;
    Ok(bounds)
}

// A step, from what it claims and how it is justified.
fn step_with(
    alloc: Global,
    s: &Step,
    here: &Here,
    names: &Env,
    claim: (CForm, CForm),
    rule: CRule,
) -> Result<CStep, AllocError>
    ensures { IfOk result (λ c. c ≡ spec.step_with here.now names.now s.now claim rule) }
{
    let params = param_ranges(alloc, &s.params)?;
    let param_names = param_names(alloc, s, here.words)?;
    let using_refs = core_refs(alloc, &s.using, here.owner, here.words, here.params, names)?;
    let (p, q) = claim;
    Ok(CStep {
        name: here.words.number(&s.name),
        params,
        param_names,
        kind: claim_kind(&s.claim),
        p,
        q,
        rule,
        using: using_refs,
    })
}

// A step among its parameters, once its claim is made.
fn ruled_step(
    alloc: Global,
    s: &Step,
    pair: (CForm, CForm),
    here: &Here,
    names: &Env,
    env: &BoundEnv,
    bad: &mut Flaws,
) -> Result<CStep, NameFault>
    requires { IsReady here.now.known.now }
    ensures { GivesOne result (spec.step_with here.now names.now s.now pair
        (spec.core_rule (place here.now names.now env.now) s.now.rule)) here.now.front bad.old bad.new
        (spec.rule_formulas (place here.now names.now env.now) s.now.rule) }
{
    let rule = rule(alloc, &s.rule, here, names, env, bad)?;
    Ok(step_with(alloc, s, here, names, pair, rule)?)
}

// A step among its parameters.
fn placed_step(
    alloc: Global,
    s: &Step,
    here: &Here,
    names: &Env,
    env: &BoundEnv,
    bad: &mut Flaws,
) -> Result<CStep, NameFault>
    requires { IsReady here.now.known.now }
    ensures { GivesOne result (spec.step_core (place here.now names.now env.now) s.now) here.now.front bad.old bad.new
        (spec.step_formulas (place here.now names.now env.now) s.now) }
{
    let pair = claim(alloc, &s.claim, here, env, bad)?;
    ruled_step(alloc, s, pair, here, names, env, bad)
}

// A step in which nothing fails.
fn settled(step: CStep, bad: Flaws) -> Result<CStep, NameFault>
    ensures { spec.Yields result step (flaws_fault bad) }
{
    bad.check()?;
    Ok(step)
}

fn among(
    alloc: Global,
    s: &Step,
    here: &Here,
    names: &Env,
    env: &BoundEnv,
) -> Result<CStep, NameFault>
    requires { IsReady here.now.known.now }
    ensures { spec.Yields result (spec.step_core (place here.now names.now env.now) s.now)
        (element_fault here.now.front (spec.step_formulas (place here.now names.now env.now) s.now)) }
{
    let mut bad = Flaws::none();
    let step = placed_step(alloc, s, here, names, env, &mut bad)?;
    settled(step, bad)
}

fn step_in(
    alloc: Global,
    s: &Step,
    owner: &Name,
    words: &WordTable,
    known: &Known,
    params: &ParamTable,
    bounds: &ParamBounds,
) -> Result<CStep, NameFault>
    requires ready { IsReady known.now }
    requires params { entries params.now ≡ step_params (some_of s.now.params) }
    requires bounds { entries bounds.now ≡ spec.param_bounds (some_of s.now.params) }
    ensures { spec.Yields result (spec.core_step words.now owner.now.text (spec.outer_scope known.now) s.now)
        (spec.step_fault words.now owner.now.text (spec.outer_scope known.now) s.now) }
{
    let here = Here {
        words,
        owner,
        params,
        known,
        front: s.name.at,
    };
    among(alloc, s, &here, &outside(), &among_params(bounds))
}

/// A step in core form, in a proof of the program `owner`. `Fault` exactly where one of its formulas is too
/// large, at the name of the step, or else an end of a range or a divisor in one is bad, at the first such place.
pub fn core_step(
    alloc: Global,
    s: &Step,
    owner: &Name,
    words: &WordTable,
    known: &Known,
) -> Result<CStep, NameFault>
    requires { IsReady known.now }
    ensures { spec.Yields result (spec.core_step words.now owner.now.text (spec.outer_scope known.now) s.now)
        (spec.step_fault words.now owner.now.text (spec.outer_scope known.now) s.now) }
{
    let params = step_params(alloc, &s.params)?;
    let bounds = param_bounds(alloc, &s.params)?;
    step_in(alloc, s, owner, words, known, &params, &bounds)
}

fn add_step(
    alloc: Global,
    s: &Step,
    owner: &Name,
    words: &WordTable,
    known: &Known,
    steps: &mut Seq<CStep>,
) -> Result<(), NameFault>
    requires { IsReady known.now }
    ensures { spec.Lists result steps.old steps.new
        (spec.core_step words.now owner.now.text (spec.outer_scope known.now) s.now ∷ [])
        (spec.step_fault words.now owner.now.text (spec.outer_scope known.now) s.now) }
{
    let step = core_step(alloc, s, owner, words, known)?;
    steps.push(step)?;
    Ok(())
}

fn add_steps(
    alloc: Global,
    list: &[Step],
    owner: &Name,
    words: &WordTable,
    known: &Known,
    steps: &mut Seq<CStep>,
) -> Result<(), NameFault>
    requires { IsReady known.now }
    ensures { spec.Lists result steps.old steps.new
        (map (spec.core_step words.now owner.now.text (spec.outer_scope known.now)) list.now)
        (spec.steps_fault words.now owner.now.text (spec.outer_scope known.now) list.now) }
{
    for s in list {
        add_step(alloc, s, owner, words, known, steps)?;
    }
    Ok(())
}

/// A proof in core form. `Fault` exactly at the first fault of its steps.
pub fn core_proof(
    alloc: Global,
    p: &Proof,
    words: &WordTable,
    known: &Known,
) -> Result<CProof, NameFault>
    requires { IsReady known.now }
    ensures { spec.Yields result (spec.core_proof words.now (spec.outer_scope known.now) p.now)
        (spec.proof_fault words.now (spec.outer_scope known.now) p.now) }
{
    let mut steps = Seq::new(alloc);
    add_steps(
        alloc,
        p.steps.as_slice(),
        &p.program,
        words,
        known,
        &mut steps,
    )?;
    Ok(CProof {
        program: words.number(&p.program),
        steps,
    })
}
