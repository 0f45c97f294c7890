//! Settling: a formula that is taken to hold, or to fail, is taken apart onto a branch.
ghost use Rattle.std.specs.Prelude.{◌≡◌, ◌+◌, ◌^◌, ◌≤◌, None, OnOk, IfOk, [], ◌∷◌};
ghost use Rattle.core_terms.specs.declared.trees.CForm.TheVariants.{AtLeast, Zero, Not, And, Or};
ghost use Rattle.obligations.specs.Settling.{settled, refused, joined, one_waiting, false_fact, one_fact, two_facts};
ghost use Rattle.obligations.specs.Settling.{first_ite, sense_facts, sense_adds, least_adds, unequal_adds, below_zero};
ghost use Rattle.obligations.specs.Settling.{HoldsWith};
ghost use Rattle.obligations.specs.LinearForms.{linear, negated};
ghost use Rattle.obligations.specs.Load.{need, term_load};
ghost use Rattle.obligations.specs.Obligations.{AreVariables, AreOwn};
ghost use Rattle.obligations.specs.Scopes.{scope_of};

use crate::branches::{Branch, Choice, Fact, Obligation, Variable};
use crate::factors::Factors;
use crate::first_choice::find_choice;
use crate::first_quotient::has_quotient;
use crate::linear::{fact_from, line_of, negative_of};
use crate::scopes::scope_of;
use crate::waiting::{apart, below, form_of, negation_of, sense_choice, unequal_choice};
use core_terms::from_unity_base::{Held, Shared};
use core_terms::{CForm, CTerm, Sense, copy_term};
use std::alloc::{AllocError, Global};

/// Adds a fact.
pub fn add_fact(fact: Fact, branch: &mut Branch) -> Result<(), AllocError>
    ensures { OnOk result (branch.new ≡ joined branch.old (record { facts = fact ∷ []; waiting = []; added = 0 })) }
{
    branch.facts.push(fact)?;
    Ok(())
}

/// Adds a formula that waits.
fn add_waiting(form: Shared<CForm>, branch: &mut Branch) -> Result<(), AllocError>
    ensures { OnOk result (branch.new ≡ joined branch.old (one_waiting form)) }
{
    branch.waiting.push(form)?;
    Ok(())
}

/// Adds the fact that -1 is at least 0.
#[inline(never)]
fn add_false(alloc: Global, branch: &mut Branch) -> Result<(), AllocError>
    ensures { OnOk result (branch.new ≡ joined branch.old false_fact) }
{
    let fact = Fact {
        factors: Factors::new(alloc),
        constant: -1,
    };
    add_fact(fact, branch)?;
    Ok(())
}

/// Adds the fact of a term without an `Ite`.
fn add_least(
    alloc: Global,
    vs: &[Variable],
    t: &CTerm,
    branch: &mut Branch,
) -> Result<(), AllocError>
    requires variables { AreVariables vs.now }
    requires load { (term_load t.now).own ≤ 2 ^ 126 }
    ensures { OnOk result (branch.new ≡ joined branch.old (one_fact (linear vs.now t.now))) }
{
    let fact = fact_from(alloc, &line_of(alloc, vs, t)?)?;
    add_fact(fact, branch)?;
    Ok(())
}

/// Adds the fact of a term's negative, where the term has no `Ite`.
fn add_negative(
    alloc: Global,
    vs: &[Variable],
    t: &CTerm,
    branch: &mut Branch,
) -> Result<(), AllocError>
    requires variables { AreVariables vs.now }
    requires load { (term_load t.now).own ≤ 2 ^ 126 }
    ensures { OnOk result (branch.new ≡ joined branch.old (one_fact (negated vs.now (linear vs.now t.now)))) }
{
    let fact = fact_from(alloc, &negative_of(alloc, vs, t)?)?;
    add_fact(fact, branch)?;
    Ok(())
}

/// Adds both facts of a term that is 0, where the term has no `Ite`.
#[tactic(auto, using(crate::proofs::TableLaws::two_laws))]
fn add_zero(
    alloc: Global,
    vs: &[Variable],
    t: &CTerm,
    branch: &mut Branch,
) -> Result<(), AllocError>
    requires variables { AreVariables vs.now }
    requires load { (term_load t.now).own ≤ 2 ^ 126 }
    ensures { OnOk result
        (branch.new ≡ joined branch.old (two_facts (linear vs.now t.now) (negated vs.now (linear vs.now t.now)))) }
{
    add_least(alloc, vs, t, branch)?;
    add_negative(alloc, vs, t, branch)?;
    Ok(())
}

/// Adds the facts of a term without an `Ite`.
fn add_facts(
    alloc: Global,
    vs: &[Variable],
    t: &CTerm,
    sense: Sense,
    branch: &mut Branch,
) -> Result<(), AllocError>
    requires variables { AreVariables vs.now }
    requires load { (term_load t.now).own ≤ 2 ^ 126 }
    ensures { OnOk result (branch.new ≡ joined branch.old (sense_facts sense vs.now t.now)) }
{
    match sense {
        Sense::AtLeast => add_least(alloc, vs, t, branch),
        Sense::Zero => add_zero(alloc, vs, t, branch),
    }
}

/// Adds the facts of a term without an `Ite`, or that the term waits where it has a quotient.
fn add_plain(
    alloc: Global,
    vs: &[Variable],
    t: &CTerm,
    sense: Sense,
    branch: &mut Branch,
) -> Result<(), AllocError>
    requires variables { AreVariables vs.now }
    requires load { (term_load t.now).own ≤ 2 ^ 126 }
    ensures { OnOk result (branch.new ≡ joined branch.old (sense_adds sense vs.now t.now None)) }
{
    if has_quotient(t) {
        let form = form_of(alloc, sense, copy_term(alloc, t)?)?;
        add_waiting(form, branch)
    } else {
        add_facts(alloc, vs, t, sense, branch)
    }
}

/// Adds a term's facts, or the choice that it has to wait for.
fn add_or(
    alloc: Global,
    vs: &[Variable],
    t: &CTerm,
    sense: Sense,
    choice: Option<Held<Choice>>,
    branch: &mut Branch,
) -> Result<(), AllocError>
    requires variables { AreVariables vs.now }
    requires load { (term_load t.now).own ≤ 2 ^ 126 }
    ensures { OnOk result (branch.new ≡ joined branch.old (sense_adds sense vs.now t.now choice)) }
{
    match choice {
        None => add_plain(alloc, vs, t, sense, branch),
        Some(choice) => {
            let form = sense_choice(alloc, sense, choice)?;
            add_waiting(form, branch)
        }
    }
}

/// Settles that a term is at least 0, or that it is 0.
#[inline(never)]
fn settle_term(
    alloc: Global,
    vs: &[Variable],
    t: &CTerm,
    sense: Sense,
    branch: &mut Branch,
) -> Result<(), AllocError>
    requires variables { AreVariables vs.now }
    requires load { (term_load t.now).own ≤ 2 ^ 126 }
    ensures { OnOk result (branch.new ≡ joined branch.old (sense_adds sense vs.now t.now (first_ite t.now))) }
{
    let choice = find_choice(alloc, t)?;
    add_or(alloc, vs, t, sense, choice, branch)
}

/// Settles that a term is below 0.
#[inline(never)]
fn refuse_least(
    alloc: Global,
    vs: &[Variable],
    t: &CTerm,
    branch: &mut Branch,
) -> Result<(), AllocError>
    requires variables { AreVariables vs.now }
    requires load { 1 + (term_load t.now).own ≤ 2 ^ 126 }
    ensures { OnOk result
        (branch.new ≡ joined branch.old (least_adds vs.now (below_zero t.now) (first_ite (below_zero t.now)))) }
{
    let below = below(alloc, t)?;
    settle_term(alloc, vs, below.get(), Sense::AtLeast, branch)
}

/// Adds that a term is above 0 or below it, or the choice that it has to wait for.
fn add_apart_or(
    alloc: Global,
    t: &CTerm,
    choice: Option<Held<Choice>>,
    branch: &mut Branch,
) -> Result<(), AllocError>
    ensures { OnOk result (branch.new ≡ joined branch.old (unequal_adds t.now choice)) }
{
    match choice {
        None => {
            let form = apart(alloc, t)?;
            add_waiting(form, branch)
        }
        Some(choice) => {
            let form = unequal_choice(alloc, choice)?;
            add_waiting(form, branch)
        }
    }
}

/// Settles that a term is not 0.
#[inline(never)]
fn refuse_zero(alloc: Global, t: &CTerm, branch: &mut Branch) -> Result<(), AllocError>
    ensures { OnOk result (branch.new ≡ joined branch.old (unequal_adds t.now (first_ite t.now))) }
{
    let choice = find_choice(alloc, t)?;
    add_apart_or(alloc, t, choice, branch)
}

/// Adds a waiting formula of two others.
#[inline(never)]
fn wait_or(
    alloc: Global,
    g: &Shared<CForm>,
    h: &Shared<CForm>,
    branch: &mut Branch,
) -> Result<(), AllocError>
    ensures { OnOk result (branch.new ≡ joined branch.old (one_waiting (Or g.now h.now))) }
{
    let first = g.share()?;
    let second = h.share()?;
    let form = Shared::new(alloc, CForm::Or(first, second))?;
    add_waiting(form, branch)
}

/// Adds a waiting formula of the negations of two others.
#[inline(never)]
fn wait_nots(
    alloc: Global,
    g: &Shared<CForm>,
    h: &Shared<CForm>,
    branch: &mut Branch,
) -> Result<(), AllocError>
    ensures { OnOk result (branch.new ≡ joined branch.old (one_waiting (Or (Not g.now) (Not h.now)))) }
{
    let first = negation_of(alloc, g)?;
    let second = negation_of(alloc, h)?;
    let form = Shared::new(alloc, CForm::Or(first, second))?;
    add_waiting(form, branch)
}

/// A branch with a formula settled: the branch that holds exactly where the old one and the formula do.
#[tactic(auto, using(crate::proofs::SettlingLaws::settled_laws))]
pub fn settle(alloc: Global, o: &Obligation, b: Branch, todo: CForm) -> Result<Branch, AllocError>
    requires variables { AreOwn o.now.variables }
    requires added { b.added ≤ 4096 }
    requires light { (need todo).yes ≤ 2 ^ 66 }
    ensures branch { IfOk result (λ c. c ≡ settled (scope_of o.now.variables b) todo b) }
    ensures holds { IfOk result (λ c. HoldsWith o.now b todo c) }
{
    let variables = scope_of(alloc, o.variables.as_slice(), b.added)?;
    let mut branch = b;
    settle_onto(alloc, variables.as_slice(), &todo, &mut branch)?;
    Ok(branch)
}

/// Settles a formula onto a branch. At want of memory, what was added so far stays.
#[cycle(settle)]
pub fn settle_onto(
    alloc: Global,
    vs: &[Variable],
    f: &CForm,
    branch: &mut Branch,
) -> Result<(), AllocError>
    requires variables { AreVariables vs.now }
    requires light { (need f.now).yes ≤ 2 ^ 66 }
    ensures { OnOk result (branch.new ≡ settled vs.now f.now branch.old) }
{
    match f {
        CForm::Top => Ok(()),
        CForm::Bottom => add_false(alloc, branch),
        CForm::AtLeast(t) => settle_term(alloc, vs, t, Sense::AtLeast, branch),
        CForm::Zero(t) => settle_term(alloc, vs, t, Sense::Zero, branch),
        CForm::Not(g) => refuse_onto(alloc, vs, g.get(), branch),
        CForm::And(g, h) => {
            settle_onto(alloc, vs, g.get(), branch)?;
            settle_onto(alloc, vs, h.get(), branch)
        }
        CForm::Or(g, h) => wait_or(alloc, g, h, branch),
    }
}

/// Settles the negation of a formula onto a branch. At want of memory, what was added so far stays.
#[cycle(settle)]
pub fn refuse_onto(
    alloc: Global,
    vs: &[Variable],
    f: &CForm,
    branch: &mut Branch,
) -> Result<(), AllocError>
    requires variables { AreVariables vs.now }
    requires light { (need f.now).no ≤ 2 ^ 66 }
    ensures { OnOk result (branch.new ≡ refused vs.now f.now branch.old) }
{
    match f {
        CForm::Top => add_false(alloc, branch),
        CForm::Bottom => Ok(()),
        CForm::AtLeast(t) => refuse_least(alloc, vs, t, branch),
        CForm::Zero(t) => refuse_zero(alloc, t, branch),
        CForm::Not(g) => settle_onto(alloc, vs, g.get(), branch),
        CForm::And(g, h) => wait_nots(alloc, g, h, branch),
        CForm::Or(g, h) => {
            refuse_onto(alloc, vs, g.get(), branch)?;
            refuse_onto(alloc, vs, h.get(), branch)
        }
    }
}
