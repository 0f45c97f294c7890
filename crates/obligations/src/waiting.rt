//! The formulas that wait on a branch: choices, and what a term is not.
ghost use Rattle.std.specs.Prelude.{◌≡◌, pos, negsuc, IfOk};
ghost use Rattle.core_terms.specs.declared.trees.CTerm.TheVariants.{Const, Sub};
ghost use Rattle.core_terms.specs.declared.trees.CForm.TheVariants.{AtLeast, Zero, Not, And, Or};
ghost use Rattle.core_terms.specs.Senses.{sense_node};
ghost use Rattle.obligations.specs.Settling.{below_zero, choice_form};

use crate::branches::Choice;
use core_terms::from_unity_base::{Held, Shared};
use core_terms::{CForm, CTerm, Sense, held_term, owned_term};
use std::alloc::{AllocError, Global};

/// That a formula does not hold.
pub fn negation_of(alloc: Global, f: &Shared<CForm>) -> Result<Shared<CForm>, AllocError>
    ensures { IfOk result (λ g. g ≡ Not f.now) }
{
    Shared::new(alloc, CForm::Not(f.share()?))
}

/// The negation of a condition with a formula.
fn otherwise(
    alloc: Global,
    when: &Shared<CForm>,
    no: Shared<CForm>,
) -> Result<Shared<CForm>, AllocError>
    ensures { IfOk result (λ f. f ≡ And (Not when.now) no) }
{
    let not = negation_of(alloc, when)?;
    Shared::new(alloc, CForm::And(not, no))
}

/// The condition with one formula, or its negation with the other.
fn choose(
    alloc: Global,
    when: Shared<CForm>,
    yes: Shared<CForm>,
    no: Shared<CForm>,
) -> Result<Shared<CForm>, AllocError>
    ensures { IfOk result (λ f. f ≡ Or (And when yes) (And (Not when) no)) }
{
    let second = otherwise(alloc, &when, no)?;
    let first = Shared::new(alloc, CForm::And(when, yes))?;
    Shared::new(alloc, CForm::Or(first, second))
}

/// That a term is at least 0, or that it is 0, in a place of its own.
pub fn form_of(alloc: Global, sense: Sense, t: CTerm) -> Result<Shared<CForm>, AllocError>
    ensures { IfOk result (λ f. f ≡ sense_node sense t) }
{
    let form = match sense {
        Sense::AtLeast => CForm::AtLeast(t),
        Sense::Zero => CForm::Zero(t),
    };
    Shared::new(alloc, form)
}

/// It of each part of a choice.
pub fn sense_choice(
    alloc: Global,
    sense: Sense,
    choice: Held<Choice>,
) -> Result<Shared<CForm>, AllocError>
    ensures { IfOk result (λ f. f ≡ choice_form (sense_node sense) choice) }
{
    let Choice { when, yes, no } = choice.into_inner();
    let yes = form_of(alloc, sense, owned_term(alloc, yes)?)?;
    let no = form_of(alloc, sense, owned_term(alloc, no)?)?;
    choose(alloc, when, yes, no)
}

/// That a term is not 0.
fn unequal(alloc: Global, t: Shared<CTerm>) -> Result<Shared<CForm>, AllocError>
    ensures { IfOk result (λ f. f ≡ Not (Zero t)) }
{
    let zero = Shared::new(alloc, CForm::Zero(owned_term(alloc, t)?))?;
    Shared::new(alloc, CForm::Not(zero))
}

pub fn unequal_choice(alloc: Global, choice: Held<Choice>) -> Result<Shared<CForm>, AllocError>
    ensures { IfOk result (λ f. f ≡ choice_form (λ x. Not (Zero x)) choice) }
{
    let Choice { when, yes, no } = choice.into_inner();
    let yes = unequal(alloc, yes)?;
    let no = unequal(alloc, no)?;
    choose(alloc, when, yes, no)
}

/// -1 minus a term.
pub fn below(alloc: Global, t: &CTerm) -> Result<Shared<CTerm>, AllocError>
    ensures { IfOk result (λ u. u ≡ below_zero t.now) }
{
    let minus_one = Shared::new(alloc, CTerm::Const(-1))?;
    let copy = held_term(alloc, t)?;
    Shared::new(alloc, CTerm::Sub(minus_one, copy))
}

/// A term minus 1.
fn above(alloc: Global, t: &CTerm) -> Result<Shared<CTerm>, AllocError>
    ensures { IfOk result (λ u. u ≡ Sub t.now (Const (pos 1))) }
{
    let copy = held_term(alloc, t)?;
    let one = Shared::new(alloc, CTerm::Const(1))?;
    Shared::new(alloc, CTerm::Sub(copy, one))
}

/// That a term is above 0 or below it.
pub fn apart(alloc: Global, t: &CTerm) -> Result<Shared<CForm>, AllocError>
    ensures { IfOk result (λ f. f ≡ Or (AtLeast (Sub t.now (Const (pos 1)))) (AtLeast (Sub (Const (negsuc 0)) t.now))) }
{
    let above = above(alloc, t)?;
    let above = Shared::new(alloc, CForm::AtLeast(owned_term(alloc, above)?))?;
    let below = below(alloc, t)?;
    let below = Shared::new(alloc, CForm::AtLeast(owned_term(alloc, below)?))?;
    Shared::new(alloc, CForm::Or(above, below))
}
