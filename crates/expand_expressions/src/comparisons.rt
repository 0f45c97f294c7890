//! Comparisons, implications and copies.

ghost use Rattle.std.specs.Prelude.{◌≡◌, ◌+◌, ◌-◌, ◌*◌, ◌^◌, ◌<◌, ◌≤◌, IfOk, max};
ghost use Rattle.std.specs.Int.RustNames.{unsigned_abs};
ghost use Rattle.expand_rules.specs.Forming as spec;
ghost use Rattle.core_terms.specs.declared.trees.CForm.TheVariants.{Top, Bottom};
ghost use Rattle.expand_expressions.specs.Sound.{IsSound, is_truth_core};

use crate::measures::{leaf, pair_measure};
use crate::operations::{denial, joined, number, paired, sensed, truth};
use case_tables::Symbol;
use core_terms::{CForm, CTerm, Joining, Pairing, Sense};
use expand_rules::{Core, Formed};
use std::alloc::{AllocError, Global};
use unity_base::Shared;

/// An equal one.
pub fn copied(alloc: Global, a: &Formed) -> Result<Formed, AllocError>
    ensures formed { IfOk result (λ f. f ≡ a.now) }
    ensures most { IfOk result (λ f. f.measure.most ≡ a.now.measure.most) }
{
    let core = match &a.core {
        Core::Number { term, known } => Core::Number {
            term: term.share()?,
            known: *known,
        },
        Core::Truth { form, known } => Core::Truth {
            form: form.share()?,
            known: *known,
        },
    };
    Ok(Formed {
        core,
        constant: a.constant,
        exact: a.exact,
        measure: a.measure,
    })
}

/// An expression as a truth.
pub fn as_truth(alloc: Global, a: Formed) -> Result<Formed, AllocError>
    requires sound { IsSound a }
    requires room { a.measure.most < 2 ^ 64 - 2 }
    ensures formed { IfOk result (λ f. f ≡ spec.as_truth a) }
    ensures sound { IfOk result IsSound }
    ensures most { IfOk result (λ f. f.measure.most ≤ a.measure.most + 1) }
{
    let a = truth(alloc, a)?;
    Ok(Formed {
        core: Core::Truth {
            form: a.form,
            known: a.known,
        },
        constant: a.constant,
        exact: a.exact,
        measure: a.measure,
    })
}

/// An expression as a number.
pub fn as_number(alloc: Global, a: Formed) -> Result<Formed, AllocError>
    requires sound { IsSound a }
    ensures formed { IfOk result (λ f. f ≡ spec.as_number a) }
    ensures sound { IfOk result IsSound }
    ensures most { IfOk result (λ f. f.measure.most ≤ a.measure.most + 1) }
{
    let a = number(alloc, a)?;
    Ok(Formed {
        core: Core::Number {
            term: a.term,
            known: a.known,
        },
        constant: a.constant,
        exact: a.exact,
        measure: a.measure,
    })
}

/// A number that is given.
pub fn number_constant(alloc: Global, number: i64) -> Result<Formed, AllocError>
    ensures formed { IfOk result (λ f. f ≡ spec.number_constant number) }
    ensures sound { IfOk result IsSound }
    ensures most { IfOk result (λ f. f.measure.most ≡ unsigned_abs number) }
{
    Ok(Formed {
        core: Core::Number {
            term: Shared::new(alloc, CTerm::Const(number))?,
            known: Some(number as i128),
        },
        constant: true,
        exact: true,
        measure: leaf(number.unsigned_abs()),
    })
}

/// True.
pub fn top(alloc: Global) -> Result<Formed, AllocError>
    ensures formed { IfOk result (λ f. f ≡ spec.truth_constant Top) }
    ensures sound { IfOk result IsSound }
{
    Ok(Formed {
        core: Core::Truth {
            form: Shared::new(alloc, CForm::Top)?,
            known: Some(true),
        },
        constant: true,
        exact: true,
        measure: leaf(0),
    })
}

/// False.
pub fn bottom(alloc: Global) -> Result<Formed, AllocError>
    ensures formed { IfOk result (λ f. f ≡ spec.truth_constant Bottom) }
    ensures sound { IfOk result IsSound }
{
    Ok(Formed {
        core: Core::Truth {
            form: Shared::new(alloc, CForm::Bottom)?,
            known: Some(false),
        },
        constant: true,
        exact: true,
        measure: leaf(0),
    })
}

/// That the second of two truths holds where the first does.
pub fn implication(alloc: Global, a: Formed, b: Formed) -> Result<Formed, AllocError>
    requires first { IsSound a }
    requires second { IsSound b }
    requires first_room { a.measure.most < 2 ^ 63 }
    requires second_room { b.measure.most < 2 ^ 63 }
    ensures formed { IfOk result (λ f. f ≡ spec.implication a b) }
    ensures sound { IfOk result IsSound }
    ensures most { IfOk result (λ f. f.measure.most ≤ max a.measure.most b.measure.most + 2) }
{
    let denied = denial(alloc, a)?;
    joined(alloc, Joining::Either, denied, b)
}

fn is_truth(a: &Formed) -> bool
    ensures { result ≡ is_truth_core a.now.core }
{
    match &a.core {
        Core::Truth { form: _, known: _ } => true,
        Core::Number { term: _, known: _ } => false,
    }
}

// That two truths are equal: each implies the other.
fn same_truths(alloc: Global, a: Formed, b: Formed) -> Result<Formed, AllocError>
    requires first { IsSound a }
    requires second { IsSound b }
    requires first_light { a.measure.most ≤ 2 ^ 62 }
    requires second_light { b.measure.most ≤ 2 ^ 62 }
    ensures formed { IfOk result (λ f. f ≡ spec.conjunction (spec.implication a b) (spec.implication b a)) }
    ensures sound { IfOk result IsSound }
    ensures most { IfOk result (λ f. f.measure.most ≤ 2 ^ 62 + 3) }
{
    let a_again = copied(alloc, &a)?;
    let b_again = copied(alloc, &b)?;
    let there = implication(alloc, a, b)?;
    let back = implication(alloc, b_again, a_again)?;
    joined(alloc, Joining::Both, there, back)
}

// That two numbers are equal.
fn same_numbers(alloc: Global, a: Formed, b: Formed) -> Result<Formed, AllocError>
    requires first { IsSound a }
    requires second { IsSound b }
    requires first_light { a.measure.most ≤ 2 ^ 62 }
    requires second_light { b.measure.most ≤ 2 ^ 62 }
    ensures formed { IfOk result (λ f. f ≡ spec.is_zero (spec.difference a b)) }
    ensures sound { IfOk result IsSound }
    ensures most { IfOk result (λ f. f.measure.most ≤ 2 ^ 63 + 3) }
{
    let less = paired(alloc, Pairing::Difference, a, b)?;
    sensed(alloc, Sense::Zero, less)
}

/// That two are equal.
#[tactic(auto, using(crate::proofs::Comparing::equation_of_truths, crate::proofs::Comparing::equation_of_numbers))]
pub fn equation(alloc: Global, a: Formed, b: Formed) -> Result<Formed, AllocError>
    requires first { IsSound a }
    requires second { IsSound b }
    requires first_light { a.measure.most ≤ 2 ^ 62 }
    requires second_light { b.measure.most ≤ 2 ^ 62 }
    ensures formed { IfOk result (λ f. f ≡ spec.equation a b) }
    ensures sound { IfOk result IsSound }
    ensures most { IfOk result (λ f. f.measure.most ≤ 2 ^ 63 + 3) }
{
    let truths = is_truth(&a) & is_truth(&b);
    if truths {
        same_truths(alloc, a, b)
    } else {
        same_numbers(alloc, a, b)
    }
}

// That a number is at least another.
fn at_least(alloc: Global, a: Formed, b: Formed) -> Result<Formed, AllocError>
    requires first { IsSound a }
    requires second { IsSound b }
    requires room { a.measure.most + b.measure.most ≤ 2 ^ 63 + 3 }
    ensures formed { IfOk result (λ f. f ≡ spec.at_least_zero (spec.difference a b)) }
    ensures sound { IfOk result IsSound }
{
    let less = paired(alloc, Pairing::Difference, a, b)?;
    sensed(alloc, Sense::AtLeast, less)
}

// That a number is greater than another.
fn excess(alloc: Global, a: Formed, b: Formed) -> Result<Formed, AllocError>
    requires first { IsSound a }
    requires second { IsSound b }
    requires first_light { a.measure.most ≤ 2 ^ 62 }
    requires second_light { b.measure.most ≤ 2 ^ 62 }
    ensures formed { IfOk result (λ f. f ≡ spec.excess a b) }
    ensures sound { IfOk result IsSound }
{
    let less = paired(alloc, Pairing::Difference, a, b)?;
    let one = number_constant(alloc, 1)?;
    at_least(alloc, less, one)
}

// That two are not equal.
fn inequation(alloc: Global, a: Formed, b: Formed) -> Result<Formed, AllocError>
    requires first { IsSound a }
    requires second { IsSound b }
    requires first_light { a.measure.most ≤ 2 ^ 62 }
    requires second_light { b.measure.most ≤ 2 ^ 62 }
    ensures formed { IfOk result (λ f. f ≡ spec.denial (spec.equation a b)) }
    ensures sound { IfOk result IsSound }
{
    let same = equation(alloc, a, b)?;
    denial(alloc, same)
}

// What never holds.
fn never(alloc: Global, a: Formed, b: Formed) -> Result<Formed, AllocError>
    requires first { IsSound a }
    requires second { IsSound b }
    ensures formed { IfOk result (λ f. f ≡ spec.never a b) }
    ensures sound { IfOk result IsSound }
{
    Ok(Formed {
        core: Core::Truth {
            form: Shared::new(alloc, CForm::Bottom)?,
            known: Some(false),
        },
        constant: a.constant & b.constant,
        exact: a.exact & b.exact,
        measure: pair_measure(a.measure, b.measure),
    })
}

/// A comparison; no symbol but the six relations stands in one.
pub fn comparison(
    alloc: Global,
    relation: Symbol,
    a: Formed,
    b: Formed,
) -> Result<Formed, AllocError>
    requires first { IsSound a }
    requires second { IsSound b }
    requires first_light { a.measure.most ≤ 2 ^ 62 }
    requires second_light { b.measure.most ≤ 2 ^ 62 }
    ensures formed { IfOk result (λ f. f ≡ spec.comparison relation a b) }
    ensures sound { IfOk result IsSound }
{
    match relation {
        Symbol::Equal => equation(alloc, a, b),
        Symbol::NotEqual => inequation(alloc, a, b),
        Symbol::Below => excess(alloc, b, a),
        Symbol::AtMost => at_least(alloc, b, a),
        Symbol::Above => excess(alloc, a, b),
        Symbol::AtLeast => at_least(alloc, a, b),
        _ => never(alloc, a, b),
    }
}
