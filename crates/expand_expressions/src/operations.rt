//! The operations on what expressions become. Each is given parts whose weights are small enough, and none
//! looks down a tree.

ghost use Rattle.std.specs.Prelude.{◌≡◌, ◌+◌, ◌*◌, ◌^◌, ◌<◌, ◌≤◌, ◌-◌, IfOk, max};
ghost use Rattle.expand_rules.specs.Forming as spec;
ghost use Rattle.expand_expressions.specs.Senses as senses;
ghost use Rattle.expand_expressions.specs.Sound.{FitsMeasure, IsSound, of_number, of_truth};

use crate::measures::{
    choice_measure, leaf, negation_measure, over_measure, pair_measure, sum_measure,
};
use core_terms::{
    CForm, CTerm, Joining, Pairing, Sense, choice_known, joined_known, not_known, paired_known,
    scaled_known, sense_known,
};
use expand_rules::{Core, Formed, Measure};
use std::alloc::{AllocError, Global};
use unity_base::Shared;

/// A number: its term, and what is said of what an expression becomes.
#[derive(Drop)]
pub struct NumberCore {
    pub term: Shared<CTerm>,
    pub known: Option<i128>,
    pub constant: bool,
    pub exact: bool,
    pub measure: Measure,
}

/// A truth: its formula, and what is said of what an expression becomes.
#[derive(Drop)]
pub struct TruthCore {
    pub form: Shared<CForm>,
    pub known: Option<bool>,
    pub constant: bool,
    pub exact: bool,
    pub measure: Measure,
}

/// An expression as a number: a truth is 1 or 0.
pub fn number(alloc: Global, a: Formed) -> Result<NumberCore, AllocError>
    requires sound { IsSound a }
    ensures formed { IfOk result (λ n. of_number n ≡ spec.as_number a) }
    ensures sound { IfOk result (λ n. IsSound (of_number n)) }
    ensures most { IfOk result (λ n. n.measure.most ≤ a.measure.most + 1) }
{
    let Formed {
        core,
        constant,
        exact,
        measure,
    } = a;
    let (term, known, measure) = match core {
        Core::Number { term, known } => (term, known, measure),
        Core::Truth { form, known } => {
            let one = Shared::new(alloc, CTerm::Const(1))?;
            let zero = Shared::new(alloc, CTerm::Const(0))?;
            let mut number = Some(0);
            let term = choice_known(alloc, form, known, one, Some(1), zero, &mut number)?;
            (term, number, choice_measure(measure))
        }
    };
    Ok(NumberCore {
        term,
        known,
        constant,
        exact,
        measure,
    })
}

/// An expression as a truth: a number is true where it is at least 1.
pub fn truth(alloc: Global, a: Formed) -> Result<TruthCore, AllocError>
    requires sound { IsSound a }
    requires room { a.measure.most < 2 ^ 64 - 2 }
    ensures formed { IfOk result (λ n. of_truth n ≡ spec.as_truth a) }
    ensures sound { IfOk result (λ n. IsSound (of_truth n)) }
    ensures most { IfOk result (λ n. n.measure.most ≤ a.measure.most + 1) }
{
    let Formed {
        core,
        constant,
        exact,
        measure,
    } = a;
    let (form, known, measure) = match core {
        Core::Truth { form, known } => (form, known, measure),
        Core::Number { term, known } => {
            let one = Shared::new(alloc, CTerm::Const(1))?;
            let mut number = Some(1);
            let less = paired_known(alloc, Pairing::Difference, term, known, one, &mut number)?;
            let mut truth = None;
            let form = sense_known(alloc, Sense::AtLeast, less, number, &mut truth)?;
            (form, truth, over_measure(sum_measure(measure, leaf(1))))
        }
    };
    Ok(TruthCore {
        form,
        known,
        constant,
        exact,
        measure,
    })
}

/// The sum or the difference of two numbers.
pub fn paired(alloc: Global, which: Pairing, a: Formed, b: Formed) -> Result<Formed, AllocError>
    requires first { IsSound a }
    requires second { IsSound b }
    requires room { a.measure.most + b.measure.most < 2 ^ 64 - 2 }
    ensures formed { IfOk result (λ f. f ≡ senses.paired which a b) }
    ensures sound { IfOk result IsSound }
    ensures most { IfOk result (λ f. f.measure.most ≤ a.measure.most + b.measure.most + 2) }
{
    let a = number(alloc, a)?;
    let b = number(alloc, b)?;
    let measure = sum_measure(a.measure, b.measure);
    let mut known = b.known;
    let term = paired_known(alloc, which, a.term, a.known, b.term, &mut known)?;
    Ok(Formed {
        core: Core::Number { term, known },
        constant: a.constant & b.constant,
        exact: a.exact & b.exact,
        measure,
    })
}

/// A number taken from 0.
pub fn negation(alloc: Global, a: Formed) -> Result<Formed, AllocError>
    requires sound { IsSound a }
    requires room { a.measure.most < 2 ^ 64 - 2 }
    ensures formed { IfOk result (λ f. f ≡ spec.negation a) }
    ensures sound { IfOk result IsSound }
    ensures most { IfOk result (λ f. f.measure.most ≤ a.measure.most + 1) }
{
    let a = number(alloc, a)?;
    let mut known = a.known;
    let term = scaled_known(alloc, -1, a.term, &mut known)?;
    Ok(Formed {
        core: Core::Number { term, known },
        constant: a.constant,
        exact: a.exact,
        measure: negation_measure(a.measure),
    })
}

/// That a number is at least 0, or that it is 0.
pub fn sensed(alloc: Global, sense: Sense, a: Formed) -> Result<Formed, AllocError>
    requires sound { IsSound a }
    requires room { a.measure.most < 2 ^ 64 - 2 }
    ensures formed { IfOk result (λ f. f ≡ senses.sensed sense a) }
    ensures sound { IfOk result IsSound }
    ensures most { IfOk result (λ f. f.measure.most ≤ a.measure.most + 1) }
{
    let a = number(alloc, a)?;
    let mut known = None;
    let form = sense_known(alloc, sense, a.term, a.known, &mut known)?;
    Ok(Formed {
        core: Core::Truth { form, known },
        constant: a.constant,
        exact: a.exact,
        measure: over_measure(a.measure),
    })
}

/// That a truth does not hold.
pub fn denial(alloc: Global, a: Formed) -> Result<Formed, AllocError>
    requires sound { IsSound a }
    requires room { a.measure.most < 2 ^ 64 - 2 }
    ensures formed { IfOk result (λ f. f ≡ spec.denial a) }
    ensures sound { IfOk result IsSound }
    ensures most { IfOk result (λ f. f.measure.most ≤ a.measure.most + 1) }
{
    let a = truth(alloc, a)?;
    let mut known = a.known;
    let form = not_known(alloc, a.form, &mut known)?;
    Ok(Formed {
        core: Core::Truth { form, known },
        constant: a.constant,
        exact: a.exact,
        measure: over_measure(a.measure),
    })
}

/// That two truths hold, or that one of them does.
pub fn joined(alloc: Global, joining: Joining, a: Formed, b: Formed) -> Result<Formed, AllocError>
    requires first { IsSound a }
    requires second { IsSound b }
    requires first_room { a.measure.most < 2 ^ 64 - 2 }
    requires second_room { b.measure.most < 2 ^ 64 - 2 }
    ensures formed { IfOk result (λ f. f ≡ senses.joined joining a b) }
    ensures sound { IfOk result IsSound }
    ensures most { IfOk result (λ f. f.measure.most ≤ max a.measure.most b.measure.most + 1) }
{
    let a = truth(alloc, a)?;
    let b = truth(alloc, b)?;
    let measure = pair_measure(a.measure, b.measure);
    let mut known = b.known;
    let form = joined_known(alloc, joining, a.form, a.known, b.form, &mut known)?;
    Ok(Formed {
        core: Core::Truth { form, known },
        constant: a.constant & b.constant,
        exact: a.exact & b.exact,
        measure,
    })
}
