//! Products, and the limits.

ghost use Rattle.std.specs.Prelude.{◌≡◌, ◌+◌, ◌*◌, ◌^◌, ◌<◌, ◌≤◌, IfOk, MatchOption, max, cond};
ghost use Rattle.std.specs.Int.RustNames.{unsigned_abs};
ghost use Rattle.core_terms.specs.Folding.{number_of, scaled_term};
ghost use Rattle.core_terms.specs.Weights.{plain_weights};
ghost use Rattle.expand_rules.specs.from_meaning_documents.Names.{or_zero};
ghost use Rattle.expand_rules.specs.Measures as measures;
ghost use Rattle.expand_rules.specs.Forming as spec;
ghost use Rattle.expand_rules.specs.Limits as limits;
ghost use Rattle.expand_expressions.specs.Sound.{IsSound, GivesCore, GivesLight, of_number};

use crate::measures::multiple_measure;
use crate::operations::{NumberCore, number};
use crate::refusal::Refusal;
use core_terms::{CTerm, scaled_known};
use expand_rules::{Core, Formed, Measure};
use std::alloc::{AllocError, Global};
use unity_base::Shared;

/// Whether whatever has a part of this size, constant or not, is too large.
pub fn is_past_by(constant: bool, measure: Measure) -> bool
    ensures { result ≡ limits.is_past_by constant measure }
{
    !(measure.most <= 1 << 62)
        | (!(measure.quantified <= 65_536) | (!constant & !(measure.size <= 65_536)))
}

/// What an expression becomes, unless whatever it is a part of is too large.
pub fn limited(a: Formed) -> Result<Formed, Refusal>
    requires { IsSound a }
    ensures formed { GivesCore result a }
    ensures sound { IfOk result IsSound }
    ensures light { IfOk result (λ f. f.measure.most ≤ 2 ^ 62) }
{
    if is_past_by(a.constant, a.measure) {
        Err(Refusal::TooLarge)
    } else {
        Ok(a)
    }
}

/// The factor of a product: a constant's number.
pub fn factor(known: Option<i128>) -> i64
    requires { MatchOption known (Unit {0}) (λ z. unsigned_abs z ≤ 2 ^ 62 + 1) }
    ensures value { result ≡ or_zero known }
    ensures bound { unsigned_abs result ≤ 2 ^ 62 + 1 }
{
    match known {
        Some(number) => number as i64,
        None => 0,
    }
}

// How large a multiple is, unless it weighs too much.
fn weighed_multiple(k: i64, factor: Measure, a: Measure) -> Option<Measure>
    ensures { MatchOption result (2 ^ 62 < unsigned_abs k * a.own)
        (λ m. (m ≡ measures.multiple_measure k factor a) × (unsigned_abs k * a.own ≤ 2 ^ 62)) }
{
    let weight = u128::from(k.unsigned_abs()) * u128::from(a.own);
    if weight <= 1 << 62 {
        Some(multiple_measure(k.unsigned_abs(), factor, a))
    } else {
        None
    }
}

// A multiple of a term that weighs at most so much.
#[tactic(auto, using(crate::proofs::Multiples::multiple_fits, crate::proofs::Multiples::multiple_lighter))]
fn scaled(
    alloc: Global,
    k: i64,
    term: Shared<CTerm>,
    own: u64,
    number: &mut Option<i128>,
) -> Result<Shared<CTerm>, AllocError>
    requires known { number.old ≡ number_of term }
    requires own { (plain_weights term).own ≤ own }
    requires weight { unsigned_abs k * own ≤ 2 ^ 62 }
    requires most { (plain_weights term).most ≤ 2 ^ 64 }
    ensures tree { IfOk result (λ t. t ≡ scaled_term k term) }
    ensures known { IfOk result (λ t. number.new ≡ number_of t) }
    ensures own { IfOk result (λ t. (plain_weights t).own ≤ unsigned_abs k * own) }
    ensures most { IfOk result (λ t. (plain_weights t).most ≤ max (unsigned_abs k * own) (plain_weights term).most) }
{
    scaled_known(alloc, k, term, number)
}

// A number, so many times as a constant says.
#[tactic(auto, using(crate::proofs::Multiples::known_small, crate::proofs::Multiples::factor_known))]
fn multiple(alloc: Global, k: Formed, a: Formed) -> Result<Formed, Refusal>
    requires first { IsSound k }
    requires second { IsSound a }
    requires first_light { k.measure.most ≤ 2 ^ 62 }
    requires second_light { a.measure.most ≤ 2 ^ 62 }
    ensures formed { GivesLight result (spec.multiple k a) }
    ensures sound { IfOk result IsSound }
{
    let k = number(alloc, k)?;
    let a = number(alloc, a)?;
    let factor = factor(k.known);
    let Some(measure) = weighed_multiple(factor, k.measure, a.measure) else {
        return Err(Refusal::TooLarge);
    };
    let mut known = a.known;
    let term = scaled(alloc, factor, a.term, a.measure.own, &mut known)?;
    Ok(Formed {
        core: Core::Number { term, known },
        constant: k.constant & a.constant,
        exact: k.exact & a.exact,
        measure,
    })
}

// A multiple by the factor that is constant; of two constants the left one.
fn by_constant(alloc: Global, a: Formed, b: Formed) -> Result<Formed, Refusal>
    requires first { IsSound a }
    requires second { IsSound b }
    requires first_light { a.measure.most ≤ 2 ^ 62 }
    requires second_light { b.measure.most ≤ 2 ^ 62 }
    ensures formed { GivesLight result (cond a.constant (spec.multiple a b) (spec.multiple b a)) }
    ensures sound { IfOk result IsSound }
{
    if a.constant {
        multiple(alloc, a, b)
    } else {
        multiple(alloc, b, a)
    }
}

/// The product of two numbers.
pub fn product(alloc: Global, a: Formed, b: Formed) -> Result<Formed, Refusal>
    requires first { IsSound a }
    requires second { IsSound b }
    requires first_light { a.measure.most ≤ 2 ^ 62 }
    requires second_light { b.measure.most ≤ 2 ^ 62 }
    ensures formed { GivesCore result (spec.product a b) }
    ensures sound { IfOk result IsSound }
    ensures light { IfOk result (λ f. f.measure.most ≤ 2 ^ 62) }
{
    let constant = a.constant & b.constant;
    let exact = (a.constant | b.constant) & (a.exact & b.exact);
    let whole = by_constant(alloc, a, b)?;
    limited(Formed {
        core: whole.core,
        constant,
        exact,
        measure: whole.measure,
    })
}
