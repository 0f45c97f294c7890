//! Parts that are joined from left to right.

ghost use Rattle.std.specs.Prelude.{◌≡◌, ◌+◌, ◌^◌, ◌<◌, ◌≤◌, ◌+ℤ◌, pos, IfOk};
ghost use Rattle.std.specs.Int.RustNames.{unsigned_abs};
ghost use Rattle.expand_rules.specs.Forming as spec;
ghost use Rattle.expand_expressions.specs.Sound.{IsSound, GivesCore};
ghost use Rattle.expand_expressions.specs.Joints.{joint_of, begin_of, word_joint, none_of};

use crate::comparisons::{
    as_number, as_truth, bottom, comparison, implication, number_constant, top,
};
use crate::operations::{self, denial, negation, paired};
use crate::products::{limited, product};
use crate::quotients::{quotient, remainder};
use crate::ranges::Numbers;
use crate::refusal::Refusal;
use case_tables::{Symbol, Word};
use core_terms::{Joining, Pairing};
use expand_rules::{Bound, Formed};
use std::alloc::{AllocError, Global};
use unity_syntax::Operator;

/// What joins parts.
#[derive(Clone, Copy)]
pub enum Joint {
    And,
    Or,
    Sum,
}

/// Two parts, joined.
pub fn joined(alloc: Global, joint: Joint, a: Formed, b: Formed) -> Result<Formed, Refusal>
    requires first { IsSound a }
    requires second { IsSound b }
    requires first_light { a.measure.most ≤ 2 ^ 62 }
    requires second_light { b.measure.most ≤ 2 ^ 62 }
    ensures formed { GivesCore result (joint_of joint a b) }
    ensures sound { IfOk result IsSound }
    ensures light { IfOk result (λ f. f.measure.most ≤ 2 ^ 62) }
{
    match joint {
        Joint::And => limited(operations::joined(alloc, Joining::Both, a, b)?),
        Joint::Or => limited(operations::joined(alloc, Joining::Either, a, b)?),
        Joint::Sum => limited(paired(alloc, Pairing::Sum, a, b)?),
    }
}

/// The first part, before others are joined to it.
pub fn begun(alloc: Global, joint: Joint, a: Formed) -> Result<Formed, Refusal>
    requires sound { IsSound a }
    requires light { a.measure.most ≤ 2 ^ 62 }
    ensures formed { GivesCore result (begin_of joint a) }
    ensures sound { IfOk result IsSound }
    ensures light { IfOk result (λ f. f.measure.most ≤ 2 ^ 62) }
{
    match joint {
        Joint::And => limited(as_truth(alloc, a)?),
        Joint::Or => limited(as_truth(alloc, a)?),
        Joint::Sum => limited(as_number(alloc, a)?),
    }
}

/// What joins the instances of a quantifier; no word but `all`, `any` and `sum` stands in one.
pub fn joint_of_word(which: Word) -> Joint
    ensures { result ≡ word_joint which }
{
    match which {
        Word::All => Joint::And,
        Word::Any => Joint::Or,
        _ => Joint::Sum,
    }
}

/// A quantifier over no number.
pub fn none(alloc: Global, which: Word) -> Result<Formed, AllocError>
    ensures formed { IfOk result (λ f. f ≡ none_of which) }
    ensures sound { IfOk result IsSound }
    ensures light { IfOk result (λ f. f.measure.most ≤ 2 ^ 62) }
{
    match which {
        Word::All => top(alloc),
        Word::Any => bottom(alloc),
        _ => number_constant(alloc, 0),
    }
}

/// One number of a range, as what a name is bound to.
pub fn bound_at(numbers: Numbers, place: u64) -> Bound
    requires first { unsigned_abs numbers.first ≤ 1000000000 }
    requires place { place ≤ 2000000001 }
    ensures { result ≡ Bound.Number (numbers.first +ℤ pos place) }
{
    Bound::Number(numbers.first + place as i64)
}

/// The first part of a sum, with or without a sign.
pub fn signed(alloc: Global, minus: bool, a: Formed) -> Result<Formed, Refusal>
    requires sound { IsSound a }
    requires light { a.measure.most ≤ 2 ^ 62 }
    ensures formed { GivesCore result (spec.signed minus a) }
    ensures sound { IfOk result IsSound }
    ensures light { IfOk result (λ f. f.measure.most ≤ 2 ^ 62) }
{
    if minus {
        limited(negation(alloc, a)?)
    } else {
        limited(as_number(alloc, a)?)
    }
}

/// A further part of a sum.
pub fn plus(alloc: Global, symbol: Symbol, a: Formed, b: Formed) -> Result<Formed, Refusal>
    requires first { IsSound a }
    requires second { IsSound b }
    requires first_light { a.measure.most ≤ 2 ^ 62 }
    requires second_light { b.measure.most ≤ 2 ^ 62 }
    ensures formed { GivesCore result (spec.plus a (symbol, b)) }
    ensures sound { IfOk result IsSound }
    ensures light { IfOk result (λ f. f.measure.most ≤ 2 ^ 62) }
{
    match symbol {
        Symbol::Minus => limited(paired(alloc, Pairing::Difference, a, b)?),
        _ => limited(paired(alloc, Pairing::Sum, a, b)?),
    }
}

/// An operator of a product and its right operand, which begins at this byte, after all that stands before them.
pub fn factored(
    alloc: Global,
    op: Operator,
    at: u64,
    a: Formed,
    b: Formed,
) -> Result<Formed, Refusal>
    requires first { IsSound a }
    requires second { IsSound b }
    requires first_light { a.measure.most ≤ 2 ^ 62 }
    requires second_light { b.measure.most ≤ 2 ^ 62 }
    ensures formed { GivesCore result (spec.factored a ((op, at), b)) }
    ensures sound { IfOk result IsSound }
    ensures light { IfOk result (λ f. f.measure.most ≤ 2 ^ 62) }
{
    match op {
        Operator::Times => product(alloc, a, b),
        Operator::Div => limited(quotient(alloc, at, a, b)?),
        Operator::Mod => limited(remainder(alloc, at, a, b)?),
    }
}

/// That a truth does not hold.
pub fn denied(alloc: Global, a: Formed) -> Result<Formed, Refusal>
    requires sound { IsSound a }
    requires light { a.measure.most ≤ 2 ^ 62 }
    ensures formed { GivesCore result (spec.denial a) }
    ensures sound { IfOk result IsSound }
    ensures light { IfOk result (λ f. f.measure.most ≤ 2 ^ 62) }
{
    limited(denial(alloc, a)?)
}

/// That one truth implies another.
pub fn implied(alloc: Global, a: Formed, b: Formed) -> Result<Formed, Refusal>
    requires first { IsSound a }
    requires second { IsSound b }
    requires first_light { a.measure.most ≤ 2 ^ 62 }
    requires second_light { b.measure.most ≤ 2 ^ 62 }
    ensures formed { GivesCore result (spec.implication a b) }
    ensures sound { IfOk result IsSound }
    ensures light { IfOk result (λ f. f.measure.most ≤ 2 ^ 62) }
{
    limited(implication(alloc, a, b)?)
}

/// A comparison.
pub fn compared(alloc: Global, relation: Symbol, a: Formed, b: Formed) -> Result<Formed, Refusal>
    requires first { IsSound a }
    requires second { IsSound b }
    requires first_light { a.measure.most ≤ 2 ^ 62 }
    requires second_light { b.measure.most ≤ 2 ^ 62 }
    ensures formed { GivesCore result (spec.comparison relation a b) }
    ensures sound { IfOk result IsSound }
    ensures light { IfOk result (λ f. f.measure.most ≤ 2 ^ 62) }
{
    limited(comparison(alloc, relation, a, b)?)
}

/// A number that is written.
pub fn literal(alloc: Global, number: u64) -> Result<Formed, Refusal>
    ensures formed { GivesCore result (spec.number_constant (pos number)) }
    ensures sound { IfOk result IsSound }
    ensures light { IfOk result (λ f. f.measure.most ≤ 2 ^ 62) }
{
    if number <= 1 << 62 {
        limited(number_constant(alloc, number as i64)?)
    } else {
        Err(Refusal::TooLarge)
    }
}
