//! Quotients and remainders.

ghost use Rattle.std.specs.Prelude.{◌≡◌, ◌^◌, ◌≤◌, ◌+◌, ◌||◌, IfOk, MatchOption, pos, cond, true, Some, None};
ghost use Rattle.std.specs.Option.{is_some};
ghost use Rattle.std.specs.Int.RustNames.{int_le, unsigned_abs};
ghost use Rattle.core_terms.specs.Folding.{quotient_term, remainder_term};
ghost use Rattle.expand_rules.specs.from_meaning_documents.Names.{or_zero};
ghost use Rattle.expand_rules.specs.Forming as spec;
ghost use Rattle.expand_expressions.specs.Sound.{IsSound, of_number};

use crate::measures::divided_measure;
use crate::operations::{NumberCore, number};
use crate::products::factor;
use core_terms::{Dividing, divided_known};
use expand_rules::{Core, Flaws, Formed};
use std::alloc::{AllocError, Global};

// A divisor: 1 where its number is less, and where a divisor in it is bad.
#[tactic(auto, using(crate::proofs::Multiples::known_small, crate::proofs::Multiples::factor_known))]
fn divisor(b: &NumberCore) -> i64
    requires sound { IsSound (of_number b.now) }
    requires light { b.now.measure.most ≤ 2 ^ 62 + 1 }
    ensures value { result ≡ spec.divisor_of (of_number b.now) }
    ensures positive { int_le (pos 1) result ≡ true }
    ensures bound { unsigned_abs result ≤ 2 ^ 62 + 1 }
{
    let number = factor(b.known);
    if b.measure.flaws.divisor.is_some() || number < 1 {
        1
    } else {
        number
    }
}

/// The place of a divisor that is below 1; where a divisor in it is bad, that one alone is.
#[tactic(auto, using(crate::proofs::Multiples::known_small, crate::proofs::Multiples::factor_known))]
pub fn bad_divisor(at: u64, b: &NumberCore) -> Option<u64>
    requires sound { IsSound (of_number b.now) }
    requires light { b.now.measure.most ≤ 2 ^ 62 + 1 }
    ensures { result ≡ spec.bad_divisor at (of_number b.now) }
{
    if b.measure.flaws.divisor.is_some() || factor(b.known) >= 1 {
        None
    } else {
        Some(at)
    }
}

fn quotient_of(alloc: Global, at: u64, a: NumberCore, b: &NumberCore) -> Result<Formed, AllocError>
    requires first { IsSound (of_number a) }
    requires second { IsSound (of_number b.now) }
    requires first_light { a.measure.most ≤ 2 ^ 62 + 1 }
    requires second_light { b.now.measure.most ≤ 2 ^ 62 + 1 }
    ensures formed { IfOk result (λ f. f ≡ spec.divided_by quotient_term spec.quotient_weight at
        (of_number a) (of_number b.now)) }
    ensures sound { IfOk result IsSound }
{
    let k = divisor(b);
    let flaws = Flaws::of_divisor(bad_divisor(at, b));
    let measure = divided_measure(
        a.measure.own.max(1),
        k.unsigned_abs(),
        flaws,
        a.measure,
        b.measure,
    );
    let mut known = a.known;
    let term = divided_known(alloc, Dividing::Quotient, k, a.term, &mut known)?;
    Ok(Formed {
        core: Core::Number { term, known },
        constant: a.constant & b.constant,
        exact: b.constant & (a.exact & b.exact),
        measure,
    })
}

fn remainder_of(alloc: Global, at: u64, a: NumberCore, b: &NumberCore) -> Result<Formed, AllocError>
    requires first { IsSound (of_number a) }
    requires second { IsSound (of_number b.now) }
    requires first_light { a.measure.most ≤ 2 ^ 62 + 1 }
    requires second_light { b.now.measure.most ≤ 2 ^ 62 + 1 }
    ensures formed { IfOk result (λ f. f ≡ spec.divided_by remainder_term spec.remainder_weight at
        (of_number a) (of_number b.now)) }
    ensures sound { IfOk result IsSound }
{
    let k = divisor(b);
    let flaws = Flaws::of_divisor(bad_divisor(at, b));
    let measure = divided_measure(
        2 * a.measure.own + k.unsigned_abs(),
        k.unsigned_abs(),
        flaws,
        a.measure,
        b.measure,
    );
    let mut known = a.known;
    let term = divided_known(alloc, Dividing::Remainder, k, a.term, &mut known)?;
    Ok(Formed {
        core: Core::Number { term, known },
        constant: a.constant & b.constant,
        exact: b.constant & (a.exact & b.exact),
        measure,
    })
}

/// A number divided by a constant one that begins at this byte, rounded down.
pub fn quotient(alloc: Global, at: u64, a: Formed, b: Formed) -> Result<Formed, AllocError>
    requires first { IsSound a }
    requires second { IsSound b }
    requires first_light { a.measure.most ≤ 2 ^ 62 }
    requires second_light { b.measure.most ≤ 2 ^ 62 }
    ensures formed { IfOk result (λ f. f ≡ spec.quotient at a b) }
    ensures sound { IfOk result IsSound }
{
    let a = number(alloc, a)?;
    let b = number(alloc, b)?;
    quotient_of(alloc, at, a, &b)
}

/// What such a division leaves.
pub fn remainder(alloc: Global, at: u64, a: Formed, b: Formed) -> Result<Formed, AllocError>
    requires first { IsSound a }
    requires second { IsSound b }
    requires first_light { a.measure.most ≤ 2 ^ 62 }
    requires second_light { b.measure.most ≤ 2 ^ 62 }
    ensures formed { IfOk result (λ f. f ≡ spec.remainder at a b) }
    ensures sound { IfOk result IsSound }
{
    let a = number(alloc, a)?;
    let b = number(alloc, b)?;
    remainder_of(alloc, at, a, &b)
}
