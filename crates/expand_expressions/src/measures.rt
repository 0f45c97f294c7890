//! How large expressions are, from how large their parts are.

ghost use Rattle.std.specs.Prelude.{◌≡◌, ◌+◌, ◌*◌, ◌^◌, ◌<◌, ◌≤◌, min, max};
ghost use Rattle.std.specs.Int.RustNames.{unsigned_abs};
ghost use Rattle.expand_rules.specs.Measures as spec;
ghost use Rattle.meaning_executions.specs.Counting.{natural, range_size};

use core_terms::Range;
use expand_rules::{Flaws, Measure};

// A size, counted up to one past its limit.
fn counted(size: u64) -> u64
    ensures { result ≡ spec.counted size }
{
    size.min(65_537)
}

/// One node of such a weight.
pub fn leaf(weight: u64) -> Measure
    ensures { result ≡ spec.leaf weight }
{
    Measure {
        size: 1,
        quantified: 0,
        own: weight,
        most: weight,
        flaws: Flaws::none(),
    }
}

/// A sum or a difference.
pub fn sum_measure(a: Measure, b: Measure) -> Measure
    requires { a.own + b.own < 2 ^ 64 }
    ensures { result ≡ spec.sum_measure a b }
{
    let own = a.own + b.own;
    Measure {
        size: counted(a.size.saturating_add(b.size).saturating_add(1)),
        quantified: counted(a.quantified.saturating_add(b.quantified)),
        own,
        most: own.max(a.most.max(b.most)),
        flaws: a.flaws.and(b.flaws),
    }
}

/// A multiple by a factor of which the absolute value is given, and how large the factor is.
pub fn multiple_measure(k: u64, factor: Measure, a: Measure) -> Measure
    requires { k * a.own < 2 ^ 64 }
    ensures size { result.size ≡ spec.counted (1 + factor.size + a.size) }
    ensures quantified { result.quantified ≡ spec.counted (factor.quantified + a.quantified) }
    ensures own { result.own ≡ k * a.own }
    ensures most { result.most ≡ max (k * a.own) (max factor.most a.most) }
    ensures flaws { result.flaws ≡ spec.both_flaws factor.flaws a.flaws }
{
    let own = k * a.own;
    Measure {
        size: counted(factor.size.saturating_add(a.size).saturating_add(1)),
        quantified: counted(factor.quantified.saturating_add(a.quantified)),
        own,
        most: own.max(factor.most.max(a.most)),
        flaws: factor.flaws.and(a.flaws),
    }
}

/// A quotient or a remainder that lies so far from 0, by a divisor that counts too and that lies so far from 0,
/// with what fails of the divisor itself.
pub fn divided_measure(own: u64, k: u64, flaws: Flaws, a: Measure, b: Measure) -> Measure
    ensures { result ≡ spec.divided_measure own k flaws a b }
{
    Measure {
        size: counted(a.size.saturating_add(b.size).saturating_add(1)),
        quantified: counted(a.quantified.saturating_add(b.quantified)),
        own,
        most: own.max(a.most.max(b.most.max(k))),
        flaws: a.flaws.and(b.flaws.and(flaws)),
    }
}

/// A number taken from 0.
pub fn negation_measure(a: Measure) -> Measure
    ensures { result ≡ spec.negation_measure a }
{
    Measure {
        size: counted(a.size.saturating_add(1)),
        quantified: a.quantified,
        own: a.own,
        most: a.most,
        flaws: a.flaws,
    }
}

/// A formula over one part.
pub fn over_measure(a: Measure) -> Measure
    ensures { result ≡ spec.over_measure a }
{
    Measure {
        size: counted(a.size.saturating_add(1)),
        quantified: a.quantified,
        own: 0,
        most: a.most,
        flaws: a.flaws,
    }
}

/// A formula over two.
pub fn pair_measure(a: Measure, b: Measure) -> Measure
    ensures { result ≡ spec.pair_measure a b }
{
    Measure {
        size: counted(a.size.saturating_add(b.size).saturating_add(1)),
        quantified: counted(a.quantified.saturating_add(b.quantified)),
        own: 0,
        most: a.most.max(b.most),
        flaws: a.flaws.and(b.flaws),
    }
}

/// A truth as a number.
pub fn choice_measure(a: Measure) -> Measure
    ensures { result ≡ spec.choice_measure a }
{
    Measure {
        size: counted(a.size.saturating_add(3)),
        quantified: a.quantified,
        own: 1,
        most: a.most.max(1),
        flaws: a.flaws,
    }
}

/// A quantifier with its instances.
pub fn quantifier_measure(fault: Option<u64>, a: Measure) -> Measure
    ensures { result ≡ spec.quantifier_measure fault a }
{
    Measure {
        size: counted(a.size.saturating_add(1)),
        quantified: counted(a.size.max(a.quantified).saturating_add(1)),
        own: a.own,
        most: a.most,
        flaws: Flaws::of_range(fault).and(a.flaws),
    }
}

// The nodes of a choice for each of so many indices.
fn chain_size(count: u64, index: u64) -> u64
    requires { index ≤ 65537 }
    ensures { result ≡ spec.counted (max 1 count * (index + 5) + 1) }
{
    let nodes = u128::from(count.max(1)) * u128::from(index + 5) + 1;
    nodes.min(65_537) as u64
}

/// What is read at an index, constant or not, of an array with so many indices.
pub fn element_measure(
    constant: bool,
    count: u64,
    ends: Range,
    weight: u64,
    index: Measure,
) -> Measure
    requires own { index.own ≤ 2 ^ 62 + 1 }
    requires size { index.size ≤ 65537 }
    ensures { result ≡ spec.element_measure constant count (ends.lo, ends.hi) weight index }
{
    let size = if constant {
        counted(index.quantified.saturating_add(1))
    } else {
        chain_size(count, index.size)
    };
    let farthest = ends.lo.unsigned_abs().max(ends.hi.unsigned_abs());
    Measure {
        size,
        quantified: index.quantified,
        own: weight,
        most: (index.own + farthest).max(index.most.max(weight)),
        flaws: index.flaws,
    }
}

/// How far from 0 the numbers of a range can lie, and at least 1.
pub fn ends_weight(ends: Range) -> u64
    ensures { result ≡ spec.ends_weight (ends.lo, ends.hi) }
{
    ends.lo.unsigned_abs().max(ends.hi.unsigned_abs()).max(1)
}

/// How many numbers lie in a range whose ends are not too large.
pub fn range_size(ends: Range) -> u64
    requires low { unsigned_abs ends.lo ≤ 2 ^ 61 }
    requires high { unsigned_abs ends.hi ≤ 2 ^ 61 }
    ensures { result ≡ range_size (ends.lo, ends.hi) }
{
    natural(ends.hi + 1 - ends.lo)
}

/// A whole number as a count: each negative one is 0.
#[tactic(auto, using(crate::proofs::Ends::natural_abs, crate::proofs::Ends::natural_none))]
pub fn natural(number: i64) -> u64
    ensures { result ≡ natural number }
{
    if number >= 0 { number as u64 } else { 0 }
}
