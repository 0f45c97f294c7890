//! Sums of multiples of facts.
ghost use Rattle.std.specs.Prelude.{◌≡◌, ℤ, pos, ◌+ℤ◌, ◌*ℤ◌, ◌≤ℤ◌, ◌<◌, ◌+◌, ◌^◌};
ghost use Rattle.std.specs.Prelude.{MatchOption, MatchResult, MatchBool, OnOk, IfSome, ◌&&◌};
ghost use Rattle.std.specs.Prelude.{IfOk, neg_ℤ, Some, None, Ok, Err, true, false, map};
ghost use Rattle.std.specs.Prelude.{length};
ghost use Rattle.std.specs.Prelude.{[], ◌∷◌, ◌++◌};
ghost use Rattle.std.specs.Option.{option_copied};
ghost use Rattle.std.specs.List.{list_all};
ghost use Rattle.meaning_states.specs.State.{int_eq};
ghost use Rattle.obligations.specs.from_core_terms.Values.{number_at};
ghost use Rattle.std.specs.Int.{int_rem_euclid, int_div_euclid};
ghost use Rattle.certificate_rules.specs.Sums.{add_factors, add_times, numbered, add_pair, sum_pairs, is_false};
ghost use Rattle.certificate_rules.specs.Sums.{is_divisible, divided, below_0};
ghost use Rattle.certificate_rules.specs.Additions.{fits_added, IsAdded};
ghost use Rattle.obligations.specs.Load.{in_limit};
ghost use Rattle.obligations.specs.LinearForms.{add_at, fact_of, sparse};

use obligations::from_case_tables::Code;
use obligations::from_unity_base::Seq;
use obligations::{Fact, Factors, Line, factor_at, small_product, small_sum};
use std::alloc::{AllocError, Global};

/// Adds a number at a place, where there is one.
#[inline(always)]
fn add_factor(sum: &mut Seq<i128>, place: usize, by: i128, total: i128)
    requires { total ≡ number_at sum.old place +ℤ by }
    ensures { sum.new ≡ add_at sum.old place by }
{
    if place < sum.len() {
        let _ = sum.replace(place, total);
    }
}

/// The product of two numbers of 64 bits, which is never past 2^126.
#[tactic(auto, using(crate::proofs::SumLaws::product_laws))]
fn narrow_product(m: i64, z: i64) -> i128
    ensures value { result ≡ m *ℤ z }
    ensures small { in_limit (m *ℤ z) ≡ true }
{
    m as i128 * z as i128
}

/// A product. `None` exactly where it is past 2^126.
pub fn product(m: i64, z: i128) -> Option<i128>
    ensures { MatchOption result (in_limit (m *ℤ z) ≡ false) (λ x. (x ≡ m *ℤ z) × (in_limit (m *ℤ z) ≡ true)) }
{
    match i64::try_from(z) {
        Ok(narrow) => Some(narrow_product(m, narrow)),
        Err(_) => small_product(m, z),
    }
}

/// A product, and its sum with a number.
#[derive(Clone, Copy)]
pub struct MultipleSum {
    /// The product.
    pub by: i128,
    /// The sum.
    pub total: i128,
}

/// The product of two numbers of 32 bits, which never is past 2^62.
#[inline(always)]
#[tactic(auto, using(crate::proofs::SumLaws::narrow_laws))]
fn short_product(m: i32, z: i32) -> i64
    ensures { result ≡ m *ℤ z }
{
    m as i64 * z as i64
}

/// Two numbers of 64 bits, the second in 128, and their sum.
#[inline(always)]
#[tactic(auto, using(crate::proofs::SumLaws::narrow_laws))]
fn short_sum(by: i64, sum: i64) -> MultipleSum
    ensures by { result.by ≡ by }
    ensures total { result.total ≡ sum +ℤ by }
    ensures fits { (in_limit by && in_limit (sum +ℤ by)) ≡ true }
{
    let by = by as i128;
    MultipleSum {
        by,
        total: sum as i128 + by,
    }
}

/// m times a number, added to another, where the first two have 32 bits and the other 64. `None` says nothing.
#[inline(always)]
#[tactic(auto, using(crate::proofs::SumLaws::narrow_laws))]
fn narrow_added(m: i64, z: i128, sum: i128) -> Option<MultipleSum>
    ensures { IfSome result (IsAdded m z sum) }
{
    let Ok(m) = i32::try_from(m) else {
        return None;
    };
    let Ok(z) = i32::try_from(z) else {
        return None;
    };
    let Ok(sum) = i64::try_from(sum) else {
        return None;
    };
    Some(short_sum(short_product(m, z), sum))
}

/// m times a number, added to another. `None` exactly where the product or the sum is past 2^126.
#[cold]
#[inline(never)]
fn wide_added(m: i64, z: i128, sum: i128) -> Option<MultipleSum>
    ensures { MatchOption result (fits_added m z sum ≡ false) (IsAdded m z sum) }
{
    let Some(by) = product(m, z) else {
        return None;
    };
    let Some(total) = small_sum(sum, by) else {
        return None;
    };
    Some(MultipleSum { by, total })
}

/// m times a number, added to another. `None` exactly where the product or the sum is past 2^126.
#[inline(always)]
pub fn added(m: i64, z: i128, sum: i128) -> Option<MultipleSum>
    ensures { MatchOption result (fits_added m z sum ≡ false) (IsAdded m z sum) }
{
    match narrow_added(m, z, sum) {
        Some(added) => Some(added),
        None => wide_added(m, z, sum),
    }
}

/// Adds m times a factor at a place, unless the product or the sum is too big; then nothing is added.
#[inline(always)]
pub fn add_multiple(m: i64, place: usize, factor: i128, sum: &mut Seq<i128>) -> bool
    ensures added { MatchBool result
        (add_factors m ((place, factor) ∷ []) sum.old ≡ Some sum.new)
        (add_factors m ((place, factor) ∷ []) sum.old ≡ None) }
    ensures kept { result ≡ false → sum.new ≡ sum.old }
{
    let Some(added) = added(m, factor, factor_at(sum, place)) else {
        return false;
    };
    add_factor(sum, place, added.by, added.total);
    true
}

/// Adds m times one factor, unless the product or the sum is too big.
fn add_one(m: i64, f: &(u32, i128), sum: &mut Seq<i128>) -> bool
    ensures { MatchBool result
        (add_factors m (f.now ∷ []) sum.old ≡ Some sum.new)
        (add_factors m (f.now ∷ []) sum.old ≡ None) }
{
    add_multiple(m, f.0 as usize, f.1, sum)
}

/// Adds m times each factor, unless a product or a sum is too big.
fn add_all(m: i64, factors: &[(u32, i128)], sum: &mut Seq<i128>) -> bool
    ensures { MatchBool result
        (add_factors m factors.now sum.old ≡ Some sum.new)
        (add_factors m factors.now sum.old ≡ None) }
{
    for f in factors {
        if !add_one(m, f, sum) {
            return false;
        }
    }
    true
}

/// Adds m times a fact, unless a number is too big.
fn add_fact(m: i64, fact: &Fact, sum: &mut Line) -> bool
    ensures { MatchBool result (add_times m fact.now sum.old ≡ Some sum.new) (add_times m fact.now sum.old ≡ None) }
{
    let Some(by) = product(m, fact.constant) else {
        return false;
    };
    let Some(total) = small_sum(sum.constant, by) else {
        return false;
    };
    sum.constant = total;
    if add_all(m, fact.factors.as_slice(), &mut sum.factors) {
        true
    } else {
        false
    }
}

/// The fact of this number, counted from 1.
fn fact_at(facts: &[Fact], number: u64) -> Option<&Fact>
    ensures { option_copied result ≡ numbered facts.now number }
{
    if number == 0 {
        None
    } else {
        facts.get(number as usize - 1)
    }
}

/// Adds the multiple of a fact that a pair names.
fn add_one_pair(facts: &[Fact], pair: &(i64, u64), sum: &mut Line) -> Result<(), Code>
    ensures { MatchResult result
        (λ _. add_pair pair.now.0 (numbered facts.now pair.now.1) sum.old ≡ Ok sum.new)
        (λ code. add_pair pair.now.0 (numbered facts.now pair.now.1) sum.old ≡ Err code) }
{
    let Some(fact) = fact_at(facts, pair.1) else {
        return Err(Code::NoSuchFact);
    };
    if pair.0 < 0 {
        return Err(Code::BadSum);
    }
    if add_fact(pair.0, fact, sum) {
        Ok(())
    } else {
        Err(Code::TooBig)
    }
}

/// Adds the multiples of facts that the pairs name, up to the first that fails.
#[tactic(auto, using(crate::proofs::SumLaws::stop_laws))]
pub fn add_pairs(facts: &[Fact], pairs: &[(i64, u64)], sum: &mut Line) -> Result<(), Code>
    ensures { MatchResult result
        (λ _. sum_pairs facts.now (Ok sum.old) pairs.now ≡ Ok sum.new)
        (λ code. sum_pairs facts.now (Ok sum.old) pairs.now ≡ Err code) }
{
    for pair in pairs {
        if let Err(code) = add_one_pair(facts, pair, sum) {
            return Err(code);
        }
    }
    Ok(())
}

/// The same factors once more.
fn copy_factors(alloc: Global, factors: &[(u32, i128)]) -> Result<Factors, AllocError>
    ensures { IfOk result (λ copy. copy ≡ factors.now) }
{
    let mut copy = Factors::new(alloc);
    for factor in factors {
        copy.push(*factor)?;
    }
    Ok(copy)
}

/// The same fact once more.
pub fn copy_fact(alloc: Global, fact: &Fact) -> Result<Fact, AllocError>
    ensures { IfOk result (λ copy. copy ≡ fact.now) }
{
    let factors = copy_factors(alloc, fact.factors.as_slice())?;
    Ok(Fact {
        factors,
        constant: fact.constant,
    })
}

/// A number with its sign turned.
fn negative(z: &i128) -> i128
    requires { in_limit z.now ≡ true }
    ensures { result ≡ neg_ℤ z.now }
{
    -*z
}

/// All signs turned.
fn negatives(alloc: Global, zs: &[i128]) -> Result<Seq<i128>, AllocError>
    requires { list_all in_limit zs.now ≡ true }
    ensures { IfOk result (λ n. n ≡ map neg_ℤ zs.now) }
{
    let mut turned = Seq::new(alloc);
    for z in zs {
        turned.push(negative(z))?;
    }
    Ok(turned)
}

/// That a line is below 0.
pub fn below_0(alloc: Global, line: &Line) -> Result<Line, AllocError>
    requires factors { list_all in_limit line.now.factors ≡ true }
    requires constant { in_limit line.now.constant ≡ true }
    ensures { IfOk result (λ l. l ≡ below_0 line.now) }
{
    Ok(Line {
        factors: negatives(alloc, line.factors.as_slice())?,
        constant: negative(&line.constant) - 1,
    })
}

/// Whether all factors are 0.
pub fn all_zero(factors: &[i128]) -> bool
    ensures { result ≡ list_all (λ z. int_eq z (pos 0)) factors.now }
{
    factors.iter().all(|z| *z == 0)
}

/// Whether a sum is at least 0 at no values.
pub fn closes(sum: &Line) -> bool
    ensures { result ≡ is_false sum.now }
{
    all_zero(sum.factors.as_slice()) && !(0 <= sum.constant)
}

/// Whether a number is at least 1 and divides all factors.
pub fn divides(d: i64, sum: &Line) -> bool
    ensures { result ≡ is_divisible d sum.now }
{
    1 <= d && all_divided(d, sum.factors.as_slice())
}

/// Whether a number of at least 1 divides another.
fn is_divided(d: i64, z: &i128) -> bool
    requires { pos 1 ≤ℤ d }
    ensures { result ≡ int_eq (int_rem_euclid z.now d) (pos 0) }
{
    match i64::try_from(*z) {
        Ok(narrow) => narrow.rem_euclid(d) == 0,
        Err(_) => z.rem_euclid(d as i128) == 0,
    }
}

/// Whether a number of at least 1 divides all factors.
pub fn all_divided(d: i64, factors: &[i128]) -> bool
    requires { pos 1 ≤ℤ d }
    ensures { result ≡ list_all (λ z. int_eq (int_rem_euclid z d) (pos 0)) factors.now }
{
    factors.iter().all(|z| is_divided(d, z))
}

/// A number divided by one of at least 1, and rounded down.
pub fn quotient(d: i64, z: i128) -> i128
    requires { pos 1 ≤ℤ d }
    ensures { result ≡ int_div_euclid z d }
{
    match i64::try_from(z) {
        Ok(narrow) => narrow.div_euclid(d) as i128,
        Err(_) => z.div_euclid(d as i128),
    }
}

/// Adds a divided factor, where it is not 0.
fn put_part(d: i64, place: u32, z: i128, factors: &mut Factors) -> Result<(), AllocError>
    requires { pos 1 ≤ℤ d }
    ensures { OnOk result (factors.new ≡ factors.old ++ sparse place (int_div_euclid z d ∷ [])) }
{
    let part = quotient(d, z);
    if part == 0 {
        Ok(())
    } else {
        factors.push((place, part))
    }
}

/// The factors divided and rounded down, each with its place from `first` on, where it is not 0.
#[tactic(auto, using(crate::proofs::SumLaws::part_laws))]
pub fn parts(alloc: Global, d: i64, first: usize, zs: &[i128]) -> Result<Factors, AllocError>
    requires divisor { pos 1 ≤ℤ d }
    requires count { first + length zs.now < 2 ^ 32 }
    ensures { IfOk result (λ f. f ≡ sparse first (map (λ z. int_div_euclid z d) zs.now)) }
{
    let mut factors = Factors::new(alloc);
    for (place, z) in zs.iter().enumerate() {
        put_part(d, (first + place) as u32, *z, &mut factors)?;
    }
    Ok(factors)
}

/// The sum divided and rounded down, as a fact.
pub fn rounded(alloc: Global, d: i64, sum: &Line) -> Result<Fact, AllocError>
    requires divisor { pos 1 ≤ℤ d }
    requires count { length sum.now.factors < 2 ^ 32 }
    ensures { IfOk result (λ f. f ≡ fact_of (divided d sum.now)) }
{
    Ok(Fact {
        factors: parts(alloc, d, 0, sum.factors.as_slice())?,
        constant: quotient(d, sum.constant),
    })
}
