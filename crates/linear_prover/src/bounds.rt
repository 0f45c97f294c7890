//! Facts that the bounds of their variables refute.
ghost use Rattle.std.specs.Prelude.{◌≡◌, ◌+◌, ◌-◌, ◌*◌, ◌≤◌, ◌<◌, ◌^◌, ◌++◌, ◌∷◌, [], suc, pos, negsuc, ◌+ℤ◌, ℕ, Bool};
ghost use Rattle.std.specs.Prelude.{true, false, drop, length, slice_get, IfOk, IfSome, MatchOption, IsTrue};
ghost use Rattle.std.specs.List.{list_all, list_any};
ghost use Rattle.std.specs.Int.RustNames.{unsigned_abs};
ghost use Rattle.obligations.specs.Reach.{is_bound_of, bound_at, tighter, tightest, total_with, is_refuted_by};
ghost use Rattle.obligations.specs.Reach.{pair_for};
ghost use Rattle.linear_prover.specs.Tables.{bound_in, AreBoundPlaces, AreBounds, BoundsTell, is_lost, light_total};
ghost use Rattle.linear_prover.specs.Tables.{IsNextSum};
ghost use Rattle.linear_prover.specs.Tables.{against, total_in, is_refuted_in, IsAt, pairs_of, pairs_in};
ghost use Rattle.linear_prover.specs.Chains.{is_plain_number, is_plain_factor};

use obligations::{Bound, Fact, small_product};
use std::alloc::{AllocError, Global};
use unity_base::Seq;

/// The variable that a fact's factors bound alone, from this side.
fn bounded_variable(factors: &[(u32, i128)], side: &i128) -> Option<u32>
    ensures { MatchOption result
        ((v : ℕ) → is_bound_of v side.now factors.now ≡ false)
        (λ v. factors.now ≡ (v, side.now) ∷ []) }
{
    match factors {
        [f] if f.1 == *side => Some(f.0),
        _ => None,
    }
}

/// The tighter of two bounds, and the first where both are as tight.
fn tighter_bound(first: Option<Bound>, second: Option<Bound>) -> Option<Bound>
    ensures { result ≡ tighter first second }
{
    match (first, second) {
        (None, second) => second,
        (Some(b), None) => Some(b),
        (Some(b), Some(c)) => Some(if b.constant <= c.constant { b } else { c }),
    }
}

/// The bound that a table has for a variable.
pub fn bound_of(table: &[Option<Bound>], variable: u32) -> Option<Bound>
    ensures { result ≡ bound_in table.now variable }
{
    match table.get(variable as usize) {
        Some(bound) => *bound,
        None => None,
    }
}

/// The bound that a fact is.
fn own_bound(place: usize, fact: &Fact) -> Bound
    ensures { result ≡ record { place = place; constant = fact.now.constant } }
{
    Bound {
        place,
        constant: fact.constant,
    }
}

/// Takes the fact at a place into a table of the tightest bounds from one side.
fn tighten(table: &mut Seq<Option<Bound>>, side: &i128, place: usize, fact: &Fact)
    ensures long { length table.new ≡ length table.old }
    ensures tells { (v : ℕ) → v < length table.old → bound_in table.new v ≡ tighter (bound_in table.old v)
        (bound_at place v side.now fact.now) }
{
    if let Some(variable) = bounded_variable(fact.factors.as_slice(), side) {
        if (variable as usize) < table.len() {
            let own = own_bound(place, fact);
            let tight = tighter_bound(bound_of(table.as_slice(), variable), Some(own));
            let _ = table.replace(variable as usize, tight);
        }
    }
}

/// The tightest bound of each variable from one side.
fn bounds_from(
    alloc: Global,
    facts: &[Fact],
    count: u32,
    side: &i128,
) -> Result<Seq<Option<Bound>>, AllocError>
    requires { length facts.now < 2 ^ 62 }
    ensures bounds { IfOk result (AreBounds count side.now facts.now) }
    ensures numbers { IfOk result AreBoundPlaces }
{
    let mut table = Seq::new(alloc);
    'variables: for _ in 0..count {
        table.push(None)?;
    }
    for (place, fact) in facts.iter().enumerate() {
        tighten(&mut table, side, place, fact);
    }
    Ok(table)
}

/// The tightest bounds of all variables.
#[derive(Drop)]
pub struct Bounds {
    pub lows: Seq<Option<Bound>>,
    pub highs: Seq<Option<Bound>>,
}

/// The tightest bounds that facts give.
pub fn bounds_of(alloc: Global, facts: &[Fact], count: u32) -> Result<Bounds, AllocError>
    requires { length facts.now < 2 ^ 62 }
    ensures { IfOk result (BoundsTell count facts.now) }
{
    Ok(Bounds {
        lows: bounds_from(alloc, facts, count, &1)?,
        highs: bounds_from(alloc, facts, count, &-1)?,
    })
}

/// The products of factors with their variables' tightest bounds: their sum, and the sum of their
/// absolute values, which is at most 2^126.
#[derive(Clone, Copy)]
struct Sum {
    value: i128,
    load: u128,
}

/// A factor's absolute value. `None` exactly where it is past 2^62.
fn multiplier(factor: &i128) -> Option<i64>
    ensures { MatchOption result
        (is_plain_number factor.now ≡ false)
        (λ m. (m ≡ pos (unsigned_abs factor.now)) × (is_plain_number factor.now ≡ true)) }
{
    let times = factor.unsigned_abs();
    if times <= 1 << 62 {
        Some(times as i64)
    } else {
        None
    }
}

/// A sum with one product more. `None` exactly where it refutes no fact.
fn sum_with(factor: &i128, bound: Option<Bound>, sum: &Sum) -> Option<Sum>
    requires load { sum.now.load ≤ 2 ^ 126 }
    requires value { unsigned_abs sum.now.value ≤ sum.now.load }
    ensures { MatchOption result
        (is_lost (total_with factor.now bound (Some (light_total sum.now))) ≡ true)
        (IsNextSum factor.now bound sum.now) }
{
    let b = bound?;
    let by = small_product(multiplier(factor)?, b.constant)?;
    let load = by.unsigned_abs() + sum.load;
    if load <= 1 << 126 {
        Some(Sum {
            value: by + sum.value,
            load,
        })
    } else {
        None
    }
}

/// The bound that limits a factor's product from above.
fn bound_against(bounds: &Bounds, variable: u32, factor: &i128) -> Option<Bound>
    ensures { result ≡ against bounds.now variable factor.now }
{
    if *factor < 0 {
        bound_of(bounds.lows.as_slice(), variable)
    } else {
        bound_of(bounds.highs.as_slice(), variable)
    }
}

/// A sum with the product of one factor more. `None` exactly where it refutes no fact.
fn next_sum(bounds: &Bounds, factor: &(u32, i128), sum: &Sum) -> Option<Sum>
    requires load { sum.now.load ≤ 2 ^ 126 }
    requires value { unsigned_abs sum.now.value ≤ sum.now.load }
    ensures { MatchOption result
        (is_lost (total_with factor.now.1 (against bounds.now factor.now.0 factor.now.1) (Some (light_total sum.now))) ≡
        true)
        (IsNextSum factor.now.1 (against bounds.now factor.now.0 factor.now.1) sum.now) }
{
    sum_with(&factor.1, bound_against(bounds, factor.0, &factor.1), sum)
}

/// The sum of the products of factors with their variables' tightest bounds. `None` exactly where it
/// refutes no fact.
fn sum_of(bounds: &Bounds, factors: &[(u32, i128)]) -> Option<Sum>
    ensures { MatchOption result
        (is_lost (total_in bounds.now factors.now) ≡ true)
        (λ s. (total_in bounds.now factors.now ≡ Some (light_total s)) × (s.load ≤ 2 ^ 126) ×
        (unsigned_abs s.value ≤ s.load)) }
{
    let mut sum = Sum { value: 0, load: 0 };
    let mut left = factors.len();
    'factors: while left > 0 {
        left -= 1;
        match next_sum(bounds, &factors[left], &sum) {
            Some(next) => sum = next,
            None => return None,
        }
    }
    Some(sum)
}

/// Whether a fact with this constant and sum of products is negative at all values within the bounds.
fn is_negative(constant: &i128, sum: &Sum) -> bool
    requires load { sum.now.load ≤ 2 ^ 126 }
    requires value { unsigned_abs sum.now.value ≤ sum.now.load }
    ensures { result ≡ is_refuted_by constant.now (Some (light_total sum.now)) }
{
    let size = constant.unsigned_abs();
    size <= 1 << 126 && size + sum.load <= 1 << 126 && constant + sum.value < 0
}

/// Whether the bounds refute a fact.
fn is_refuted(bounds: &Bounds, fact: &Fact) -> bool
    ensures { result ≡ is_refuted_by fact.now.constant (total_in bounds.now fact.now.factors) }
{
    match sum_of(bounds, fact.factors.as_slice()) {
        Some(sum) => is_negative(&fact.constant, &sum),
        None => false,
    }
}

/// The first fact that the bounds refute. `None` exactly where they refute none.
pub fn first_refuted(bounds: &Bounds, facts: &[Fact]) -> Option<usize>
    ensures { MatchOption result
        (list_any (is_refuted_in bounds.now) facts.now ≡ false)
        (λ n. IsAt (is_refuted_in bounds.now) facts.now n) }
{
    for (place, fact) in facts.iter().enumerate() {
        if is_refuted(bounds, fact) {
            return Some(place);
        }
    }
    None
}

/// The pair of a factor's bound, if there is a bound.
fn pair_against(factor: &i128, bound: Option<Bound>) -> Option<(i64, u64)>
    requires factor { IsTrue (is_plain_number factor.now) }
    requires number { IfSome bound (λ b. b.place < 2 ^ 64 - 1) }
    ensures { pairs_of result ≡ pair_for factor.now bound }
{
    match bound {
        Some(b) => Some((factor.unsigned_abs() as i64, b.place as u64 + 1)),
        None => None,
    }
}

/// The pairs of a fact and of the bounds of its variables.
pub fn pairs_against(
    alloc: Global,
    bounds: &Bounds,
    number: u64,
    fact: &Fact,
) -> Result<Seq<(i64, u64)>, AllocError>
    requires lows { AreBoundPlaces bounds.now.lows }
    requires highs { AreBoundPlaces bounds.now.highs }
    requires plain { list_all is_plain_factor fact.now.factors ≡ true }
    ensures { IfOk result (λ ps. ps ≡ (pos 1, number) ∷ pairs_in bounds.now fact.now.factors) }
{
    let mut pairs = Seq::new(alloc);
    pairs.push((1, number))?;
    for (variable, factor) in fact.factors.as_slice() {
        if let Some(pair) = pair_against(factor, bound_against(bounds, *variable, factor)) {
            pairs.push(pair)?;
        }
    }
    Ok(pairs)
}
