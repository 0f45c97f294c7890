//! The points of a leaf: the values of its variables, each with the facts that bound it.
ghost use Rattle.std.specs.Prelude.{◌≡◌, ℕ, ◌+◌, ◌*◌, ◌≤◌, ◌<◌, ◌^◌, ◌∷◌, [], false, true, None, Some};
ghost use Rattle.std.specs.Prelude.{length, map, ◌*ℤ◌, ◌+ℤ◌, IfOk, IsTrue};
ghost use Rattle.std.specs.List.{list_all};
ghost use Rattle.std.specs.Int.RustNames.{unsigned_abs};
ghost use Rattle.core_terms.specs.Values.{number_at};
ghost use Rattle.obligations.specs.LinearForms.{sum_of};
ghost use Rattle.obligations.specs.Obligations.{is_sound_range};
ghost use Rattle.obligations.specs.Opening.{at_least, at_most};
ghost use Rattle.obligations.specs.Plain.{first_cut};
ghost use Rattle.obligations.specs.Reach.{is_within};
ghost use Rattle.certificate_rules.specs.Sums.{numbered};
ghost use Rattle.linear_prover.specs.Chains.{is_plain_number};
ghost use Rattle.search_tree.specs.Points.{values_in, pair_at, IsPoint, ArePoints};
ghost use Rattle.search_tree.specs.Searching.{Has, AreBounded, widths};

use crate::closing::numbered;
use core_terms::Range;
use obligations::Fact;
use std::alloc::{AllocError, Global};
use unity_base::Seq;

/// A variable's value, and the numbers of the facts that it is at least this and at most this.
#[derive(Clone, Copy)]
pub struct Point {
    pub value: i64,
    pub least: u64,
    pub most: u64,
}

/// Whether a fact bounds a variable alone, with this factor and this constant.
#[tactic(auto, using(crate::proofs::BoundLaws::is_bound_laws))]
fn is_bound(fact: &Fact, variable: u32, side: i128, constant: i128) -> bool
    ensures yes { result ≡ true → fact.now ≡ record { factors = (variable, side) ∷ []; constant = constant } }
    ensures no { result ≡ false → fact.now ≡ record { factors = (variable, side) ∷ []; constant = constant } → ⊥ }
{
    match fact.factors.as_slice() {
        [factor] => factor.0 == variable && factor.1 == side && fact.constant == constant,
        _ => false,
    }
}

/// The number of the fact that bounds a variable alone.
#[tactic(auto, using(crate::proofs::BoundLaws::bound_laws))]
fn bound_number(facts: &[Fact], variable: u32, side: i128, constant: i128) -> u64
    requires has { Has facts.now (record { factors = (variable, side) ∷ []; constant = constant }) }
    requires room { length facts.now < 2 ^ 62 }
    ensures { numbered facts.now result ≡ Some (record { factors = (variable, side) ∷ []; constant = constant }) }
{
    let mut index = 0;
    'facts: while index < facts.len() {
        if is_bound(&facts[index], variable, side, constant) {
            return index as u64 + 1;
        }
        index += 1;
    }
    unreachable!()
}

/// The value of a variable, and the numbers of the facts that say it.
fn point_of(facts: &[Fact], variable: u32, value: i64) -> Point
    requires least { Has facts.now (at_least variable value) }
    requires most { Has facts.now (at_most variable value) }
    requires room { length facts.now < 2 ^ 62 }
    ensures is { IsPoint facts.now variable result }
    ensures value { result.value ≡ value }
{
    Point {
        value,
        least: bound_number(facts, variable, 1, -(value as i128)),
        most: bound_number(facts, variable, -1, value as i128),
    }
}

/// The pair that takes a factor away.
pub fn pair_of(factor: &(u32, i128), points: &[Point]) -> (i64, u64)
    requires plain { IsTrue (is_plain_number factor.now.1) }
    requires place { factor.now.0 < length points.now }
    ensures { result ≡ pair_at points.now factor.now }
{
    let point = points[factor.0 as usize];
    let times = factor.1.unsigned_abs() as i64;
    if 0 <= factor.1 {
        (times, point.most)
    } else {
        (times, point.least)
    }
}

/// The value of a variable whose range has one, and the numbers of the facts that say it.
fn own_point(facts: &[Fact], variable: u32, range: &Range) -> Point
    requires least { Has facts.now (at_least variable range.now.lo) }
    requires most { Has facts.now (at_most variable range.now.lo) }
    requires room { length facts.now < 2 ^ 62 }
    ensures is { IsPoint facts.now variable result }
    ensures value { result.value ≡ range.now.lo }
{
    point_of(facts, variable, range.lo)
}

/// The values of the variables of ranges that have one value each.
#[tactic(auto, using(crate::proofs::BoundLaws::points_laws))]
pub fn points_of(alloc: Global, facts: &[Fact], ranges: &[Range]) -> Result<Seq<Point>, AllocError>
    requires few { length ranges.now < 2 ^ 32 }
    requires bounded { AreBounded 0 ranges.now facts.now }
    requires sound { list_all is_sound_range ranges.now ≡ true }
    requires fixed { first_cut 0 ranges.now ≡ None }
    requires room { length facts.now < 2 ^ 62 }
    ensures are { IfOk result (ArePoints facts.now 0) }
    ensures values { IfOk result (λ ps. values_in ps ≡ map (λ r. r.lo) ranges.now) }
{
    let mut points = Seq::new(alloc);
    let mut place = 0;
    'values: while place < ranges.len() {
        points.push(own_point(facts, place as u32, &ranges[place]))?;
        place += 1;
    }
    Ok(points)
}

/// The value of a variable.
#[tactic(auto, using(crate::proofs::BoundLaws::value_laws))]
fn value_of(points: &[Point], variable: u32) -> i128
    requires { variable < length points.now }
    ensures { result ≡ number_at (values_in points.now) variable }
{
    points[variable as usize].value as i128
}

/// A factor times its variable's value.
#[tactic(auto, using(crate::proofs::BoundLaws::product_laws))]
fn product_of(factor: &(u32, i128), points: &[Point]) -> i128
    requires place { factor.now.0 < length points.now }
    requires wide { unsigned_abs factor.now.1 ≤ 2 ^ 63 }
    requires tame { unsigned_abs (number_at (values_in points.now) factor.now.0) ≤ 2 ^ 62 }
    ensures is { result ≡ factor.now.1 *ℤ number_at (values_in points.now) factor.now.0 }
    ensures size { unsigned_abs result ≤ 2 ^ 125 }
{
    factor.1 * value_of(points, factor.0)
}

/// A sum with a product more.
#[tactic(auto, using(crate::proofs::BoundLaws::product_laws))]
fn with_product(factor: &(u32, i128), points: &[Point], sum: &i128) -> i128
    requires place { factor.now.0 < length points.now }
    requires wide { unsigned_abs factor.now.1 ≤ 2 ^ 63 }
    requires tame { unsigned_abs (number_at (values_in points.now) factor.now.0) ≤ 2 ^ 62 }
    requires small { unsigned_abs sum.now ≤ 2 ^ 125 }
    ensures { result ≡ factor.now.1 *ℤ number_at (values_in points.now) factor.now.0 +ℤ sum.now }
{
    product_of(factor, points) + *sum
}

/// The sum of factors times values.
#[tactic(auto, using(crate::proofs::BoundLaws::total_laws))]
pub fn sum_of_points(factors: &[(u32, i128)], points: &[Point]) -> i128
    requires known { is_within (length points.now) factors.now ≡ true }
    requires wide { widths factors.now ≤ 2 ^ 63 }
    requires tame { (p : ℕ) → unsigned_abs (number_at (values_in points.now) p) ≤ 2 ^ 62 }
    ensures is { result ≡ sum_of (values_in points.now) factors.now }
    ensures size { unsigned_abs result ≤ 2 ^ 125 }
{
    let mut sum = 0;
    let mut left = factors.len();
    'factors: while left > 0 {
        left -= 1;
        let next = with_product(&factors[left], points, &sum);
        sum = next;
    }
    sum
}
