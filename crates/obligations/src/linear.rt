//! Linear forms of terms, and facts made of them.
ghost use Rattle.std.specs.Prelude.{
  ◌≡◌,
  true,
  not,
  take,
  drop,
  slice_index_or,
  ◌+◌,
  ◌*◌,
  ◌^◌,
  ◌≤◌,
  ◌<◌,
  ◌++◌,
  ◌∷◌,
  [],
  length,
  neg_ℤ,
  negsuc,
  pos,
  ◌+ℤ◌,
  ◌*ℤ◌,
  OnOk,
  IfOk,
  MatchOption,
  IfSome,
};
ghost use Rattle.std.specs.Int.RustNames.{unsigned_abs};
ghost use Rattle.std.specs.List.{list_all};
ghost use Rattle.core_terms.specs.Values.{number_at};
ghost use Rattle.obligations.specs.LinearForms.{is_named, place_of, add_at, zeros, sparse, line_of_const, line_plus};
ghost use Rattle.obligations.specs.LinearForms.{linear, negated, fact_of};
ghost use Rattle.obligations.specs.Load.{sizes, norm, term_load};
ghost use Rattle.obligations.specs.Obligations.{is_lower, are_in_order};
ghost use Rattle.obligations.specs.declared.branches.Variable.{Variable};

use crate::branches::{Fact, Line, Variable};
use crate::factors::Factors;
use crate::small::small_product;
use core_terms::CTerm;
use core_terms::from_unity_base::Seq;
use std::alloc::{AllocError, Global};

/// Whether a variable stands before the slot or the parameter of this number.
fn is_lower(v: &Variable, param: bool, number: u32) -> bool
    ensures { result ≡ is_lower v.now.param v.now.number param number }
{
    if v.param == param {
        v.number < number
    } else {
        param
    }
}

/// How many variables stand before the slot or the parameter of this number.
fn count_lower(vs: &[Variable], param: bool, number: u32) -> usize
    requires { are_in_order vs.now ≡ true }
    ensures bound { result ≤ length vs.now }
    ensures before { list_all (λ v. is_lower v.param v.number param number) (take result vs.now) ≡ true }
    ensures after { list_all (λ v. not (is_lower v.param v.number param number)) (drop result vs.now) ≡ true }
{
    let mut low = 0;
    let mut high = vs.len();
    'halves: while low < high {
        let middle = low + (high - low) / 2;
        if is_lower(&vs[middle], param, number) {
            low = middle + 1;
        } else {
            high = middle;
        }
    }
    low
}

/// Whether the variable at a place is the slot or the parameter of this number.
fn is_at(vs: &[Variable], place: usize, param: bool, number: u32) -> bool
    requires { place < length vs.now }
    ensures { (d : Variable) → result ≡ is_named (slice_index_or vs.now place d) param number }
{
    let v = vs[place];
    v.param == param && v.number == number
}

/// The place of a slot or parameter among the variables, found by halves, and their number where it
/// isn't there.
fn find(vs: &[Variable], param: bool, number: u32) -> usize
    requires { are_in_order vs.now ≡ true }
    ensures { result ≡ place_of vs.now param number }
{
    let place = count_lower(vs, param, number);
    if place < vs.len() && is_at(vs, place, param, number) {
        place
    } else {
        vs.len()
    }
}

/// A sum that is known to be small.
fn sum_of_two(a: i128, b: i128) -> i128
    requires { unsigned_abs a + unsigned_abs b ≤ 2 ^ 126 }
    ensures { result ≡ a +ℤ b }
{
    a + b
}

/// A product that is known to be small.
fn product_of_two(a: i128, b: i64) -> i128
    requires { unsigned_abs a * unsigned_abs b ≤ 2 ^ 126 }
    ensures { result ≡ a *ℤ b }
{
    a * b as i128
}

/// A factor times a term's own factor. `None` exactly where it is past 2^126.
fn scaled(k: &i64, factor: i128) -> Option<i128>
    ensures value { MatchOption result (2 ^ 126 < unsigned_abs (k.now *ℤ factor)) (λ x. x ≡ k.now *ℤ factor) }
    ensures size { IfSome result (λ x. unsigned_abs x ≡ unsigned_abs k.now * unsigned_abs factor) }
    ensures small { IfSome result (λ x. unsigned_abs x ≤ 2 ^ 126) }
{
    small_product(*k, factor)
}

/// The number at a place, and 0 where there is none.
#[inline(always)]
pub fn factor_at(factors: &Seq<i128>, place: usize) -> i128
    ensures { result ≡ number_at factors.now place }
{
    match factors.as_slice().get(place) {
        Some(z) => *z,
        None => 0,
    }
}

/// Puts the number at a place that a sum there gave. Where there is no such place, nothing is put.
pub fn put_total(factors: &mut Seq<i128>, place: usize, by: &i128, total: i128)
    requires { total ≡ number_at factors.old place +ℤ by.now }
    ensures { factors.new ≡ add_at factors.old place by.now }
{
    if place < factors.len() {
        let _ = factors.replace(place, total);
    }
}

/// Adds a number at a place, where there is one.
#[tactic(auto, using(crate::proofs::LinearLaws::add_at_laws))]
fn add_factor(factors: &mut Seq<i128>, place: usize, by: &i128)
    requires { sizes factors.old + unsigned_abs by.now ≤ 2 ^ 126 }
    ensures { factors.new ≡ add_at factors.old place by.now }
{
    let total = sum_of_two(factor_at(factors, place), *by);
    put_total(factors, place, by, total);
}

/// Adds a variable's multiple.
#[inline(never)]
fn add_variable(vs: &[Variable], param: bool, number: u32, factor: i128, sum: &mut Line)
    requires order { are_in_order vs.now ≡ true }
    requires room { norm sum.old + unsigned_abs factor ≤ 2 ^ 126 }
    ensures factors { sum.new.factors ≡ add_at sum.old.factors (place_of vs.now param number) factor }
    ensures constant { sum.new.constant ≡ sum.old.constant }
{
    add_factor(&mut sum.factors, find(vs, param, number), &factor);
}

/// Adds a multiple of a number.
fn add_constant(c: &i64, factor: i128, sum: &mut Line)
    requires { norm sum.old + unsigned_abs factor * unsigned_abs c.now ≤ 2 ^ 126 }
    ensures factors { sum.new.factors ≡ sum.old.factors }
    ensures constant { sum.new.constant ≡ sum.old.constant +ℤ factor *ℤ c.now }
{
    sum.constant = sum_of_two(sum.constant, product_of_two(factor, *c));
}

fn opposite(z: i128) -> i128
    requires { unsigned_abs z ≤ 2 ^ 126 }
    ensures value { result ≡ neg_ℤ z }
    ensures size { unsigned_abs result ≡ unsigned_abs z }
{
    -z
}

/// Adds a multiple of a term's linear form to a sum. A term of load 0 has the linear form 0, however
/// great its factor would be. The factor is passed as a value, so that signs as deep as a formula may be take no stack:
/// nothing is left to do after the last call.
fn add_term(vs: &[Variable], t: &CTerm, factor: i128, sum: &mut Line)
    requires order { are_in_order vs.now ≡ true }
    requires size { length sum.old.factors ≡ length vs.now }
    requires factor { unsigned_abs factor ≤ 2 ^ 126 }
    requires room { norm sum.old + unsigned_abs factor * (term_load t.now).own ≤ 2 ^ 126 }
    ensures sum { sum.new ≡ line_plus factor sum.old (linear vs.now t.now) }
    ensures size { length sum.new.factors ≡ length vs.now }
{
    match t {
        CTerm::Const(c) => add_constant(c, factor, sum),
        CTerm::Slot(n) => add_variable(vs, false, *n, factor, sum),
        CTerm::Param(n) => add_variable(vs, true, *n, factor, sum),
        CTerm::Add(a, b) => {
            add_term(vs, a.get(), factor, sum);
            add_term(vs, b.get(), factor, sum);
        }
        CTerm::Sub(a, b) => {
            add_term(vs, a.get(), factor, sum);
            add_term(vs, b.get(), opposite(factor), sum);
        }
        CTerm::Scale(k, a) => {
            if let Some(product) = scaled(k, factor) {
                add_term(vs, a.get(), product, sum);
            }
        }
        CTerm::Div(..) => {}
        CTerm::Mod(..) => {}
        CTerm::Ite(..) => {}
    }
}

/// The linear form that is 0.
#[tactic(auto, using(crate::proofs::LinearLaws::zeros_laws))]
pub fn zero_line(alloc: Global, vs: &[Variable]) -> Result<Line, AllocError>
    ensures { IfOk result (λ l. l ≡ line_of_const vs.now (pos 0)) }
{
    let mut factors = Seq::new(alloc);
    'places: for _ in vs {
        factors.push(0)?;
    }
    Ok(Line {
        factors,
        constant: 0,
    })
}

/// A term's linear form.
#[tactic(auto, using(crate::proofs::LinearLaws::line_laws))]
pub fn line_of(alloc: Global, vs: &[Variable], t: &CTerm) -> Result<Line, AllocError>
    requires order { are_in_order vs.now ≡ true }
    requires load { (term_load t.now).own ≤ 2 ^ 126 }
    ensures line { IfOk result (λ l. l ≡ linear vs.now t.now) }
    ensures size { IfOk result (λ l. length l.factors ≡ length vs.now) }
{
    let mut sum = zero_line(alloc, vs)?;
    add_term(vs, t, 1, &mut sum);
    Ok(sum)
}

/// A term's linear form with all signs turned.
#[tactic(auto, using(crate::proofs::LinearLaws::line_laws))]
pub fn negative_of(alloc: Global, vs: &[Variable], t: &CTerm) -> Result<Line, AllocError>
    requires order { are_in_order vs.now ≡ true }
    requires load { (term_load t.now).own ≤ 2 ^ 126 }
    ensures line { IfOk result (λ l. l ≡ negated vs.now (linear vs.now t.now)) }
    ensures size { IfOk result (λ l. length l.factors ≡ length vs.now) }
{
    let mut sum = zero_line(alloc, vs)?;
    add_term(vs, t, -1, &mut sum);
    Ok(sum)
}

/// Puts a factor with its place, where it is not 0.
fn put_factor(place: u32, z: &i128, factors: &mut Factors) -> Result<(), AllocError>
    ensures { OnOk result (factors.new ≡ factors.old ++ sparse place (z.now ∷ [])) }
{
    if *z == 0 {
        Ok(())
    } else {
        factors.push((place, *z))
    }
}

#[tactic(auto, using(crate::proofs::LinearLaws::sparse_laws))]
fn sparse_factors(alloc: Global, zs: &[i128]) -> Result<Factors, AllocError>
    requires { length zs.now < 2 ^ 32 }
    ensures { IfOk result (λ f. f ≡ sparse 0 zs.now) }
{
    let mut factors = Factors::new(alloc);
    for (place, z) in zs.iter().enumerate() {
        put_factor(place as u32, z, &mut factors)?;
    }
    Ok(factors)
}

/// That a linear form is at least 0.
pub fn fact_from(alloc: Global, line: &Line) -> Result<Fact, AllocError>
    requires { length line.now.factors < 2 ^ 32 }
    ensures { IfOk result (λ f. f ≡ fact_of line.now) }
{
    Ok(Fact {
        factors: sparse_factors(alloc, line.factors.as_slice())?,
        constant: line.constant,
    })
}
