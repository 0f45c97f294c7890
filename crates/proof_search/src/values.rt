//! Whether a formula is false at values of its variables.
ghost use Rattle.std.specs.Prelude.{◌≡◌, ◌<◌, ◌+ℤ◌, ◌-ℤ◌, ◌*ℤ◌, true, false, IfSome, OnOk, FitsSigned};
ghost use Rattle.std.specs.Prelude.{length};
ghost use Rattle.std.specs.Int.{w128};
ghost use Rattle.core_terms.specs.declared.trees.CForm.TheOpen.{CForm-F};
ghost use Rattle.core_terms.specs.declared.trees.CTerm.TheVariants as term;
ghost use Rattle.core_terms.specs.declared.trees.CForm.TheVariants as form;
ghost use Rattle.core_terms.specs.Values.{number_at, form_step};
ghost use Rattle.obligations.specs.LinearForms.{is_named, place_of};
ghost use Rattle.obligations.specs.Opening.{in_ranges};
ghost use Rattle.obligations.specs.Settling as settling;

use core_terms::{CForm, CTerm, quotient, remainder};
use obligations::Variable;
use unity_base::Shared;

/// The value at a place, and 0 where there is none.
fn value_at(values: &[i64], place: usize) -> i128
    ensures { result ≡ number_at values.now place }
{
    match values.get(place) {
        Some(z) => i128::from(*z),
        None => 0,
    }
}

/// Whether a variable is the slot or the parameter of this number.
fn is_named(v: &Variable, param: bool, number: u32) -> bool
    ensures { result ≡ is_named v.now param number }
{
    v.param == param && v.number == number
}

/// The value of a slot or a parameter.
fn value_of(vs: &[Variable], values: &[i64], param: bool, number: u32) -> i128
    ensures { result ≡ number_at values.now (place_of vs.now param number) }
{
    for (place, v) in vs.iter().enumerate() {
        if is_named(v, param, number) {
            return value_at(values, place);
        }
    }
    value_at(values, vs.len())
}

/// That a number is too great.
#[derive(Clone, Copy)]
struct TooGreat;

/// The variables of an obligation, and values of them.
#[derive(Clone, Copy)]
struct Values<'a> {
    vs: &'a [Variable],
    values: &'a [i64],
}

/// Adds a number to another.
#[inline(never)]
fn add(number: &i128, value: &mut i128) -> Result<(), TooGreat>
    ensures fits { OnOk result (FitsSigned w128 value.new) }
    ensures value { OnOk result (value.new ≡ value.old +ℤ number.now) }
{
    match value.checked_add(*number) {
        Some(sum) => {
            *value = sum;
            Ok(())
        }
        None => Err(TooGreat),
    }
}

/// Takes a number from another.
#[inline(never)]
fn subtract(number: &i128, value: &mut i128) -> Result<(), TooGreat>
    ensures fits { OnOk result (FitsSigned w128 value.new) }
    ensures value { OnOk result (value.new ≡ value.old -ℤ number.now) }
{
    match value.checked_sub(*number) {
        Some(difference) => {
            *value = difference;
            Ok(())
        }
        None => Err(TooGreat),
    }
}

/// Multiplies a number.
#[inline(never)]
fn multiply(k: i64, value: &mut i128) -> Result<(), TooGreat>
    ensures fits { OnOk result (FitsSigned w128 value.new) }
    ensures value { OnOk result (value.new ≡ k *ℤ value.old) }
{
    match i128::from(k).checked_mul(*value) {
        Some(product) => {
            *value = product;
            Ok(())
        }
        None => Err(TooGreat),
    }
}

/// Whether a number is at least 0.
fn is_least(number: &i128) -> bool
    ensures { result ≡ form_step (CForm-F.AtLeast number.now) }
{
    *number >= 0
}

/// Whether a number is 0.
fn is_zero(number: &i128) -> bool
    ensures { result ≡ form_step (CForm-F.Zero number.now) }
{
    *number == 0
}

/// The value of a term. Each kind of node has a function of its own, which writes the value where it is wanted: so the
/// frames are small, and the deepest term is within a small stack.
#[cycle(evaluating)]
fn term_at(at: &Values, t: &CTerm, value: &mut i128) -> Result<(), TooGreat>
    ensures fits { OnOk result (FitsSigned w128 value.new) }
    ensures value { OnOk result (value.new ≡ settling.term_at at.now.vs.now at.now.values.now t.now) }
{
    match t {
        CTerm::Const(c) => {
            *value = i128::from(*c);
            Ok(())
        }
        CTerm::Slot(n) => {
            *value = value_of(at.vs, at.values, false, *n);
            Ok(())
        }
        CTerm::Param(n) => {
            *value = value_of(at.vs, at.values, true, *n);
            Ok(())
        }
        CTerm::Add(a, b) => sum_at(at, a, b, value),
        CTerm::Sub(a, b) => difference_at(at, a, b, value),
        CTerm::Scale(k, a) => multiple_at(at, *k, a, value),
        CTerm::Div(a, k) => quotient_at(at, a, *k, value),
        CTerm::Mod(a, k) => remainder_at(at, a, *k, value),
        CTerm::Ite(c, a, b) => choice_at(at, c, a, b, value),
    }
}

/// The values of two terms: the first where it is wanted, and the second beside it.
#[cycle(evaluating)]
#[inline(never)]
fn terms_at(
    at: &Values,
    a: &Shared<CTerm>,
    b: &Shared<CTerm>,
    value: &mut i128,
    number: &mut i128,
) -> Result<(), TooGreat>
    ensures first_fits { OnOk result (FitsSigned w128 value.new) }
    ensures first { OnOk result (value.new ≡ settling.term_at at.now.vs.now at.now.values.now a.now) }
    ensures second_fits { OnOk result (FitsSigned w128 number.new) }
    ensures second { OnOk result (number.new ≡ settling.term_at at.now.vs.now at.now.values.now b.now) }
{
    match term_at(at, a.get(), value) {
        Ok(()) => term_at(at, b.get(), number),
        Err(error) => Err(error),
    }
}

/// The value of a sum.
#[cycle(evaluating)]
#[inline(never)]
fn sum_at(
    at: &Values,
    a: &Shared<CTerm>,
    b: &Shared<CTerm>,
    value: &mut i128,
) -> Result<(), TooGreat>
    ensures fits { OnOk result (FitsSigned w128 value.new) }
    ensures value { OnOk result (value.new ≡ settling.term_at at.now.vs.now at.now.values.now (term.Add a.now b.now)) }
{
    let mut number = 0;
    match terms_at(at, a, b, value, &mut number) {
        Ok(()) => add(&number, value),
        Err(error) => Err(error),
    }
}

/// The value of a difference.
#[cycle(evaluating)]
#[inline(never)]
fn difference_at(
    at: &Values,
    a: &Shared<CTerm>,
    b: &Shared<CTerm>,
    value: &mut i128,
) -> Result<(), TooGreat>
    ensures fits { OnOk result (FitsSigned w128 value.new) }
    ensures value { OnOk result (value.new ≡ settling.term_at at.now.vs.now at.now.values.now (term.Sub a.now b.now)) }
{
    let mut number = 0;
    match terms_at(at, a, b, value, &mut number) {
        Ok(()) => subtract(&number, value),
        Err(error) => Err(error),
    }
}

/// The value of a multiple.
#[cycle(evaluating)]
#[inline(never)]
fn multiple_at(at: &Values, k: i64, a: &Shared<CTerm>, value: &mut i128) -> Result<(), TooGreat>
    ensures fits { OnOk result (FitsSigned w128 value.new) }
    ensures value { OnOk result (value.new ≡ settling.term_at at.now.vs.now at.now.values.now (term.Scale k a.now)) }
{
    match term_at(at, a.get(), value) {
        Ok(()) => multiply(k, value),
        Err(error) => Err(error),
    }
}

/// The value of a quotient.
#[cycle(evaluating)]
#[inline(never)]
fn quotient_at(at: &Values, a: &Shared<CTerm>, k: i64, value: &mut i128) -> Result<(), TooGreat>
    ensures fits { OnOk result (FitsSigned w128 value.new) }
    ensures value { OnOk result (value.new ≡ settling.term_at at.now.vs.now at.now.values.now (term.Div a.now k)) }
{
    match term_at(at, a.get(), value) {
        Ok(()) => {
            *value = quotient(*value, k);
            Ok(())
        }
        Err(error) => Err(error),
    }
}

/// The value of what a division leaves.
#[cycle(evaluating)]
#[inline(never)]
fn remainder_at(at: &Values, a: &Shared<CTerm>, k: i64, value: &mut i128) -> Result<(), TooGreat>
    ensures fits { OnOk result (FitsSigned w128 value.new) }
    ensures value { OnOk result (value.new ≡ settling.term_at at.now.vs.now at.now.values.now (term.Mod a.now k)) }
{
    match term_at(at, a.get(), value) {
        Ok(()) => {
            *value = remainder(*value, k);
            Ok(())
        }
        Err(error) => Err(error),
    }
}

/// The value of one of two terms.
#[cycle(evaluating)]
#[inline(never)]
fn choice_at(
    at: &Values,
    c: &Shared<CForm>,
    a: &Shared<CTerm>,
    b: &Shared<CTerm>,
    value: &mut i128,
) -> Result<(), TooGreat>
    ensures fits { OnOk result (FitsSigned w128 value.new) }
    ensures value { OnOk result (value.new ≡
        settling.term_at at.now.vs.now at.now.values.now (term.Ite c.now a.now b.now)) }
{
    match truth_at(at, c.get()) {
        Some(true) => term_at(at, a.get(), value),
        Some(false) => term_at(at, b.get(), value),
        None => Err(TooGreat),
    }
}

/// The truth of a formula. `None` where a number is too great.
#[cycle(evaluating)]
fn truth_at(at: &Values, f: &CForm) -> Option<bool>
    ensures { IfSome result (λ b. b ≡ settling.form_at at.now.vs.now at.now.values.now f.now) }
{
    match f {
        CForm::Top => Some(true),
        CForm::Bottom => Some(false),
        CForm::AtLeast(t) => least_at(at, t),
        CForm::Zero(t) => zero_at(at, t),
        CForm::Not(g) => not_at(at, g),
        CForm::And(g, h) => both_at(at, g, h),
        CForm::Or(g, h) => either_at(at, g, h),
    }
}

/// Whether a term is at least 0.
#[cycle(evaluating)]
#[inline(never)]
fn least_at(at: &Values, t: &CTerm) -> Option<bool>
    ensures { IfSome result (λ b. b ≡ settling.form_at at.now.vs.now at.now.values.now (form.AtLeast t.now)) }
{
    let mut number = 0;
    match term_at(at, t, &mut number) {
        Ok(()) => Some(is_least(&number)),
        Err(_) => None,
    }
}

/// Whether a term is 0.
#[cycle(evaluating)]
#[inline(never)]
fn zero_at(at: &Values, t: &CTerm) -> Option<bool>
    ensures { IfSome result (λ b. b ≡ settling.form_at at.now.vs.now at.now.values.now (form.Zero t.now)) }
{
    let mut number = 0;
    match term_at(at, t, &mut number) {
        Ok(()) => Some(is_zero(&number)),
        Err(_) => None,
    }
}

/// Whether a formula is false.
#[cycle(evaluating)]
#[inline(never)]
fn not_at(at: &Values, g: &Shared<CForm>) -> Option<bool>
    ensures { IfSome result (λ b. b ≡ settling.form_at at.now.vs.now at.now.values.now (form.Not g.now)) }
{
    match truth_at(at, g.get()) {
        Some(truth) => Some(!truth),
        None => None,
    }
}

/// Whether two formulas hold.
#[cycle(evaluating)]
#[inline(never)]
fn both_at(at: &Values, g: &Shared<CForm>, h: &Shared<CForm>) -> Option<bool>
    ensures { IfSome result (λ b. b ≡ settling.form_at at.now.vs.now at.now.values.now (form.And g.now h.now)) }
{
    match truth_at(at, g.get()) {
        Some(true) => truth_at(at, h.get()),
        Some(false) => Some(false),
        None => None,
    }
}

/// Whether one of two formulas holds.
#[cycle(evaluating)]
#[inline(never)]
fn either_at(at: &Values, g: &Shared<CForm>, h: &Shared<CForm>) -> Option<bool>
    ensures { IfSome result (λ b. b ≡ settling.form_at at.now.vs.now at.now.values.now (form.Or g.now h.now)) }
{
    match truth_at(at, g.get()) {
        Some(true) => Some(true),
        Some(false) => truth_at(at, h.get()),
        None => None,
    }
}

/// The truth of a formula. `None` where a number is too great.
pub fn form_at(vs: &[Variable], values: &[i64], f: &CForm) -> Option<bool>
    ensures { IfSome result (λ b. b ≡ settling.form_at vs.now values.now f.now) }
{
    truth_at(&Values { vs, values }, f)
}

/// Whether there is a value for each variable, and it is in the variable's range.
pub fn are_inside(vs: &[Variable], values: &[i64]) -> bool
    ensures { result ≡ true → in_ranges vs.now values.now ≡ true }
{
    if vs.len() != values.len() {
        return false;
    }
    for place in 0..vs.len() {
        let v = vs[place];
        let value = values[place];
        if value < v.range.lo || v.range.hi < value {
            return false;
        }
    }
    true
}
