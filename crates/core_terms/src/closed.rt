// What a tree without slot and parameter is worth.
ghost use Rattle.std.specs.Prelude.{◌≡◌, ◌+◌, ◌*◌, ◌^◌, ◌≤◌, ◌+ℤ◌, ◌-ℤ◌, ◌*ℤ◌, MatchOption, max};
ghost use Rattle.std.specs.Option.{is_some, option_map};
ghost use Rattle.std.specs.Int.RustNames.{unsigned_abs};
ghost use Rattle.meaning_states.specs.Division.{divisor, floored, rest_of};
ghost use Rattle.core_terms.specs.Weights.{plain_weights, plain_weight, sum_weights, multiple_weights, choice_weights};
ghost use Rattle.core_terms.specs.Weights.{quotient_weights, remainder_weights};
ghost use Rattle.core_terms.specs.Folding as fold;

use crate::trees::{CForm, CTerm};
use unity_base::Shared;

/// The value of a term that has no slot and no parameter; `None` where one is named.
// Most terms name one, and that is told within a small part of the stack.
#[tactic(auto, using(crate::proofs::ClosedLaws::none_left))]
pub fn number_of(t: &CTerm) -> Option<i128>
    requires { (plain_weights t.now).most ≤ 2 ^ 126 }
    ensures value { result ≡ fold.number_of t.now }
    ensures bound { MatchOption result (Unit {0}) (λ z. unsigned_abs z ≤ (plain_weights t.now).own) }
{
    if has_number(t) { found_number(t) } else { None }
}

/// The truth of a formula that has no slot and no parameter; `None` where one is named.
#[tactic(auto, using(crate::proofs::ClosedLaws::none_left))]
pub fn truth_of(f: &CForm) -> Option<bool>
    requires { plain_weight f.now ≤ 2 ^ 126 }
    ensures { result ≡ fold.truth_of f.now }
{
    if has_truth(f) { found_truth(f) } else { None }
}

// Whether a term has no slot and no parameter, and so a number. The last part is looked at first, since it mostly
// tells that there is none; the first part is then gone down without a frame.
#[cycle(closed)]
#[tactic(auto, using(crate::proofs::ClosedLaws::there))]
fn has_number(t: &CTerm) -> bool
    ensures { result ≡ is_some (fold.number_of t.now) }
{
    match t {
        CTerm::Const(_) => true,
        CTerm::Slot(_) => false,
        CTerm::Param(_) => false,
        CTerm::Add(a, b) => has_number(b.get()) && has_number(a.get()),
        CTerm::Sub(a, b) => has_number(b.get()) && has_number(a.get()),
        CTerm::Scale(_, a) => has_number(a.get()),
        CTerm::Div(a, _) => has_number(a.get()),
        CTerm::Mod(a, _) => has_number(a.get()),
        CTerm::Ite(c, a, b) => has_number(b.get()) && has_number(a.get()) && has_truth(c.get()),
    }
}

// Whether a formula has no slot and no parameter, and so a truth.
#[cycle(closed)]
#[tactic(auto, using(crate::proofs::ClosedLaws::there))]
fn has_truth(f: &CForm) -> bool
    ensures { result ≡ is_some (fold.truth_of f.now) }
{
    match f {
        CForm::Top => true,
        CForm::Bottom => true,
        CForm::AtLeast(t) => has_number(t),
        CForm::Zero(t) => has_number(t),
        CForm::Not(g) => has_truth(g.get()),
        CForm::And(g, h) => has_truth(h.get()) && has_truth(g.get()),
        CForm::Or(g, h) => has_truth(h.get()) && has_truth(g.get()),
    }
}

// The value of a term. Nodes have functions of their own, so that the frames are small.
#[cycle(known)]
fn found_number(t: &CTerm) -> Option<i128>
    requires { (plain_weights t.now).most ≤ 2 ^ 126 }
    ensures value { result ≡ fold.number_of t.now }
    ensures bound { MatchOption result (Unit {0}) (λ z. unsigned_abs z ≤ (plain_weights t.now).own) }
{
    match t {
        CTerm::Const(c) => Some(*c as i128),
        CTerm::Slot(_) => None,
        CTerm::Param(_) => None,
        CTerm::Add(a, b) => known_sum(a, b),
        CTerm::Sub(a, b) => known_difference(a, b),
        CTerm::Scale(k, a) => known_multiple(*k, a),
        CTerm::Div(a, k) => known_quotient(*k, a),
        CTerm::Mod(a, k) => known_remainder(*k, a),
        CTerm::Ite(c, a, b) => known_choice(c, a, b),
    }
}

#[cycle(known)]
#[inline(never)]
fn known_sum(a: &Shared<CTerm>, b: &Shared<CTerm>) -> Option<i128>
    requires { (sum_weights (plain_weights a.now) (plain_weights b.now)).most ≤ 2 ^ 126 }
    ensures value { result ≡ fold.joined (λ x y. x +ℤ y) (fold.number_of a.now) (fold.number_of b.now) }
    ensures bound { MatchOption result (Unit {0}) (λ z. unsigned_abs z ≤
        (plain_weights a.now).own + (plain_weights b.now).own) }
{
    let second = found_number(b.get())?;
    Some(found_number(a.get())? + second)
}

#[cycle(known)]
#[inline(never)]
fn known_difference(a: &Shared<CTerm>, b: &Shared<CTerm>) -> Option<i128>
    requires { (sum_weights (plain_weights a.now) (plain_weights b.now)).most ≤ 2 ^ 126 }
    ensures value { result ≡ fold.joined (λ x y. x -ℤ y) (fold.number_of a.now) (fold.number_of b.now) }
    ensures bound { MatchOption result (Unit {0}) (λ z. unsigned_abs z ≤
        (plain_weights a.now).own + (plain_weights b.now).own) }
{
    let second = found_number(b.get())?;
    Some(found_number(a.get())? - second)
}

#[cycle(known)]
#[inline(never)]
fn known_multiple(k: i64, a: &Shared<CTerm>) -> Option<i128>
    requires { (multiple_weights k (plain_weights a.now)).most ≤ 2 ^ 126 }
    ensures value { result ≡ option_map (λ x. k *ℤ x) (fold.number_of a.now) }
    ensures bound { MatchOption result (Unit {0}) (λ z. unsigned_abs z ≤ unsigned_abs k * (plain_weights a.now).own) }
{
    Some(scaled(k, found_number(a.get())?))
}

#[cycle(known)]
#[inline(never)]
fn known_quotient(k: i64, a: &Shared<CTerm>) -> Option<i128>
    requires { (quotient_weights k (plain_weights a.now)).most ≤ 2 ^ 126 }
    ensures value { result ≡ option_map (λ x. floored x k) (fold.number_of a.now) }
    ensures bound { MatchOption result (Unit {0}) (λ z. unsigned_abs z ≤ max 1 (plain_weights a.now).own) }
{
    Some(quotient(found_number(a.get())?, k))
}

#[cycle(known)]
#[inline(never)]
fn known_remainder(k: i64, a: &Shared<CTerm>) -> Option<i128>
    requires { (remainder_weights k (plain_weights a.now)).most ≤ 2 ^ 126 }
    ensures value { result ≡ option_map (λ x. rest_of x k) (fold.number_of a.now) }
    ensures bound { MatchOption result (Unit {0}) (λ z. unsigned_abs z ≤
        2 * (plain_weights a.now).own + unsigned_abs (divisor k)) }
{
    Some(remainder(found_number(a.get())?, k))
}

#[cycle(known)]
#[inline(never)]
fn known_choice(c: &Shared<CForm>, a: &Shared<CTerm>, b: &Shared<CTerm>) -> Option<i128>
    requires { (choice_weights (plain_weight c.now) (plain_weights a.now) (plain_weights b.now)).most ≤ 2 ^ 126 }
    ensures value { result ≡ fold.chosen (fold.truth_of c.now) (fold.number_of a.now) (fold.number_of b.now) }
    ensures bound { MatchOption result (Unit {0}) (λ z. unsigned_abs z ≤
        max (plain_weights a.now).own (plain_weights b.now).own) }
{
    let second = found_number(b.get())?;
    let first = found_number(a.get())?;
    Some(if found_truth(c.get())? { first } else { second })
}

#[cycle(known)]
fn found_truth(f: &CForm) -> Option<bool>
    requires { plain_weight f.now ≤ 2 ^ 126 }
    ensures { result ≡ fold.truth_of f.now }
{
    match f {
        CForm::Top => Some(true),
        CForm::Bottom => Some(false),
        CForm::AtLeast(t) => Some(found_number(t)? >= 0),
        CForm::Zero(t) => Some(found_number(t)? == 0),
        CForm::Not(g) => Some(!found_truth(g.get())?),
        CForm::And(g, h) => {
            let second = found_truth(h.get())?;
            Some(found_truth(g.get())? && second)
        }
        CForm::Or(g, h) => {
            let second = found_truth(h.get())?;
            Some(found_truth(g.get())? || second)
        }
    }
}

/// So many times a number.
pub fn scaled(k: i64, number: i128) -> i128
    requires { unsigned_abs k * unsigned_abs number ≤ 2 ^ 126 }
    ensures value { result ≡ k *ℤ number }
    ensures bound { unsigned_abs result ≡ unsigned_abs k * unsigned_abs number }
{
    k as i128 * number
}

/// A number divided by another, rounded down; by 1 where the other is less.
pub fn quotient(number: i128, k: i64) -> i128
    ensures value { result ≡ floored number k }
    ensures bound { unsigned_abs result ≤ max 1 (unsigned_abs number) }
{
    number.div_euclid(i128::from(k.max(1)))
}

/// What that division leaves of the number.
pub fn remainder(number: i128, k: i64) -> i128
    ensures value { result ≡ rest_of number k }
    ensures bound { unsigned_abs result ≤ 2 * unsigned_abs number + unsigned_abs (divisor k) }
{
    number.rem_euclid(i128::from(k.max(1)))
}
