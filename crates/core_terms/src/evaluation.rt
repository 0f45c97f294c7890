// The value of a term and the truth of a formula. Nodes of several parts have functions of their own, so that the
// frames are small.
ghost use Rattle.std.specs.Prelude.{◌≡◌, ◌+◌, ◌^◌, ◌*◌, ◌<◌, ◌≤◌, ◌+ℤ◌, ◌-ℤ◌, ◌*ℤ◌, cond, length, max};
ghost use Rattle.std.specs.Int.RustNames.{unsigned_abs};
ghost use Rattle.core_terms.specs.Values.{number_at, term_value, form_value};
ghost use Rattle.core_terms.specs.Weights.{sum_weights, term_weights, form_weight, number_weight};
ghost use Rattle.core_terms.specs.Places.{term_slots, form_slots, term_params, form_params};

use crate::closed::{quotient, remainder, scaled};
use crate::trees::{CForm, CTerm};
use unity_base::Shared;

/// The value of a term at a state and numbers of the parameters.
#[cycle(evaluation)]
pub fn value(t: &CTerm, state: &[i64], params: &[i64]) -> i128
    requires slots { term_slots t.now ≤ length state.now }
    requires params { term_params t.now ≤ length params.now }
    requires weight { (term_weights (number_weight state.now) (number_weight params.now) t.now).most ≤ 2 ^ 62 }
    ensures value { result ≡ term_value state.now params.now t.now }
    ensures bound { unsigned_abs result ≤
        (term_weights (number_weight state.now) (number_weight params.now) t.now).own }
{
    match t {
        CTerm::Const(c) => *c as i128,
        CTerm::Slot(n) => number(state, *n),
        CTerm::Param(n) => number(params, *n),
        CTerm::Add(a, b) => sum_value(a, b, state, params),
        CTerm::Sub(a, b) => difference_value(a, b, state, params),
        CTerm::Scale(k, a) => scaled(*k, value(a.get(), state, params)),
        CTerm::Div(a, k) => quotient(value(a.get(), state, params), *k),
        CTerm::Mod(a, k) => remainder(value(a.get(), state, params), *k),
        CTerm::Ite(c, a, b) => choice_value(c, a, b, state, params),
    }
}

#[cycle(evaluation)]
#[inline(never)]
fn sum_value(a: &Shared<CTerm>, b: &Shared<CTerm>, state: &[i64], params: &[i64]) -> i128
    requires slots { max (term_slots a.now) (term_slots b.now) ≤ length state.now }
    requires params { max (term_params a.now) (term_params b.now) ≤ length params.now }
    requires weight { (sum_weights (term_weights (number_weight state.now) (number_weight params.now) a.now)
        (term_weights (number_weight state.now) (number_weight params.now) b.now)).most ≤ 2 ^ 62 }
    ensures value { result ≡ term_value state.now params.now a.now +ℤ term_value state.now params.now b.now }
    ensures bound { unsigned_abs result ≤
        (term_weights (number_weight state.now) (number_weight params.now) a.now).own
        + (term_weights (number_weight state.now) (number_weight params.now) b.now).own }
{
    value(a.get(), state, params) + value(b.get(), state, params)
}

#[cycle(evaluation)]
#[inline(never)]
fn difference_value(a: &Shared<CTerm>, b: &Shared<CTerm>, state: &[i64], params: &[i64]) -> i128
    requires slots { max (term_slots a.now) (term_slots b.now) ≤ length state.now }
    requires params { max (term_params a.now) (term_params b.now) ≤ length params.now }
    requires weight { (sum_weights (term_weights (number_weight state.now) (number_weight params.now) a.now)
        (term_weights (number_weight state.now) (number_weight params.now) b.now)).most ≤ 2 ^ 62 }
    ensures value { result ≡ term_value state.now params.now a.now -ℤ term_value state.now params.now b.now }
    ensures bound { unsigned_abs result ≤
        (term_weights (number_weight state.now) (number_weight params.now) a.now).own
        + (term_weights (number_weight state.now) (number_weight params.now) b.now).own }
{
    value(a.get(), state, params) - value(b.get(), state, params)
}

#[cycle(evaluation)]
#[inline(never)]
fn choice_value(
    c: &Shared<CForm>,
    a: &Shared<CTerm>,
    b: &Shared<CTerm>,
    state: &[i64],
    params: &[i64],
) -> i128
    requires slots { max (form_slots c.now) (max (term_slots a.now) (term_slots b.now)) ≤ length state.now }
    requires params { max (form_params c.now) (max (term_params a.now) (term_params b.now)) ≤ length params.now }
    requires condition { form_weight (number_weight state.now) (number_weight params.now) c.now ≤ 2 ^ 62 }
    requires weight { max (term_weights (number_weight state.now) (number_weight params.now) a.now).most
        (term_weights (number_weight state.now) (number_weight params.now) b.now).most ≤ 2 ^ 62 }
    ensures value { result ≡ cond (form_value state.now params.now c.now)
        (term_value state.now params.now a.now) (term_value state.now params.now b.now) }
    ensures bound { unsigned_abs result ≤ max
        (term_weights (number_weight state.now) (number_weight params.now) a.now).own
        (term_weights (number_weight state.now) (number_weight params.now) b.now).own }
{
    if holds(c.get(), state, params) {
        value(a.get(), state, params)
    } else {
        value(b.get(), state, params)
    }
}

/// Whether a formula holds at a state and numbers of the parameters.
#[cycle(evaluation)]
pub fn holds(f: &CForm, state: &[i64], params: &[i64]) -> bool
    requires slots { form_slots f.now ≤ length state.now }
    requires params { form_params f.now ≤ length params.now }
    requires weight { form_weight (number_weight state.now) (number_weight params.now) f.now ≤ 2 ^ 62 }
    ensures { result ≡ form_value state.now params.now f.now }
{
    match f {
        CForm::Top => true,
        CForm::Bottom => false,
        CForm::AtLeast(t) => value(t, state, params) >= 0,
        CForm::Zero(t) => value(t, state, params) == 0,
        CForm::Not(g) => !holds(g.get(), state, params),
        CForm::And(g, h) => holds(g.get(), state, params) && holds(h.get(), state, params),
        CForm::Or(g, h) => holds(g.get(), state, params) || holds(h.get(), state, params),
    }
}

// The number of a slot or a parameter.
fn number(list: &[i64], place: u32) -> i128
    requires { place < length list.now }
    ensures { result ≡ number_at list.now place }
{
    list[place as usize] as i128
}
