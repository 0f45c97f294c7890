// How far from 0 the numbers of a formula can lie. Nodes of several parts have functions of their own, so that the
// frames are small.
ghost use Rattle.std.specs.Prelude.{◌≡◌, ◌+◌, ◌*◌, ◌^◌, ◌<◌, ◌≤◌, min, max, length};
ghost use Rattle.std.specs.Int.RustNames.{unsigned_abs};
ghost use Rattle.meaning_states.specs.Division as division;
ghost use Rattle.core_terms.specs.Weights.{sum_weights, choice_weights, term_weights, form_weight};
ghost use Rattle.core_terms.specs.Weights.{slot_weight, place_weight};
ghost use Rattle.core_terms.specs.Places.{term_slots, form_slots, term_params, form_params};

use crate::programs::CSlot;
use crate::trees::{CForm, CTerm, Range};
use unity_base::Shared;

/// The greatest weight of a term in the formula, or 2^63 where it is more. A slot and a parameter weigh
/// as the range does that is given for them.
pub fn weight_of(f: &CForm, slots: &[CSlot], params: &[Range]) -> u128
    requires slots { form_slots f.now ≤ length slots.now }
    requires params { form_params f.now ≤ length params.now }
    ensures { result ≡ min (form_weight (slot_weight slots.now) (place_weight params.now) f.now) (2 ^ 63) }
{
    u128::from(weigh_form(f, slots, params))
}

#[cycle(weights)]
fn weigh_form(f: &CForm, slots: &[CSlot], params: &[Range]) -> u64
    requires slots { form_slots f.now ≤ length slots.now }
    requires params { form_params f.now ≤ length params.now }
    ensures { result ≡ min (form_weight (slot_weight slots.now) (place_weight params.now) f.now) (2 ^ 63) }
{
    match f {
        CForm::Top => 0,
        CForm::Bottom => 0,
        CForm::AtLeast(t) => weigh_term(t, slots, params).1,
        CForm::Zero(t) => weigh_term(t, slots, params).1,
        CForm::Not(g) => weigh_form(g.get(), slots, params),
        CForm::And(g, h) => weigh_form(g.get(), slots, params).max(weigh_form(
            h.get(),
            slots,
            params,
        )),
        CForm::Or(g, h) => weigh_form(g.get(), slots, params).max(weigh_form(
            h.get(),
            slots,
            params,
        )),
    }
}

// A term's own weight, and the greatest among it and its parts.
#[cycle(weights)]
fn weigh_term(t: &CTerm, slots: &[CSlot], params: &[Range]) -> (u64, u64)
    requires slots { term_slots t.now ≤ length slots.now }
    requires params { term_params t.now ≤ length params.now }
    ensures own { result.0 ≡ min (term_weights (slot_weight slots.now) (place_weight params.now) t.now).own (2 ^ 63) }
    ensures most { result.1 ≡ min (term_weights (slot_weight slots.now) (place_weight params.now) t.now).most (2 ^ 63) }
{
    match t {
        CTerm::Const(c) => leaf(c.unsigned_abs()),
        CTerm::Slot(n) => leaf(weight_of_slot(slots, *n)),
        CTerm::Param(n) => leaf(weight_of_param(params, *n)),
        CTerm::Add(a, b) => weigh_two(a, b, slots, params),
        CTerm::Sub(a, b) => weigh_two(a, b, slots, params),
        CTerm::Scale(k, a) => multiple(*k, weigh_term(a.get(), slots, params)),
        CTerm::Div(a, k) => quotient(*k, weigh_term(a.get(), slots, params)),
        CTerm::Mod(a, k) => remainder(*k, weigh_term(a.get(), slots, params)),
        CTerm::Ite(c, a, b) => weigh_choice(c, a, b, slots, params),
    }
}

// The weights of a sum, and of a difference.
#[cycle(weights)]
#[inline(never)]
fn weigh_two(a: &Shared<CTerm>, b: &Shared<CTerm>, slots: &[CSlot], params: &[Range]) -> (u64, u64)
    requires slots { max (term_slots a.now) (term_slots b.now) ≤ length slots.now }
    requires params { max (term_params a.now) (term_params b.now) ≤ length params.now }
    ensures own { result.0 ≡ min (sum_weights (term_weights (slot_weight slots.now) (place_weight params.now) a.now)
        (term_weights (slot_weight slots.now) (place_weight params.now) b.now)).own (2 ^ 63) }
    ensures most { result.1 ≡ min (sum_weights (term_weights (slot_weight slots.now) (place_weight params.now) a.now)
        (term_weights (slot_weight slots.now) (place_weight params.now) b.now)).most (2 ^ 63) }
{
    sum(
        weigh_term(a.get(), slots, params),
        weigh_term(b.get(), slots, params),
    )
}

// The weights of a choice.
#[cycle(weights)]
#[inline(never)]
fn weigh_choice(
    c: &Shared<CForm>,
    a: &Shared<CTerm>,
    b: &Shared<CTerm>,
    slots: &[CSlot],
    params: &[Range],
) -> (u64, u64)
    requires slots { max (form_slots c.now) (max (term_slots a.now) (term_slots b.now)) ≤ length slots.now }
    requires params { max (form_params c.now) (max (term_params a.now) (term_params b.now)) ≤ length params.now }
    ensures own { result.0 ≡ min
        (choice_weights (form_weight (slot_weight slots.now) (place_weight params.now) c.now)
        (term_weights (slot_weight slots.now) (place_weight params.now) a.now)
        (term_weights (slot_weight slots.now) (place_weight params.now) b.now)).own (2 ^ 63) }
    ensures most { result.1 ≡ min
        (choice_weights (form_weight (slot_weight slots.now) (place_weight params.now) c.now)
        (term_weights (slot_weight slots.now) (place_weight params.now) a.now)
        (term_weights (slot_weight slots.now) (place_weight params.now) b.now)).most (2 ^ 63) }
{
    choice(
        weigh_form(c.get(), slots, params),
        weigh_term(a.get(), slots, params),
        weigh_term(b.get(), slots, params),
    )
}

// The weights of a term that has no parts.
fn leaf(weight: u64) -> (u64, u64)
    ensures own { result.0 ≡ min weight (2 ^ 63) }
    ensures most { result.1 ≡ min (max weight 0) (2 ^ 63) }
{
    let capped = weight.min(1 << 63);
    (capped, capped)
}

fn sum(a: (u64, u64), b: (u64, u64)) -> (u64, u64)
    ensures own { result.0 ≡ min (a.0 + b.0) (2 ^ 63) }
    ensures most { result.1 ≡ min (max (a.0 + b.0) (max a.1 b.1)) (2 ^ 63) }
{
    let own = a.0.saturating_add(b.0).min(1 << 63);
    (own, own.max(a.1).max(b.1).min(1 << 63))
}

fn multiple(k: i64, a: (u64, u64)) -> (u64, u64)
    ensures own { result.0 ≡ min (unsigned_abs k * a.0) (2 ^ 63) }
    ensures most { result.1 ≡ min (max (unsigned_abs k * a.0) a.1) (2 ^ 63) }
{
    let own = k.unsigned_abs().saturating_mul(a.0).min(1 << 63);
    (own, own.max(a.1).min(1 << 63))
}

fn quotient(k: i64, a: (u64, u64)) -> (u64, u64)
    ensures own { result.0 ≡ min (max 1 a.0) (2 ^ 63) }
    ensures most { result.1 ≡ min (max (max 1 a.0) (max (unsigned_abs (division.divisor k)) a.1)) (2 ^ 63) }
{
    let own = a.0.max(1).min(1 << 63);
    (own, own.max(divisor(k)).max(a.1).min(1 << 63))
}

fn remainder(k: i64, a: (u64, u64)) -> (u64, u64)
    ensures own { result.0 ≡ min (2 * a.0 + unsigned_abs (division.divisor k)) (2 ^ 63) }
    ensures most { result.1 ≡
        min (max (2 * a.0 + unsigned_abs (division.divisor k)) (max (unsigned_abs (division.divisor k)) a.1)) (2 ^ 63) }
{
    let own = a
        .0
        .saturating_mul(2)
        .saturating_add(divisor(k))
        .min(1 << 63);
    (own, own.max(divisor(k)).max(a.1).min(1 << 63))
}

// What is divided by, which is at least 1.
fn divisor(k: i64) -> u64
    ensures { result ≡ unsigned_abs (division.divisor k) }
{
    k.max(1).unsigned_abs()
}

fn choice(c: u64, a: (u64, u64), b: (u64, u64)) -> (u64, u64)
    ensures own { result.0 ≡ min (max a.0 b.0) (2 ^ 63) }
    ensures most { result.1 ≡ min (max (max a.0 b.0) (max c (max a.1 b.1))) (2 ^ 63) }
{
    let own = a.0.max(b.0).min(1 << 63);
    (own, own.max(c).max(a.1).max(b.1).min(1 << 63))
}

fn weight_of_slot(slots: &[CSlot], place: u32) -> u64
    requires { place < length slots.now }
    ensures { result ≡ slot_weight slots.now place }
{
    weight_of_range(slots[place as usize].range)
}

fn weight_of_param(params: &[Range], place: u32) -> u64
    requires { place < length params.now }
    ensures { result ≡ place_weight params.now place }
{
    weight_of_range(params[place as usize])
}

fn weight_of_range(range: Range) -> u64
    ensures { result ≡ max 1 (max (unsigned_abs range.lo) (unsigned_abs range.hi)) }
{
    range.lo.unsigned_abs().max(range.hi.unsigned_abs()).max(1)
}
