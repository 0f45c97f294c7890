// Folding where what is known of the parts is handed along, so that no call looks down a part.
ghost use Rattle.std.specs.Prelude.{◌≡◌, ◌+◌, ◌*◌, ◌^◌, ◌≤◌, ◌+ℤ◌, ◌-ℤ◌, ◌*ℤ◌, ◌&&◌, ◌||◌, IfOk, MatchOption, max};
ghost use Rattle.std.specs.Prelude.{None, cond};
ghost use Rattle.std.specs.Option.{option_map};
ghost use Rattle.std.specs.Int.RustNames.{unsigned_abs};
ghost use Rattle.meaning_states.specs.Division.{floored, rest_of};
ghost use Rattle.core_terms.specs.Weights.{plain_weights, plain_weight, sum_weights, multiple_weights, choice_weights};
ghost use Rattle.core_terms.specs.Folding as fold;
ghost use Rattle.core_terms.specs.Senses.{paired_term, divided_term, divided_weights, sense_form, joined_form};

use crate::closed::{quotient, remainder, scaled};
use crate::copies::owned_term;
use crate::folding::{form_by, term_by};
use crate::trees::{CForm, CTerm};
use std::alloc::{AllocError, Global};
use unity_base::Shared;

/// A sum or a difference.
#[derive(Clone, Copy)]
pub enum Pairing {
    Sum,
    Difference,
}

/// What a division by a number gives: the quotient, rounded down, or the remainder.
#[derive(Clone, Copy)]
pub enum Dividing {
    Quotient,
    Remainder,
}

/// Of a term, that it is at least 0, or that it is 0.
#[derive(Clone, Copy)]
pub enum Sense {
    AtLeast,
    Zero,
}

/// Of two formulas, that both hold, or that either does.
#[derive(Clone, Copy)]
pub enum Joining {
    Both,
    Either,
}

/// A constant, and its number.
///
/// An error says that memory was refused.
#[inline(never)]
pub fn constant_known(
    alloc: Global,
    c: i64,
    number: &mut Option<i128>,
) -> Result<Shared<CTerm>, AllocError>
    ensures tree { IfOk result (λ t. t ≡ CTerm.Const c) }
    ensures number { IfOk result (λ t. number.new ≡ fold.number_of t) }
{
    *number = Some(c as i128);
    Shared::new(alloc, CTerm::Const(c))
}

/// A term that has no number, as a slot or a parameter.
///
/// An error says that memory was refused.
#[inline(never)]
pub fn variable_known(
    alloc: Global,
    t: CTerm,
    number: &mut Option<i128>,
) -> Result<Shared<CTerm>, AllocError>
    requires { fold.number_of t ≡ None }
    ensures tree { IfOk result (λ u. u ≡ t) }
    ensures number { IfOk result (λ u. number.new ≡ fold.number_of u) }
{
    *number = None;
    Shared::new(alloc, t)
}

/// The sum or the difference of two terms, folded. `first` is the number of the first term, and `number`
/// that of the second before the call and that of the result after it; there is none where a slot or a
/// parameter is named.
///
/// An error says that memory was refused.
#[inline(never)]
#[tactic(auto, using(crate::proofs::KnownLaws::number_bound))]
pub fn paired_known(
    alloc: Global,
    which: Pairing,
    a: Shared<CTerm>,
    first: Option<i128>,
    b: Shared<CTerm>,
    number: &mut Option<i128>,
) -> Result<Shared<CTerm>, AllocError>
    requires first { first ≡ fold.number_of a }
    requires second { number.old ≡ fold.number_of b }
    requires weight { (sum_weights (plain_weights a) (plain_weights b)).most ≤ 2 ^ 126 }
    ensures tree { IfOk result (λ t. t ≡ paired_term which a b) }
    ensures number { IfOk result (λ t. number.new ≡ fold.number_of t) }
    ensures own { IfOk result (λ t. (plain_weights t).own ≤ (plain_weights a).own + (plain_weights b).own) }
    ensures most { IfOk result (λ t. (plain_weights t).most ≤ (sum_weights (plain_weights a) (plain_weights b)).most) }
{
    match which {
        Pairing::Sum => {
            *number = sum_number(a.get(), first, b.get(), *number);
            placed_term(alloc, CTerm::Add(a, b), *number)
        }
        Pairing::Difference => {
            *number = difference_number(a.get(), first, b.get(), *number);
            placed_term(alloc, CTerm::Sub(a, b), *number)
        }
    }
}

// The number of a sum, from those of its parts.
fn sum_number(a: &CTerm, first: Option<i128>, b: &CTerm, second: Option<i128>) -> Option<i128>
    requires first { MatchOption first (Unit {0}) (λ z. unsigned_abs z ≤ (plain_weights a.now).own) }
    requires second { MatchOption second (Unit {0}) (λ z. unsigned_abs z ≤ (plain_weights b.now).own) }
    requires weight { (plain_weights a.now).own + (plain_weights b.now).own ≤ 2 ^ 126 }
    ensures { result ≡ fold.joined (λ x y. x +ℤ y) first second }
{
    let second = second?;
    Some(first? + second)
}

// The number of a difference, from those of its parts.
fn difference_number(
    a: &CTerm,
    first: Option<i128>,
    b: &CTerm,
    second: Option<i128>,
) -> Option<i128>
    requires first { MatchOption first (Unit {0}) (λ z. unsigned_abs z ≤ (plain_weights a.now).own) }
    requires second { MatchOption second (Unit {0}) (λ z. unsigned_abs z ≤ (plain_weights b.now).own) }
    requires weight { (plain_weights a.now).own + (plain_weights b.now).own ≤ 2 ^ 126 }
    ensures { result ≡ fold.joined (λ x y. x -ℤ y) first second }
{
    let second = second?;
    Some(first? - second)
}

/// A multiple of a term, folded. `number` is the number of the term before the call and that of the
/// result after it; there is none where a slot or a parameter is named.
///
/// An error says that memory was refused.
#[inline(never)]
#[tactic(auto, using(crate::proofs::KnownLaws::number_bound))]
pub fn scaled_known(
    alloc: Global,
    k: i64,
    a: Shared<CTerm>,
    number: &mut Option<i128>,
) -> Result<Shared<CTerm>, AllocError>
    requires part { number.old ≡ fold.number_of a }
    requires weight { (multiple_weights k (plain_weights a)).most ≤ 2 ^ 126 }
    ensures tree { IfOk result (λ t. t ≡ fold.scaled_term k a) }
    ensures number { IfOk result (λ t. number.new ≡ fold.number_of t) }
    ensures own { IfOk result (λ t. (plain_weights t).own ≤ unsigned_abs k * (plain_weights a).own) }
    ensures most { IfOk result (λ t. (plain_weights t).most ≤ (multiple_weights k (plain_weights a)).most) }
{
    *number = scaled_number(k, a.get(), *number);
    placed_term(alloc, CTerm::Scale(k, a), *number)
}

// The number of a multiple, from that of its part.
fn scaled_number(k: i64, a: &CTerm, part: Option<i128>) -> Option<i128>
    requires part { MatchOption part (Unit {0}) (λ z. unsigned_abs z ≤ (plain_weights a.now).own) }
    requires weight { unsigned_abs k * (plain_weights a.now).own ≤ 2 ^ 126 }
    ensures { result ≡ option_map (λ x. k *ℤ x) part }
{
    Some(scaled(k, part?))
}

/// The quotient or the remainder of a term by a number, folded; the division is by 1 where the number is less.
/// `number` is the number of the term before the call and that of the result after it; there is none where
/// a slot or a parameter is named.
///
/// An error says that memory was refused.
#[inline(never)]
pub fn divided_known(
    alloc: Global,
    which: Dividing,
    k: i64,
    a: Shared<CTerm>,
    number: &mut Option<i128>,
) -> Result<Shared<CTerm>, AllocError>
    requires { number.old ≡ fold.number_of a }
    ensures tree { IfOk result (λ t. t ≡ divided_term which k a) }
    ensures number { IfOk result (λ t. number.new ≡ fold.number_of t) }
    ensures own { IfOk result (λ t. (plain_weights t).own ≤ (divided_weights which k (plain_weights a)).own) }
    ensures most { IfOk result (λ t. (plain_weights t).most ≤ (divided_weights which k (plain_weights a)).most) }
{
    match which {
        Dividing::Quotient => {
            *number = quotient_number(k, *number);
            placed_term(alloc, CTerm::Div(a, k), *number)
        }
        Dividing::Remainder => {
            *number = remainder_number(k, *number);
            placed_term(alloc, CTerm::Mod(a, k), *number)
        }
    }
}

// The number of a quotient, from that of its part.
fn quotient_number(k: i64, part: Option<i128>) -> Option<i128>
    ensures { result ≡ option_map (λ x. floored x k) part }
{
    Some(quotient(part?, k))
}

// The number of a remainder, from that of its part.
fn remainder_number(k: i64, part: Option<i128>) -> Option<i128>
    ensures { result ≡ option_map (λ x. rest_of x k) part }
{
    Some(remainder(part?, k))
}

/// The first term where the formula holds and the second elsewhere: the branch alone where the truth
/// of the formula is known. `first` is the number of the first term, and `number` that of the second
/// before the call and that of the result after it.
///
/// An error says that memory was refused.
#[inline(never)]
pub fn choice_known(
    alloc: Global,
    c: Shared<CForm>,
    truth: Option<bool>,
    a: Shared<CTerm>,
    first: Option<i128>,
    b: Shared<CTerm>,
    number: &mut Option<i128>,
) -> Result<Shared<CTerm>, AllocError>
    requires condition { truth ≡ fold.truth_of c }
    requires first { first ≡ fold.number_of a }
    requires second { number.old ≡ fold.number_of b }
    ensures tree { IfOk result (λ t. t ≡ fold.choice_term c a b) }
    ensures number { IfOk result (λ t. number.new ≡ fold.number_of t) }
    ensures own { IfOk result (λ t. (plain_weights t).own ≤ max (plain_weights a).own (plain_weights b).own) }
    ensures most { IfOk result (λ t. (plain_weights t).most ≤
        (choice_weights (plain_weight c) (plain_weights a) (plain_weights b)).most) }
{
    match truth {
        Some(true) => {
            *number = first;
            Ok(a)
        }
        Some(false) => Ok(b),
        None => {
            *number = None;
            Shared::new(alloc, CTerm::Ite(c, a, b))
        }
    }
}

/// The formula that always holds, or the one that never does, and the truth of it.
///
/// An error says that memory was refused.
#[inline(never)]
pub fn truth_known(
    alloc: Global,
    holds: bool,
    truth: &mut Option<bool>,
) -> Result<Shared<CForm>, AllocError>
    ensures tree { IfOk result (λ f. f ≡ cond holds CForm.Top CForm.Bottom) }
    ensures truth { IfOk result (λ f. truth.new ≡ fold.truth_of f) }
{
    *truth = Some(holds);
    Shared::new(alloc, if holds { CForm::Top } else { CForm::Bottom })
}

/// That a term is at least 0, or that it is 0, folded, and the truth of that. `number` is the number of
/// the term.
///
/// An error says that memory was refused.
#[inline(never)]
#[tactic(auto, using(crate::proofs::WeightLaws::weight_folded_form))]
pub fn sense_known(
    alloc: Global,
    sense: Sense,
    t: Shared<CTerm>,
    number: Option<i128>,
    truth: &mut Option<bool>,
) -> Result<Shared<CForm>, AllocError>
    requires { number ≡ fold.number_of t }
    ensures tree { IfOk result (λ f. f ≡ sense_form sense t) }
    ensures truth { IfOk result (λ f. truth.new ≡ fold.truth_of f) }
    ensures weight { IfOk result (λ f. plain_weight f ≤ (plain_weights t).most) }
{
    let t = owned_term(alloc, t)?;
    match sense {
        Sense::AtLeast => {
            *truth = number.map(|z| z >= 0);
            Shared::new(alloc, form_by(CForm::AtLeast(t), *truth))
        }
        Sense::Zero => {
            *truth = number.map(|z| z == 0);
            Shared::new(alloc, form_by(CForm::Zero(t), *truth))
        }
    }
}

/// That a formula does not hold, folded. `truth` is that of the formula before the call and that of the
/// result after it; there is none where a slot or a parameter is named.
///
/// An error says that memory was refused.
#[inline(never)]
#[tactic(auto, using(crate::proofs::WeightLaws::weight_folded_form))]
pub fn not_known(
    alloc: Global,
    f: Shared<CForm>,
    truth: &mut Option<bool>,
) -> Result<Shared<CForm>, AllocError>
    requires { truth.old ≡ fold.truth_of f }
    ensures tree { IfOk result (λ h. h ≡ fold.not_form f) }
    ensures truth { IfOk result (λ h. truth.new ≡ fold.truth_of h) }
    ensures weight { IfOk result (λ h. plain_weight h ≤ plain_weight f) }
{
    *truth = truth.map(|holds| !holds);
    Shared::new(alloc, form_by(CForm::Not(f), *truth))
}

/// That two formulas hold, or that one of them does, folded. `first` is the truth of the first formula, and
/// `truth` that of the second before the call and that of the result after it.
///
/// An error says that memory was refused.
#[inline(never)]
#[tactic(auto, using(crate::proofs::WeightLaws::weight_folded_form))]
pub fn joined_known(
    alloc: Global,
    joining: Joining,
    f: Shared<CForm>,
    first: Option<bool>,
    g: Shared<CForm>,
    truth: &mut Option<bool>,
) -> Result<Shared<CForm>, AllocError>
    requires first { first ≡ fold.truth_of f }
    requires second { truth.old ≡ fold.truth_of g }
    ensures tree { IfOk result (λ h. h ≡ joined_form joining f g) }
    ensures truth { IfOk result (λ h. truth.new ≡ fold.truth_of h) }
    ensures weight { IfOk result (λ h. plain_weight h ≤ max (plain_weight f) (plain_weight g)) }
{
    match joining {
        Joining::Both => {
            *truth = both_true(first, *truth);
            Shared::new(alloc, form_by(CForm::And(f, g), *truth))
        }
        Joining::Either => {
            *truth = either_true(first, *truth);
            Shared::new(alloc, form_by(CForm::Or(f, g), *truth))
        }
    }
}

/// Whether both of two formulas hold, where both truths are known.
pub fn both_true(first: Option<bool>, second: Option<bool>) -> Option<bool>
    ensures { result ≡ fold.joined (λ x y. x && y) first second }
{
    match (first, second) {
        (Some(x), Some(y)) => Some(x && y),
        _ => None,
    }
}

/// Whether one of two formulas holds, where both truths are known.
pub fn either_true(first: Option<bool>, second: Option<bool>) -> Option<bool>
    ensures { result ≡ fold.joined (λ x y. x || y) first second }
{
    match (first, second) {
        (Some(x), Some(y)) => Some(x || y),
        _ => None,
    }
}

// A term, folded, in a place of its own.
#[inline(never)]
#[tactic(auto, using(crate::proofs::WeightLaws::own_folded_term, crate::proofs::WeightLaws::most_folded_term))]
fn placed_term(
    alloc: Global,
    whole: CTerm,
    number: Option<i128>,
) -> Result<Shared<CTerm>, AllocError>
    requires { number ≡ fold.number_of whole }
    ensures tree { IfOk result (λ t. t ≡ fold.folded_term whole) }
    ensures number { IfOk result (λ t. fold.number_of t ≡ number) }
    ensures own { IfOk result (λ t. (plain_weights t).own ≤ (plain_weights whole).own) }
    ensures most { IfOk result (λ t. (plain_weights t).most ≤ (plain_weights whole).most) }
{
    Shared::new(alloc, term_by(whole, number))
}
