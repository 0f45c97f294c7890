// Trees without slot and parameter are replaced by what they are worth.
ghost use Rattle.std.specs.Prelude.{◌≡◌, ◌+◌, ◌*◌, ◌^◌, ◌≤◌, IfOk, max};
ghost use Rattle.std.specs.Int.RustNames.{unsigned_abs};
ghost use Rattle.meaning_states.specs.Division.{divisor};
ghost use Rattle.core_terms.specs.Weights.{plain_weights, plain_weight, choice_weights};
ghost use Rattle.core_terms.specs.Folding as fold;

use crate::closed::{number_of, truth_of};
use crate::trees::{CForm, CTerm};
use std::alloc::{AllocError, Global};
use unity_base::Shared;

/// The term, or the constant of its value where it has no slot and no parameter and lies within plus or
/// minus 2^62.
#[tactic(auto, using(crate::proofs::WeightLaws::own_folded_term, crate::proofs::WeightLaws::most_folded_term))]
pub fn folded_term(t: CTerm) -> CTerm
    requires { (plain_weights t).most ≤ 2 ^ 126 }
    ensures tree { result ≡ fold.folded_term t }
    ensures own { (plain_weights result).own ≤ (plain_weights t).own }
    ensures most { (plain_weights result).most ≤ (plain_weights t).most }
{
    let number = number_of(&t);
    term_by(t, number)
}

// The term, folded, where its number is given.
#[tactic(auto, using(crate::proofs::KnownLaws::known_folded_term))]
pub fn term_by(t: CTerm, number: Option<i128>) -> CTerm
    requires { number ≡ fold.number_of t }
    ensures tree { result ≡ fold.folded_term t }
    ensures number { fold.number_of result ≡ number }
{
    match number {
        Some(z) if z.unsigned_abs() <= 1 << 62 => CTerm::Const(z as i64),
        _ => t,
    }
}

/// The formula, or `Top` or `Bottom` where it has no slot and no parameter.
pub fn folded_form(f: CForm) -> CForm
    requires { plain_weight f ≤ 2 ^ 126 }
    ensures tree { result ≡ fold.folded_form f }
    ensures weight { plain_weight result ≤ plain_weight f }
{
    let truth = truth_of(&f);
    form_by(f, truth)
}

// The formula, folded, where its truth is given.
#[tactic(auto, using(crate::proofs::WeightLaws::weight_folded_form, crate::proofs::KnownLaws::known_folded_form))]
pub fn form_by(f: CForm, truth: Option<bool>) -> CForm
    requires { truth ≡ fold.truth_of f }
    ensures tree { result ≡ fold.folded_form f }
    ensures truth { fold.truth_of result ≡ truth }
    ensures weight { plain_weight result ≤ plain_weight f }
{
    match truth {
        Some(true) => CForm::Top,
        Some(false) => CForm::Bottom,
        None => f,
    }
}

/// The sum of two terms, folded.
///
/// An error says that memory was refused.
pub fn sum_term(alloc: Global, a: CTerm, b: CTerm) -> Result<CTerm, AllocError>
    requires own { (plain_weights a).own + (plain_weights b).own ≤ 2 ^ 126 }
    requires parts { max (plain_weights a).most (plain_weights b).most ≤ 2 ^ 126 }
    ensures tree { IfOk result (λ t. t ≡ fold.sum_term a b) }
    ensures own { IfOk result (λ t. (plain_weights t).own ≤ (plain_weights a).own + (plain_weights b).own) }
    ensures most { IfOk result (λ t. (plain_weights t).most ≤ 2 ^ 126) }
{
    let whole = CTerm::Add(Shared::new(alloc, a)?, Shared::new(alloc, b)?);
    Ok(folded_term(whole))
}

/// The difference of two terms, folded.
///
/// An error says that memory was refused.
pub fn difference_term(alloc: Global, a: CTerm, b: CTerm) -> Result<CTerm, AllocError>
    requires own { (plain_weights a).own + (plain_weights b).own ≤ 2 ^ 126 }
    requires parts { max (plain_weights a).most (plain_weights b).most ≤ 2 ^ 126 }
    ensures tree { IfOk result (λ t. t ≡ fold.difference_term a b) }
    ensures own { IfOk result (λ t. (plain_weights t).own ≤ (plain_weights a).own + (plain_weights b).own) }
    ensures most { IfOk result (λ t. (plain_weights t).most ≤ 2 ^ 126) }
{
    let whole = CTerm::Sub(Shared::new(alloc, a)?, Shared::new(alloc, b)?);
    Ok(folded_term(whole))
}

/// A multiple of a term, folded.
///
/// An error says that memory was refused.
pub fn scaled_term(alloc: Global, k: i64, a: CTerm) -> Result<CTerm, AllocError>
    requires own { unsigned_abs k * (plain_weights a).own ≤ 2 ^ 126 }
    requires parts { (plain_weights a).most ≤ 2 ^ 126 }
    ensures tree { IfOk result (λ t. t ≡ fold.scaled_term k a) }
    ensures own { IfOk result (λ t. (plain_weights t).own ≤ unsigned_abs k * (plain_weights a).own) }
    ensures most { IfOk result (λ t. (plain_weights t).most ≤ 2 ^ 126) }
{
    let whole = CTerm::Scale(k, Shared::new(alloc, a)?);
    Ok(folded_term(whole))
}

/// A term divided by a number, rounded down, folded; the division is by 1 where the number is less.
///
/// An error says that memory was refused.
pub fn quotient_term(alloc: Global, k: i64, a: CTerm) -> Result<CTerm, AllocError>
    requires { (plain_weights a).most ≤ 2 ^ 126 }
    ensures tree { IfOk result (λ t. t ≡ fold.quotient_term k a) }
    ensures own { IfOk result (λ t. (plain_weights t).own ≤ max 1 (plain_weights a).own) }
    ensures most { IfOk result (λ t. (plain_weights t).most ≤ 2 ^ 126) }
{
    let whole = CTerm::Div(Shared::new(alloc, a)?, k);
    Ok(folded_term(whole))
}

/// What the division of a term by a number leaves, folded; the division is by 1 where the number is less.
///
/// An error says that memory was refused.
pub fn remainder_term(alloc: Global, k: i64, a: CTerm) -> Result<CTerm, AllocError>
    requires own { 2 * (plain_weights a).own + unsigned_abs (divisor k) ≤ 2 ^ 126 }
    requires parts { (plain_weights a).most ≤ 2 ^ 126 }
    ensures tree { IfOk result (λ t. t ≡ fold.remainder_term k a) }
    ensures own { IfOk result (λ t. (plain_weights t).own ≤ 2 * (plain_weights a).own + unsigned_abs (divisor k)) }
    ensures most { IfOk result (λ t. (plain_weights t).most ≤ 2 ^ 126) }
{
    let whole = CTerm::Mod(Shared::new(alloc, a)?, k);
    Ok(folded_term(whole))
}

/// The first term where the formula holds and the second elsewhere: the branch alone where the
/// formula has no slot and no parameter.
///
/// An error says that memory was refused.
pub fn choice_term(alloc: Global, c: CForm, a: CTerm, b: CTerm) -> Result<CTerm, AllocError>
    requires { plain_weight c ≤ 2 ^ 126 }
    ensures tree { IfOk result (λ t. t ≡ fold.choice_term c a b) }
    ensures own { IfOk result (λ t. (plain_weights t).own ≤ max (plain_weights a).own (plain_weights b).own) }
{
    match truth_of(&c) {
        Some(true) => Ok(a),
        Some(false) => Ok(b),
        None => Ok(CTerm::Ite(
            Shared::new(alloc, c)?,
            Shared::new(alloc, a)?,
            Shared::new(alloc, b)?,
        )),
    }
}

/// That a term is at least 0, folded.
pub fn at_least_form(t: CTerm) -> CForm
    requires { (plain_weights t).most ≤ 2 ^ 126 }
    ensures tree { result ≡ fold.at_least_form t }
    ensures weight { plain_weight result ≤ (plain_weights t).most }
{
    folded_form(CForm::AtLeast(t))
}

/// That a term is 0, folded.
pub fn zero_form(t: CTerm) -> CForm
    requires { (plain_weights t).most ≤ 2 ^ 126 }
    ensures tree { result ≡ fold.zero_form t }
    ensures weight { plain_weight result ≤ (plain_weights t).most }
{
    folded_form(CForm::Zero(t))
}

/// That a formula does not hold, folded.
///
/// An error says that memory was refused.
pub fn not_form(alloc: Global, f: CForm) -> Result<CForm, AllocError>
    requires { plain_weight f ≤ 2 ^ 126 }
    ensures tree { IfOk result (λ h. h ≡ fold.not_form f) }
    ensures weight { IfOk result (λ h. plain_weight h ≤ plain_weight f) }
{
    let whole = CForm::Not(Shared::new(alloc, f)?);
    Ok(folded_form(whole))
}

/// That two formulas hold, folded.
///
/// An error says that memory was refused.
pub fn and_form(alloc: Global, f: CForm, g: CForm) -> Result<CForm, AllocError>
    requires { max (plain_weight f) (plain_weight g) ≤ 2 ^ 126 }
    ensures tree { IfOk result (λ h. h ≡ fold.and_form f g) }
    ensures weight { IfOk result (λ h. plain_weight h ≤ max (plain_weight f) (plain_weight g)) }
{
    let whole = CForm::And(Shared::new(alloc, f)?, Shared::new(alloc, g)?);
    Ok(folded_form(whole))
}

/// That one of two formulas holds, folded.
///
/// An error says that memory was refused.
pub fn or_form(alloc: Global, f: CForm, g: CForm) -> Result<CForm, AllocError>
    requires { max (plain_weight f) (plain_weight g) ≤ 2 ^ 126 }
    ensures tree { IfOk result (λ h. h ≡ fold.or_form f g) }
    ensures weight { IfOk result (λ h. plain_weight h ≤ max (plain_weight f) (plain_weight g)) }
{
    let whole = CForm::Or(Shared::new(alloc, f)?, Shared::new(alloc, g)?);
    Ok(folded_form(whole))
}

/// A formula, folded, in a place of its own.
///
/// An error says that memory was refused.
#[inline(never)]
pub fn placed_form(alloc: Global, whole: CForm) -> Result<Shared<CForm>, AllocError>
    requires { plain_weight whole ≤ 2 ^ 126 }
    ensures tree { IfOk result (λ h. h ≡ fold.folded_form whole) }
    ensures weight { IfOk result (λ h. plain_weight h ≤ plain_weight whole) }
{
    Shared::new(alloc, folded_form(whole))
}

/// A term, folded, in a place of its own.
///
/// An error says that memory was refused.
#[inline(never)]
pub fn placed_term(alloc: Global, whole: CTerm) -> Result<Shared<CTerm>, AllocError>
    requires { (plain_weights whole).most ≤ 2 ^ 126 }
    ensures tree { IfOk result (λ t. t ≡ fold.folded_term whole) }
    ensures own { IfOk result (λ t. (plain_weights t).own ≤ (plain_weights whole).own) }
    ensures most { IfOk result (λ t. (plain_weights t).most ≤ (plain_weights whole).most) }
{
    Shared::new(alloc, folded_term(whole))
}

/// The choice between two terms, folded, in a place of its own.
///
/// An error says that memory was refused.
#[inline(never)]
pub fn placed_choice(
    alloc: Global,
    c: Shared<CForm>,
    a: Shared<CTerm>,
    b: Shared<CTerm>,
) -> Result<Shared<CTerm>, AllocError>
    requires { plain_weight c ≤ 2 ^ 126 }
    ensures tree { IfOk result (λ t. t ≡ fold.choice_term c a b) }
    ensures own { IfOk result (λ t. (plain_weights t).own ≤ max (plain_weights a).own (plain_weights b).own) }
    ensures most { IfOk result (λ t. (plain_weights t).most ≤
        (choice_weights (plain_weight c) (plain_weights a) (plain_weights b)).most) }
{
    match truth_of(c.get()) {
        Some(true) => Ok(a),
        Some(false) => Ok(b),
        None => Shared::new(alloc, CTerm::Ite(c, a, b)),
    }
}
