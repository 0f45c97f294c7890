// A formula with its parameters replaced. A replaced part stands in a place of its own, and what is known of it is
// handed back beside it, so that no part is looked down again. Each kind of node has a function of its own, and so has
// each part after the first: so the frames are small, and the deepest formula is within a small stack.
ghost use Rattle.std.specs.Prelude.{◌≡◌, ◌+◌, ◌*◌, ◌^◌, ◌≤◌, IfOk, length, None, All, max};
ghost use Rattle.std.specs.Int.RustNames.{unsigned_abs};
ghost use Rattle.core_terms.specs.declared.trees.CTerm.TheVariants as term;
ghost use Rattle.core_terms.specs.Weights.{plain_weights, plain_weight, sum_weights, multiple_weights, choice_weights};
ghost use Rattle.core_terms.specs.Places.{form_params, term_params};
ghost use Rattle.core_terms.specs.Folding as fold;
ghost use Rattle.core_terms.specs.Senses.{paired_term, divided_term, divided_weights, sense_form, joined_form};
ghost use Rattle.core_terms.specs.Replacing.{IsSmallArg, form_at, term_at, choice_at, MeansAt};
ghost use Rattle.core_terms.specs.Replacing.{put_weights, put_weight};

use crate::arguments::{Arguments, put_arg};
use crate::copies::owned_form;
use crate::documents::Arg;
use crate::known::{self, Dividing, Joining, Pairing, Sense};
use crate::trees::{CForm, CTerm};
use std::alloc::{AllocError, Global};
use unity_base::Shared;

/// The formula with each parameter replaced by its argument, and folded.
///
/// An error says that memory was refused.
pub fn with_params(alloc: Global, f: &CForm, args: &[Arg]) -> Result<CForm, AllocError>
    requires params { form_params f.now ≤ length args.now }
    requires small { All IsSmallArg args.now }
    requires weight { plain_weight f.now ≤ 2 ^ 62 }
    ensures tree { IfOk result (λ g. g ≡ form_at args.now f.now) }

    // At every state its value is that of the formula with the arguments' values as parameters.
    ensures meaning { IfOk result (MeansAt args.now f.now) }
{
    let mut truth = None;
    owned_form(alloc, put_form(alloc, f, &Arguments { args }, &mut truth)?)
}

// The formula with its parameters replaced; `truth` is then that of the result.
#[cycle(replacing)]
fn put_form(
    alloc: Global,
    f: &CForm,
    by: &Arguments,
    truth: &mut Option<bool>,
) -> Result<Shared<CForm>, AllocError>
    requires params { form_params f.now ≤ length by.now.args.now }
    requires small { All IsSmallArg by.now.args.now }
    requires weight { put_weight f.now ≤ 2 ^ 126 }
    ensures tree { IfOk result (λ g. g ≡ form_at by.now.args.now f.now) }
    ensures truth { IfOk result (λ g. truth.new ≡ fold.truth_of g) }
    ensures weight { IfOk result (λ g. plain_weight g ≤ put_weight f.now) }
{
    match f {
        CForm::Top => known::truth_known(alloc, true, truth),
        CForm::Bottom => known::truth_known(alloc, false, truth),
        CForm::AtLeast(t) => put_sense(alloc, Sense::AtLeast, t, by, truth),
        CForm::Zero(t) => put_sense(alloc, Sense::Zero, t, by, truth),
        CForm::Not(g) => put_not(alloc, g, by, truth),
        CForm::And(g, h) => put_joined(alloc, Joining::Both, g, h, by, truth),
        CForm::Or(g, h) => put_joined(alloc, Joining::Either, g, h, by, truth),
    }
}

#[cycle(replacing)]
#[inline(never)]
fn put_sense(
    alloc: Global,
    sense: Sense,
    t: &CTerm,
    by: &Arguments,
    truth: &mut Option<bool>,
) -> Result<Shared<CForm>, AllocError>
    requires params { term_params t.now ≤ length by.now.args.now }
    requires small { All IsSmallArg by.now.args.now }
    requires weight { (put_weights t.now).most ≤ 2 ^ 126 }
    ensures tree { IfOk result (λ f. f ≡ sense_form sense (term_at by.now.args.now t.now)) }
    ensures truth { IfOk result (λ f. truth.new ≡ fold.truth_of f) }
    ensures weight { IfOk result (λ f. plain_weight f ≤ (put_weights t.now).most) }
{
    let mut number = None;
    match put_term(alloc, t, by, &mut number) {
        Ok(part) => known::sense_known(alloc, sense, part, number, truth),
        Err(error) => Err(error),
    }
}

#[cycle(replacing)]
#[inline(never)]
fn put_not(
    alloc: Global,
    g: &Shared<CForm>,
    by: &Arguments,
    truth: &mut Option<bool>,
) -> Result<Shared<CForm>, AllocError>
    requires params { form_params g.now ≤ length by.now.args.now }
    requires small { All IsSmallArg by.now.args.now }
    requires weight { put_weight g.now ≤ 2 ^ 126 }
    ensures tree { IfOk result (λ f. f ≡ fold.not_form (form_at by.now.args.now g.now)) }
    ensures truth { IfOk result (λ f. truth.new ≡ fold.truth_of f) }
    ensures weight { IfOk result (λ f. plain_weight f ≤ put_weight g.now) }
{
    match put_form(alloc, g.get(), by, truth) {
        Ok(part) => known::not_known(alloc, part, truth),
        Err(error) => Err(error),
    }
}

#[cycle(replacing)]
#[inline(never)]
fn put_joined(
    alloc: Global,
    joining: Joining,
    g: &Shared<CForm>,
    h: &Shared<CForm>,
    by: &Arguments,
    truth: &mut Option<bool>,
) -> Result<Shared<CForm>, AllocError>
    requires params { max (form_params g.now) (form_params h.now) ≤ length by.now.args.now }
    requires small { All IsSmallArg by.now.args.now }
    requires weight { max (put_weight g.now) (put_weight h.now) ≤ 2 ^ 126 }
    ensures tree { IfOk result (λ f. f ≡
        joined_form joining (form_at by.now.args.now g.now) (form_at by.now.args.now h.now)) }
    ensures truth { IfOk result (λ f. truth.new ≡ fold.truth_of f) }
    ensures weight { IfOk result (λ f. plain_weight f ≤ max (put_weight g.now) (put_weight h.now)) }
{
    let mut first_truth = None;
    match put_form(alloc, g.get(), by, &mut first_truth) {
        Ok(first) => match put_form(alloc, h.get(), by, truth) {
            Ok(second) => known::joined_known(alloc, joining, first, first_truth, second, truth),
            Err(error) => Err(error),
        },
        Err(error) => Err(error),
    }
}

// The term with its parameters replaced; `number` is then that of the result.
#[cycle(replacing)]
fn put_term(
    alloc: Global,
    t: &CTerm,
    by: &Arguments,
    number: &mut Option<i128>,
) -> Result<Shared<CTerm>, AllocError>
    requires params { term_params t.now ≤ length by.now.args.now }
    requires small { All IsSmallArg by.now.args.now }
    requires weight { (put_weights t.now).most ≤ 2 ^ 126 }
    ensures tree { IfOk result (λ u. u ≡ term_at by.now.args.now t.now) }
    ensures number { IfOk result (λ u. number.new ≡ fold.number_of u) }
    ensures own { IfOk result (λ u. (plain_weights u).own ≤ (put_weights t.now).own) }
    ensures most { IfOk result (λ u. (plain_weights u).most ≤ (put_weights t.now).most) }
{
    match t {
        CTerm::Const(c) => known::constant_known(alloc, *c, number),
        CTerm::Slot(n) => known::variable_known(alloc, CTerm::Slot(*n), number),
        CTerm::Param(n) => put_arg(alloc, by.args, *n, number),
        CTerm::Add(a, b) => put_pair(alloc, Pairing::Sum, a, b, by, number),
        CTerm::Sub(a, b) => put_pair(alloc, Pairing::Difference, a, b, by, number),
        CTerm::Scale(k, a) => put_multiple(alloc, *k, a, by, number),
        CTerm::Div(a, k) => put_divided(alloc, Dividing::Quotient, a, *k, by, number),
        CTerm::Mod(a, k) => put_divided(alloc, Dividing::Remainder, a, *k, by, number),
        CTerm::Ite(c, a, b) => put_choice(alloc, c, a, b, by, number),
    }
}

#[cycle(replacing)]
#[inline(never)]
fn put_pair(
    alloc: Global,
    which: Pairing,
    a: &Shared<CTerm>,
    b: &Shared<CTerm>,
    by: &Arguments,
    number: &mut Option<i128>,
) -> Result<Shared<CTerm>, AllocError>
    requires params { max (term_params a.now) (term_params b.now) ≤ length by.now.args.now }
    requires small { All IsSmallArg by.now.args.now }
    requires weight { (sum_weights (put_weights a.now) (put_weights b.now)).most ≤ 2 ^ 126 }
    ensures tree { IfOk result (λ u. u ≡
        paired_term which (term_at by.now.args.now a.now) (term_at by.now.args.now b.now)) }
    ensures number { IfOk result (λ u. number.new ≡ fold.number_of u) }
    ensures own { IfOk result (λ u. (plain_weights u).own ≤ (put_weights a.now).own + (put_weights b.now).own) }
    ensures most { IfOk result (λ u. (plain_weights u).most ≤
        (sum_weights (put_weights a.now) (put_weights b.now)).most) }
{
    match put_term(alloc, a.get(), by, number) {
        Ok(first) => put_second(alloc, which, first, b, by, number),
        Err(error) => Err(error),
    }
}

// A sum or a difference where the first term is replaced; `number` is that of the first, and then of the result.
#[cycle(replacing)]
#[inline(never)]
fn put_second(
    alloc: Global,
    which: Pairing,
    first: Shared<CTerm>,
    b: &Shared<CTerm>,
    by: &Arguments,
    number: &mut Option<i128>,
) -> Result<Shared<CTerm>, AllocError>
    requires first { number.old ≡ fold.number_of first }
    requires params { term_params b.now ≤ length by.now.args.now }
    requires small { All IsSmallArg by.now.args.now }
    requires weight { (sum_weights (plain_weights first) (put_weights b.now)).most ≤ 2 ^ 126 }
    ensures tree { IfOk result (λ u. u ≡ paired_term which first (term_at by.now.args.now b.now)) }
    ensures number { IfOk result (λ u. number.new ≡ fold.number_of u) }
    ensures own { IfOk result (λ u. (plain_weights u).own ≤ (plain_weights first).own + (put_weights b.now).own) }
    ensures most { IfOk result (λ u. (plain_weights u).most ≤
        (sum_weights (plain_weights first) (put_weights b.now)).most) }
{
    let first_number = *number;
    match put_term(alloc, b.get(), by, number) {
        Ok(second) => known::paired_known(alloc, which, first, first_number, second, number),
        Err(error) => Err(error),
    }
}

#[cycle(replacing)]
#[inline(never)]
fn put_multiple(
    alloc: Global,
    k: i64,
    a: &Shared<CTerm>,
    by: &Arguments,
    number: &mut Option<i128>,
) -> Result<Shared<CTerm>, AllocError>
    requires params { term_params a.now ≤ length by.now.args.now }
    requires small { All IsSmallArg by.now.args.now }
    requires weight { (multiple_weights k (put_weights a.now)).most ≤ 2 ^ 126 }
    ensures tree { IfOk result (λ u. u ≡ fold.scaled_term k (term_at by.now.args.now a.now)) }
    ensures number { IfOk result (λ u. number.new ≡ fold.number_of u) }
    ensures own { IfOk result (λ u. (plain_weights u).own ≤ unsigned_abs k * (put_weights a.now).own) }
    ensures most { IfOk result (λ u. (plain_weights u).most ≤ (multiple_weights k (put_weights a.now)).most) }
{
    match put_term(alloc, a.get(), by, number) {
        Ok(part) => known::scaled_known(alloc, k, part, number),
        Err(error) => Err(error),
    }
}

#[cycle(replacing)]
#[inline(never)]
fn put_divided(
    alloc: Global,
    which: Dividing,
    a: &Shared<CTerm>,
    k: i64,
    by: &Arguments,
    number: &mut Option<i128>,
) -> Result<Shared<CTerm>, AllocError>
    requires params { term_params a.now ≤ length by.now.args.now }
    requires small { All IsSmallArg by.now.args.now }
    requires weight { (put_weights a.now).most ≤ 2 ^ 126 }
    ensures tree { IfOk result (λ u. u ≡ divided_term which k (term_at by.now.args.now a.now)) }
    ensures number { IfOk result (λ u. number.new ≡ fold.number_of u) }
    ensures own { IfOk result (λ u. (plain_weights u).own ≤ (divided_weights which k (put_weights a.now)).own) }
    ensures most { IfOk result (λ u. (plain_weights u).most ≤ (divided_weights which k (put_weights a.now)).most) }
{
    match put_term(alloc, a.get(), by, number) {
        Ok(part) => known::divided_known(alloc, which, k, part, number),
        Err(error) => Err(error),
    }
}

// A choice whose condition's truth is known is the branch that it chooses.
#[cycle(replacing)]
#[inline(never)]
fn put_choice(
    alloc: Global,
    c: &Shared<CForm>,
    a: &Shared<CTerm>,
    b: &Shared<CTerm>,
    by: &Arguments,
    number: &mut Option<i128>,
) -> Result<Shared<CTerm>, AllocError>
    requires params { max (form_params c.now) (max (term_params a.now) (term_params b.now)) ≤ length by.now.args.now }
    requires small { All IsSmallArg by.now.args.now }
    requires condition { put_weight c.now ≤ 2 ^ 126 }
    requires most { max (put_weights a.now).most (put_weights b.now).most ≤ 2 ^ 126 }
    ensures tree { IfOk result (λ u. u ≡ choice_at by.now.args.now c.now a.now b.now) }
    ensures number { IfOk result (λ u. number.new ≡ fold.number_of u) }
    ensures own { IfOk result (λ u. (plain_weights u).own ≤ max (put_weights a.now).own (put_weights b.now).own) }
    ensures most { IfOk result (λ u. (plain_weights u).most ≤
        (choice_weights (put_weight c.now) (put_weights a.now) (put_weights b.now)).most) }
{
    let mut truth = None;
    match put_form(alloc, c.get(), by, &mut truth) {
        Ok(condition) => match truth {
            Some(true) => put_term(alloc, a.get(), by, number),
            Some(false) => put_term(alloc, b.get(), by, number),
            None => put_branches(alloc, condition, a, b, by, number),
        },
        Err(error) => Err(error),
    }
}

// A choice whose condition's truth is not known.
#[cycle(replacing)]
#[inline(never)]
fn put_branches(
    alloc: Global,
    condition: Shared<CForm>,
    a: &Shared<CTerm>,
    b: &Shared<CTerm>,
    by: &Arguments,
    number: &mut Option<i128>,
) -> Result<Shared<CTerm>, AllocError>
    requires unknown { fold.truth_of condition ≡ None }
    requires params { max (term_params a.now) (term_params b.now) ≤ length by.now.args.now }
    requires small { All IsSmallArg by.now.args.now }
    requires most { max (put_weights a.now).most (put_weights b.now).most ≤ 2 ^ 126 }
    ensures tree { IfOk result (λ u. u ≡
        term.Ite condition (term_at by.now.args.now a.now) (term_at by.now.args.now b.now)) }
    ensures number { IfOk result (λ u. number.new ≡ fold.number_of u) }
    ensures own { IfOk result (λ u. (plain_weights u).own ≤ max (put_weights a.now).own (put_weights b.now).own) }
    ensures most { IfOk result (λ u. (plain_weights u).most ≤
        (choice_weights (plain_weight condition) (put_weights a.now) (put_weights b.now)).most) }
{
    match put_term(alloc, a.get(), by, number) {
        Ok(first) => put_last(alloc, condition, first, b, by, number),
        Err(error) => Err(error),
    }
}

// A choice whose first branch is at hand.
#[cycle(replacing)]
#[inline(never)]
fn put_last(
    alloc: Global,
    condition: Shared<CForm>,
    first: Shared<CTerm>,
    b: &Shared<CTerm>,
    by: &Arguments,
    number: &mut Option<i128>,
) -> Result<Shared<CTerm>, AllocError>
    requires unknown { fold.truth_of condition ≡ None }
    requires params { term_params b.now ≤ length by.now.args.now }
    requires small { All IsSmallArg by.now.args.now }
    requires most { (put_weights b.now).most ≤ 2 ^ 126 }
    ensures tree { IfOk result (λ u. u ≡ term.Ite condition first (term_at by.now.args.now b.now)) }
    ensures number { IfOk result (λ u. number.new ≡ fold.number_of u) }
    ensures own { IfOk result (λ u. (plain_weights u).own ≤ max (plain_weights first).own (put_weights b.now).own) }
    ensures most { IfOk result (λ u. (plain_weights u).most ≤
        (choice_weights (plain_weight condition) (plain_weights first) (put_weights b.now)).most) }
{
    match put_term(alloc, b.get(), by, number) {
        Ok(second) => known::variable_known(alloc, CTerm::Ite(condition, first, second), number),
        Err(error) => Err(error),
    }
}
