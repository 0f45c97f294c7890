// A formula with its slots replaced by what the table says of them, all at once. A replaced part stands in a place of
// its own, and what is known of it is handed back beside it, so that no part is looked down again. Each kind of node
// has a function of its own, and so has each part after the first: so the frames are small, and the deepest formula is
// within a small stack. What has failed is handed on as it is, so that a last call takes no frame.
ghost use Rattle.std.specs.Prelude.{◌≡◌, ◌+◌, ◌*◌, ◌^◌, ◌≤◌, IfOk, None, max};
ghost use Rattle.std.specs.Int.RustNames.{unsigned_abs};
ghost use Rattle.core_terms.specs.declared.trees.CTerm.TheVariants as term;
ghost use Rattle.core_terms.specs.Weights.{plain_weights, plain_weight, sum_weights, multiple_weights, choice_weights};
ghost use Rattle.core_terms.specs.Folding as fold;
ghost use Rattle.core_terms.specs.Senses.{paired_term, divided_term, divided_weights, sense_form, joined_form};
ghost use Rattle.wp_substitution.specs.Chains.{chain_at, AreChains, form_by, term_by, choice_by, after_weights};
ghost use Rattle.wp_substitution.specs.Chains.{after_weight};

use crate::chains::Chain;
use core_terms::from_unity_base::Shared;
use core_terms::{
    CForm, CTerm, Dividing, Joining, Pairing, Sense, constant_known, divided_known, joined_known,
    not_known, paired_known, scaled_known, sense_known, truth_known, variable_known,
};
use std::alloc::{AllocError, Global};
use std::collections::BTreeMap;

/// The formula with its slots replaced; `truth` is then that of the result.
///
/// An error says that memory was refused.
#[cycle(after)]
pub fn form_after(
    alloc: Global,
    f: &CForm,
    chains: &BTreeMap<u32, Chain>,
    truth: &mut Option<bool>,
) -> Result<Shared<CForm>, AllocError>
    requires known { AreChains chains.now }
    requires weight { after_weight f.now ≤ 2 ^ 126 }
    ensures tree { IfOk result (λ g. g ≡ form_by chains.now f.now) }
    ensures truth { IfOk result (λ g. truth.new ≡ fold.truth_of g) }
    ensures weight { IfOk result (λ g. plain_weight g ≤ after_weight f.now) }
{
    match f {
        CForm::Top => truth_known(alloc, true, truth),
        CForm::Bottom => truth_known(alloc, false, truth),
        CForm::AtLeast(t) => sense_after(alloc, Sense::AtLeast, t, chains, truth),
        CForm::Zero(t) => sense_after(alloc, Sense::Zero, t, chains, truth),
        CForm::Not(g) => not_after(alloc, g, chains, truth),
        CForm::And(g, h) => joined_after(alloc, Joining::Both, g, h, chains, truth),
        CForm::Or(g, h) => joined_after(alloc, Joining::Either, g, h, chains, truth),
    }
}

#[cycle(after)]
#[inline(never)]
fn sense_after(
    alloc: Global,
    sense: Sense,
    t: &CTerm,
    chains: &BTreeMap<u32, Chain>,
    truth: &mut Option<bool>,
) -> Result<Shared<CForm>, AllocError>
    requires known { AreChains chains.now }
    requires weight { (after_weights t.now).most ≤ 2 ^ 126 }
    ensures tree { IfOk result (λ f. f ≡ sense_form sense (term_by chains.now t.now)) }
    ensures truth { IfOk result (λ f. truth.new ≡ fold.truth_of f) }
    ensures weight { IfOk result (λ f. plain_weight f ≤ (after_weights t.now).most) }
{
    let mut number = None;
    match term_after(alloc, t, chains, &mut number) {
        Ok(part) => sense_known(alloc, sense, part, number, truth),
        Err(error) => Err(error),
    }
}

#[cycle(after)]
#[inline(never)]
fn not_after(
    alloc: Global,
    g: &Shared<CForm>,
    chains: &BTreeMap<u32, Chain>,
    truth: &mut Option<bool>,
) -> Result<Shared<CForm>, AllocError>
    requires known { AreChains chains.now }
    requires weight { after_weight g.now ≤ 2 ^ 126 }
    ensures tree { IfOk result (λ f. f ≡ fold.not_form (form_by chains.now g.now)) }
    ensures truth { IfOk result (λ f. truth.new ≡ fold.truth_of f) }
    ensures weight { IfOk result (λ f. plain_weight f ≤ after_weight g.now) }
{
    match form_after(alloc, g.get(), chains, truth) {
        Ok(part) => not_known(alloc, part, truth),
        Err(error) => Err(error),
    }
}

#[cycle(after)]
#[inline(never)]
fn joined_after(
    alloc: Global,
    joining: Joining,
    g: &Shared<CForm>,
    h: &Shared<CForm>,
    chains: &BTreeMap<u32, Chain>,
    truth: &mut Option<bool>,
) -> Result<Shared<CForm>, AllocError>
    requires known { AreChains chains.now }
    requires weight { max (after_weight g.now) (after_weight h.now) ≤ 2 ^ 126 }
    ensures tree { IfOk result (λ f. f ≡ joined_form joining (form_by chains.now g.now) (form_by chains.now h.now)) }
    ensures truth { IfOk result (λ f. truth.new ≡ fold.truth_of f) }
    ensures weight { IfOk result (λ f. plain_weight f ≤ max (after_weight g.now) (after_weight h.now)) }
{
    match form_after(alloc, g.get(), chains, truth) {
        Ok(first) => other_after(alloc, joining, first, h, chains, truth),
        failed => failed,
    }
}

// Two formulas joined where the first is replaced; `truth` is that of the first, and then of the result.
#[cycle(after)]
#[inline(never)]
fn other_after(
    alloc: Global,
    joining: Joining,
    first: Shared<CForm>,
    h: &Shared<CForm>,
    chains: &BTreeMap<u32, Chain>,
    truth: &mut Option<bool>,
) -> Result<Shared<CForm>, AllocError>
    requires first { truth.old ≡ fold.truth_of first }
    requires known { AreChains chains.now }
    requires weight { after_weight h.now ≤ 2 ^ 126 }
    ensures tree { IfOk result (λ f. f ≡ joined_form joining first (form_by chains.now h.now)) }
    ensures truth { IfOk result (λ f. truth.new ≡ fold.truth_of f) }
    ensures weight { IfOk result (λ f. plain_weight f ≤ max (plain_weight first) (after_weight h.now)) }
{
    let known = *truth;
    match form_after(alloc, h.get(), chains, truth) {
        Ok(second) => joined_known(alloc, joining, first, known, second, truth),
        Err(error) => Err(error),
    }
}

// The term with its slots replaced; `number` is then that of the result.
#[cycle(after)]
fn term_after(
    alloc: Global,
    t: &CTerm,
    chains: &BTreeMap<u32, Chain>,
    number: &mut Option<i128>,
) -> Result<Shared<CTerm>, AllocError>
    requires known { AreChains chains.now }
    requires weight { (after_weights t.now).most ≤ 2 ^ 126 }
    ensures tree { IfOk result (λ u. u ≡ term_by chains.now t.now) }
    ensures number { IfOk result (λ u. number.new ≡ fold.number_of u) }
    ensures own { IfOk result (λ u. (plain_weights u).own ≤ (after_weights t.now).own) }
    ensures most { IfOk result (λ u. (plain_weights u).most ≤ (after_weights t.now).most) }
{
    match t {
        CTerm::Const(c) => constant_known(alloc, *c, number),
        CTerm::Slot(n) => chain_of(alloc, chains, *n, number),
        CTerm::Param(n) => variable_known(alloc, CTerm::Param(*n), number),
        CTerm::Add(a, b) => pair_after(alloc, Pairing::Sum, a, b, chains, number),
        CTerm::Sub(a, b) => pair_after(alloc, Pairing::Difference, a, b, chains, number),
        CTerm::Scale(k, a) => multiple_after(alloc, *k, a, chains, number),
        CTerm::Div(a, k) => divided_after(alloc, Dividing::Quotient, a, *k, chains, number),
        CTerm::Mod(a, k) => divided_after(alloc, Dividing::Remainder, a, *k, chains, number),
        CTerm::Ite(c, a, b) => choice_after(alloc, c, a, b, chains, number),
    }
}

#[cycle(after)]
#[inline(never)]
fn pair_after(
    alloc: Global,
    which: Pairing,
    a: &Shared<CTerm>,
    b: &Shared<CTerm>,
    chains: &BTreeMap<u32, Chain>,
    number: &mut Option<i128>,
) -> Result<Shared<CTerm>, AllocError>
    requires known { AreChains chains.now }
    requires weight { (sum_weights (after_weights a.now) (after_weights b.now)).most ≤ 2 ^ 126 }
    ensures tree { IfOk result (λ u. u ≡ paired_term which (term_by chains.now a.now) (term_by chains.now b.now)) }
    ensures number { IfOk result (λ u. number.new ≡ fold.number_of u) }
    ensures own { IfOk result (λ u. (plain_weights u).own ≤ (after_weights a.now).own + (after_weights b.now).own) }
    ensures most { IfOk result (λ u. (plain_weights u).most ≤
        (sum_weights (after_weights a.now) (after_weights b.now)).most) }
{
    match term_after(alloc, a.get(), chains, number) {
        Ok(first) => second_after(alloc, which, first, b, chains, number),
        failed => failed,
    }
}

// A sum or a difference where the first term is replaced; `number` is that of the first, and then of the result.
#[cycle(after)]
#[inline(never)]
fn second_after(
    alloc: Global,
    which: Pairing,
    first: Shared<CTerm>,
    b: &Shared<CTerm>,
    chains: &BTreeMap<u32, Chain>,
    number: &mut Option<i128>,
) -> Result<Shared<CTerm>, AllocError>
    requires first { number.old ≡ fold.number_of first }
    requires known { AreChains chains.now }
    requires weight { (sum_weights (plain_weights first) (after_weights b.now)).most ≤ 2 ^ 126 }
    ensures tree { IfOk result (λ u. u ≡ paired_term which first (term_by chains.now b.now)) }
    ensures number { IfOk result (λ u. number.new ≡ fold.number_of u) }
    ensures own { IfOk result (λ u. (plain_weights u).own ≤ (plain_weights first).own + (after_weights b.now).own) }
    ensures most { IfOk result (λ u. (plain_weights u).most ≤
        (sum_weights (plain_weights first) (after_weights b.now)).most) }
{
    let known = *number;
    match term_after(alloc, b.get(), chains, number) {
        Ok(second) => paired_known(alloc, which, first, known, second, number),
        Err(error) => Err(error),
    }
}

#[cycle(after)]
#[inline(never)]
fn multiple_after(
    alloc: Global,
    k: i64,
    a: &Shared<CTerm>,
    chains: &BTreeMap<u32, Chain>,
    number: &mut Option<i128>,
) -> Result<Shared<CTerm>, AllocError>
    requires known { AreChains chains.now }
    requires weight { (multiple_weights k (after_weights a.now)).most ≤ 2 ^ 126 }
    ensures tree { IfOk result (λ u. u ≡ fold.scaled_term k (term_by chains.now a.now)) }
    ensures number { IfOk result (λ u. number.new ≡ fold.number_of u) }
    ensures own { IfOk result (λ u. (plain_weights u).own ≤ unsigned_abs k * (after_weights a.now).own) }
    ensures most { IfOk result (λ u. (plain_weights u).most ≤ (multiple_weights k (after_weights a.now)).most) }
{
    match term_after(alloc, a.get(), chains, number) {
        Ok(part) => scaled_known(alloc, k, part, number),
        Err(error) => Err(error),
    }
}

#[cycle(after)]
#[inline(never)]
fn divided_after(
    alloc: Global,
    which: Dividing,
    a: &Shared<CTerm>,
    k: i64,
    chains: &BTreeMap<u32, Chain>,
    number: &mut Option<i128>,
) -> Result<Shared<CTerm>, AllocError>
    requires known { AreChains chains.now }
    requires weight { (after_weights a.now).most ≤ 2 ^ 126 }
    ensures tree { IfOk result (λ u. u ≡ divided_term which k (term_by chains.now a.now)) }
    ensures number { IfOk result (λ u. number.new ≡ fold.number_of u) }
    ensures own { IfOk result (λ u. (plain_weights u).own ≤ (divided_weights which k (after_weights a.now)).own) }
    ensures most { IfOk result (λ u. (plain_weights u).most ≤ (divided_weights which k (after_weights a.now)).most) }
{
    match term_after(alloc, a.get(), chains, number) {
        Ok(part) => divided_known(alloc, which, k, part, number),
        Err(error) => Err(error),
    }
}

// A choice whose first branch is at hand.
#[cycle(after)]
#[inline(never)]
fn last_after(
    alloc: Global,
    condition: Shared<CForm>,
    first: Shared<CTerm>,
    b: &Shared<CTerm>,
    chains: &BTreeMap<u32, Chain>,
    number: &mut Option<i128>,
) -> Result<Shared<CTerm>, AllocError>
    requires unknown { fold.truth_of condition ≡ None }
    requires known { AreChains chains.now }
    requires most { (after_weights b.now).most ≤ 2 ^ 126 }
    ensures tree { IfOk result (λ u. u ≡ term.Ite condition first (term_by chains.now b.now)) }
    ensures number { IfOk result (λ u. number.new ≡ fold.number_of u) }
    ensures own { IfOk result (λ u. (plain_weights u).own ≤ max (plain_weights first).own (after_weights b.now).own) }
    ensures most { IfOk result (λ u. (plain_weights u).most ≤
        (choice_weights (plain_weight condition) (plain_weights first) (after_weights b.now)).most) }
{
    match term_after(alloc, b.get(), chains, number) {
        Ok(second) => variable_known(alloc, CTerm::Ite(condition, first, second), number),
        Err(error) => Err(error),
    }
}

// A choice whose condition's truth is not known.
#[cycle(after)]
#[inline(never)]
fn branches_after(
    alloc: Global,
    condition: Shared<CForm>,
    a: &Shared<CTerm>,
    b: &Shared<CTerm>,
    chains: &BTreeMap<u32, Chain>,
    number: &mut Option<i128>,
) -> Result<Shared<CTerm>, AllocError>
    requires unknown { fold.truth_of condition ≡ None }
    requires known { AreChains chains.now }
    requires most { max (after_weights a.now).most (after_weights b.now).most ≤ 2 ^ 126 }
    ensures tree { IfOk result (λ u. u ≡ term.Ite condition (term_by chains.now a.now) (term_by chains.now b.now)) }
    ensures number { IfOk result (λ u. number.new ≡ fold.number_of u) }
    ensures own { IfOk result (λ u. (plain_weights u).own ≤ max (after_weights a.now).own (after_weights b.now).own) }
    ensures most { IfOk result (λ u. (plain_weights u).most ≤
        (choice_weights (plain_weight condition) (after_weights a.now) (after_weights b.now)).most) }
{
    match term_after(alloc, a.get(), chains, number) {
        Ok(first) => last_after(alloc, condition, first, b, chains, number),
        failed => failed,
    }
}

// A choice whose condition's truth is known is the branch that it chooses.
#[cycle(after)]
#[inline(never)]
fn choice_after(
    alloc: Global,
    c: &Shared<CForm>,
    a: &Shared<CTerm>,
    b: &Shared<CTerm>,
    chains: &BTreeMap<u32, Chain>,
    number: &mut Option<i128>,
) -> Result<Shared<CTerm>, AllocError>
    requires known { AreChains chains.now }
    requires condition { after_weight c.now ≤ 2 ^ 126 }
    requires most { max (after_weights a.now).most (after_weights b.now).most ≤ 2 ^ 126 }
    ensures tree { IfOk result (λ u. u ≡ choice_by chains.now c.now a.now b.now) }
    ensures number { IfOk result (λ u. number.new ≡ fold.number_of u) }
    ensures own { IfOk result (λ u. (plain_weights u).own ≤ max (after_weights a.now).own (after_weights b.now).own) }
    ensures most { IfOk result (λ u. (plain_weights u).most ≤
        (choice_weights (after_weight c.now) (after_weights a.now) (after_weights b.now)).most) }
{
    let mut truth = None;
    match form_after(alloc, c.get(), chains, &mut truth) {
        Ok(condition) => match truth {
            Some(true) => term_after(alloc, a.get(), chains, number),
            Some(false) => term_after(alloc, b.get(), chains, number),
            None => branches_after(alloc, condition, a, b, chains, number),
        },
        Err(error) => Err(error),
    }
}

// What a slot holds after the writes.
#[inline(never)]
fn chain_of(
    alloc: Global,
    chains: &BTreeMap<u32, Chain>,
    slot: u32,
    number: &mut Option<i128>,
) -> Result<Shared<CTerm>, AllocError>
    requires { AreChains chains.now }
    ensures tree { IfOk result (λ u. u ≡ chain_at chains.now slot) }
    ensures number { IfOk result (λ u. number.new ≡ fold.number_of u) }
    ensures own { IfOk result (λ u. (plain_weights u).own ≤ 2 ^ 62) }
    ensures most { IfOk result (λ u. (plain_weights u).most ≤ 2 ^ 62) }
{
    match chains.get(&slot) {
        Some(chain) => {
            *number = chain.number;
            chain.term.share()
        }
        None => variable_known(alloc, CTerm::Slot(slot), number),
    }
}
