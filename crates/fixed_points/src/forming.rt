// The formula of where a state is a fixed point.
ghost use Rattle.std.specs.Prelude.{◌≡◌, ◌^◌, ◌≤◌, IfOk, OnOk, Some, All, length, map};
ghost use Rattle.core_terms.specs.declared.trees.CTerm.TheVariants.{Slot};
ghost use Rattle.core_terms.specs.Weights.{plain_weights, plain_weight};
ghost use Rattle.core_terms.specs.Conditions.{StatementFits};
ghost use Rattle.core_terms.specs.Folding as fold;
ghost use Rattle.core_terms.specs.Places.{form_slots, form_params};
ghost use Rattle.wp_substitution.specs.Joined.{joined_all, ConjunctionKnown, IsLightWrite};
ghost use Rattle.wp_substitution.specs.Preconditions.{all_of};
ghost use Rattle.fixed_points.specs.FixedForms as form_of;
ghost use Rattle.fixed_points.specs.FixedForms.{HoldsWhereLedBack, HoldsWhereFixed, StaysTrue};

use core_terms::{
    CForm, CProgram, CSlot, CStmt, CTerm, CWrite, Joining, Pairing, Sense, held_form, held_term,
    joined_known, not_known, number_of, owned_form, paired_known, sense_known, truth_of,
};
use std::alloc::{AllocError, Global};
use unity_base::Shared;
use wp_substitution::{Conjunction, defined};

/// The formula that is true at a state exactly where it is a fixed point of the program: each statement is defined
/// there, and each write that is made leaves its slot as it is. It is folded (this profile).
///
/// An error says that memory was refused.
pub fn fixed_form(alloc: Global, p: &CProgram, slots: &[CSlot]) -> Result<CForm, AllocError>
    requires { All (StatementFits slots.now) p.now.statements }
    ensures tree { IfOk result (λ f. f ≡ form_of.fixed_form slots.now p.now) }
    ensures meaning { IfOk result (HoldsWhereFixed slots.now p.now) }
    ensures stable { IfOk result (StaysTrue slots.now p.now) }
{
    let mut all = Conjunction::new();
    add_parts(alloc, &mut all, p.statements.as_slice(), slots)?;
    Ok(owned_form(alloc, all.into_form(alloc)?)?)
}

// That the steps of all statements lead back.
#[tactic(auto, using(wp_substitution::proofs::KnownLaws::folded_laws))]
fn add_parts(
    alloc: Global,
    all: &mut Conjunction,
    statements: &[Shared<CStmt>],
    slots: &[CSlot],
) -> Result<(), AllocError>
    requires known { ConjunctionKnown all.old }
    requires fits { All (StatementFits slots.now) statements.now }
    ensures whole { OnOk result (all.new.whole ≡
        joined_all all.old.whole (map (form_of.fixed_part slots.now) statements.now)) }
    ensures known { OnOk result (ConjunctionKnown all.new) }
{
    for s in statements {
        let part = fixed_part(alloc, s.get(), slots)?;
        let truth = truth_of(part.get());
        all.add(alloc, part, truth)?;
    }
    Ok(())
}

/// One statement's part of that formula: it is true at a state exactly where the statement's step leads back to it.
///
/// An error says that memory was refused.
pub fn fixed_part(alloc: Global, s: &CStmt, slots: &[CSlot]) -> Result<Shared<CForm>, AllocError>
    requires { StatementFits slots.now s.now }
    ensures tree { IfOk result (λ f. f ≡ form_of.fixed_part slots.now s.now) }
    ensures meaning { IfOk result (HoldsWhereLedBack slots.now s.now) }
    ensures weight { IfOk result (λ f. plain_weight f ≤ 2 ^ 65) }
    ensures slots { IfOk result (λ f. form_slots f ≤ length slots.now) }
    ensures params { IfOk result (λ f. form_params f ≤ 0) }
{
    let first = Shared::new(alloc, defined(alloc, s, slots)?)?;
    let known = truth_of(first.get());
    let mut truth = None;
    let same = all_same(alloc, s.writes.as_slice(), &mut truth)?;
    joined_known(alloc, Joining::Both, first, known, same, &mut truth)
}

// That each write, where it is made, leaves its slot as it is; `truth` is then that of the result.
#[tactic(auto, using(wp_substitution::proofs::KnownLaws::folded_laws))]
fn all_same(
    alloc: Global,
    writes: &[CWrite],
    truth: &mut Option<bool>,
) -> Result<Shared<CForm>, AllocError>
    requires { All IsLightWrite writes.now }
    ensures tree { IfOk result (λ f. f ≡ all_of (map form_of.same_value writes.now)) }
    ensures truth { IfOk result (λ f. truth.new ≡ fold.truth_of f) }
    ensures weight { IfOk result (λ f. plain_weight f ≤ 2 ^ 65) }
{
    let mut all = Conjunction::new();
    for w in writes {
        let mut known = None;
        let same = same_value(alloc, w, &mut known)?;
        all.add(alloc, same, known)?;
    }
    *truth = all.truth;
    all.into_form(alloc)
}

// That the write, where it is made, leaves its slot as it is.
fn same_value(
    alloc: Global,
    w: &CWrite,
    truth: &mut Option<bool>,
) -> Result<Shared<CForm>, AllocError>
    requires { IsLightWrite w.now }
    ensures tree { IfOk result (λ f. f ≡ form_of.same_value w.now) }
    ensures truth { IfOk result (λ f. truth.new ≡ fold.truth_of f) }
    ensures weight { IfOk result (λ f. plain_weight f ≤ 2 ^ 65) }
{
    let mut first = truth_of(&w.when);
    let when = held_form(alloc, &w.when)?;
    let idle = not_known(alloc, when, &mut first)?;
    let equal = equal(alloc, &w.value, w.slot, truth)?;
    joined_known(alloc, Joining::Either, idle, first, equal, truth)
}

// That a value is what the slot has.
#[tactic(auto, using(crate::proofs::SlotLaws::slot_laws))]
fn equal(
    alloc: Global,
    value: &CTerm,
    slot: u32,
    truth: &mut Option<bool>,
) -> Result<Shared<CForm>, AllocError>
    requires own { (plain_weights value.now).own ≤ 2 ^ 62 }
    requires most { (plain_weights value.now).most ≤ 2 ^ 62 }
    ensures tree { IfOk result (λ f. f ≡ fold.zero_form (fold.difference_term value.now (Slot slot))) }
    ensures truth { IfOk result (λ f. truth.new ≡ fold.truth_of f) }
    ensures weight { IfOk result (λ f. plain_weight f ≤ 2 ^ 65) }
{
    let mut number = None;
    let known = number_of(value);
    let first = held_term(alloc, value)?;
    let second = Shared::new(alloc, CTerm::Slot(slot))?;
    let apart = paired_known(
        alloc,
        Pairing::Difference,
        first,
        known,
        second,
        &mut number,
    )?;
    sense_known(alloc, Sense::Zero, apart, number, truth)
}
