//! Writes, and what stands in their place where an index is outside.

ghost use Rattle.std.specs.Prelude.{◌≡◌, ◌∷◌, [], ◌++◌, ◌+◌, ◌^◌, ◌≤◌, ◌<◌, ◌&&◌, List, ℕ, Some, true, false, OnOk};
ghost use Rattle.std.specs.Prelude.{MatchOption};
ghost use Rattle.std.specs.Option.{option_and_then, option_map};
ghost use Rattle.core_terms.specs.Folding.{and_form, not_form, number_of};
ghost use Rattle.meaning_documents.specs.Names.{slot_at};
ghost use Rattle.meaning_executions.specs.Counting.{range_size};
ghost use Rattle.meaning_documents.specs.Setting.{slots_for};
ghost use Rattle.expand_expressions.specs.Sound.{IsSound, of_number, of_truth};
ghost use Rattle.expand_expressions.specs.Places.{ends_of, variable_of};
ghost use Rattle.expand_rules.specs.Assigning as spec;
ghost use Rattle.expand_assignments.specs.Adding.{Adds, slot_ends};

use crate::arrays::{outside, push_spread};
use crate::counts::{both_counts, count_in, index_count, spread_count, stray_count, write_count};
use crate::places::ArraySlots;
use core_terms::{CWrite, copy_form, owned_form, owned_term};
use expand_expressions::{NumberCore, Refusal, TruthCore, VariableSlots};
use expand_rules::{Count, Effect};
use std::alloc::{AllocError, Global};

fn push_outside(alloc: Global, c: &TruthCore, effect: &mut Effect) -> Result<(), AllocError>
    ensures { OnOk result (effect.new ≡ record effect.old { outside = effect.old.outside ++ c.now.form ∷ [] }) }
{
    let form = copy_form(alloc, c.form.get())?;
    effect.outside.push(form)
}

fn push_plain(
    alloc: Global,
    slot: u32,
    c: &TruthCore,
    v: NumberCore,
    effect: &mut Effect,
) -> Result<(), AllocError>
    ensures { OnOk result (effect.new ≡ record effect.old {
      writes = effect.old.writes ++ (record { slot = slot; when = c.now.form; value = v.term }) ∷ [];
    }) }
{
    let when = copy_form(alloc, c.form.get())?;
    effect.writes.push(CWrite {
        slot,
        when,
        value: owned_term(alloc, v.term)?,
    })
}

/// A write to a slot, or outside where there is none.
pub fn write_to(
    alloc: Global,
    slot: Option<u32>,
    c: &TruthCore,
    v: NumberCore,
    count: Count,
    effect: &mut Effect,
) -> Result<(), Refusal>
    ensures { Adds result effect.old effect.new (spec.write_to slot c.now.form v.term count) }
{
    count_in(count, effect)?;
    match slot {
        None => push_outside(alloc, c, effect)?,
        Some(slot) => push_plain(alloc, slot, c, v, effect)?,
    }
    Ok(())
}

/// Makes an effect exact only where this is so.
pub fn mark(exact: bool, effect: &mut Effect)
    ensures { effect.new ≡ record effect.old { exact = effect.old.exact && exact } }
{
    effect.exact &= exact;
}

fn slot_of(index: &NumberCore, slots: &ArraySlots) -> Option<u32>
    requires { IsSound (of_number index.now) }
    ensures { result ≡ option_and_then
        (λ k. slot_at slots.now.first (Some (slot_ends slots.now)) (Some k)) (number_of index.now.term) }
{
    match index.known {
        None => None,
        Some(number) => slots.slot_at(number),
    }
}

fn write_constant(
    alloc: Global,
    index: &NumberCore,
    slots: &ArraySlots,
    c: &TruthCore,
    v: NumberCore,
    effect: &mut Effect,
) -> Result<(), Refusal>
    requires sound { IsSound (of_number index.now) }
    requires constant { index.now.constant ≡ true }
    ensures { Adds result effect.old effect.new
        (spec.array_effect (of_number index.now) slots.now.first (slot_ends slots.now) (of_truth c.now) (of_number v)) }
{
    let count = both_counts(
        index_count(index.measure),
        write_count(c.measure, v.measure),
    );
    write_to(alloc, slot_of(index, slots), c, v, count, effect)
}

fn push_open(
    alloc: Global,
    index: &NumberCore,
    slots: &ArraySlots,
    c: &TruthCore,
    v: &NumberCore,
    effect: &mut Effect,
) -> Result<(), AllocError>
    requires index { IsSound (of_number index.now) }
    requires light { index.now.measure.most ≤ 2 ^ 62 }
    requires condition { IsSound (of_truth c.now) }
    ensures { OnOk result (effect.new ≡ record effect.old {
      outside = effect.old.outside ++ and_form c.now.form
          (not_form (spec.any_of (spec.equations index.now.term slots.now.ends.lo
          (range_size (slot_ends slots.now))))) ∷ [];
      writes = effect.old.writes ++ spec.spread index.now.term slots.now.ends.lo slots.now.first
          (range_size (slot_ends slots.now)) c.now.form v.now.term;
    }) }
{
    let form = owned_form(alloc, outside(alloc, index, slots, c)?)?;
    effect.outside.push(form)?;
    push_spread(alloc, index, slots, c, v.term.get(), &mut effect.writes)
}

// An index that weighs this much makes the whole too large.
#[tactic(auto, using(crate::proofs::EffectLaws::heavy_open))]
fn write_open(
    alloc: Global,
    index: &NumberCore,
    slots: &ArraySlots,
    c: &TruthCore,
    v: &NumberCore,
    effect: &mut Effect,
) -> Result<(), Refusal>
    requires index { IsSound (of_number index.now) }
    requires condition { IsSound (of_truth c.now) }
    requires open { index.now.constant ≡ false }
    ensures { Adds result effect.old effect.new
        (spec.array_effect (of_number index.now) slots.now.first (slot_ends slots.now)
        (of_truth c.now) (of_number v.now)) }
{
    if index.measure.most > 1 << 62 {
        return Err(Refusal::TooLarge);
    }
    let count = spread_count(slots.len(), slots.ends, index.measure, c.measure, v.measure);
    count_in(count, effect)?;
    push_open(alloc, index, slots, c, v, effect)?;
    Ok(())
}

/// A write at an index of an array.
pub fn write_element(
    alloc: Global,
    index: &NumberCore,
    slots: &ArraySlots,
    c: &TruthCore,
    v: NumberCore,
    effect: &mut Effect,
) -> Result<(), Refusal>
    requires index { IsSound (of_number index.now) }
    requires condition { IsSound (of_truth c.now) }
    ensures { Adds result effect.old effect.new
        (spec.array_effect (of_number index.now) slots.now.first (slot_ends slots.now) (of_truth c.now) (of_number v)) }
{
    if index.constant {
        write_constant(alloc, index, slots, c, v, effect)
    } else {
        write_open(alloc, index, slots, c, &v, effect)
    }
}

fn is_beyond(index: &NumberCore, slots: &ArraySlots) -> bool
    requires { IsSound (of_number index.now) }
    ensures { result ≡ spec.is_beyond (of_number index.now) slots.now.first (Some (slot_ends slots.now)) }
{
    index.constant & slot_of(index, slots).is_none()
}

/// Whether an index is constant and lies outside the array.
pub fn is_outside(index: &NumberCore, variable: Option<VariableSlots>) -> bool
    requires within { MatchOption variable (Unit {0})
        (λ x. x.first + slots_for (option_map ends_of x.indices) ≤ 2 ^ 32) }
    requires index { IsSound (of_number index.now) }
    ensures { (name : List ℕ) →
        result ≡ spec.is_outside (of_number index.now) (option_map (variable_of name) variable) }
{
    match variable {
        Some(
            VariableSlots {
                indices: Some(ends),
                range: _,
                is_truth: _,
                first,
            },
        ) => is_beyond(index, &ArraySlots { ends, first }),
        _ => false,
    }
}

/// What stands in place of a write at an index that lies outside the array, where so much of the value counts.
pub fn write_outside(
    alloc: Global,
    index: &NumberCore,
    c: &TruthCore,
    left: Count,
    effect: &mut Effect,
) -> Result<(), Refusal>
    ensures { Adds result effect.old effect.new (spec.outside_effect (of_number index.now) (of_truth c.now) left) }
{
    let around = both_counts(index_count(index.measure), stray_count(c.measure));
    count_in(both_counts(around, left), effect)?;
    push_outside(alloc, c, effect)?;
    mark(index.exact, effect);
    Ok(())
}

/// A write at an index of no array.
pub fn write_stray(
    alloc: Global,
    index: &NumberCore,
    c: &TruthCore,
    v: NumberCore,
    effect: &mut Effect,
) -> Result<(), Refusal>
    ensures { Adds result effect.old effect.new
        (spec.stray_effect (of_number index.now) (of_truth c.now) (of_number v)) }
{
    let count = both_counts(
        stray_count(index.measure),
        write_count(c.measure, v.measure),
    );
    write_to(alloc, None, c, v, count, effect)
}

/// A write to a variable without an index.
pub fn write_plain(
    alloc: Global,
    variable: Option<VariableSlots>,
    c: &TruthCore,
    v: NumberCore,
    effect: &mut Effect,
) -> Result<(), Refusal>
    ensures { (name : List ℕ) → Adds result effect.old effect.new
        (spec.write_to (spec.plain_slot (option_map (variable_of name) variable)) c.now.form v.term
        (spec.write_count c.now.measure v.measure)) }
{
    let slot = match variable {
        Some(
            VariableSlots {
                indices: None,
                range: _,
                is_truth: _,
                first,
            },
        ) => Some(first),
        _ => None,
    };
    let count = write_count(c.measure, v.measure);
    write_to(alloc, slot, c, v, count, effect)
}

/// A write to a variable at an index.
pub fn write_indexed(
    alloc: Global,
    variable: Option<VariableSlots>,
    index: &NumberCore,
    c: &TruthCore,
    v: NumberCore,
    effect: &mut Effect,
) -> Result<(), Refusal>
    requires within { MatchOption variable (Unit {0})
        (λ x. x.first + slots_for (option_map ends_of x.indices) ≤ 2 ^ 32) }
    requires index { IsSound (of_number index.now) }
    requires condition { IsSound (of_truth c.now) }
    ensures { (name : List ℕ) → Adds result effect.old effect.new (spec.indexed_effect (of_number index.now)
        (option_map (variable_of name) variable) (of_truth c.now) (of_number v)) }
{
    match variable {
        Some(
            VariableSlots {
                indices: Some(ends),
                range: _,
                is_truth: _,
                first,
            },
        ) => write_element(alloc, index, &ArraySlots { ends, first }, c, v, effect),
        _ => write_stray(alloc, index, c, v, effect),
    }
}
