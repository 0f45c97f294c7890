//! What words stand for.

ghost use Rattle.std.specs.Prelude.{◌≡◌, ◌+◌, ◌-◌, ◌^◌, ◌<◌, ◌≤◌, IfOk, cond, max, MatchOption, Some, None, option_map};
ghost use Rattle.std.specs.Option.{option_copied, option_or};
ghost use Rattle.std.specs.Int.RustNames.{unsigned_abs};
ghost use Rattle.std.specs.Map.{lookup};
ghost use Rattle.std.specs.Str.{bytes_eq};
ghost use Rattle.core_terms.specs.declared.trees.CTerm.TheVariants.{Slot, Param};
ghost use Rattle.expand_rules.specs.from_meaning_documents.Names.{slot_at};
ghost use Rattle.names_rules.specs.Scope.{entries};
ghost use Rattle.expand_rules.specs.Measures as measures;
ghost use Rattle.expand_rules.specs.Forming as spec;
ghost use Rattle.expand_expressions.specs.Sound.{IsSound, GivesCore};
ghost use Rattle.expand_expressions.specs.Places.{IsReady, scope, ends_of, plain_slots, slot_formed, declared_word};

use crate::comparisons::{as_truth, copied, number_constant};
use crate::measures::{ends_weight, leaf};
use crate::places::{
    Env, Known, VariableSlots, find_always, find_bound, find_value, find_variable,
};
use crate::products::limited;
use crate::refusal::Refusal;
use core_terms::CTerm;
use expand_rules::{Bound, Core, Formed};
use std::alloc::{AllocError, Global};
use unity_base::Shared;
use unity_syntax::Name;

// A slot of such a weight.
fn slot_read(alloc: Global, slot: u32, weight: u64) -> Result<Formed, AllocError>
    requires { 1 ≤ weight }
    ensures formed { IfOk result (λ f. f ≡ spec.varying (Slot slot) weight) }
    ensures sound { IfOk result IsSound }
    ensures most { IfOk result (λ f. f.measure.most ≡ weight) }
{
    Ok(Formed {
        core: Core::Number {
            term: Shared::new(alloc, CTerm::Slot(slot))?,
            known: None,
        },
        constant: false,
        exact: true,
        measure: leaf(weight),
    })
}

// A parameter whose values have such a weight.
fn param_read(alloc: Global, number: u32, weight: u64) -> Result<Formed, AllocError>
    ensures formed { IfOk result (λ f. f ≡ spec.varying (Param number) (max 1 weight)) }
    ensures sound { IfOk result IsSound }
{
    Ok(Formed {
        core: Core::Number {
            term: Shared::new(alloc, CTerm::Param(number))?,
            known: None,
        },
        constant: false,
        exact: true,
        measure: leaf(weight.max(1)),
    })
}

fn bound_read(alloc: Global, bound: Bound) -> Result<Formed, AllocError>
    ensures formed { IfOk result (λ f. f ≡ spec.bound_formed bound) }
    ensures sound { IfOk result IsSound }
{
    match bound {
        Bound::Number(number) => number_constant(alloc, number),
        Bound::Param { number, weight } => param_read(alloc, number, weight),
    }
}

/// What is read of a variable: a truth where the variable's numbers are truths.
pub fn typed(alloc: Global, is_truth: bool, a: Formed) -> Result<Formed, AllocError>
    requires sound { IsSound a }
    requires room { a.measure.most < 2 ^ 64 - 2 }
    ensures formed { IfOk result (λ f. f ≡ cond is_truth (spec.as_truth a) a) }
    ensures sound { IfOk result IsSound }
{
    if is_truth { as_truth(alloc, a) } else { Ok(a) }
}

// What is read of the slot of a variable.
fn typed_slot(alloc: Global, v: VariableSlots, slot: u32) -> Result<Formed, AllocError>
    ensures formed { IfOk result (λ f. f ≡ cond v.is_truth (spec.as_truth
        (spec.varying (Slot slot) (measures.ends_weight (ends_of v.range))))
        (spec.varying (Slot slot) (measures.ends_weight (ends_of v.range)))) }
    ensures sound { IfOk result IsSound }
{
    let read = slot_read(alloc, slot, ends_weight(v.range))?;
    typed(alloc, v.is_truth, read)
}

// A variable that is no array.
fn plain(v: Option<VariableSlots>) -> Option<VariableSlots>
    ensures { result ≡ plain_slots v }
{
    let slots = v?;
    match slots.indices {
        None => v,
        Some(_) => None,
    }
}

// What a variable or a word of an enumeration stands for, and 0 where there is neither.
fn variable_or_value(
    alloc: Global,
    variable: Option<VariableSlots>,
    value: Option<i64>,
) -> Result<Formed, AllocError>
    ensures formed { IfOk result (λ f. f ≡ spec.formed_or_zero
        (option_or (option_map slot_formed variable) (option_map spec.number_constant value))) }
    ensures sound { IfOk result IsSound }
{
    match variable {
        Some(v) => typed_slot(alloc, v, v.first),
        None => number_constant(alloc, value.unwrap_or(0)),
    }
}

// What a word that is not bound stands for.
fn declared_read(alloc: Global, name: &Name, known: &Known) -> Result<Formed, AllocError>
    requires { IsReady known.now }
    ensures formed { IfOk result (λ f. f ≡ declared_word known.now name.now.text) }
    ensures sound { IfOk result IsSound }
{
    match find_always(known.always, name) {
        Some(always) => copied(alloc, always),
        None => {
            let variable = plain(find_variable(known.variables, name));
            variable_or_value(alloc, variable, find_value(known.values, name))
        }
    }
}

fn read(alloc: Global, name: &Name, env: &Env, known: &Known) -> Result<Formed, AllocError>
    requires { IsReady known.now }
    ensures formed { IfOk result (λ f. f ≡ spec.word_formed (scope known.now env.now) name.now.text) }
    ensures sound { IfOk result IsSound }
{
    match find_bound(env, name) {
        Some(bound) => bound_read(alloc, bound),
        None => declared_read(alloc, name, known),
    }
}

/// What a word stands for: a bound name or a parameter, an always name, a variable or a word of an enumeration.
pub fn word(alloc: Global, name: &Name, env: &Env, known: &Known) -> Result<Formed, Refusal>
    requires { IsReady known.now }
    ensures formed { GivesCore result (spec.word_formed (scope known.now env.now) name.now.text) }
    ensures sound { IfOk result IsSound }
    ensures light { IfOk result (λ f. f.measure.most ≤ 2 ^ 62) }
{
    limited(read(alloc, name, env, known)?)
}
