//! What is read of arrays.

ghost use Rattle.std.specs.Prelude.{◌≡◌, ◌+◌, ◌-◌, ◌^◌, ◌<◌, ◌≤◌, ◌+ℤ◌, ◌≤ℤ◌, pos, IfOk, cond, max, MatchOption, Some};
ghost use Rattle.std.specs.Prelude.{None, [], option_map};
ghost use Rattle.std.specs.Int.RustNames.{unsigned_abs};
ghost use Rattle.std.specs.Map.{lookup};
ghost use Rattle.std.specs.Str.{bytes_eq};
ghost use Rattle.core_terms.specs.declared.trees.CTerm.TheVariants.{Const, Slot};
ghost use Rattle.core_terms.specs.Folding.{number_of, choice_term, zero_form, difference_term};
ghost use Rattle.core_terms.specs.Weights.{plain_weights};
ghost use Rattle.expand_rules.specs.from_meaning_documents.Names.{slot_at};
ghost use Rattle.meaning_executions.specs.Counting.{range_size};
ghost use Rattle.expand_rules.specs.from_meaning_documents.Names.{variable_named};
ghost use Rattle.expand_rules.specs.Forming as spec;
ghost use Rattle.expand_rules.specs.Forming.{slot_term};
ghost use Rattle.expand_expressions.specs.Sound.{IsSound, GivesCore, of_number};
ghost use Rattle.expand_expressions.specs.Places.{IsReady, HasSlots, IsNear, scope, variable_of, variables_of, ends_of};
ghost use Rattle.expand_expressions.specs.Places.{element_slots};

use crate::measures::{element_measure, ends_weight, natural, range_size};
use crate::operations::{NumberCore, number};
use crate::places::{Env, Known, VariableSlots, find_variable};
use crate::products::{is_past_by, limited};
use crate::refusal::Refusal;
use crate::words::typed;
use core_terms::{CTerm, Pairing, Range, Sense, choice_known, paired_known, sense_known};
use expand_rules::{Core, Formed};
use std::alloc::{AllocError, Global};
use unity_base::Shared;
use unity_syntax::Name;

// An index of an array, and its slot.
#[derive(Clone, Copy)]
struct Place {
    at: i64,
    slot: u32,
}

// The index that lies so far above the lowest.
fn place_above(first: u32, ends: Range, above: u64) -> Place
    requires low { unsigned_abs ends.lo ≤ 2 ^ 61 }
    requires high { unsigned_abs ends.hi ≤ 2 ^ 61 }
    requires within { (ends.lo +ℤ pos above) ≤ℤ ends.hi }
    requires slots { first + above < 2 ^ 32 }
    ensures at { result.at ≡ ends.lo +ℤ pos above }
    ensures slot { result.slot ≡ first + above }
    ensures bound { unsigned_abs result.at ≤ max (unsigned_abs ends.lo) (unsigned_abs ends.hi) }
{
    Place {
        at: ends.lo + above as i64,
        slot: (u64::from(first) + above) as u32,
    }
}

// The term of an index.
fn index_term(alloc: Global, place: Place) -> Result<Shared<CTerm>, AllocError>
    ensures { IfOk result (λ t. t ≡ Const place.at) }
{
    Shared::new(alloc, CTerm::Const(place.at))
}

// A choice of a slot at one index, before the choices for the others.
fn link(
    alloc: Global,
    index: &NumberCore,
    place: Place,
    rest: Shared<CTerm>,
    number: &mut Option<i128>,
) -> Result<Shared<CTerm>, AllocError>
    requires sound { IsSound (of_number index.now) }
    requires light { index.now.measure.most ≤ 2 ^ 62 + 1 }
    requires rest { number.old ≡ number_of rest }
    ensures tree { IfOk result (λ t. t ≡ choice_term (zero_form (difference_term index.now.term (Const place.at)))
        (Slot place.slot) rest) }
    ensures known { IfOk result (λ t. number.new ≡ number_of t) }
    ensures own { IfOk result (λ t. (plain_weights t).own ≤ max 1 (plain_weights rest).own) }
    ensures most { IfOk result (λ t. (plain_weights t).most ≤
        max (index.now.measure.own + unsigned_abs place.at)
        (max index.now.measure.most (max 1 (plain_weights rest).most))) }
{
    let copy = index.term.share()?;
    let constant = index_term(alloc, place)?;
    let mut known = Some(i128::from(place.at));
    let less = paired_known(
        alloc,
        Pairing::Difference,
        copy,
        index.known,
        constant,
        &mut known,
    )?;
    let mut truth = None;
    let same = sense_known(alloc, Sense::Zero, less, known, &mut truth)?;
    let read = Shared::new(alloc, CTerm::Slot(place.slot))?;
    choice_known(alloc, same, truth, read, None, rest, number)
}

// A choice for each index, from the last one back.
fn chain(
    alloc: Global,
    index: &NumberCore,
    first: u32,
    ends: Range,
    count: u64,
    number: &mut Option<i128>,
) -> Result<Shared<CTerm>, AllocError>
    requires sound { IsSound (of_number index.now) }
    requires light { index.now.measure.most ≤ 2 ^ 62 + 1 }
    requires low { unsigned_abs ends.lo ≤ 2 ^ 61 }
    requires high { unsigned_abs ends.hi ≤ 2 ^ 61 }
    requires last { ends.lo +ℤ pos count ≡ ends.hi +ℤ pos 1 }
    requires slots { first + count ≤ 2 ^ 32 }
    ensures tree { IfOk result (λ t. t ≡ spec.chain index.now.term ends.lo first count) }
    ensures known { IfOk result (λ t. number.new ≡ number_of t) }
    ensures own { IfOk result (λ t. (plain_weights t).own ≤ 1) }
    ensures most { IfOk result (λ t. (plain_weights t).most ≤
        max (index.now.measure.own + max (unsigned_abs ends.lo) (unsigned_abs ends.hi))
        (max index.now.measure.most 1)) }
{
    *number = Some(0);
    let mut term = Shared::new(alloc, CTerm::Const(0))?;
    for k in 0..count {
        let place = place_above(first, ends, count - (k + 1));
        term = link(alloc, index, place, term, number)?;
    }
    Ok(term)
}

// The slot at an index of an array.
fn slot_of(first: u32, ends: Range, number: i64) -> Option<u32>
    requires near { IsNear ends }
    requires slots { first + range_size (ends_of ends) ≤ 2 ^ 32 }
    ensures { result ≡ slot_at first (Some (ends_of ends)) (Some number) }
{
    if (ends.lo <= number) & (number <= ends.hi) {
        Some((u64::from(first) + natural(number - ends.lo)) as u32)
    } else {
        None
    }
}

// The number of an index, where it is known.
fn narrow(known: Option<i128>) -> Option<i64>
    requires { MatchOption known (Unit {0}) (λ z. unsigned_abs z ≤ 2 ^ 62 + 1) }
    ensures { result ≡ known }
{
    match known {
        None => None,
        Some(number) => Some(number as i64),
    }
}

// The slot at an index that is known.
fn known_slot(first: u32, ends: Range, known: Option<i64>) -> Option<Option<u32>>
    requires near { IsNear ends }
    requires slots { first + range_size (ends_of ends) ≤ 2 ^ 32 }
    ensures { result ≡ option_map (λ k. slot_at first (Some (ends_of ends)) (Some k)) known }
{
    match known {
        None => None,
        Some(at) => Some(slot_of(first, ends, at)),
    }
}

// The term of a slot, or 0 where there is none.
fn slot_read(
    alloc: Global,
    slot: Option<u32>,
    number: &mut Option<i128>,
) -> Result<Shared<CTerm>, AllocError>
    ensures tree { IfOk result (λ t. t ≡ slot_term slot) }
    ensures known { IfOk result (λ t. number.new ≡ number_of t) }
    ensures own { IfOk result (λ t. (plain_weights t).own ≤ 1) }
    ensures most { IfOk result (λ t. (plain_weights t).most ≤ 1) }
{
    match slot {
        Some(slot) => {
            *number = None;
            Shared::new(alloc, CTerm::Slot(slot))
        }
        None => {
            *number = Some(0);
            Shared::new(alloc, CTerm::Const(0))
        }
    }
}

// What is read at an index: one slot or 0 where the index is known, and else a choice for each index; of no index, 0.
#[tactic(auto, using(crate::proofs::Multiples::known_small, crate::proofs::Elements::size_last))]
fn chosen(
    alloc: Global,
    index: &NumberCore,
    first: u32,
    ends: Range,
    number: &mut Option<i128>,
) -> Result<Shared<CTerm>, AllocError>
    requires sound { IsSound (of_number index.now) }
    requires light { index.now.measure.most ≤ 2 ^ 62 + 1 }
    requires near { IsNear ends }
    requires slots { first + range_size (ends_of ends) ≤ 2 ^ 32 }
    ensures tree { IfOk result (λ t. t ≡ spec.chain index.now.term ends.lo first (range_size (ends_of ends))) }
    ensures known { IfOk result (λ t. number.new ≡ number_of t) }
    ensures own { IfOk result (λ t. (plain_weights t).own ≤ 1) }
    ensures most { IfOk result (λ t. (plain_weights t).most ≤
        max (index.now.measure.own + max (unsigned_abs ends.lo) (unsigned_abs ends.hi))
        (max index.now.measure.most 1)) }
{
    if let Some(slot) = known_slot(first, ends, narrow(index.known)) {
        return slot_read(alloc, slot, number);
    }
    let count = range_size(ends);
    if count == 0 {
        slot_read(alloc, None, number)
    } else {
        chain(alloc, index, first, ends, count, number)
    }
}

// What is read at an index of an array, as a number.
fn array(alloc: Global, v: VariableSlots, ends: Range, index: NumberCore) -> Result<Formed, Refusal>
    requires sound { IsSound (of_number index) }
    requires light { index.measure.most ≤ 2 ^ 62 + 1 }
    requires near { IsNear ends }
    requires slots { v.first + range_size (ends_of ends) ≤ 2 ^ 32 }
    ensures formed { GivesCore result (spec.array_formed (variable_of [] v) (of_number index) (ends_of ends)) }
    ensures sound { IfOk result IsSound }
    ensures light { IfOk result (λ f. f.measure.most ≤ 2 ^ 62) }
{
    let count = range_size(ends);
    let weight = ends_weight(v.range);
    let measure = element_measure(index.constant, count, ends, weight, index.measure);
    if is_past_by(false, measure) {
        return Err(Refusal::TooLarge);
    }
    let mut known = None;
    let term = chosen(alloc, &index, v.first, ends, &mut known)?;
    limited(Formed {
        core: Core::Number { term, known },
        constant: false,
        exact: index.exact,
        measure,
    })
}

// What is read of no array.
fn no_element(alloc: Global, index: NumberCore) -> Result<Formed, Refusal>
    requires sound { IsSound (of_number index) }
    ensures formed { GivesCore result (spec.no_element (of_number index)) }
    ensures sound { IfOk result IsSound }
    ensures light { IfOk result (λ f. f.measure.most ≤ 2 ^ 62) }
{
    let mut known = None;
    let term = slot_read(alloc, None, &mut known)?;
    limited(Formed {
        core: Core::Number { term, known },
        constant: false,
        exact: index.exact,
        measure: index.measure,
    })
}

// What is read of a variable at an index.
#[tactic(auto, using(crate::proofs::Elements::typed_past))]
fn typed_array(
    alloc: Global,
    v: VariableSlots,
    ends: Range,
    index: NumberCore,
) -> Result<Formed, Refusal>
    requires sound { IsSound (of_number index) }
    requires light { index.measure.most ≤ 2 ^ 62 + 1 }
    requires near { IsNear ends }
    requires slots { v.first + range_size (ends_of ends) ≤ 2 ^ 32 }
    ensures formed { GivesCore result (spec.typed (variable_of [] v)
        (spec.array_formed (variable_of [] v) (of_number index) (ends_of ends))) }
    ensures sound { IfOk result IsSound }
    ensures light { IfOk result (λ f. f.measure.most ≤ 2 ^ 62) }
{
    let read = array(alloc, v, ends, index)?;
    limited(typed(alloc, v.is_truth, read)?)
}

fn read_at(
    alloc: Global,
    variable: Option<VariableSlots>,
    index: NumberCore,
) -> Result<Formed, Refusal>
    requires sound { IsSound (of_number index) }
    requires light { index.measure.most ≤ 2 ^ 62 + 1 }
    requires slots { MatchOption variable (Unit {0}) HasSlots }
    ensures formed { GivesCore result (element_slots variable (of_number index)) }
    ensures sound { IfOk result IsSound }
    ensures light { IfOk result (λ f. f.measure.most ≤ 2 ^ 62) }
{
    match variable {
        None => no_element(alloc, index),
        Some(v) => match v.indices {
            None => no_element(alloc, index),
            Some(ends) => typed_array(alloc, v, ends, index),
        },
    }
}

/// What is read of an array at an index.
#[tactic(auto, using(crate::proofs::Elements::element_is, crate::proofs::Elements::slots_by))]
pub fn element(
    alloc: Global,
    name: &Name,
    index: Formed,
    env: &Env,
    known: &Known,
) -> Result<Formed, Refusal>
    requires ready { IsReady known.now }
    requires sound { IsSound index }
    requires light { index.measure.most ≤ 2 ^ 62 }
    ensures formed { GivesCore result (spec.element_of
        (variable_named name.now.text (scope known.now env.now).variables) (spec.as_number index)) }
    ensures sound { IfOk result IsSound }
    ensures light { IfOk result (λ f. f.measure.most ≤ 2 ^ 62) }
{
    let index = number(alloc, index)?;
    read_at(alloc, find_variable(known.variables, name), index)
}
