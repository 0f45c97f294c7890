//! Start values.

ghost use Rattle.std.specs.Prelude.{◌≡◌, ◌++◌, ◌+◌, ◌<◌, ◌≤◌, ◌≤ℤ◌, ◌-ℤ◌, ◌^◌, Some, option_map, unwrap_or};
ghost use Rattle.std.specs.Prelude.{IfOk, OnOk};
ghost use Rattle.std.specs.Map.{lookup};
ghost use Rattle.std.specs.Str.{bytes_eq};
ghost use Rattle.meaning_executions.specs.Counting.{natural};
ghost use Rattle.expand_expressions.specs.from_meaning_documents.Names.{number_of, or_zero, slot_at, slot_named};
ghost use Rattle.meaning_executions.specs.Counting.{range_size};
ghost use Rattle.names_rules.specs.Scope.{entries};
ghost use Rattle.names_rules.specs.Declarations.{some_of};
ghost use Rattle.expand_expressions.specs.Places.{HasSlots, ends_of, variables_of};
ghost use Rattle.expand_declarations.specs.Slots.{HaveSlots};
ghost use Rattle.expand_declarations.specs.Start as spec;

use crate::numbers::literal;
use core_terms::Range;
use expand_expressions::{ValueTable, VariableSlots, VariableTable, find_variable};
use std::alloc::{AllocError, Global};
use unity_base::Seq;
use unity_syntax::{Init, InitValue, Name};

fn index_of(index: &Option<(bool, u64)>) -> Result<Option<i64>, AllocError>
    ensures { IfOk result (λ i. i ≡ spec.index_of index.now) }
{
    match index {
        None => Ok(None),
        Some((minus, number)) => Ok(Some(literal(*minus, *number)?)),
    }
}

// How far an index is above the lowest.
fn distance(low: i64, high: i64, index: i64) -> u128
    requires above { low ≤ℤ index }
    requires below { index ≤ℤ high }
    ensures value { result ≡ natural (index -ℤ low) }
    ensures within { result < range_size (low, high) }
{
    (index as i128 - low as i128) as u128
}

// The slot of an array at an index.
fn element_slot(first: u32, range: Range, index: i64) -> Option<u32>
    requires { first + range_size (ends_of range) ≤ 2 ^ 32 }
    ensures { result ≡ slot_at first (Some (ends_of range)) (Some index) }
{
    if range.lo <= index && index <= range.hi {
        Some(first + distance(range.lo, range.hi, index) as u32)
    } else {
        None
    }
}

// The slot of a variable: at an index, where it is an array; `None` exactly where it has none there.
fn placed_slot(placed: VariableSlots, index: Option<i64>) -> Option<u32>
    requires { HasSlots placed }
    ensures { result ≡ slot_at placed.first (option_map ends_of placed.indices) index }
{
    match (placed.indices, index) {
        (None, None) => Some(placed.first),
        (None, Some(_)) => None,
        (Some(_), None) => None,
        (Some(range), Some(index)) => element_slot(placed.first, range, index),
    }
}

fn slot_of(name: &Name, index: Option<i64>, variables: &VariableTable) -> u32
    requires { HaveSlots (entries variables.now) }
    ensures { result ≡ unwrap_or (slot_named name.now.text index (variables_of (entries variables.now))) 0 }
{
    match find_variable(variables, name) {
        None => 0,
        Some(placed) => placed_slot(placed, index).unwrap_or(0),
    }
}

fn start_slot(init: &Init, variables: &VariableTable) -> Result<u32, AllocError>
    requires { HaveSlots (entries variables.now) }
    ensures { IfOk result (λ slot. slot ≡ spec.start_slot (variables_of (entries variables.now)) init.now) }
{
    let index = index_of(&init.index)?;
    Ok(slot_of(&init.name, index, variables))
}

fn find_word(name: &Name, values: &ValueTable) -> Option<i64>
    ensures { result ≡ lookup (bytes_eq name.now.text) (entries values.now) }
{
    values.get(name.text.as_slice()).copied()
}

fn word_value(name: &Name, values: &ValueTable) -> i64
    ensures { result ≡ or_zero (number_of name.now.text (entries values.now)) }
{
    find_word(name, values).unwrap_or(0)
}

fn start_number(value: &InitValue, values: &ValueTable) -> Result<i64, AllocError>
    ensures { IfOk result (λ z. z ≡ spec.start_number (entries values.now) value.now) }
{
    match value {
        InitValue::Number {
            at: _,
            minus,
            number,
        } => literal(*minus, *number),
        InitValue::Word { at: _, name } => Ok(word_value(name, values)),
        InitValue::True { at: _ } => Ok(1),
        InitValue::False { at: _ } => Ok(0),
    }
}

fn start_entry(
    init: &Init,
    variables: &VariableTable,
    values: &ValueTable,
) -> Result<(u32, i64), AllocError>
    requires { HaveSlots (entries variables.now) }
    ensures { IfOk result (λ e. e ≡ spec.start_entry (variables_of (entries variables.now))
        (entries values.now) init.now) }
{
    let slot = start_slot(init, variables)?;
    let number = start_number(&init.value, values)?;
    Ok((slot, number))
}

fn add_entries(
    inits: &[Init],
    variables: &VariableTable,
    values: &ValueTable,
    start: &mut Seq<(u32, i64)>,
) -> Result<(), AllocError>
    requires { HaveSlots (entries variables.now) }
    ensures { OnOk result (start.new ≡ start.old ++
        spec.start_values (variables_of (entries variables.now))
        (entries values.now) inits.now) }
{
    for init in inits {
        start.push(start_entry(init, variables, values)?)?;
    }
    Ok(())
}

/// The slots and the numbers of a start section, in the order of the text.
///
/// An error says that memory was refused, also where a number is past 2^62: no text has one.
pub fn start_values(
    alloc: Global,
    inits: &Option<(Init, Seq<Init>)>,
    variables: &VariableTable,
    values: &ValueTable,
) -> Result<Seq<(u32, i64)>, AllocError>
    requires { HaveSlots (entries variables.now) }
    ensures { IfOk result (λ start. start ≡ spec.start_values (variables_of (entries variables.now))
        (entries values.now) (some_of inits.now)) }
{
    let mut start = Seq::new(alloc);
    match inits {
        None => {}
        Some((first, rest)) => {
            start.push(start_entry(first, variables, values)?)?;
            add_entries(rest.as_slice(), variables, values, &mut start)?;
        }
    }
    Ok(start)
}
