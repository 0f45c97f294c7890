//! The slots of one variable: its kinds, its indices and its elements.
ghost use Rattle.std.specs.Prelude.{◌≡◌, ◌+◌, ◌-◌, [], ◌∷◌, ◌++◌, pos, ◌+ℤ◌, ◌<◌, false, map, Some, None};
ghost use Rattle.std.specs.Prelude.{IfOk, OnOk, option_map};
ghost use Rattle.meaning_executions.specs.Counting.{range_size};
ghost use Rattle.expand_expressions.specs.from_meaning_documents.Setting.{is_boolean, element_type, plain_range};
ghost use Rattle.expand_expressions.specs.from_meaning_documents.Setting.{slots_for};
ghost use Rattle.expand_expressions.specs.from_meaning_documents.Setting.{type_indices};
ghost use Rattle.expand_declarations.specs.WordNumbers.{word_number};
ghost use Rattle.expand_declarations.specs.Numbers.{core_range};
ghost use Rattle.expand_expressions.specs.Places.{ends_of};
ghost use Rattle.expand_declarations.specs.Slots as spec;

use crate::layout::place;
use crate::numbers::{fixed_range, literal};
use crate::words::WordTable;
use core_terms::{CSlot, Print, Range};
use std::alloc::{AllocError, Global};
use unity_base::Seq;
use unity_syntax::{Name, Plain, Var, VarType};

// The type of a variable, or of an array's elements.
pub fn element_of(kind: &VarType) -> &Plain
    ensures { result.now ≡ element_type kind.now }
{
    match kind {
        VarType::Plain { at: _, of } => of,
        VarType::Array {
            at: _,
            range: _,
            of,
        } => of,
    }
}

pub fn indices_of(kind: &VarType) -> Result<Option<Range>, AllocError>
    ensures { IfOk result (λ r. option_map ends_of r ≡ type_indices kind.now) }
{
    match kind {
        VarType::Plain { at: _, of: _ } => Ok(None),
        VarType::Array {
            at: _,
            range,
            of: _,
        } => Ok(Some(fixed_range(range)?)),
    }
}

// How many slots a variable with these indices has.
pub fn slots_for(indices: Option<Range>) -> u128
    ensures { result ≡ slots_for (option_map ends_of indices) }
{
    match indices {
        None => 1,
        Some(range) => {
            if range.hi < range.lo {
                0
            } else {
                (range.hi as i128 + 1 - range.lo as i128) as u128
            }
        }
    }
}

// The range of a type's numbers.
pub fn numbers_of(plain: &Plain) -> Result<Range, AllocError>
    ensures { IfOk result (λ r. r ≡ core_range (plain_range plain.now)) }
{
    match plain {
        Plain::Boolean { at: _ } => Ok(Range { lo: 0, hi: 1 }),
        Plain::Range { at: _, range } => fixed_range(range),
        Plain::Words {
            at: _,
            first: _,
            rest,
        } => last_word(rest.len()),
    }
}

// The range of an enumeration, by the place of its last word.
fn last_word(last: usize) -> Result<Range, AllocError>
    ensures { IfOk result (λ r. r ≡ core_range (pos 0, pos last)) }
{
    let hi = literal(false, last as u64)?;
    Ok(Range { lo: 0, hi })
}

pub fn is_truth(plain: &Plain) -> bool
    ensures { result ≡ is_boolean plain.now }
{
    match plain {
        Plain::Boolean { at: _ } => true,
        Plain::Range { at: _, range: _ } => false,
        Plain::Words {
            at: _,
            first: _,
            rest: _,
        } => false,
    }
}

fn add_numbers(names: &[Name], words: &WordTable, numbers: &mut Seq<u32>) -> Result<(), AllocError>
    ensures { OnOk result (numbers.new ≡ numbers.old ++ map (λ w. word_number words.now w.text) names.now) }
{
    for name in names {
        numbers.push(words.number(name))?;
    }
    Ok(())
}

// The numbers of words.
fn numbered(
    alloc: Global,
    first: &Name,
    rest: &[Name],
    words: &WordTable,
) -> Result<Seq<u32>, AllocError>
    ensures { IfOk result (λ ns. ns ≡ map (λ w. word_number words.now w.text) (first.now ∷ rest.now)) }
{
    let mut numbers = Seq::new(alloc);
    numbers.push(words.number(first))?;
    add_numbers(rest, words, &mut numbers)?;
    Ok(numbers)
}

// How the numbers of a type are written.
fn print_of(alloc: Global, plain: &Plain, words: &WordTable) -> Result<Print, AllocError>
    ensures { IfOk result (λ print. print ≡ spec.print_of words.now plain.now) }
{
    match plain {
        Plain::Boolean { at: _ } => Ok(Print::Truth),
        Plain::Range { at: _, range: _ } => Ok(Print::Number),
        Plain::Words { at: _, first, rest } => {
            let numbers = numbered(alloc, first, rest.as_slice(), words)?;
            Ok(Print::Words(numbers))
        }
    }
}

// The slot of a variable at an index.
fn slot_at(
    alloc: Global,
    v: &Var,
    index: Option<i64>,
    words: &WordTable,
) -> Result<CSlot, AllocError>
    ensures { IfOk result (λ slot. slot ≡ spec.slot_at words.now v.now index) }
{
    let range = numbers_of(element_of(&v.kind))?;
    let print = print_of(alloc, element_of(&v.kind), words)?;
    Ok(CSlot {
        name: words.number(&v.name),
        index,
        range,
        print,
    })
}

fn add_slot(
    alloc: Global,
    v: &Var,
    index: Option<i64>,
    words: &WordTable,
    slots: &mut Seq<CSlot>,
) -> Result<(), AllocError>
    ensures { OnOk result (slots.new ≡ slots.old ++ spec.slot_at words.now v.now index ∷ []) }
{
    slots.push(slot_at(alloc, v, index, words)?)
}

// A number of a range, by its place.
fn number_in(range: Range, place: u64) -> i64
    requires { place < range_size (ends_of range) }
    ensures { result ≡ (range.lo +ℤ pos place) }
{
    (range.lo as i128 + place as i128) as i64
}

fn index_in(range: Range, place: u64) -> Option<i64>
    requires { place < range_size (ends_of range) }
    ensures { result ≡ Some (range.lo +ℤ pos place) }
{
    Some(number_in(range, place))
}

fn add_elements(
    alloc: Global,
    v: &Var,
    range: Range,
    count: u64,
    words: &WordTable,
    slots: &mut Seq<CSlot>,
) -> Result<(), AllocError>
    requires { count ≡ range_size (ends_of range) }
    ensures { OnOk result (slots.new ≡ slots.old ++ spec.element_slots words.now v.now range.lo count) }
{
    for k in 0..count {
        add_slot(alloc, v, index_in(range, k), words, slots)?;
    }
    Ok(())
}

// Adds the slots of a variable.
pub fn add_slots(
    alloc: Global,
    v: &Var,
    indices: Option<Range>,
    count: u64,
    words: &WordTable,
    slots: &mut Seq<CSlot>,
) -> Result<(), AllocError>
    requires indices { option_map ends_of indices ≡ type_indices v.now.kind }
    requires count { count ≡ slots_for (option_map ends_of indices) }
    ensures { OnOk result (slots.new ≡ slots.old ++ spec.slots_of words.now v.now) }
{
    match indices {
        None => add_slot(alloc, v, None, words, slots),
        Some(range) => add_elements(alloc, v, range, count, words, slots),
    }
}
