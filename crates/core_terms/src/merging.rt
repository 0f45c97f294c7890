// The slots of two programs as one list, and their start values.
ghost use Rattle.std.specs.Prelude.{◌≡◌, ℕ, ◌++◌, ◌||◌, filter, nat_eq, nat_lt, IfOk, OnOk, IsTrue};
ghost use Rattle.std.specs.Prelude.{[]};
ghost use Rattle.std.specs.List.{list_any};
ghost use Rattle.core_terms.specs.Unions as union_of;

use indexmap::IndexSet;
use std::alloc::{AllocError, Global};
use unity_base::Seq;

/// The slots of two rising lists, each once, in slot order.
pub fn merged_slots(alloc: Global, first: &[u32], second: &[u32]) -> Result<Seq<u32>, AllocError>
    ensures { IfOk result (λ slots. slots ≡ union_of.merged first.now second.now) }
{
    if are_rising(first) && are_rising(second) {
        woven_slots(alloc, first, second)
    } else {
        slots_one_by_one(alloc, first, second)
    }
}

fn are_rising(slots: &[u32]) -> bool
    ensures { result ≡ union_of.is_rising 0 slots.now }
{
    let mut least = 0u64;
    for slot in slots {
        if u64::from(*slot) < least {
            return false;
        }
        least = u64::from(*slot) + 1;
    }
    true
}

// The lower of the two slots that are next, until one list is used up, and then what is left of the other.
fn woven_slots(alloc: Global, first: &[u32], second: &[u32]) -> Result<Seq<u32>, AllocError>
    requires first { IsTrue (union_of.is_rising 0 first.now) }
    requires second { IsTrue (union_of.is_rising 0 second.now) }
    ensures { IfOk result (λ slots. slots ≡ union_of.merged first.now second.now) }
{
    let mut slots = Seq::new(alloc);
    let mut left = 0;
    let mut right = 0;
    while left < first.len() && right < second.len() {
        let slot = first[left];
        let other = second[right];
        if slot < other {
            slots.push(slot)?;
            left += 1;
        } else if other < slot {
            slots.push(other)?;
            right += 1;
        } else {
            slots.push(slot)?;
            left += 1;
            right += 1;
        }
    }
    add_slots(&mut slots, &first[left..])?;
    add_slots(&mut slots, &second[right..])?;
    Ok(slots)
}

fn add_slots(slots: &mut Seq<u32>, more: &[u32]) -> Result<(), AllocError>
    ensures { OnOk result (slots.new ≡ slots.old ++ more.now) }
{
    for slot in more {
        slots.push(*slot)?;
    }
    Ok(())
}

// The same for lists in any order: each slot of the second is put among those before it.
fn slots_one_by_one(alloc: Global, first: &[u32], second: &[u32]) -> Result<Seq<u32>, AllocError>
    ensures { IfOk result (λ slots. slots ≡ union_of.merged first.now second.now) }
{
    let mut slots = Seq::new(alloc);
    add_slots(&mut slots, first)?;
    for slot in second {
        slots = with_slot(alloc, slots.as_slice(), *slot)?;
    }
    Ok(slots)
}

fn with_slot(alloc: Global, slots: &[u32], slot: u32) -> Result<Seq<u32>, AllocError>
    ensures { IfOk result (λ more. more ≡ union_of.with_slot slots.now slot) }
{
    let mut more = Seq::new(alloc);
    for lower in slots {
        if *lower < slot {
            more.push(*lower)?;
        }
    }
    more.push(slot)?;
    add_higher(&mut more, slots, slot)?;
    Ok(more)
}

fn add_higher(more: &mut Seq<u32>, slots: &[u32], slot: u32) -> Result<(), AllocError>
    ensures { OnOk result (more.new ≡ more.old ++ filter (λ x. nat_lt slot x) slots.now) }
{
    for higher in slots {
        if slot < *higher {
            more.push(*higher)?;
        }
    }
    Ok(())
}

/// The start values of the first, and of the second for slots that the first gives none.
pub fn joined_start(
    alloc: Global,
    first: &[(u32, i64)],
    second: &[(u32, i64)],
) -> Result<Seq<(u32, i64)>, AllocError>
    ensures { IfOk result (λ start. start ≡ union_of.joined_start first.now second.now) }
{
    let mut given = IndexSet::new(alloc);
    note_slots(first, &mut given)?;
    let mut start = Seq::new(alloc);
    for entry in first {
        start.push(*entry)?;
    }
    'more: for entry in second {
        if !given.contains(&entry.0) {
            start.push(*entry)?;
        }
    }
    Ok(start)
}

// Notes each slot that a start section gives a value.
fn note_slots(start: &[(u32, i64)], given: &mut IndexSet<u32>) -> Result<(), AllocError>
    requires { given.old.keys ≡ [] }
    ensures { OnOk result ((slot : ℕ) →
        list_any (nat_eq slot) given.new.keys ≡ union_of.gives start.now slot) }
{
    for entry in start {
        note_slot(entry.0, given)?;
    }
    Ok(())
}

fn note_slot(slot: u32, given: &mut IndexSet<u32>) -> Result<(), AllocError>
    ensures { OnOk result ((other : ℕ) →
        list_any (nat_eq other) given.new.keys ≡ (list_any (nat_eq other) given.old.keys || nat_eq other slot)) }
{
    given.insert(slot)?;
    Ok(())
}
