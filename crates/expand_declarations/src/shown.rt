//! The slots of which a program's traces tell.

ghost use Rattle.std.specs.Prelude.{◌≡◌, ◌≤◌, ℕ, false, nat_eq, length, IfOk, OnOk};
ghost use Rattle.std.specs.List.{list_any};
ghost use Rattle.names_rules.specs.Declarations.{items_of};
ghost use Rattle.expand_declarations.specs.Shown.{declared_names, is_slot_of, places_from, shown_slots};

use crate::words::WordTable;
use core_terms::CSlot;
use indexmap::IndexSet;
use std::alloc::{AllocError, Global};
use unity_base::Seq;
use unity_syntax::Var;

fn note_names(vs: &[Var], words: &WordTable, names: &mut IndexSet<u32>) -> Result<(), AllocError>
    requires { (q : ℕ) → list_any (nat_eq q) names.old.keys ≡ false }
    ensures { OnOk result ((q : ℕ) →
        list_any (nat_eq q) names.new.keys ≡ list_any (nat_eq q) (declared_names words.now vs.now)) }
{
    for v in vs {
        names.insert(words.number(&v.name))?;
    }
    Ok(())
}

fn slots_named(
    alloc: Global,
    names: &IndexSet<u32>,
    slots: &[CSlot],
) -> Result<Seq<u32>, AllocError>
    requires { length slots.now ≤ 4096 }
    ensures { IfOk result (λ shown. shown ≡ places_from (is_slot_of names.now.keys) 0 slots.now) }
{
    let mut shown = Seq::new(alloc);
    for i in 0..slots.len() {
        if names.contains(&slots[i].name) {
            shown.push(i as u32)?;
        }
    }
    Ok(shown)
}

fn shown_of(
    alloc: Global,
    vs: &[Var],
    words: &WordTable,
    slots: &[CSlot],
) -> Result<Seq<u32>, AllocError>
    requires { length slots.now ≤ 4096 }
    ensures { IfOk result (λ shown. shown ≡ shown_slots words.now vs.now slots.now) }
{
    let mut names = IndexSet::new(alloc);
    note_names(vs, words, &mut names)?;
    slots_named(alloc, &names, slots)
}

/// The slots of the variables that a program declares, each once, in the order of the slots.
///
/// An error says that memory was refused.
pub fn shown_slots(
    alloc: Global,
    declare: &Option<Seq<Var>>,
    words: &WordTable,
    slots: &[CSlot],
) -> Result<Seq<u32>, AllocError>
    requires { length slots.now ≤ 4096 }
    ensures { IfOk result (λ shown. shown ≡ shown_slots words.now (items_of declare.now) slots.now) }
{
    match declare {
        None => shown_of(alloc, &[], words, slots),
        Some(vs) => shown_of(alloc, vs.as_slice(), words, slots),
    }
}
