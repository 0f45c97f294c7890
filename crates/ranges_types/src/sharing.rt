//! Whether two lists of plain programs have one in common.

ghost use Rattle.std.specs.Prelude.{◌≡◌, ℕ, ◌||◌, IfOk, OnOk, [], nat_eq};
ghost use Rattle.std.specs.List.{list_any};
ghost use Rattle.names_rules.specs.WellNamed.{share};

use indexmap::IndexSet;
use std::alloc::{AllocError, Global};

fn note(item: u64, items: &mut IndexSet<u64>) -> Result<(), AllocError>
    ensures { OnOk result ((q : ℕ) →
        list_any (nat_eq q) items.new.keys ≡ (list_any (nat_eq q) items.old.keys || nat_eq q item)) }
{
    items.insert(item)?;
    Ok(())
}

fn note_all(list: &[u64], items: &mut IndexSet<u64>) -> Result<(), AllocError>
    requires { items.old.keys ≡ [] }
    ensures { OnOk result ((q : ℕ) → list_any (nat_eq q) items.new.keys ≡ list_any (nat_eq q) list.now) }
{
    for item in list {
        note(*item, items)?;
    }
    Ok(())
}

fn meets(items: &IndexSet<u64>, list: &[u64]) -> bool
    ensures { result ≡ share items.now.keys list.now }
{
    list.iter().any(|item| items.contains(item))
}

/// Whether two lists have an item in common.
pub fn share(alloc: Global, xs: &[u64], ys: &[u64]) -> Result<bool, AllocError>
    ensures { IfOk result (λ shared. shared ≡ share xs.now ys.now) }
{
    let mut items = IndexSet::new(alloc);
    note_all(xs, &mut items)?;
    Ok(meets(&items, ys))
}
