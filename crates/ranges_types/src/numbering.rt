//! The numbers of names.

ghost use Rattle.std.specs.Prelude.{◌≡◌, OnOk};
ghost use Rattle.names_rules.specs.WellNamed.{with_place};
ghost use Rattle.ranges_types.specs.Numbers.{place_of, with_places};

use indexmap::IndexSet;
use names_rules::Meaning;
use std::alloc::AllocError;

/// A kind of names that are numbered through a document.
#[derive(Clone, Copy, Debug, PartialEq, Eq)]
pub enum NameKind {
    Variable,
    Always,
    Bound,
    Program,
}

/// The place at which a name of a kind is declared; none where the meaning is of another kind.
pub fn place_of(kind: NameKind, meaning: Meaning) -> Option<u64>
    ensures { result ≡ place_of kind meaning }
{
    match (kind, meaning) {
        (NameKind::Variable, Meaning::Variable(at)) => Some(at),
        (NameKind::Always, Meaning::Always(at)) => Some(at),
        (NameKind::Bound, Meaning::Bound(at)) => Some(at),
        (NameKind::Program, Meaning::Program(at)) => Some(at),
        _ => None,
    }
}

fn add_place(place: Option<u64>, places: &mut IndexSet<u64>) -> Result<(), AllocError>
    ensures { OnOk result (places.new.keys ≡ with_place places.old.keys place) }
{
    match place {
        None => Ok(()),
        Some(at) => {
            places.insert(at)?;
            Ok(())
        }
    }
}

/// Adds the places at which names of a kind are first declared, in order.
pub fn add_places(
    kind: NameKind,
    words: &[(u64, Meaning)],
    places: &mut IndexSet<u64>,
) -> Result<(), AllocError>
    ensures { OnOk result (places.new.keys ≡ with_places kind places.old.keys words.now) }
{
    for (_, meaning) in words {
        add_place(place_of(kind, *meaning), places)?;
    }
    Ok(())
}
