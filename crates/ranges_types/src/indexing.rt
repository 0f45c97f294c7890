//! An index of what the words of a document mean.

ghost use Rattle.std.specs.Prelude.{◌≡◌, [], true, IfOk, OnOk};
ghost use Rattle.ranges_types.specs.Numbers.{ArePlaces, Indexes, IsEmpty, are_small_words, is_small_meaning, places_in};

use crate::meanings::give_all;
use crate::numbering::{NameKind, add_places};
use indexmap::{IndexMap, IndexSet};
use names_rules::Meaning;
use std::alloc::{AllocError, Global};

/// What each word means, and the places at which names are first declared, in order.
#[derive(Drop)]
pub struct Index {
    /// The meaning of the word at a place.
    pub meanings: IndexMap<u64, Meaning>,
    pub variables: IndexSet<u64>,
    pub always: IndexSet<u64>,
    pub bound: IndexSet<u64>,
    pub programs: IndexSet<u64>,
}

/// The places of a kind.
pub fn of_kind(index: &Index, kind: NameKind) -> &IndexSet<u64>
    ensures { result.now.keys ≡ places_in index.now kind }
{
    match kind {
        NameKind::Variable => &index.variables,
        NameKind::Always => &index.always,
        NameKind::Bound => &index.bound,
        NameKind::Program => &index.programs,
    }
}

/// Whether a number in a meaning is below 2^32.
fn is_small_meaning(meaning: Meaning) -> bool
    ensures { result ≡ is_small_meaning meaning }
{
    match meaning {
        Meaning::Param(number) | Meaning::Value(number) => number <= u32::MAX as u64,
        _ => true,
    }
}

/// Fails where a number in a meaning is not below 2^32.
fn all_small(words: &[(u64, Meaning)]) -> Result<(), AllocError>
    ensures { OnOk result (are_small_words words.now ≡ true) }
{
    for (_, meaning) in words {
        if !is_small_meaning(*meaning) {
            return Err(AllocError);
        }
    }
    Ok(())
}

/// Adds the places of a kind. Fails where memory is refused, and where there are 2^32 of them.
fn fill_places(
    kind: NameKind,
    words: &[(u64, Meaning)],
    places: &mut IndexSet<u64>,
) -> Result<(), AllocError>
    requires { places.old.keys ≡ [] }
    ensures { OnOk result (ArePlaces kind places.new.keys words.now) }
{
    add_places(kind, words, places)?;
    if places.len() > u32::MAX as usize {
        return Err(AllocError);
    }
    Ok(())
}

fn fill(words: &[(u64, Meaning)], index: &mut Index) -> Result<(), AllocError>
    requires { IsEmpty index.old }
    ensures { OnOk result (Indexes index.new words.now) }
{
    all_small(words)?;
    give_all(words, &mut index.meanings)?;
    fill_places(NameKind::Variable, words, &mut index.variables)?;
    fill_places(NameKind::Always, words, &mut index.always)?;
    fill_places(NameKind::Bound, words, &mut index.bound)?;
    fill_places(NameKind::Program, words, &mut index.programs)?;
    Ok(())
}

/// An index of words. Fails where memory is refused, and where a number would not be below 2^32.
pub fn index_of(alloc: Global, words: &[(u64, Meaning)]) -> Result<Index, AllocError>
    ensures { IfOk result (λ index. Indexes index words.now) }
{
    let mut index = Index {
        meanings: IndexMap::new(alloc),
        variables: IndexSet::new(alloc),
        always: IndexSet::new(alloc),
        bound: IndexSet::new(alloc),
        programs: IndexSet::new(alloc),
    };
    fill(words, &mut index)?;
    Ok(index)
}
