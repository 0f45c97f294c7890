//! The names of a document.

ghost use Rattle.std.specs.Prelude.{◌≡◌, ◌<◌, ◌^◌, length};
ghost use Rattle.std.specs.Option.{option_and_then};
ghost use Rattle.names_rules.specs.WellNamed.{always_place, bound_place, program_place, variable_place};
ghost use Rattle.names_rules.specs.WellNamed.{meaning_at, number_among, number_at, param_number, value_number};
ghost use Rattle.ranges_types.specs.Numbers.{MeaningIsSmall, place_of};
ghost use Rattle.ranges_types.specs.Tables.{Checks};

use crate::checking::check_words;
use crate::indexing::{Index, index_of, of_kind};
use crate::numbering::{NameKind, place_of};
use indexmap::IndexSet;
use names_checks::Table;
use names_rules::{Meaning, NameFault};
use std::alloc::Global;
use std::marker::Model;
use unity_syntax::Document;

/// What each word of a well-named document means, by the byte at which it begins. Contracts see what
/// the words mean, in reading order.
#[derive(Drop)]
pub struct Names {
    words: Table,
    index: Index,
}

impl Model for Names {
    ghost use Rattle.names_rules.specs.Reading.{Words};
    ghost use Rattle.ranges_types.specs.Numbers.{Indexes};

    ghost Value = { Words };

    ghost view = { λ n. n.words };

    ghost invariant = { λ n. Indexes n.index n.words };
}

/// The number of a place among these.
fn number_among(places: &IndexSet<u64>, place: Option<u64>) -> Option<u32>
    requires { length places.now.keys < 2 ^ 32 }
    ensures { result ≡ number_among places.now.keys place }
{
    let number = places.get_index_of(&place?)?;
    Some(number as u32)
}

/// The place at which a name of a kind is declared.
fn declared_at(kind: NameKind, meaning: Option<Meaning>) -> Option<u64>
    ensures { result ≡ option_and_then (place_of kind) meaning }
{
    place_of(kind, meaning?)
}

impl Names {
    /// What the word at a place means.
    fn meaning(&self, at: u64) -> Option<Meaning>
        ensures meaning { result ≡ meaning_at self.now at }
        ensures small { MeaningIsSmall result }
    {
        self.index.meanings.get(&at).copied()
    }

    /// The number of the name of a kind at a place.
    fn number(&self, kind: NameKind, at: u64) -> Option<u32>
        ensures { result ≡ number_at (place_of kind) self.now at }
    {
        let place = declared_at(kind, self.meaning(at));
        number_among(of_kind(&self.index, kind), place)
    }

    /// The number of the variable that the word at byte `at` names: its place, from 0, among the
    /// document's variables in order of first declaration. `None` exactly where no word begins there,
    /// or one that names no variable.
    pub fn variable(&self, at: u64) -> Option<u32>
        ensures { result ≡ number_at variable_place self.now at }
    {
        self.number(NameKind::Variable, at)
    }

    /// The number of the always name at byte `at`, among the document's always names in order of
    /// first declaration. `None` exactly where no word begins there, or one with another meaning.
    pub fn always(&self, at: u64) -> Option<u32>
        ensures { result ≡ number_at always_place self.now at }
    {
        self.number(NameKind::Always, at)
    }

    /// The number of the bound name at byte `at`: the place of its binding, from 0, among the
    /// document's bindings in reading order. `None` exactly where no word begins there, or one with
    /// another meaning.
    pub fn bound(&self, at: u64) -> Option<u32>
        ensures { result ≡ number_at bound_place self.now at }
    {
        self.number(NameKind::Bound, at)
    }

    /// The number in its step of the parameter, or of the name that `exists` or `induct` binds, at
    /// byte `at`. `None` exactly where no word begins there, or one with another meaning.
    pub fn param(&self, at: u64) -> Option<u32>
        ensures { result ≡ option_and_then param_number (meaning_at self.now at) }
    {
        match self.meaning(at)? {
            Meaning::Param(number) => Some(number as u32),
            _ => None,
        }
    }

    /// The value of the word of an enumeration at byte `at`, from 0. `None` exactly where no word
    /// begins there, or one with another meaning.
    pub fn value_word(&self, at: u64) -> Option<u32>
        ensures { result ≡ option_and_then value_number (meaning_at self.now at) }
    {
        match self.meaning(at)? {
            Meaning::Value(number) => Some(number as u32),
            _ => None,
        }
    }

    /// The number of the program that the word at byte `at` names, among the document's programs in
    /// order of first declaration. `None` exactly where no word begins there, or one with another
    /// meaning.
    pub fn program(&self, at: u64) -> Option<u32>
        ensures { result ≡ number_at program_place self.now at }
    {
        self.number(NameKind::Program, at)
    }
}

/// The names of a document. `Fault` exactly where the document is not well named, at its first
/// fault. `Memory` where memory is refused, and where a number would not be below 2^32: so many
/// names are more than any memory holds.
pub fn check_names(alloc: Global, d: &Document) -> Result<Names, NameFault>
    ensures { Checks result d.now }
{
    let words = check_words(alloc, d)?;
    let index = index_of(alloc, words.as_slice())?;
    Ok(Names { words, index })
}
