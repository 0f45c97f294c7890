//! Enumerations.

ghost use Rattle.std.specs.Prelude.{◌≡◌, ◌∷◌};
ghost use Rattle.names_rules.specs.declared.named.Sort.{Sort};
ghost use Rattle.std.specs.Prelude.{length};
ghost use Rattle.names_rules.specs.Scope.{entries};
ghost use Rattle.names_rules.specs.Declarations.{are_words, enumerated, is_last, is_repeated, is_value_of, is_word_of};
ghost use Rattle.names_rules.specs.Declarations.{known_sort, repeated, value_named, words_part, words_sort};
ghost use Rattle.names_rules.specs.Answers.{Leaves, Notes};

use crate::entering::declare;
use names_checks::{Table, same};
use names_rules::{Meaning, NameFault, NameTable, Named, Sort, Span, find};
use unity_syntax::Name;

fn value_named(sort: Sort, number: u64) -> Named
    ensures { result ≡ value_named sort number }
{
    Named {
        meaning: Meaning::Value(number),
        sort,
        range: Span { low: 0, high: 0 },
        indices: None,
        constant: true,
        program: 0,
    }
}

fn is_value_of(number: u64, meaning: Meaning) -> bool
    ensures { result ≡ is_value_of number meaning }
{
    match meaning {
        Meaning::Value(own) => own == number,
        _ => false,
    }
}

fn is_word_of(sort: Sort, number: u64, named: Option<Named>) -> bool
    ensures { result ≡ is_word_of sort number named }
{
    match named {
        None => false,
        Some(named) => is_value_of(number, named.meaning) && same(named.sort, sort),
    }
}

fn is_last(sort: Sort, number: u64) -> bool
    ensures { result ≡ is_last sort number }
{
    match sort {
        Sort::Words { at: _, last } => last == number,
        _ => false,
    }
}

fn known_sort(names: &NameTable, first: &Name) -> Sort
    ensures { result ≡ known_sort (entries names.now) first.now }
{
    match find(names, first) {
        None => Sort::Number,
        Some(named) => named.sort,
    }
}

fn are_further(names: &NameTable, sort: Sort, rest: &[Name]) -> bool
    ensures { result ≡ are_words (entries names.now) sort 1 rest.now }
{
    for i in 0..rest.len() {
        if !is_word_of(sort, i as u64 + 1, find(names, &rest[i])) {
            return false;
        }
    }
    true
}

fn are_words(names: &NameTable, sort: Sort, first: &Name, rest: &[Name]) -> bool
    ensures { result ≡ are_words (entries names.now) sort 0 (first.now ∷ rest.now) }
{
    is_word_of(sort, 0, find(names, first)) && are_further(names, sort, rest)
}

/// Whether an enumeration is written again.
fn is_repeated(names: &NameTable, first: &Name, rest: &[Name]) -> bool
    ensures { result ≡ is_repeated (entries names.now) first.now rest.now }
{
    let sort = known_sort(names, first);
    is_last(sort, rest.len() as u64) && are_words(names, sort, first, rest)
}

/// The type of an enumeration.
pub fn words_sort(names: &NameTable, first: &Name, rest: &[Name]) -> Sort
    ensures { result ≡ words_sort (entries names.now) first.now rest.now }
{
    if is_repeated(names, first, rest) {
        known_sort(names, first)
    } else {
        Sort::Words {
            at: first.at,
            last: rest.len() as u64,
        }
    }
}

fn enumerate<'a>(
    sort: Sort,
    words: &'a [Name],
    names: &mut NameTable<'a>,
    table: &mut Table,
) -> Result<(), NameFault>
    ensures { Leaves result table.old table.new (entries names.new) (enumerated sort 1 (entries names.old) words.now) }
{
    for i in 0..words.len() {
        declare(&words[i], value_named(sort, i as u64 + 1), names, table)?;
    }
    Ok(())
}

fn new_words<'a>(
    first: &'a Name,
    rest: &'a [Name],
    names: &mut NameTable<'a>,
    table: &mut Table,
) -> Result<(), NameFault>
    ensures { Leaves result table.old table.new (entries names.new)
        (enumerated (Sort.Words first.now.at (length rest.now)) 0 (entries names.old) (first.now ∷ rest.now)) }
{
    let sort = Sort::Words {
        at: first.at,
        last: rest.len() as u64,
    };
    declare(first, value_named(sort, 0), names, table)?;
    enumerate(sort, rest, names, table)
}

fn repeat(words: &[Name], table: &mut Table) -> Result<(), NameFault>
    ensures { Notes result table.old table.new (repeated 1 words.now) }
{
    for i in 0..words.len() {
        table.push((words[i].at, Meaning::Value(i as u64 + 1)))?;
    }
    Ok(())
}

fn known_words(first: &Name, rest: &[Name], table: &mut Table) -> Result<(), NameFault>
    ensures { Notes result table.old table.new (repeated 0 (first.now ∷ rest.now)) }
{
    table.push((first.at, Meaning::Value(0)))?;
    repeat(rest, table)
}

/// The words of an enumeration.
pub fn words<'a>(
    first: &'a Name,
    rest: &'a [Name],
    names: &mut NameTable<'a>,
    table: &mut Table,
) -> Result<(), NameFault>
    ensures { Leaves result table.old table.new (entries names.new)
        (words_part (entries names.old) first.now rest.now) }
{
    if is_repeated(names, first, rest) {
        known_words(first, rest, table)
    } else {
        new_words(first, rest, names, table)
    }
}
