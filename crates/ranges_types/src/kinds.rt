//! The types of variables.

ghost use Rattle.std.specs.Prelude.{◌≡◌};
ghost use Rattle.names_rules.specs.Scope.{entries};
ghost use Rattle.names_rules.specs.Declarations.{end_number, plain_part, plain_sort, plain_span, span_of, type_part};
ghost use Rattle.names_rules.specs.Answers.{Leaves};

use crate::enumerations::{words, words_sort};
use names_checks::{Table, filled_range, signed};
use names_rules::{NameFault, NameTable, Sort, Span, outside};
use unity_syntax::{End, Plain, Range, VarType};

/// The numbers of a range's ends; a word counts as 0.
pub fn span_of(range: &Range) -> Span
    ensures { result ≡ span_of range.now }
{
    Span {
        low: end_number(&range.low),
        high: end_number(&range.high),
    }
}

fn end_number(end: &End) -> i128
    ensures { result ≡ end_number end.now }
{
    match end {
        End::Number {
            at: _,
            minus,
            number,
        } => signed(*minus, *number),
        End::Word {
            at: _,
            name: _,
            offset: _,
        } => 0,
    }
}

pub fn plain_sort(names: &NameTable, of: &Plain) -> Sort
    ensures { result ≡ plain_sort (entries names.now) of.now }
{
    match of {
        Plain::Boolean { at: _ } => Sort::Boolean,
        Plain::Range { at: _, range: _ } => Sort::Number,
        Plain::Words { at: _, first, rest } => words_sort(names, first, rest.as_slice()),
    }
}

pub fn plain_span(of: &Plain) -> Span
    ensures { result ≡ plain_span of.now }
{
    match of {
        Plain::Range { at: _, range } => span_of(range),
        _ => Span { low: 0, high: 0 },
    }
}

fn plain<'a>(of: &'a Plain, names: &mut NameTable<'a>, table: &mut Table) -> Result<(), NameFault>
    ensures { Leaves result table.old table.new (entries names.new) (plain_part (entries names.old) of.now) }
{
    match of {
        Plain::Boolean { at: _ } => Ok(()),
        Plain::Range { at: _, range } => filled_range(range, &outside(), table),
        Plain::Words { at: _, first, rest } => words(first, rest.as_slice(), names, table),
    }
}

/// A type, whose words are declared.
pub fn kind<'a>(
    of: &'a VarType,
    names: &mut NameTable<'a>,
    table: &mut Table,
) -> Result<(), NameFault>
    ensures { Leaves result table.old table.new (entries names.new) (type_part (entries names.old) of.now) }
{
    match of {
        VarType::Plain { at: _, of } => plain(of, names, table),
        VarType::Array { at: _, range, of } => {
            filled_range(range, &outside(), table)?;
            plain(of, names, table)
        }
    }
}
