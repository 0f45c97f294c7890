//! Unions of programs.

ghost use Rattle.std.specs.Prelude.{◌≡◌, ◌+◌, ◌≤◌, IfOk};
ghost use Rattle.std.specs.Option.{option_copied};
ghost use Rattle.expand_documents.specs.Cores.{core_named, core_union};
ghost use Rattle.expand_documents.specs.Faults.{size_of};
ghost use Rattle.expand_declarations.specs.WordNumbers.{word_number};
ghost use Rattle.expand_statements.specs.Counts.{too_many};
ghost use Rattle.quantified_assign.specs.Bodies.{AddsProgram, StartsAreLight, HasLight, IsUnited, MakesUnion};

use case_tables::Code;
use core_terms::{CProgram, join_programs};
use expand_declarations::WordTable;
use names_rules::NameFault;
use std::alloc::{AllocError, Global};
use unity_base::Seq;
use unity_syntax::Name;

/// How many statements a program may have.
const MOST_STATEMENTS: u128 = 4096;

// The program with this name's number.
fn find_program(name: u32, programs: &[CProgram]) -> Option<&CProgram>
    ensures { option_copied result ≡ core_named name programs.now }
{
    for program in programs {
        if program.name == name {
            return Some(program);
        }
    }
    None
}

fn size_of(program: Option<&CProgram>) -> usize
    ensures { result ≡ size_of (option_copied program.entry) }
{
    match program {
        None => 0,
        Some(program) => program.statements.len(),
    }
}

// The union of two programs, where there are both.
fn joined(
    alloc: Global,
    name: u32,
    first: Option<&CProgram>,
    second: Option<&CProgram>,
) -> Result<Option<CProgram>, AllocError>
    requires sizes { size_of (option_copied first) + size_of (option_copied second) ≤ 4096 }
    requires first { HasLight (option_copied first) }
    requires second { HasLight (option_copied second) }
    ensures { IfOk result (λ u. IsUnited u (core_union name (option_copied first.entry) (option_copied second.entry))) }
{
    match first {
        None => Ok(None),
        Some(first) => match second {
            None => Ok(None),
            Some(second) => Ok(Some(join_programs(alloc, name, first, second)?)),
        },
    }
}

fn sized_union(
    alloc: Global,
    name: &Name,
    first: Option<&CProgram>,
    second: Option<&CProgram>,
    words: &WordTable,
) -> Result<Option<CProgram>, NameFault>
    requires first { HasLight (option_copied first) }
    requires second { HasLight (option_copied second) }
    ensures { MakesUnion result
        (core_union (word_number words.now name.now.text) (option_copied first.entry) (option_copied second.entry))
        (too_many (size_of (option_copied first.entry) + size_of (option_copied second.entry)) name.now) }
{
    if size_of(first) as u128 + size_of(second) as u128 > MOST_STATEMENTS {
        return Err(NameFault::Fault {
            code: Code::TooLarge,
            at: name.at,
        });
    }
    Ok(joined(alloc, words.number(name), first, second)?)
}

fn union_of(
    alloc: Global,
    name: &Name,
    left: &Name,
    right: &Name,
    words: &WordTable,
    programs: &[CProgram],
) -> Result<Option<CProgram>, NameFault>
    requires { StartsAreLight programs.now }
    ensures { MakesUnion result (core_union (word_number words.now name.now.text)
        (core_named (word_number words.now left.now.text) programs.now)
        (core_named (word_number words.now right.now.text) programs.now))
        (too_many (size_of (core_named (word_number words.now left.now.text) programs.now)
        + size_of (core_named (word_number words.now right.now.text) programs.now)) name.now) }
{
    let first = find_program(words.number(left), programs);
    let second = find_program(words.number(right), programs);
    sized_union(alloc, name, first, second, words)
}

/// Adds the union of two programs, where both stand before it. `Fault` exactly where they have more than
/// 4,096 statements together, at its name.
pub fn add_union(
    alloc: Global,
    name: &Name,
    left: &Name,
    right: &Name,
    words: &WordTable,
    programs: &mut Seq<CProgram>,
) -> Result<(), NameFault>
    requires { StartsAreLight programs.old }
    ensures { AddsProgram result programs.old programs.new (core_union (word_number words.now name.now.text)
        (core_named (word_number words.now left.now.text) programs.old)
        (core_named (word_number words.now right.now.text) programs.old))
        (too_many (size_of (core_named (word_number words.now left.now.text) programs.old)
        + size_of (core_named (word_number words.now right.now.text) programs.old)) name.now) }
{
    match union_of(alloc, name, left, right, words, programs.as_slice())? {
        None => Ok(()),
        Some(program) => Ok(programs.push(program)?),
    }
}
