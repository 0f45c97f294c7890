//! Unions of programs.

ghost use Rattle.std.specs.Prelude.{◌≡◌, ◌++◌, IfOk, not};
ghost use Rattle.case_tables.specs.declared.code_table.Code.{Code};
ghost use Rattle.names_rules.specs.Scope.{entries};
ghost use Rattle.names_rules.specs.WellNamed.{parts_of, share, union_program, union_reading};
ghost use Rattle.names_rules.specs.Reading.{unless};
ghost use Rattle.names_rules.specs.Answers.{Demands, Leaves, Notes};
ghost use Rattle.ranges_types.specs.Tables.{declared_in};

use crate::programs::{compose, new_program};
use crate::sharing::share;
use crate::store::Tables;
use case_tables::Code;
use names_checks::{Table, demand, program_word};
use names_rules::{Composed, NameFault, ProgramTable, find_program};
use std::alloc::{AllocError, Global};
use unity_base::Seq;
use unity_syntax::Name;

/// The plain programs that a program is made of.
fn parts_of<'p>(name: &Name, programs: &'p ProgramTable) -> &'p [u64]
    ensures { result.now ≡ parts_of (entries programs.now) name.now }
{
    match find_program(programs, name) {
        None => &[],
        Some(program) => program.parts.as_slice(),
    }
}

fn both(alloc: Global, xs: &[u64], ys: &[u64]) -> Result<Seq<u64>, AllocError>
    ensures { IfOk result (λ list. list ≡ xs.now ++ ys.now) }
{
    let mut list = Seq::new(alloc);
    for x in xs {
        list.push(*x)?;
    }
    for y in ys {
        list.push(*y)?;
    }
    Ok(list)
}

/// The two sides of a union have no plain program in common.
fn apart(alloc: Global, left: &Name, right: &Name, programs: &ProgramTable) -> Result<(), NameFault>
    ensures { Demands result (unless
        (not (share (parts_of (entries programs.now) left.now) (parts_of (entries programs.now) right.now)))
        Code.DeclaredTwice right.now.at) }
{
    let shared = share(alloc, parts_of(left, programs), parts_of(right, programs))?;
    demand(!shared, Code::DeclaredTwice, right.at)
}

fn sides(
    alloc: Global,
    name: &Name,
    left: &Name,
    right: &Name,
    programs: &ProgramTable,
    table: &mut Table,
) -> Result<(), NameFault>
    ensures { Notes result table.old table.new (union_reading (entries programs.now) name.now left.now right.now) }
{
    new_program(name, programs, table)?;
    program_word(left, programs, table)?;
    program_word(right, programs, table)?;
    apart(alloc, left, right, programs)
}

fn union_parts(
    alloc: Global,
    left: &Name,
    right: &Name,
    programs: &ProgramTable,
) -> Result<Seq<u64>, AllocError>
    ensures { IfOk result
        (λ list. list ≡ parts_of (entries programs.now) left.now ++ parts_of (entries programs.now) right.now) }
{
    both(alloc, parts_of(left, programs), parts_of(right, programs))
}

fn composed(
    alloc: Global,
    name: &Name,
    left: &Name,
    right: &Name,
    programs: &ProgramTable,
) -> Result<Composed, AllocError>
    ensures { IfOk result (λ c. c ≡ record {
      at = name.now.at;
      parts = parts_of (entries programs.now) left.now ++ parts_of (entries programs.now) right.now;
    }) }
{
    let parts = union_parts(alloc, left, right, programs)?;
    Ok(Composed { at: name.at, parts })
}

/// A union.
pub fn union_program<'a>(
    alloc: Global,
    name: &'a Name,
    left: &Name,
    right: &Name,
    t: &mut Tables<'a>,
    table: &mut Table,
) -> Result<(), NameFault>
    ensures { Leaves result table.old table.new (declared_in t.new)
        (union_program (declared_in t.old) name.now left.now right.now) }
{
    sides(alloc, name, left, right, &t.programs, table)?;
    let c = composed(alloc, name, left, right, &t.programs)?;
    compose(name, c, &mut t.programs)
}
