//! References to steps.

ghost use Rattle.std.specs.Prelude.{◌≡◌, ◌∷◌, map, Some, None};
ghost use Rattle.names_rules.specs.Scope.{entries, scope};
ghost use Rattle.names_rules.specs.Reading.{all_beside};
ghost use Rattle.names_rules.specs.Declarations.{some_of};
ghost use Rattle.names_rules.specs.Proofs.{owner_reading, program_reading, ref_reading};
ghost use Rattle.names_rules.specs.Answers.{Notes};

use crate::indices::arguments;
use crate::words::Table;
use case_tables::Code;
use names_rules::{Env, Indices, Known, Meaning, NameFault, ProgramTable, find_program};
use unity_base::Seq;
use unity_syntax::{Name, Ref};

/// The name of a program that stands before.
pub fn program_word(
    name: &Name,
    programs: &ProgramTable,
    table: &mut Table,
) -> Result<(), NameFault>
    ensures { Notes result table.old table.new (program_reading (entries programs.now) name.now) }
{
    match find_program(programs, name) {
        None => Err(NameFault::Fault {
            code: Code::Unknown,
            at: name.at,
        }),
        Some(program) => {
            table.push((name.at, Meaning::Program(program.at)))?;
            Ok(())
        }
    }
}

fn owner(r: &Ref, programs: &ProgramTable, table: &mut Table) -> Result<(), NameFault>
    ensures { Notes result table.old table.new (owner_reading (entries programs.now) r.now r.now.step) }
{
    match &r.step {
        None => Ok(()),
        Some(_) => program_word(&r.name, programs, table),
    }
}

/// A reference.
pub fn reference(
    r: &Ref,
    programs: &ProgramTable,
    known: &Known,
    env: &Env,
    table: &mut Table,
) -> Result<(), NameFault>
    ensures { Notes result table.old table.new (ref_reading (entries programs.now) (scope known.now env.now) r.now) }
{
    owner(r, programs, table)?;
    arguments(Indices::Reference, &r.args, known, env, table)
}

fn further(
    rs: &[Ref],
    programs: &ProgramTable,
    known: &Known,
    env: &Env,
    table: &mut Table,
) -> Result<(), NameFault>
    ensures { Notes result table.old table.new
        (all_beside (map (ref_reading (entries programs.now) (scope known.now env.now)) rs.now)) }
{
    for r in rs {
        reference(r, programs, known, env, table)?;
    }
    Ok(())
}

/// References, where there are any.
pub fn references(
    rs: &Option<(Ref, Seq<Ref>)>,
    programs: &ProgramTable,
    known: &Known,
    env: &Env,
    table: &mut Table,
) -> Result<(), NameFault>
    ensures { Notes result table.old table.new
        (all_beside (map (ref_reading (entries programs.now) (scope known.now env.now)) (some_of rs.now))) }
{
    match rs {
        None => Ok(()),
        Some((first, rest)) => {
            reference(first, programs, known, env, table)?;
            further(rest.as_slice(), programs, known, env, table)
        }
    }
}
