//! Documents.

ghost use Rattle.std.specs.Prelude.{◌≡◌, ◌∷◌, map, [], Some, None};
ghost use Rattle.names_rules.specs.Scope.{entries};
ghost use Rattle.names_rules.specs.Reading.{all_beside};
ghost use Rattle.names_rules.specs.Part.{run};
ghost use Rattle.names_rules.specs.Declarations.{some_of};
ghost use Rattle.names_rules.specs.WellNamed.{choice_reading, document_part, nothing_declared, part_of};
ghost use Rattle.names_rules.specs.WellNamed.{schedule_reading};
ghost use Rattle.names_rules.specs.Answers.{Leaves, Notes};
ghost use Rattle.ranges_types.specs.Tables.{declared_in};

use crate::programs::program;
use crate::scripts::proof;
use crate::store::Tables;
use names_checks::{Table, arguments, program_word};
use names_rules::{Indices, Known, NameFault, NameTable, outside};
use std::alloc::Global;
use unity_base::Seq;
use unity_syntax::{Document, Inst, Part, Schedule};

fn part<'a>(
    alloc: Global,
    p: &'a Part,
    t: &mut Tables<'a>,
    table: &mut Table,
) -> Result<(), NameFault>
    ensures { Leaves result table.old table.new (declared_in t.new) (part_of (declared_in t.old) p.now) }
{
    match p {
        Part::Program { at: _, of } => program(alloc, of, t, table),
        Part::Proof { at: _, of } => proof(alloc, of, t, table),
    }
}

fn parts<'a>(
    alloc: Global,
    ps: &'a [Part],
    t: &mut Tables<'a>,
    table: &mut Table,
) -> Result<(), NameFault>
    ensures { Leaves result table.old table.new (declared_in t.new) (run part_of (declared_in t.old) ps.now) }
{
    for p in ps {
        part(alloc, p, t, table)?;
    }
    Ok(())
}

fn choice(i: &Inst, t: &Tables, table: &mut Table) -> Result<(), NameFault>
    ensures { Notes result table.old table.new (choice_reading (declared_in t.now) i.now) }
{
    let known = Known {
        names: &t.names,
        params: None,
        definitions: &[],
        defined: 0,
        program: None,
    };
    arguments(Indices::Schedule, &i.indices, &known, &outside(), table)
}

fn further(list: &[Inst], t: &Tables, table: &mut Table) -> Result<(), NameFault>
    ensures { Notes result table.old table.new (all_beside (map (choice_reading (declared_in t.now)) list.now)) }
{
    for i in list {
        choice(i, t, table)?;
    }
    Ok(())
}

fn choices(list: &Option<(Inst, Seq<Inst>)>, t: &Tables, table: &mut Table) -> Result<(), NameFault>
    ensures { Notes result table.old table.new
        (all_beside (map (choice_reading (declared_in t.now)) (some_of list.now))) }
{
    match list {
        None => Ok(()),
        Some((first, rest)) => {
            choice(first, t, table)?;
            further(rest.as_slice(), t, table)
        }
    }
}

fn schedule(s: &Option<Schedule>, t: &Tables, table: &mut Table) -> Result<(), NameFault>
    ensures { Notes result table.old table.new (schedule_reading (declared_in t.now) s.now) }
{
    match s {
        None => Ok(()),
        Some(s) => {
            program_word(&s.program, &t.programs, table)?;
            choices(&s.choices, t, table)
        }
    }
}

/// A document: what its words mean is added to the table, and what it declares to the tables.
pub fn document<'a>(
    alloc: Global,
    d: &'a Document,
    t: &mut Tables<'a>,
    table: &mut Table,
) -> Result<(), NameFault>
    requires { declared_in t.old ≡ nothing_declared }
    ensures { Leaves result table.old table.new (declared_in t.new) (document_part d.now) }
{
    parts(alloc, d.parts.as_slice(), t, table)?;
    schedule(&d.schedule, t, table)
}
