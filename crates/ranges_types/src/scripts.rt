//! Proofs.

ghost use Rattle.std.specs.Prelude.{◌≡◌, []};
ghost use Rattle.names_rules.specs.Scope.{entries, seen_keys};
ghost use Rattle.names_rules.specs.Part.{run};
ghost use Rattle.names_rules.specs.Proofs.{step_part};
ghost use Rattle.names_rules.specs.WellNamed.{proof_part, steps_reading};
ghost use Rattle.names_rules.specs.Answers.{Leaves, Notes};
ghost use Rattle.ranges_types.specs.Tables.{declared_in};

use crate::store::Tables;
use indexmap::IndexSet;
use names_checks::{Table, WordSet, program_word, step, take};
use names_rules::{NameFault, NameTable, ProgramTable};
use std::alloc::Global;
use unity_syntax::{Proof, Step};

fn steps_with<'a>(
    alloc: Global,
    list: &'a [Step],
    programs: &ProgramTable,
    names: &NameTable,
    steps: &mut WordSet<'a>,
    table: &mut Table,
) -> Result<(), NameFault>
    ensures { Leaves result table.old table.new (seen_keys steps.new)
        (run (step_part (entries programs.now) (entries names.now)) (seen_keys steps.old) list.now) }
{
    for s in list {
        step(alloc, s, programs, names, steps, table)?;
    }
    Ok(())
}

fn steps(
    alloc: Global,
    list: &[Step],
    programs: &ProgramTable,
    names: &NameTable,
    table: &mut Table,
) -> Result<(), NameFault>
    ensures { Notes result table.old table.new (steps_reading (entries programs.now) (entries names.now) list.now) }
{
    let mut taken = IndexSet::new(alloc);
    steps_with(alloc, list, programs, names, &mut taken, table)
}

/// A proof of a program that stands before and has none.
pub fn proof<'a>(
    alloc: Global,
    p: &'a Proof,
    t: &mut Tables<'a>,
    table: &mut Table,
) -> Result<(), NameFault>
    ensures { Leaves result table.old table.new (declared_in t.new) (proof_part (declared_in t.old) p.now) }
{
    program_word(&p.program, &t.programs, table)?;
    take(&p.program, &mut t.proved)?;
    steps(alloc, p.steps.as_slice(), &t.programs, &t.names, table)
}
