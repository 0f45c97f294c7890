//! Programs.

ghost use Rattle.std.specs.Prelude.{◌≡◌, [], ◌∷◌, Option};
ghost use Rattle.names_rules.specs.Scope.{entries, scope, seen_keys};
ghost use Rattle.names_rules.specs.Part.{run};
ghost use Rattle.names_rules.specs.Declarations.{always_part, init_part, initially_reading, items_of, program_scope};
ghost use Rattle.names_rules.specs.Declarations.{some_of, variable_part};
ghost use Rattle.names_rules.specs.WellNamed.{declarations_part, new_program, plain_program, program_body};
ghost use Rattle.names_rules.specs.WellNamed.{program_part, start_reading};
ghost use Rattle.names_rules.specs.Answers.{Leaves, Notes};
ghost use Rattle.ranges_types.specs.Tables.{Composes, declared_in};

use crate::definitions::always;
use crate::start::{StartSlots, inits};
use crate::store::Tables;
use crate::unions::union_program;
use crate::variable::variables;
use case_tables::Code;
use indexmap::IndexSet;
use names_checks::{Table, WordSet, demand, items, value};
use names_rules::{
    Composed, Env, Known, Meaning, NameFault, NameTable, ProgramTable, Sort, find_program, outside,
};
use std::alloc::Global;
use unity_base::Seq;
use unity_syntax::{Def, Init, Initially, Items, Name, Program, Var};

/// A program's name, which no program before has.
pub fn new_program(name: &Name, programs: &ProgramTable, table: &mut Table) -> Result<(), NameFault>
    ensures { Notes result table.old table.new (new_program (entries programs.now) name.now) }
{
    demand(
        find_program(programs, name).is_none(),
        Code::DeclaredTwice,
        name.at,
    )?;
    table.push((name.at, Meaning::Program(name.at)))?;
    Ok(())
}

/// The programs with one more.
pub fn compose<'a>(
    name: &'a Name,
    composed: Composed,
    programs: &mut ProgramTable<'a>,
) -> Result<(), NameFault>
    ensures { Composes result (entries programs.old) (entries programs.new) name.now composed }
{
    match programs.insert(name.text.as_slice(), composed) {
        Ok(_) => Ok(()),
        Err(_) => Err(NameFault::Memory),
    }
}

fn compose_plain<'a>(
    alloc: Global,
    name: &'a Name,
    programs: &mut ProgramTable<'a>,
) -> Result<(), NameFault>
    ensures { Composes result (entries programs.old) (entries programs.new) name.now
        (record { at = name.now.at; parts = name.now.at ∷ [] }) }
{
    let mut parts = Seq::new(alloc);
    parts.push(name.at)?;
    compose(name, Composed { at: name.at, parts }, programs)
}

fn declare_all<'a>(
    program: u64,
    vs: &'a Option<Seq<Var>>,
    names: &mut NameTable<'a>,
    table: &mut Table,
) -> Result<(), NameFault>
    ensures { Leaves result table.old table.new (entries names.new)
        (run (variable_part program) (entries names.old) (items_of vs.now)) }
{
    match vs {
        None => Ok(()),
        Some(vs) => variables(program, vs.as_slice(), names, table),
    }
}

fn define_all<'a>(
    program: u64,
    ds: &'a Option<Seq<Def>>,
    names: &mut NameTable<'a>,
    table: &mut Table,
) -> Result<(), NameFault>
    ensures { Leaves result table.old table.new (entries names.new)
        (always_part program (entries names.old) (items_of ds.now)) }
{
    match ds {
        None => Ok(()),
        Some(ds) => always(program, ds.as_slice(), names, table),
    }
}

fn declarations<'a>(
    program: u64,
    vs: &'a Option<Seq<Var>>,
    ds: &'a Option<Seq<Def>>,
    names: &mut NameTable<'a>,
    table: &mut Table,
) -> Result<(), NameFault>
    ensures { Leaves result table.old table.new (entries names.new)
        (declarations_part program (entries names.old) (items_of vs.now) (items_of ds.now)) }
{
    declare_all(program, vs, names, table)?;
    define_all(program, ds, names, table)
}

fn initially(
    section: &Option<Initially>,
    known: &Known,
    env: &Env,
    table: &mut Table,
) -> Result<(), NameFault>
    ensures { Notes result table.old table.new (initially_reading (scope known.now env.now) section.now) }
{
    match section {
        None => Ok(()),
        Some(section) => value(&section.of, Sort::Boolean, known, env, table),
    }
}

fn start_with(
    list: &Option<(Init, Seq<Init>)>,
    known: &Known,
    env: &Env,
    slots: &mut StartSlots,
    table: &mut Table,
) -> Result<(), NameFault>
    ensures { Leaves result table.old table.new slots.new.keys
        (run (init_part (scope known.now env.now)) slots.old.keys (some_of list.now)) }
{
    match list {
        None => Ok(()),
        Some((first, rest)) => inits(first, rest.as_slice(), known, env, slots, table),
    }
}

fn start(
    alloc: Global,
    list: &Option<(Init, Seq<Init>)>,
    known: &Known,
    env: &Env,
    table: &mut Table,
) -> Result<(), NameFault>
    ensures { Notes result table.old table.new (start_reading (scope known.now env.now) (some_of list.now)) }
{
    let mut slots = IndexSet::new(alloc);
    start_with(list, known, env, &mut slots, table)
}

fn body<'a>(
    alloc: Global,
    section: &Option<Initially>,
    list: &Option<(Init, Seq<Init>)>,
    of: &'a Items,
    known: &Known,
    env: &Env,
    labels: &mut WordSet<'a>,
    table: &mut Table,
) -> Result<(), NameFault>
    ensures { Leaves result table.old table.new (seen_keys labels.new)
        (program_body (scope known.now env.now) section.now (some_of list.now) of.now (seen_keys labels.old)) }
{
    initially(section, known, env, table)?;
    start(alloc, list, known, env, table)?;
    items(of, known, env, labels, table)
}

fn body_in<'a>(
    alloc: Global,
    program: u64,
    section: &Option<Initially>,
    list: &Option<(Init, Seq<Init>)>,
    of: &'a Items,
    names: &NameTable,
    labels: &mut WordSet<'a>,
    table: &mut Table,
) -> Result<(), NameFault>
    ensures { Leaves result table.old table.new (seen_keys labels.new)
        (program_body (program_scope program (entries names.now)) section.now (some_of list.now) of.now
        (seen_keys labels.old)) }
{
    let known = Known {
        names,
        params: None,
        definitions: &[],
        defined: 0,
        program: Some(program),
    };
    body(alloc, section, list, of, &known, &outside(), labels, table)
}

fn plain_program<'a>(
    alloc: Global,
    name: &'a Name,
    vs: &'a Option<Seq<Var>>,
    ds: &'a Option<Seq<Def>>,
    section: &'a Option<Initially>,
    list: &'a Option<(Init, Seq<Init>)>,
    of: &'a Items,
    t: &mut Tables<'a>,
    table: &mut Table,
) -> Result<(), NameFault>
    ensures { Leaves result table.old table.new (declared_in t.new)
        (plain_program (declared_in t.old) name.now (items_of vs.now) (items_of ds.now) section.now
        (some_of list.now) of.now) }
{
    new_program(name, &t.programs, table)?;
    declarations(name.at, vs, ds, &mut t.names, table)?;
    body_in(
        alloc,
        name.at,
        section,
        list,
        of,
        &t.names,
        &mut t.labels,
        table,
    )?;
    compose_plain(alloc, name, &mut t.programs)
}

/// A program.
pub fn program<'a>(
    alloc: Global,
    p: &'a Program,
    t: &mut Tables<'a>,
    table: &mut Table,
) -> Result<(), NameFault>
    ensures { Leaves result table.old table.new (declared_in t.new) (program_part (declared_in t.old) p.now) }
{
    match p {
        Program::Union {
            at: _,
            name,
            left,
            right,
        } => union_program(alloc, name, left, right, t, table),
        Program::Plain {
            at: _,
            name,
            declare,
            always,
            initially,
            start,
            items,
        } => plain_program(
            alloc, name, declare, always, initially, start, items, t, table,
        ),
    }
}
