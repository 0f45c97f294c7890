//! Always names.

ghost use Rattle.std.specs.Prelude.{◌≡◌, drop};
ghost use Rattle.names_rules.specs.declared.named.Meaning.{Meaning};
ghost use Rattle.names_rules.specs.Scope.{entries, plainly_named};
ghost use Rattle.names_rules.specs.Reading.{read};
ghost use Rattle.names_rules.specs.Declarations.{always_part, definition, definition_scope};
ghost use Rattle.names_rules.specs.Answers.{GivesReading, Leaves};

use crate::entering::enter;
use case_tables::Code;
use names_checks::{Table, demand, expression};
use names_rules::{Known, Meaning, NameFault, NameTable, Named, Span, Typed, find, outside};
use unity_syntax::Def;

fn always_named(program: u64, at: u64, typed: Typed) -> Named
    ensures { result ≡ plainly_named (Meaning.Always at) typed.sort typed.constant program }
{
    Named {
        meaning: Meaning::Always(at),
        sort: typed.sort,
        range: Span { low: 0, high: 0 },
        indices: None,
        constant: typed.constant,
        program,
    }
}

/// The type of a definition, before which these definitions are over.
fn definition_type<'x>(
    program: u64,
    d: &Def,
    definitions: &'x [Def],
    defined: usize,
    names: &'x NameTable,
    table: &mut Table,
) -> Result<Typed, NameFault>
    ensures { GivesReading result table.old table.new
        (read d.now.of (definition_scope program (entries names.now) (drop defined definitions.now))) }
{
    let known = Known {
        names,
        params: None,
        definitions,
        defined,
        program: Some(program),
    };
    expression(&d.of, &known, &outside(), table)
}

fn define<'a>(
    program: u64,
    d: &'a Def,
    definitions: &'a [Def],
    defined: usize,
    names: &mut NameTable<'a>,
    table: &mut Table,
) -> Result<(), NameFault>
    ensures { Leaves result table.old table.new (entries names.new)
        (definition program (entries names.old) d.now.name
        (read d.now.of (definition_scope program (entries names.old) (drop defined definitions.now)))) }
{
    demand(
        find(names, &d.name).is_none(),
        Code::DeclaredTwice,
        d.name.at,
    )?;
    table.push((d.name.at, Meaning::Always(d.name.at)))?;
    let typed = definition_type(program, d, definitions, defined, names, table)?;
    enter(&d.name, always_named(program, d.name.at, typed), names)
}

/// The always names that a program defines.
pub fn always<'a>(
    program: u64,
    ds: &'a [Def],
    names: &mut NameTable<'a>,
    table: &mut Table,
) -> Result<(), NameFault>
    ensures { Leaves result table.old table.new (entries names.new) (always_part program (entries names.old) ds.now) }
{
    for i in 0..ds.len() {
        define(program, &ds[i], ds, i, names, table)?;
    }
    Ok(())
}
