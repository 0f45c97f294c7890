//! Variables.

ghost use Rattle.std.specs.Prelude.{◌≡◌};
ghost use Rattle.names_rules.specs.Scope.{entries};
ghost use Rattle.names_rules.specs.Declarations.{means_alike, declared, element_type, may_declare, same_indices};
ghost use Rattle.names_rules.specs.Declarations.{same_span};
ghost use Rattle.names_rules.specs.Declarations.{same_type, type_indices, variable_as, variable_named, variable_part};
ghost use Rattle.names_rules.specs.Part.{run};
ghost use Rattle.names_rules.specs.Answers.{Leaves};

use crate::entering::enter;
use crate::kinds::{kind, plain_sort, plain_span, span_of};
use case_tables::Code;
use names_checks::{Table, demand, same};
use names_rules::{Meaning, NameFault, NameTable, Named, Span, find, is_variable};
use unity_syntax::{Plain, Var, VarType};

fn element_type(kind: &VarType) -> &Plain
    ensures { result.now ≡ element_type kind.now }
{
    match kind {
        VarType::Plain { at: _, of } => of,
        VarType::Array {
            at: _,
            range: _,
            of,
        } => of,
    }
}

fn type_indices(kind: &VarType) -> Option<Span>
    ensures { result ≡ type_indices kind.now }
{
    match kind {
        VarType::Plain { at: _, of: _ } => None,
        VarType::Array {
            at: _,
            range,
            of: _,
        } => Some(span_of(range)),
    }
}

fn variable_named(program: u64, names: &NameTable, v: &Var) -> Named
    ensures { result ≡ variable_named program (entries names.now) v.now }
{
    let of = element_type(&v.kind);
    Named {
        meaning: Meaning::Variable(v.name.at),
        sort: plain_sort(names, of),
        range: plain_span(of),
        indices: type_indices(&v.kind),
        constant: false,
        program,
    }
}

fn same_span(a: Span, b: Span) -> bool
    ensures { result ≡ same_span a b }
{
    a.low == b.low && a.high == b.high
}

fn same_indices(a: Option<Span>, b: Option<Span>) -> bool
    ensures { result ≡ same_indices a b }
{
    match (a, b) {
        (None, None) => true,
        (Some(a), Some(b)) => same_span(a, b),
        _ => false,
    }
}

fn same_type(a: Named, b: Named) -> bool
    ensures { result ≡ same_type a b }
{
    same(a.sort, b.sort) && (same_span(a.range, b.range) && same_indices(a.indices, b.indices))
}

fn may_declare(program: u64, old: Option<Named>) -> bool
    ensures { result ≡ may_declare program old }
{
    match old {
        None => true,
        Some(old) => is_variable(old.meaning) && !(old.program == program),
    }
}

fn declared(new: Named, old: Option<Named>) -> Named
    ensures { result ≡ declared new old }
{
    match old {
        None => new,
        Some(old) => Named {
            meaning: old.meaning,
            sort: old.sort,
            range: old.range,
            indices: old.indices,
            constant: old.constant,
            program: new.program,
        },
    }
}

fn means_alike(new: Named, old: Option<Named>) -> bool
    ensures { result ≡ means_alike new old }
{
    match old {
        None => true,
        Some(old) => same_type(old, new),
    }
}

fn variable_as<'a>(
    v: &'a Var,
    old: Option<Named>,
    new: Named,
    names: &mut NameTable<'a>,
    table: &mut Table,
) -> Result<(), NameFault>
    ensures { Leaves result table.old table.new (entries names.new) (variable_as (entries names.old) v.now old new) }
{
    demand(
        may_declare(new.program, old),
        Code::DeclaredTwice,
        v.name.at,
    )?;
    let named = declared(new, old);
    table.push((v.name.at, named.meaning))?;
    enter(&v.name, named, names)?;
    kind(&v.kind, names, table)?;
    demand(means_alike(new, old), Code::DeclaredTwice, v.name.at)
}

fn variable<'a>(
    program: u64,
    v: &'a Var,
    names: &mut NameTable<'a>,
    table: &mut Table,
) -> Result<(), NameFault>
    ensures { Leaves result table.old table.new (entries names.new) (variable_part program (entries names.old) v.now) }
{
    let new = variable_named(program, names, v);
    variable_as(v, find(names, &v.name), new, names, table)
}

/// The variables that a program declares.
pub fn variables<'a>(
    program: u64,
    vs: &'a [Var],
    names: &mut NameTable<'a>,
    table: &mut Table,
) -> Result<(), NameFault>
    ensures { Leaves result table.old table.new (entries names.new)
        (run (variable_part program) (entries names.old) vs.now) }
{
    for v in vs {
        variable(program, v, names, table)?;
    }
    Ok(())
}
