//! The alternatives of an assignment.

ghost use Rattle.std.specs.Prelude.{◌≡◌, ◌∷◌, map, length, Option, Some, None};
ghost use Rattle.names_rules.specs.Scope.{scope};
ghost use Rattle.names_rules.specs.Reading.{all_beside, needs, read, beside};
ghost use Rattle.names_rules.specs.Statements.{alternative_reading, alternatives_reading, condition_reading};
ghost use Rattle.names_rules.specs.Statements.{further_reading, target_head, values_reading};
ghost use Rattle.names_rules.specs.Answers.{Notes};

use crate::checks::demand;
use crate::targets::target_sort;
use crate::walk::value;
use crate::words::Table;
use case_tables::Code;
use names_rules::{Env, Known, NameFault, Sort};
use unity_syntax::{Alts, Expr, Target, Values};

/// A value, of its target's type.
fn target_value(
    e: &Expr,
    t: &Target,
    known: &Known,
    env: &Env,
    table: &mut Table,
) -> Result<(), NameFault>
    ensures { Notes result table.old table.new
        (needs (target_head (scope known.now env.now) t.now).sort (read e.now (scope known.now env.now))) }
{
    value(e, target_sort(t, known, env), known, env, table)
}

fn further_values(
    ts: &[Target],
    es: &[Expr],
    known: &Known,
    env: &Env,
    table: &mut Table,
) -> Result<(), NameFault>
    requires { length es.now ≡ length ts.now }
    ensures { Notes result table.old table.new (values_reading (scope known.now env.now) ts.now es.now) }
{
    for i in 0..es.len() {
        target_value(&es[i], &ts[i], known, env, table)?;
    }
    Ok(())
}

fn values(
    first: &Target,
    rest: &[Target],
    values: &Values,
    known: &Known,
    env: &Env,
    table: &mut Table,
) -> Result<(), NameFault>
    requires { length values.now.rest ≡ length rest.now }
    ensures { Notes result table.old table.new
        (values_reading (scope known.now env.now) (first.now ∷ rest.now) (values.now.first ∷ values.now.rest)) }
{
    target_value(&values.first, first, known, env, table)?;
    further_values(rest, values.rest.as_slice(), known, env, table)
}

/// An alternative: as many values as there are targets.
fn counted(
    first: &Target,
    rest: &[Target],
    list: &Values,
    known: &Known,
    env: &Env,
    table: &mut Table,
) -> Result<(), NameFault>
    ensures { Notes result table.old table.new
        (alternative_reading (scope known.now env.now) first.now rest.now list.now None) }
{
    if list.rest.len() == rest.len() {
        values(first, rest, list, known, env, table)
    } else {
        Err(NameFault::Fault {
            code: Code::Arity,
            at: list.at,
        })
    }
}

fn conditional(
    first: &Target,
    rest: &[Target],
    list: &Values,
    condition: &Expr,
    known: &Known,
    env: &Env,
    table: &mut Table,
) -> Result<(), NameFault>
    ensures { Notes result table.old table.new
        (alternative_reading (scope known.now env.now) first.now rest.now list.now (Some condition.now)) }
{
    counted(first, rest, list, known, env, table)?;
    value(condition, Sort::Boolean, known, env, table)
}

fn further(
    first: &Target,
    rest: &[Target],
    list: &[(Values, Expr)],
    known: &Known,
    env: &Env,
    table: &mut Table,
) -> Result<(), NameFault>
    ensures { Notes result table.old table.new
        (all_beside (map (further_reading (scope known.now env.now) first.now rest.now) list.now)) }
{
    for (values, condition) in list {
        conditional(first, rest, values, condition, known, env, table)?;
    }
    Ok(())
}

/// The alternatives of an assignment to these targets.
pub fn alternatives(
    first: &Target,
    rest: &[Target],
    alts: &Alts,
    known: &Known,
    env: &Env,
    table: &mut Table,
) -> Result<(), NameFault>
    ensures { Notes result table.old table.new
        (alternatives_reading (scope known.now env.now) first.now rest.now alts.now.values alts.now.condition) }
{
    match &alts.condition {
        None => counted(first, rest, &alts.values, known, env, table),
        Some((condition, more)) => {
            conditional(first, rest, &alts.values, condition, known, env, table)?;
            further(first, rest, more.as_slice(), known, env, table)
        }
    }
}
