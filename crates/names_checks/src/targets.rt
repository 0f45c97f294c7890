//! Targets of assignments.

ghost use Rattle.std.specs.Prelude.{◌≡◌, ◌∷◌, map, Some, None};
ghost use Rattle.std.specs.Option.{is_some};
ghost use Rattle.names_rules.specs.Scope.{scope};
ghost use Rattle.names_rules.specs.Reading.{all_beside};
ghost use Rattle.names_rules.specs.Statements.{index_reading, target_head, target_reading, target_word};
ghost use Rattle.names_rules.specs.Answers.{Notes};

use crate::checks::{demand, unknown};
use crate::walk::value;
use crate::words::Table;
use case_tables::Code;
use names_rules::{Env, Known, NameFault, Named, Sort, is_variable, meaning};
use unity_syntax::{Expr, Name, Target};

fn index(index: &Option<Expr>, known: &Known, env: &Env, table: &mut Table) -> Result<(), NameFault>
    ensures { Notes result table.old table.new (index_reading (scope known.now env.now) index.now) }
{
    match index {
        None => Ok(()),
        Some(index) => value(index, Sort::Number, known, env, table),
    }
}

fn target_word(
    name: &Name,
    indexed: bool,
    named: Option<Named>,
    table: &mut Table,
) -> Result<(), NameFault>
    ensures { Notes result table.old table.new (target_word name.now indexed named) }
{
    let named = named.ok_or(unknown(name))?;
    demand(is_variable(named.meaning), Code::Unknown, name.at)?;
    demand(named.indices.is_some() == indexed, Code::WrongType, name.at)?;
    table.push((name.at, named.meaning))?;
    Ok(())
}

/// A target: a variable, with an index where it is an array.
fn target(t: &Target, known: &Known, env: &Env, table: &mut Table) -> Result<(), NameFault>
    ensures { Notes result table.old table.new (target_reading (scope known.now env.now) t.now) }
{
    let named = meaning(&t.name, known, env);
    target_word(&t.name, t.index.is_some(), named, table)?;
    index(&t.index, known, env, table)
}

/// The type of a target.
pub fn target_sort(t: &Target, known: &Known, env: &Env) -> Sort
    ensures { result ≡ (target_head (scope known.now env.now) t.now).sort }
{
    match meaning(&t.name, known, env) {
        Some(named) => named.sort,
        None => Sort::Number,
    }
}

fn further(ts: &[Target], known: &Known, env: &Env, table: &mut Table) -> Result<(), NameFault>
    ensures { Notes result table.old table.new (all_beside (map (target_reading (scope known.now env.now)) ts.now)) }
{
    for t in ts {
        target(t, known, env, table)?;
    }
    Ok(())
}

/// The targets of an assignment.
pub fn targets(
    first: &Target,
    rest: &[Target],
    known: &Known,
    env: &Env,
    table: &mut Table,
) -> Result<(), NameFault>
    ensures { Notes result table.old table.new
        (all_beside (map (target_reading (scope known.now env.now)) (first.now ∷ rest.now))) }
{
    target(first, known, env, table)?;
    further(rest, known, env, table)
}
