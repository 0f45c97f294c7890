//! Assignments and their components.

ghost use Rattle.std.specs.Prelude.{◌≡◌, ◌∷◌, map};
ghost use Rattle.names_rules.specs.Scope.{scope};
ghost use Rattle.names_rules.specs.Reading.{all_beside};
ghost use Rattle.names_rules.specs.Statements.{assign_reading, component_reading};
ghost use Rattle.names_rules.specs.Answers.{Notes};

use crate::alternatives::alternatives;
use crate::ranges::bind_in;
use crate::targets::targets;
use crate::words::Table;
use names_rules::{Env, Known, Meaning, NameFault, with_name};
use unity_base::Seq;
use unity_syntax::{Assign, Component};

#[cycle(assign)]
fn component(c: &Component, known: &Known, env: &Env, table: &mut Table) -> Result<(), NameFault>
    ensures { Notes result table.old table.new (component_reading c.now (scope known.now env.now)) }
{
    match c {
        Component::Set {
            at: _,
            first,
            rest,
            alts,
        } => {
            targets(first, rest.as_slice(), known, env, table)?;
            alternatives(first, rest.as_slice(), alts, known, env, table)
        }
        Component::Quantified {
            at: _,
            name,
            range,
            of,
        } => {
            bind_in(name, range, known, env, table)?;
            let inner = with_name(&*name, Meaning::Bound(name.at), &*env);
            assign(of.get(), known, &inner, table)
        }
    }
}

/// An assignment: its components, from left to right.
#[cycle(assign)]
pub fn assign(a: &Assign, known: &Known, env: &Env, table: &mut Table) -> Result<(), NameFault>
    ensures { Notes result table.old table.new (assign_reading a.now (scope known.now env.now)) }
{
    component(&a.first, known, env, table)?;
    further(&a.rest, known, env, table)
}

#[cycle(assign)]
fn further(
    cs: &Seq<Component>,
    known: &Known,
    env: &Env,
    table: &mut Table,
) -> Result<(), NameFault>
    ensures { Notes result table.old table.new
        (all_beside (map (λ c. component_reading c (scope known.now env.now)) cs.now)) }
{
    for c in cs.as_slice() {
        component(c, known, env, table)?;
    }
    Ok(())
}
