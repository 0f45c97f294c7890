//! Arguments of references, and indices of statements' names.

ghost use Rattle.std.specs.Prelude.{◌≡◌, ◌∷◌, map, Some, None};
ghost use Rattle.names_rules.specs.Scope.{scope};
ghost use Rattle.names_rules.specs.Reading.{all_beside};
ghost use Rattle.names_rules.specs.Proofs.{accepts, argument_reading, argument_word, arguments_reading, helper_reading};
ghost use Rattle.names_rules.specs.Answers.{Notes};

use crate::checks::{demand, unknown};
use crate::words::Table;
use case_tables::Code;
use names_rules::{Env, Indices, Known, Meaning, NameFault, Named, is_param, is_variable, meaning};
use unity_base::Seq;
use unity_syntax::{End, Inst, Name};

fn accepts(of: Indices, meaning: Meaning) -> bool
    ensures { result ≡ accepts of meaning }
{
    match of {
        Indices::Helper => is_param(meaning),
        Indices::Reference => is_variable(meaning) || is_param(meaning),
        Indices::Schedule => false,
    }
}

fn argument_word(
    of: Indices,
    name: &Name,
    named: Option<Named>,
    table: &mut Table,
) -> Result<(), NameFault>
    ensures { Notes result table.old table.new (argument_word of name.now named) }
{
    let named = named.ok_or(unknown(name))?;
    demand(accepts(of, named.meaning), Code::Unknown, name.at)?;
    table.push((name.at, named.meaning))?;
    Ok(())
}

fn argument(
    of: Indices,
    end: &End,
    known: &Known,
    env: &Env,
    table: &mut Table,
) -> Result<(), NameFault>
    ensures { Notes result table.old table.new (argument_reading of (scope known.now env.now) end.now) }
{
    match end {
        End::Number {
            at: _,
            minus: _,
            number: _,
        } => Ok(()),
        End::Word {
            at: _,
            name,
            offset: _,
        } => argument_word(of, name, meaning(name, known, env), table),
    }
}

fn further(
    of: Indices,
    ends: &[End],
    known: &Known,
    env: &Env,
    table: &mut Table,
) -> Result<(), NameFault>
    ensures { Notes result table.old table.new
        (all_beside (map (argument_reading of (scope known.now env.now)) ends.now)) }
{
    for end in ends {
        argument(of, end, known, env, table)?;
    }
    Ok(())
}

/// Arguments or indices, where there are any.
pub fn arguments(
    of: Indices,
    args: &Option<(End, Seq<End>)>,
    known: &Known,
    env: &Env,
    table: &mut Table,
) -> Result<(), NameFault>
    ensures { Notes result table.old table.new (arguments_reading of (scope known.now env.now) args.now) }
{
    match args {
        None => Ok(()),
        Some((first, rest)) => {
            argument(of, first, known, env, table)?;
            further(of, rest.as_slice(), known, env, table)
        }
    }
}

/// The helper of a step.
pub fn helper(
    helper: &Option<Inst>,
    known: &Known,
    env: &Env,
    table: &mut Table,
) -> Result<(), NameFault>
    ensures { Notes result table.old table.new (helper_reading (scope known.now env.now) helper.now) }
{
    match helper {
        None => Ok(()),
        Some(inst) => arguments(Indices::Helper, &inst.indices, known, env, table),
    }
}
