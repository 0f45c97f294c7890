//! Words in expressions.

ghost use Rattle.std.specs.Prelude.{◌≡◌, Option, Some, None};
ghost use Rattle.std.specs.Option.{is_some};
ghost use Rattle.names_rules.specs.Scope.{scope};
ghost use Rattle.names_rules.specs.Reading.{binding, head_word, mark, same_bool, unless, word_found};
ghost use Rattle.names_rules.specs.Answers.{GivesReading, Notes};

use crate::checks::demand;
use case_tables::Code;
use names_rules::{Env, Known, Meaning, NameFault, Named, Typed, meaning, missing};
use unity_base::Seq;
use unity_syntax::Name;

/// What words mean, by the bytes at which they begin, in reading order.
pub type Table = Seq<(u64, Meaning)>;

/// A word, and whether an index follows it.
pub fn word(
    name: &Name,
    indexed: bool,
    known: &Known,
    env: &Env,
    table: &mut Table,
) -> Result<Typed, NameFault>
    ensures { GivesReading result table.old table.new (head_word (scope known.now env.now) name.now indexed) }
{
    match meaning(name, known, env) {
        Some(named) => note_word(name, indexed, named, table),
        None => Err(NameFault::Fault {
            code: missing(name, known),
            at: name.at,
        }),
    }
}

fn note_word(
    name: &Name,
    indexed: bool,
    named: Named,
    table: &mut Table,
) -> Result<Typed, NameFault>
    ensures { GivesReading result table.old table.new
        (mark named name.now.at (unless (same_bool (is_some named.indices) indexed) Code.WrongType name.now.at)) }
{
    demand(named.indices.is_some() == indexed, Code::WrongType, name.at)?;
    table.push((name.at, named.meaning))?;
    Ok(Typed {
        sort: named.sort,
        constant: named.constant,
    })
}

/// A name is bound that has no meaning yet.
pub fn bind(
    name: &Name,
    bound: Meaning,
    known: &Known,
    env: &Env,
    table: &mut Table,
) -> Result<(), NameFault>
    ensures { Notes result table.old table.new (binding (scope known.now env.now) name.now bound) }
{
    demand(
        meaning(name, known, env).is_none(),
        Code::DeclaredTwice,
        name.at,
    )?;
    table.push((name.at, bound))?;
    Ok(())
}
