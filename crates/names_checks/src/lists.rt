//! Statements and lists of statements.

ghost use Rattle.std.specs.Prelude.{◌≡◌, ◌∷◌, map};
ghost use Rattle.names_rules.specs.declared.named.Meaning.{Meaning};
ghost use Rattle.names_rules.specs.Scope.{bounds, scope, seen_keys};
ghost use Rattle.names_rules.specs.Reading.{beside, binding, filled};
ghost use Rattle.names_rules.specs.Part.{run};
ghost use Rattle.names_rules.specs.Statements.{item_part, items_part};
ghost use Rattle.names_rules.specs.Answers.{Leaves, Notes};

use crate::components::assign;
use crate::ranges::filled_range;
use crate::taken::{WordSet, take};
use crate::words::{Table, bind};
use names_rules::{Env, Known, Meaning, NameFault, with_name};
use unity_base::Seq;
use unity_syntax::{Item, Items, Name, Range};

/// A name is bound, and then comes its range, which may not be empty.
fn bind_filled(
    name: &Name,
    range: &Range,
    known: &Known,
    env: &Env,
    table: &mut Table,
) -> Result<(), NameFault>
    ensures { Notes result table.old table.new
        (beside (binding (scope known.now env.now) name.now (Meaning.Bound name.now.at))
        (filled (bounds env.now) range.now)) }
{
    bind(name, Meaning::Bound(name.at), known, env, table)?;
    filled_range(range, env, table)
}

#[cycle(items)]
fn item<'a>(
    i: &'a Item,
    known: &Known,
    env: &Env,
    labels: &mut WordSet<'a>,
    table: &mut Table,
) -> Result<(), NameFault>
    ensures { Leaves result table.old table.new (seen_keys labels.new)
        (item_part i.now (scope known.now env.now) (seen_keys labels.old)) }
{
    match i {
        Item::Statement {
            at: _,
            label,
            assign: of,
        } => {
            take(label, labels)?;
            assign(of, known, env, table)
        }
        Item::Quantified {
            at: _,
            name,
            range,
            of,
        } => {
            bind_filled(name, range, known, env, table)?;
            let inner = with_name(&*name, Meaning::Bound(name.at), &*env);
            items(of.get(), known, &inner, labels, table)
        }
    }
}

/// The statements of a program.
#[cycle(items)]
pub fn items<'a>(
    x: &'a Items,
    known: &Known,
    env: &Env,
    labels: &mut WordSet<'a>,
    table: &mut Table,
) -> Result<(), NameFault>
    ensures { Leaves result table.old table.new (seen_keys labels.new)
        (items_part x.now (scope known.now env.now) (seen_keys labels.old)) }
{
    item(&x.first, known, env, labels, table)?;
    further(&x.rest, known, env, labels, table)
}

#[cycle(items)]
fn further<'a>(
    list: &'a Seq<Item>,
    known: &Known,
    env: &Env,
    labels: &mut WordSet<'a>,
    table: &mut Table,
) -> Result<(), NameFault>
    ensures { Leaves result table.old table.new (seen_keys labels.new)
        (run (λ labels i. item_part i (scope known.now env.now) labels) (seen_keys labels.old) list.now) }
{
    for i in list.as_slice() {
        item(i, known, env, labels, table)?;
    }
    Ok(())
}
