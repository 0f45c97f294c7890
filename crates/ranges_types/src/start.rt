//! The start section.

ghost use Rattle.std.specs.Prelude.{◌≡◌, ◌++◌, ◌∷◌, [], Some, None};
ghost use Rattle.names_rules.specs.Scope.{scope};
ghost use Rattle.names_rules.specs.Part.{run};
ghost use Rattle.names_rules.specs.Declarations.{in_span, index_number, init_found, init_part, is_index, slot_of};
ghost use Rattle.names_rules.specs.Declarations.{start_value, start_word, variable_place};
ghost use Rattle.names_rules.specs.Answers.{Leaves, Notes};
ghost use Rattle.ranges_types.specs.Enters.{TakesSlot};

use case_tables::Code;
use indexmap::IndexSet;
use names_checks::{Table, demand, same, signed, unknown};
use names_rules::{
    Env, Known, Meaning, NameFault, Named, Sort, Span, is_value, is_variable, meaning,
};
use unity_syntax::{Init, InitValue, Name};

/// Slots: the byte at which a variable is first declared, and an index, or 0 without one.
pub type StartSlots = IndexSet<(u64, i128)>;

fn in_span(r: Span, z: i128) -> bool
    ensures { result ≡ in_span r z }
{
    r.low <= z && z <= r.high
}

fn is_index(indices: Option<Span>, index: &Option<(bool, u64)>) -> bool
    ensures { result ≡ is_index indices index.now }
{
    match indices {
        None => index.is_none(),
        Some(r) => match index {
            None => false,
            Some((minus, number)) => in_span(r, signed(*minus, *number)),
        },
    }
}

fn index_number(index: &Option<(bool, u64)>) -> i128
    ensures { result ≡ index_number index.now }
{
    match index {
        None => 0,
        Some((minus, number)) => signed(*minus, *number),
    }
}

fn variable_place(meaning: Meaning) -> u64
    ensures { result ≡ variable_place meaning }
{
    match meaning {
        Meaning::Variable(at) => at,
        _ => 0,
    }
}

fn slot_of(init: &Init, named: Named) -> (u64, i128)
    ensures { result ≡ slot_of init.now named }
{
    (variable_place(named.meaning), index_number(&init.index))
}

fn take(slot: (u64, i128), slots: &mut StartSlots, at: u64) -> Result<(), NameFault>
    ensures { TakesSlot result slots.old.keys slots.new.keys slot at }
{
    match slots.insert(slot) {
        Ok(new) => demand(new, Code::DeclaredTwice, at),
        Err(_) => Err(NameFault::Memory),
    }
}

fn start_word(
    sort: Sort,
    name: &Name,
    named: Option<Named>,
    table: &mut Table,
) -> Result<(), NameFault>
    ensures { Notes result table.old table.new (start_word sort name.now named) }
{
    let named = named.ok_or(unknown(name))?;
    demand(is_value(named.meaning), Code::Unknown, name.at)?;
    demand(same(named.sort, sort), Code::WrongType, name.at)?;
    table.push((name.at, named.meaning))?;
    Ok(())
}

fn start_value(
    value: &InitValue,
    of: Named,
    known: &Known,
    env: &Env,
    table: &mut Table,
) -> Result<(), NameFault>
    ensures { Notes result table.old table.new (start_value (scope known.now env.now) of value.now) }
{
    match value {
        InitValue::Number { at, minus, number } => demand(
            same(of.sort, Sort::Number) && in_span(of.range, signed(*minus, *number)),
            Code::WrongType,
            *at,
        ),
        InitValue::Word { at: _, name } => {
            start_word(of.sort, name, meaning(name, known, env), table)
        }
        InitValue::True { at } => demand(same(of.sort, Sort::Boolean), Code::WrongType, *at),
        InitValue::False { at } => demand(same(of.sort, Sort::Boolean), Code::WrongType, *at),
    }
}

fn init_named(
    init: &Init,
    named: Named,
    known: &Known,
    env: &Env,
    slots: &mut StartSlots,
    table: &mut Table,
) -> Result<(), NameFault>
    ensures { Leaves result table.old table.new slots.new.keys
        (init_found (scope known.now env.now) slots.old.keys init.now (Some named)) }
{
    demand(is_variable(named.meaning), Code::Unknown, init.name.at)?;
    demand(
        is_index(named.indices, &init.index),
        Code::WrongType,
        init.name.at,
    )?;
    take(slot_of(init, named), slots, init.name.at)?;
    table.push((init.name.at, named.meaning))?;
    start_value(&init.value, named, known, env, table)
}

fn init(
    init: &Init,
    known: &Known,
    env: &Env,
    slots: &mut StartSlots,
    table: &mut Table,
) -> Result<(), NameFault>
    ensures { Leaves result table.old table.new slots.new.keys
        (init_part (scope known.now env.now) slots.old.keys init.now) }
{
    match meaning(&init.name, known, env) {
        None => Err(unknown(&init.name)),
        Some(named) => init_named(init, named, known, env, slots, table),
    }
}

/// The start values of a program.
pub fn inits(
    first: &Init,
    rest: &[Init],
    known: &Known,
    env: &Env,
    slots: &mut StartSlots,
    table: &mut Table,
) -> Result<(), NameFault>
    ensures { Leaves result table.old table.new slots.new.keys
        (run (init_part (scope known.now env.now)) slots.old.keys (first.now ∷ rest.now)) }
{
    init(first, known, env, slots, table)?;
    further(rest, known, env, slots, table)
}

fn further(
    list: &[Init],
    known: &Known,
    env: &Env,
    slots: &mut StartSlots,
    table: &mut Table,
) -> Result<(), NameFault>
    ensures { Leaves result table.old table.new slots.new.keys
        (run (init_part (scope known.now env.now)) slots.old.keys list.now) }
{
    for i in list {
        init(i, known, env, slots, table)?;
    }
    Ok(())
}
