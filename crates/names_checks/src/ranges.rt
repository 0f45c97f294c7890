//! Ranges and their ends.

ghost use Rattle.std.specs.Prelude.{◌≡◌};
ghost use Rattle.std.specs.Map.{lookup};
ghost use Rattle.std.specs.Str.{bytes_eq};
ghost use Rattle.names_rules.specs.declared.named.Meaning.{Meaning};
ghost use Rattle.names_rules.specs.Scope.{bounds, scope};
ghost use Rattle.names_rules.specs.Reading.{beside, binding, end_reading, end_word, filled, range_reading, signed};
ghost use Rattle.names_rules.specs.Reading.{upside_down};
ghost use Rattle.names_rules.specs.Answers.{Notes};

use crate::checks::demand;
use crate::words::{Table, bind};
use case_tables::Code;
use names_rules::{Env, Known, Meaning, NameFault, bound, is_param};
use unity_syntax::{End, Name, Range};

/// A number with its sign.
pub fn signed(minus: bool, number: u64) -> i128
    ensures { result ≡ signed minus number }
{
    if minus {
        -(number as i128)
    } else {
        number as i128
    }
}

fn upside_down(low: &End, high: &End) -> bool
    ensures { result ≡ upside_down low.now high.now }
{
    match (low, high) {
        (
            End::Number {
                at: _,
                minus: low_minus,
                number: low,
            },
            End::Number {
                at: _,
                minus: high_minus,
                number: high,
            },
        ) => !(signed(*low_minus, *low) <= signed(*high_minus, *high)),
        _ => false,
    }
}

/// A range, which may be empty: its ends, whose words are noted.
pub fn range_words(range: &Range, env: &Env, table: &mut Table) -> Result<(), NameFault>
    ensures { Notes result table.old table.new (range_reading (bounds env.now) range.now) }
{
    end_words(&range.low, env, table)?;
    end_words(&range.high, env, table)
}

/// A name is bound, and then comes its range, in which it is not visible.
pub fn bind_in(
    name: &Name,
    range: &Range,
    known: &Known,
    env: &Env,
    table: &mut Table,
) -> Result<(), NameFault>
    ensures { Notes result table.old table.new (beside
        (binding (scope known.now env.now) name.now (Meaning.Bound name.now.at))
        (range_reading (bounds env.now) range.now)) }
{
    bind(name, Meaning::Bound(name.at), known, env, table)?;
    range_words(range, env, table)
}

/// A range whose low end is not above its high end, as far as they are numbers.
pub fn filled_range(range: &Range, env: &Env, table: &mut Table) -> Result<(), NameFault>
    ensures { Notes result table.old table.new (filled (bounds env.now) range.now) }
{
    range_words(range, env, table)?;
    demand(
        !upside_down(&range.low, &range.high),
        Code::BadRange,
        range.at,
    )
}

fn end_words(end: &End, env: &Env, table: &mut Table) -> Result<(), NameFault>
    ensures { Notes result table.old table.new (end_reading (bounds env.now) end.now) }
{
    match end {
        End::Number {
            at,
            minus: _,
            number,
        } => demand(*number <= 1_000_000_000, Code::BadRange, *at),
        End::Word {
            at: _,
            name,
            offset: _,
        } => end_word(name, bound(env, name), table),
    }
}

fn end_word(name: &Name, meaning: Option<Meaning>, table: &mut Table) -> Result<(), NameFault>
    ensures { Notes result table.old table.new (end_word name.now meaning) }
{
    match meaning {
        Some(meaning) => {
            demand(!is_param(meaning), Code::NotConstant, name.at)?;
            table.push((name.at, meaning))?;
            Ok(())
        }
        None => Err(NameFault::Fault {
            code: Code::NotConstant,
            at: name.at,
        }),
    }
}
