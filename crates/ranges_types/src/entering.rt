//! Words that are declared.

ghost use Rattle.std.specs.Prelude.{◌≡◌};
ghost use Rattle.names_rules.specs.Scope.{entries};
ghost use Rattle.names_rules.specs.Declarations.{declare};
ghost use Rattle.names_rules.specs.Answers.{Leaves};
ghost use Rattle.ranges_types.specs.Enters.{Enters};

use case_tables::Code;
use names_checks::{Table, demand};
use names_rules::{NameFault, NameTable, Named, find};
use unity_syntax::Name;

/// Gives a word a meaning.
pub fn enter<'a>(name: &'a Name, named: Named, names: &mut NameTable<'a>) -> Result<(), NameFault>
    ensures { Enters result (entries names.old) (entries names.new) name.now named }
{
    match names.insert(name.text.as_slice(), named) {
        Ok(_) => Ok(()),
        Err(_) => Err(NameFault::Memory),
    }
}

/// A word that has no meaning yet.
pub fn declare<'a>(
    name: &'a Name,
    named: Named,
    names: &mut NameTable<'a>,
    table: &mut Table,
) -> Result<(), NameFault>
    ensures { Leaves result table.old table.new (entries names.new) (declare (entries names.old) name.now named) }
{
    demand(find(names, name).is_none(), Code::DeclaredTwice, name.at)?;
    table.push((name.at, named.meaning))?;
    enter(name, named, names)
}
