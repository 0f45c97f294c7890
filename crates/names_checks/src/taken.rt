//! Words that stand at most once.

ghost use Rattle.std.specs.Prelude.{◌≡◌};
ghost use Rattle.names_rules.specs.Scope.{seen_keys};
ghost use Rattle.names_checks.specs.Takes.{Takes};

use crate::checks::demand;
use case_tables::Code;
use indexmap::IndexSet;
use names_rules::NameFault;
use unity_syntax::Name;

/// Words, in the order in which they are taken.
pub type WordSet<'a> = IndexSet<&'a [u8]>;

/// Takes a word that is not taken.
pub fn take<'a>(name: &'a Name, words: &mut WordSet<'a>) -> Result<(), NameFault>
    ensures { Takes result (seen_keys words.old) (seen_keys words.new) name.now }
{
    match words.insert(name.text.as_slice()) {
        Ok(new) => demand(new, Code::DeclaredTwice, name.at),
        Err(_) => Err(NameFault::Memory),
    }
}
