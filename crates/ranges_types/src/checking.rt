//! The check of a document's names.

ghost use Rattle.std.specs.Prelude.{◌≡◌};
ghost use Rattle.names_rules.specs.WellNamed.{nothing_declared};
ghost use Rattle.ranges_types.specs.Tables.{Checks, declared_in};

use crate::documents::document;
use crate::store::Tables;
use indexmap::{IndexMap, IndexSet};
use names_checks::Table;
use names_rules::NameFault;
use std::alloc::Global;
use unity_base::Seq;
use unity_syntax::Document;

fn words_with<'a>(alloc: Global, d: &'a Document, t: &mut Tables<'a>) -> Result<Table, NameFault>
    requires { declared_in t.old ≡ nothing_declared }
    ensures { Checks result d.now }
{
    let mut table = Seq::new(alloc);
    document(alloc, d, t, &mut table)?;
    Ok(table)
}

/// What the words of a document mean, by the bytes at which they begin, in reading order. `Fault`
/// exactly where the document is not well named, at its first fault.
pub fn check_words(alloc: Global, d: &Document) -> Result<Table, NameFault>
    ensures { Checks result d.now }
{
    let mut t = Tables {
        names: IndexMap::new(alloc),
        programs: IndexMap::new(alloc),
        proved: IndexSet::new(alloc),
        labels: IndexSet::new(alloc),
    };
    words_with(alloc, d, &mut t)
}
