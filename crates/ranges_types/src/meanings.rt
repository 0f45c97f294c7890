//! What the word at each place means.

ghost use Rattle.std.specs.Prelude.{◌≡◌, ℕ, [], OnOk};
ghost use Rattle.names_rules.specs.WellNamed.{meaning_at};
ghost use Rattle.ranges_types.specs.Numbers.{Means, meaning_in};

use indexmap::IndexMap;
use names_rules::Meaning;
use std::alloc::AllocError;

fn give(at: u64, meaning: Meaning, meanings: &mut IndexMap<u64, Meaning>) -> Result<(), AllocError>
    ensures { OnOk result (Means meanings.old meanings.new at meaning) }
{
    meanings.insert(at, meaning)?;
    Ok(())
}

/// Gives each place the meaning of the first word there.
pub fn give_all(
    words: &[(u64, Meaning)],
    meanings: &mut IndexMap<u64, Meaning>,
) -> Result<(), AllocError>
    requires { meanings.old.entries ≡ [] }
    ensures { OnOk result ((at : ℕ) → meaning_in meanings.new at ≡ meaning_at words.now at) }
{
    let mut i = words.len();
    while i > 0 {
        i -= 1;
        let word = &words[i];
        give(word.0, word.1, meanings)?;
    }
    Ok(())
}
