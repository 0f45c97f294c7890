//! How much a branch has, so that what is added to it can be dropped again.
ghost use Rattle.std.specs.Prelude.{◌≡◌};
ghost use Rattle.search_tree.specs.Marks.{mark_at, cut_to};

use obligations::Branch;

/// How many facts, waiting formulas and added variables a branch has.
#[derive(Clone, Copy)]
pub struct Mark {
    facts: usize,
    waits: usize,
    added: u32,
}

/// How much a branch has.
pub fn mark_of(branch: &Branch) -> Mark
    ensures { result ≡ mark_at branch.now }
{
    Mark {
        facts: branch.facts.len(),
        waits: branch.waiting.len(),
        added: branch.added,
    }
}

/// Drops what was added to a branch.
pub fn cut_back(branch: &mut Branch, mark: Mark)
    ensures { branch.new ≡ cut_to mark branch.old }
{
    branch.facts.truncate(mark.facts);
    branch.waiting.truncate(mark.waits);
    branch.added = mark.added;
}
