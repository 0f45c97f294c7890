//! The items of a path: facts and formulas that wait, by their places, and the quotients that were taken.
use conflict_tables::{Stop, at};
use std::alloc::Global;
use unity_base::Seq;

/// A quotient that was taken. Where the same one was taken before, its variable is a copy of that one's, and limits
/// speak of the first alone.
#[derive(Clone, Copy)]
pub struct Quotient {
    /// The variable that stands for it in the facts of the path.
    pub variable: usize,
    /// The variable of which limits speak.
    pub first: usize,
    /// The divisor, at least 1.
    pub divisor: i64,
    /// The place of the fact that what is divided is at least the divisor times the variable. Behind it stands the fact
    /// that it is less than that and the divisor.
    pub item: usize,
}

impl Quotient {
    /// The place of the other fact that fixes it.
    pub fn high(self) -> usize {
        self.item.wrapping_add(1)
    }

    /// Whether its variable is a copy.
    pub fn is_copy(self) -> bool {
        self.variable != self.first
    }
}

/// The items.
#[derive(Drop)]
pub struct Path {
    /// The number of the fact at each place, in which the copies of quotients stand; none for a formula.
    facts: Seq<Option<usize>>,
    quotients: Seq<Quotient>,
}

/// A state to which a path can be taken back.
#[derive(Clone, Copy)]
pub struct PathMark {
    items: usize,
    quotients: usize,
}

impl PathMark {
    /// The state with no items.
    pub const ROOT: PathMark = PathMark {
        items: 0,
        quotients: 0,
    };

    /// How many items there were.
    pub fn items(self) -> usize {
        self.items
    }
}

/// No items.
pub fn no_path(alloc: Global) -> Path {
    Path {
        facts: Seq::new(alloc),
        quotients: Seq::new(alloc),
    }
}

impl Path {
    /// The place of a new item: that of a fact, or of a formula where there is none. An error where memory is refused.
    pub fn add_item(&mut self, fact: Option<usize>) -> Result<usize, Stop> {
        let item = self.facts.len();
        self.facts.push(fact)?;
        Ok(item)
    }

    /// Says that a quotient was taken. An error where memory is refused.
    pub fn add_quotient(&mut self, quotient: Quotient) -> Result<(), Stop> {
        self.quotients.push(quotient)?;
        Ok(())
    }

    /// The number of the fact at a place. `Odd` where there is none.
    pub fn fact(&self, item: usize) -> Result<usize, Stop> {
        at(&self.facts, item)?.ok_or(Stop::Odd)
    }

    /// The quotients that were taken, the oldest first.
    pub fn quotients(&self) -> &[Quotient] {
        self.quotients.as_slice()
    }

    /// Whether a variable is that of a quotient that was taken.
    pub fn has_taken(&self, variable: usize) -> bool {
        self.quotients()
            .iter()
            .any(|quotient| quotient.variable == variable)
    }

    /// Whether a quotient was taken twice.
    pub fn has_copies(&self) -> bool {
        self.quotients().iter().any(|quotient| quotient.is_copy())
    }

    /// The state of the path.
    pub fn mark(&self) -> PathMark {
        PathMark {
            items: self.facts.len(),
            quotients: self.quotients.len(),
        }
    }

    /// Takes the path back to a state.
    pub fn take_back(&mut self, mark: PathMark) {
        self.facts.truncate(mark.items);
        self.quotients.truncate(mark.quotients);
    }
}
