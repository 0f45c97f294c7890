//! Refutations that were found: trees whose nodes name facts and waiting formulas by their places among the items of
//! the path, so that a node that is dropped changes no name.
use crate::copies::tied;
use crate::events::Conflict;
use crate::limits::Limits;
use crate::path::Path;
use crate::reasons::explained;
use crate::rounds::{Pair, Round, Source, in_order};
use conflict_tables::{Span, Stop, Table, append, at, items_in};
use std::alloc::{AllocError, Global};
use unity_base::Seq;

/// A node. Its additions have the places from `start` on.
#[derive(Clone, Copy)]
pub enum Step {
    /// Rounds, and a sum.
    Leaf {
        /// Where the rounds stand.
        rounds: Span,
        /// Where the pairs of the sum stand.
        pairs: Span,
    },
    /// A waiting formula's two sides.
    Case {
        /// The place of its item.
        item: usize,
        /// The formula's number.
        form: usize,
    },
    /// A variable at most a number, and above it.
    Split {
        /// The variable's number.
        variable: usize,
        /// The greatest value on the first side.
        at: i64,
    },
    /// A quotient taken.
    Quotient {
        /// The place of the formula's item.
        item: usize,
        /// The number of the variable that stands for it.
        variable: usize,
        /// The number of the formula without it.
        rest: usize,
    },
}

/// A node with what is below it, the places of items before it that are used there, and its size.
#[derive(Clone, Copy)]
pub struct Tree {
    /// The node.
    pub step: Step,
    /// The place of the first item that it adds.
    pub start: usize,
    /// The number of the first tree below it.
    pub first: usize,
    /// The number of the second.
    pub second: usize,
    used: Span,
    /// Its size in units.
    pub units: u64,
}

/// A round of a leaf.
#[derive(Clone, Copy)]
pub struct LeafRound {
    /// What it is divided by.
    pub divisor: i64,
    /// Where its pairs stand.
    pub pairs: Span,
}

/// All trees.
#[derive(Drop)]
pub struct Trees {
    trees: Seq<Tree>,
    rounds: Seq<LeafRound>,
    pairs: Seq<Pair>,
    used: Seq<usize>,
}

/// No trees.
pub fn no_trees(alloc: Global) -> Trees {
    Trees {
        trees: Seq::new(alloc),
        rounds: Seq::new(alloc),
        pairs: Seq::new(alloc),
        used: Seq::new(alloc),
    }
}

/// How many of places that rise are before this one.
fn count_before(list: &[usize], item: usize) -> usize {
    for back in 0..list.len() {
        let place = list.len() - 1 - back;
        if let Some(other) = list.get(place) {
            if *other < item {
                return place.saturating_add(1);
            }
        }
    }
    0
}

/// Puts a place among others that rise, once.
fn insert_place(list: &mut Seq<usize>, item: usize) -> Result<(), AllocError> {
    let place = count_before(list.as_slice(), item);
    match list.get(place) {
        Some(other) if *other == item => Ok(()),
        _ => {
            if place <= list.len() {
                list.insert(place, item)?;
            }
            Ok(())
        }
    }
}

/// Puts the places of items that pairs are of among others.
fn insert_items(list: &mut Seq<usize>, pairs: &[Pair]) -> Result<(), AllocError> {
    for pair in pairs {
        if let Source::Item(item) = pair.source {
            insert_place(list, item)?;
        }
    }
    Ok(())
}

/// The rounds and the sum that a conflict comes from. `Odd` where there is none, or a number has more than 64 bits.
fn reasons_of(alloc: Global, limits: &Limits) -> Result<(Seq<Round>, Seq<Pair>), Stop> {
    match limits.conflict {
        None => Err(Stop::Odd),
        Some(Conflict::Item(item)) => {
            let mut sum = Seq::new(alloc);
            sum.push(Pair {
                times: 1,
                source: Source::Item(item),
            })?;
            Ok((Seq::new(alloc), sum))
        }
        Some(Conflict::Clash { spare }) => explained(alloc, limits, spare),
    }
}

impl Trees {
    /// The tree of a number. `Odd` where there is none.
    pub fn tree(&self, number: usize) -> Result<Tree, Stop> {
        at(&self.trees, number)
    }

    /// The pairs of a span.
    pub fn pairs(&self, span: Span) -> &[Pair] {
        items_in(&self.pairs, span)
    }

    /// The rounds of a span.
    pub fn rounds(&self, span: Span) -> &[LeafRound] {
        items_in(&self.rounds, span)
    }

    /// Whether a tree uses an item from a place on. `Odd` where there is no such tree.
    pub fn uses_from(&self, number: usize, start: usize) -> Result<bool, Stop> {
        let tree = self.tree(number)?;
        Ok(
            items_in(&self.used, tree.used)
                .last()
                .is_some_and(|last| *last >= start),
        )
    }

    /// Adds a tree.
    fn add(&mut self, tree: Tree) -> Result<usize, Stop> {
        let number = self.trees.len();
        self.trees.push(tree)?;
        Ok(number)
    }

    /// The number of a new leaf that closes a branch by a conflict of its limits. `Odd` where there is none, or a
    /// number has more than 64 bits.
    pub fn add_leaf(
        &mut self,
        alloc: Global,
        table: &Table,
        path: &Path,
        limits: &Limits,
    ) -> Result<usize, Stop> {
        let (rounds, sum) = reasons_of(alloc, limits)?;
        let (rounds, sum) = tied(alloc, table, path, rounds, sum)?;
        let (rounds, sum) = in_order(alloc, &rounds, &sum)?;
        self.add_chain(alloc, &rounds, &sum)
    }

    /// The number of a new leaf of rounds and a sum. An error where memory is refused.
    fn add_chain(
        &mut self,
        alloc: Global,
        rounds: &Seq<Round>,
        pairs: &Seq<Pair>,
    ) -> Result<usize, Stop> {
        let mut places = Seq::new(alloc);
        insert_items(&mut places, pairs.as_slice())?;
        let mut units = (pairs.len() as u64).saturating_add(1);
        let start = self.rounds.len();
        for round in rounds.as_slice() {
            insert_items(&mut places, round.pairs.as_slice())?;
            units = units.saturating_add((round.pairs.len() as u64).saturating_add(1));
            let span = append(&mut self.pairs, round.pairs.as_slice())?;
            self.rounds.push(LeafRound {
                divisor: round.divisor,
                pairs: span,
            })?;
        }
        let step = Step::Leaf {
            rounds: Span {
                start,
                end: self.rounds.len(),
            },
            pairs: append(&mut self.pairs, pairs.as_slice())?,
        };
        let used = append(&mut self.used, places.as_slice())?;
        self.add(Tree {
            step,
            start: 0,
            first: 0,
            second: 0,
            used,
            units,
        })
    }

    /// The places before one that a tree uses are added to others.
    fn collect(&self, number: usize, start: usize, places: &mut Seq<usize>) -> Result<(), Stop> {
        for item in items_in(&self.used, self.tree(number)?.used) {
            if *item < start {
                insert_place(places, *item)?;
            }
        }
        Ok(())
    }

    /// The number of a new node with two trees below it, and the place of the item that it takes apart. `Odd` where
    /// there are no such trees.
    pub fn add_two(
        &mut self,
        alloc: Global,
        step: Step,
        item: Option<usize>,
        start: usize,
        below: (usize, usize),
    ) -> Result<usize, Stop> {
        let mut places = Seq::new(alloc);
        self.collect(below.0, start, &mut places)?;
        self.collect(below.1, start, &mut places)?;
        if let Some(place) = item {
            insert_place(&mut places, place)?;
        }
        let first = self.tree(below.0)?.units;
        let second = self.tree(below.1)?.units;
        let used = append(&mut self.used, places.as_slice())?;
        self.add(Tree {
            step,
            start,
            first: below.0,
            second: below.1,
            used,
            units: first.saturating_add(second).saturating_add(1),
        })
    }

    /// The number of a new node that takes a quotient of the item at a place. `Odd` where there is no tree below it.
    pub fn add_one(
        &mut self,
        alloc: Global,
        step: Step,
        item: usize,
        start: usize,
        below: usize,
    ) -> Result<usize, Stop> {
        let mut places = Seq::new(alloc);
        self.collect(below, start, &mut places)?;
        insert_place(&mut places, item)?;
        let used = append(&mut self.used, places.as_slice())?;
        let units = self.tree(below)?.units.saturating_add(1);
        self.add(Tree {
            step,
            start,
            first: below,
            second: below,
            used,
            units,
        })
    }
}
