//! The rounds of a leaf, in the order in which they are written.
use conflict_tables::{Stop, at, put, repeated};
use std::alloc::Global;
use unity_base::Seq;

/// What a multiple is of: the item at a place, or a round of the same leaf.
#[derive(Clone, Copy, PartialEq, Eq)]
pub enum Source {
    /// The item at a place of the path.
    Item(usize),
    /// The round at a place of the leaf.
    Round(usize),
}

/// A multiple of a fact.
#[derive(Clone, Copy)]
pub struct Pair {
    /// How often it counts.
    pub times: i64,
    /// The fact.
    pub source: Source,
}

/// A sum that is divided and rounded.
#[derive(Drop)]
pub struct Round {
    /// What it is divided by.
    pub divisor: i64,
    /// What adds up to it.
    pub pairs: Seq<Pair>,
}

/// What is still to be done to put rounds in order.
#[derive(Clone, Copy)]
enum Task {
    /// The round gets a place, after those that it rests on.
    Enter(usize),
    /// All of these have one.
    Leave(usize),
}

/// Rounds that are put in order.
#[derive(Drop)]
struct Order {
    tasks: Seq<Task>,
    /// The rounds that have a place, by it.
    rounds: Seq<usize>,
    /// The place of each round; `None` for one that was not entered.
    places: Seq<Option<usize>>,
}

impl Order {
    /// Enters the rounds that pairs are of, the first of them first.
    fn enter(&mut self, pairs: &[Pair]) -> Result<(), Stop> {
        for back in 0..pairs.len() {
            if let Some(pair) = pairs.get(pairs.len() - 1 - back) {
                if let Source::Round(round) = pair.source {
                    self.tasks.push(Task::Enter(round))?;
                }
            }
        }
        Ok(())
    }

    /// Does one task.
    fn run(&mut self, rounds: &Seq<Round>, task: Task) -> Result<(), Stop> {
        match task {
            Task::Enter(round) => {
                if at(&self.places, round)?.is_none() {
                    self.tasks.push(Task::Leave(round))?;
                    let entered = rounds.get(round).ok_or(Stop::Odd)?;
                    self.enter(entered.pairs.as_slice())?;
                }
            }
            Task::Leave(round) => {
                if at(&self.places, round)?.is_none() {
                    put(&mut self.places, round, Some(self.rounds.len()));
                    self.rounds.push(round)?;
                }
            }
        }
        Ok(())
    }

    /// Pairs whose rounds are named by their places.
    fn renamed(&self, alloc: Global, pairs: &[Pair]) -> Result<Seq<Pair>, Stop> {
        let mut list = Seq::new(alloc);
        for pair in pairs {
            let source = match pair.source {
                Source::Item(item) => Source::Item(item),
                Source::Round(round) => {
                    Source::Round(at(&self.places, round)?.ok_or(Stop::Odd)?)
                }
            };
            list.push(Pair {
                times: pair.times,
                source,
            })?;
        }
        Ok(list)
    }
}

/// Rounds of which each stands behind those that it rests on, with the pairs of the sum: in the order in which the sum
/// wants them. Rounds and pairs name the rounds by their places before.
pub fn in_order(
    alloc: Global,
    rounds: &Seq<Round>,
    sum: &Seq<Pair>,
) -> Result<(Seq<Round>, Seq<Pair>), Stop> {
    let mut order = Order {
        tasks: Seq::new(alloc),
        rounds: Seq::new(alloc),
        places: repeated(alloc, None, rounds.len())?,
    };
    order.enter(sum.as_slice())?;
    for _ in 0..u64::MAX {
        let Some(task) = order.tasks.pop() else {
            break;
        };
        order.run(rounds, task)?;
    }
    let mut placed = Seq::new(alloc);
    for round in order.rounds.as_slice() {
        let found = rounds.get(*round).ok_or(Stop::Odd)?;
        placed.push(Round {
            divisor: found.divisor,
            pairs: order.renamed(alloc, found.pairs.as_slice())?,
        })?;
    }
    let pairs = order.renamed(alloc, sum.as_slice())?;
    Ok((placed, pairs))
}
