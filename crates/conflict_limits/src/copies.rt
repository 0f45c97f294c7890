//! Limits speak of a quotient's first variable, and facts of its copies. In a leaf each copy is tied to the others by
//! two roundings: q is at least r where k times r is at most what k times q and k - 1 are at least.
use crate::path::{Path, Quotient};
use crate::rounds::{Pair, Round, Source};
use conflict_tables::{
    Fact, Stop, Table, at, is_against, line_of, minus, plus, put, repeated, times,
};
use std::alloc::Global;
use unity_base::Seq;

/// That the quotient at one place is at least that at another, and the number of the round that says so.
#[derive(Clone, Copy)]
struct Tie {
    high: usize,
    low: usize,
    round: usize,
}

/// A leaf in which copies are tied.
#[derive(Drop)]
struct Tying {
    rounds: Seq<Round>,
    sum: Seq<Pair>,
    /// The place of the quotient to which each is tied.
    anchors: Seq<usize>,
    ties: Seq<Tie>,
}

/// How often a variable counts in a fact.
fn factor_in(table: &Table, fact: Fact, variable: usize) -> Result<i64, Stop> {
    let Some(way) = fact.way else {
        return Ok(0);
    };
    for factor in table.line_factors(line_of(way)) {
        if factor.variable == variable {
            let by = times(factor.times, fact.divisor)?;
            return if is_against(way) { minus(by) } else { Ok(by) };
        }
    }
    Ok(0)
}

/// Whether an item is one of the two facts of a quotient like this one.
fn is_fixing(path: &Path, first: usize, item: usize) -> bool {
    path.quotients().iter().any(|other| other.first == first
        && (other.item == item || other.high() == item))
}

/// How often a variable counts in pairs.
fn factor_of_pairs(
    table: &Table,
    path: &Path,
    pairs: &[Pair],
    variable: usize,
) -> Result<i64, Stop> {
    let mut sum = 0;
    for pair in pairs {
        if let Source::Item(item) = pair.source {
            let fact = table.fact(path.fact(item)?)?;
            sum = plus(sum, times(pair.times, factor_in(table, fact, variable)?)?)?;
        }
    }
    Ok(sum)
}

/// Whether pairs name a fact with the variable of a quotient, other than those that fix one like it.
fn names(table: &Table, path: &Path, pairs: &[Pair], quotient: Quotient) -> Result<bool, Stop> {
    for pair in pairs {
        if let Source::Item(item) = pair.source {
            if !is_fixing(path, quotient.first, item) {
                let fact = table.fact(path.fact(item)?)?;
                if factor_in(table, fact, quotient.variable)? != 0 {
                    return Ok(true);
                }
            }
        }
    }
    Ok(false)
}

/// The quotient at a place. `Odd` where there is none.
fn quotient_at(path: &Path, place: usize) -> Result<Quotient, Stop> {
    path.quotients().get(place).copied().ok_or(Stop::Odd)
}

/// An item, or where it is a fact that fixes one quotient, that which fixes another.
fn exchanged(item: usize, old: Quotient, new: Quotient) -> usize {
    if item == old.item {
        new.item
    } else if item == old.high() {
        new.high()
    } else {
        item
    }
}

/// The facts that fix one quotient in place of those that fix another.
fn exchange(pairs: &mut Seq<Pair>, old: Quotient, new: Quotient) {
    for place in 0..pairs.len() {
        if let Some(pair) = pairs.get(place).copied() {
            if let Source::Item(item) = pair.source {
                let source = Source::Item(exchanged(item, old, new));
                put(
                    pairs,
                    place,
                    Pair {
                        times: pair.times,
                        source,
                    },
                );
            }
        }
    }
}

/// A round of nothing.
fn no_round(alloc: Global) -> Round {
    Round {
        divisor: 1,
        pairs: Seq::new(alloc),
    }
}

impl Tying {
    /// Whether any pair of the leaf names a quotient's variable.
    fn is_named(&self, table: &Table, path: &Path, quotient: Quotient) -> Result<bool, Stop> {
        for round in self.rounds.as_slice() {
            if names(table, path, round.pairs.as_slice(), quotient)? {
                return Ok(true);
            }
        }
        names(table, path, self.sum.as_slice(), quotient)
    }

    /// The place of the first quotient like this one that the leaf names, or else of this one.
    fn anchor_of(&self, table: &Table, path: &Path, place: usize) -> Result<usize, Stop> {
        let first = quotient_at(path, place)?.first;
        for other in place..path.quotients().len() {
            let quotient = quotient_at(path, other)?;
            if quotient.first == first && self.is_named(table, path, quotient)? {
                return Ok(other);
            }
        }
        Ok(place)
    }

    /// Ties all quotients like one to the first that the leaf names.
    fn anchor(
        &mut self,
        alloc: Global,
        table: &Table,
        path: &Path,
        place: usize,
    ) -> Result<(), Stop> {
        let quotient = quotient_at(path, place)?;
        if quotient.is_copy() {
            return Ok(());
        }
        let anchor = self.anchor_of(table, path, place)?;
        for other in place..path.quotients().len() {
            if quotient_at(path, other)?.first == quotient.first {
                put(&mut self.anchors, other, anchor);
            }
        }
        if anchor != place {
            self.exchange_all(alloc, quotient, quotient_at(path, anchor)?);
        }
        Ok(())
    }

    /// The facts that fix one quotient in place of those that fix another, in the whole leaf.
    fn exchange_all(&mut self, alloc: Global, old: Quotient, new: Quotient) {
        for place in 0..self.rounds.len() {
            if place < self.rounds.len() {
                let mut round = self.rounds.replace(place, no_round(alloc));
                exchange(&mut round.pairs, old, new);
                put(&mut self.rounds, place, round);
            }
        }
        exchange(&mut self.sum, old, new);
    }

    /// The number of the round that says that one quotient is at least another.
    fn tie(&mut self, alloc: Global, path: &Path, high: usize, low: usize) -> Result<usize, Stop> {
        for tie in self.ties.as_slice() {
            if tie.high == high && tie.low == low {
                return Ok(tie.round);
            }
        }
        let above = quotient_at(path, high)?;
        let below = quotient_at(path, low)?;
        let mut pairs = Seq::new(alloc);
        for item in [above.high(), below.item] {
            pairs.push(Pair {
                times: 1,
                source: Source::Item(item),
            })?;
        }
        let round = self.rounds.len();
        self.rounds.push(Round {
            divisor: above.divisor,
            pairs,
        })?;
        self.ties.push(Tie { high, low, round })?;
        Ok(round)
    }

    /// Adds to pairs, in which the variable of the quotient at a place counts so often, what puts another in its place.
    fn tie_pair(
        &mut self,
        alloc: Global,
        path: &Path,
        place: usize,
        anchor: usize,
        by: i64,
        pairs: &mut Seq<Pair>,
    ) -> Result<(), Stop> {
        if by == 0 {
            return Ok(());
        }
        let (high, low) = if by > 0 {
            (anchor, place)
        } else {
            (place, anchor)
        };
        let round = self.tie(alloc, path, high, low)?;
        pairs.push(Pair {
            times: by.checked_abs().ok_or(Stop::Odd)?,
            source: Source::Round(round),
        })?;
        Ok(())
    }

    /// Adds to pairs what puts the anchors in the place of all quotients that are tied to them, but for those like one.
    fn tie_pairs(
        &mut self,
        alloc: Global,
        table: &Table,
        path: &Path,
        but: Option<usize>,
        pairs: &mut Seq<Pair>,
    ) -> Result<(), Stop> {
        for (place, quotient) in path.quotients().iter().enumerate() {
            let anchor = at(&self.anchors, place)?;
            if anchor != place && but != Some(quotient.first) {
                let by = factor_of_pairs(table, path, pairs.as_slice(), quotient.variable)?;
                self.tie_pair(alloc, path, place, anchor, by, pairs)?;
            }
        }
        Ok(())
    }

    /// What the quotients are like that a round ties.
    fn tied_by(&self, path: &Path, round: usize) -> Result<Option<usize>, Stop> {
        for tie in self.ties.as_slice() {
            if tie.round == round {
                return Ok(Some(quotient_at(path, tie.high)?.first));
            }
        }
        Ok(None)
    }

    /// Ties the copies in all rounds and in the sum.
    fn tie_all(&mut self, alloc: Global, table: &Table, path: &Path) -> Result<(), Stop> {
        let mut sum = Seq::new(alloc);
        std::mem::swap(&mut sum, &mut self.sum);
        self.tie_pairs(alloc, table, path, None, &mut sum)?;
        std::mem::swap(&mut sum, &mut self.sum);
        for place in 0..usize::MAX {
            if place >= self.rounds.len() {
                break;
            }
            let mut round = self.rounds.replace(place, no_round(alloc));
            let but = self.tied_by(path, place)?;
            self.tie_pairs(alloc, table, path, but, &mut round.pairs)?;
            put(&mut self.rounds, place, round);
        }
        Ok(())
    }
}

/// The rounds and the sum of a leaf, in which copies of quotients are tied to each other. `Odd` where a number has more
/// than 64 bits.
pub fn tied(
    alloc: Global,
    table: &Table,
    path: &Path,
    rounds: Seq<Round>,
    sum: Seq<Pair>,
) -> Result<(Seq<Round>, Seq<Pair>), Stop> {
    if !path.has_copies() {
        return Ok((rounds, sum));
    }
    let count = path.quotients().len();
    let mut tying = Tying {
        rounds,
        sum,
        anchors: repeated(alloc, 0, count)?,
        ties: Seq::new(alloc),
    };
    for back in 0..count {
        tying.anchor(alloc, table, path, count - 1 - back)?;
    }
    tying.tie_all(alloc, table, path)?;
    let Tying {
        rounds,
        sum,
        anchors: _,
        ties: _,
    } = tying;
    Ok((rounds, sum))
}
