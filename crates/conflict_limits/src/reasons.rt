//! A conflict taken apart: the multiples of items that add up to something false, after rounds where limits were
//! rounded.
use crate::events::{Event, Reason, Weighted};
use crate::limits::Limits;
use crate::rounds::{Pair, Round, Source};
use conflict_tables::{Stop, at, common_divisor, plus, put, repeated, times};
use std::alloc::Global;
use unity_base::Seq;

/// Multiples of events that are to be replaced by what they rest on.
#[derive(Drop)]
struct Multiples {
    /// Of each event.
    of: Seq<i64>,
    /// How many of them are not zero.
    open: usize,
}

impl Multiples {
    /// Puts a multiple in the place of an event's.
    fn put(&mut self, event: usize, multiple: i64) -> Result<(), Stop> {
        if at(&self.of, event)? != 0 {
            self.open = self.open.saturating_sub(1);
        }
        if multiple != 0 {
            self.open = self.open.saturating_add(1);
        }
        put(&mut self.of, event, multiple);
        Ok(())
    }

    /// Adds a multiple of an event.
    fn add(&mut self, event: usize, by: i64) -> Result<(), Stop> {
        let total = plus(at(&self.of, event)?, by)?;
        self.put(event, total)
    }

    /// Takes the multiple of an event out.
    fn take(&mut self, event: usize) -> Result<i64, Stop> {
        let by = at(&self.of, event)?;
        if by != 0 {
            self.put(event, 0)?;
        }
        Ok(by)
    }

    /// Multiplies those of the events before one.
    fn multiply(&mut self, events: usize, by: i64) -> Result<(), Stop> {
        for place in 0..events {
            let multiple = at(&self.of, place)?;
            if multiple != 0 {
                put(&mut self.of, place, times(multiple, by)?);
            }
        }
        Ok(())
    }
}

/// The events that are rounded for the sake of a leaf, in the order in which they were met.
#[derive(Drop)]
struct Rounded {
    events: Seq<usize>,
    /// The number among them of each event of the path.
    numbers: Seq<Option<usize>>,
}

impl Rounded {
    /// The number of an event, which is a new one where it was not met before.
    fn number(&mut self, event: usize) -> Result<usize, Stop> {
        if let Some(number) = at(&self.numbers, event)? {
            return Ok(number);
        }
        let number = self.events.len();
        self.events.push(event)?;
        put(&mut self.numbers, event, Some(number));
        Ok(number)
    }
}

/// What multiples of events were replaced by so far.
#[derive(Drop)]
struct Taking {
    pairs: Seq<Pair>,
    /// By how much all was multiplied.
    scale: i64,
    spare: i64,
}

impl Taking {
    /// Adds a multiple of a source.
    fn add_pair(&mut self, by: i64, source: Source) -> Result<(), Stop> {
        for place in 0..self.pairs.len() {
            let pair = at(&self.pairs, place)?;
            if pair.source == source {
                let times = plus(pair.times, by)?;
                put(&mut self.pairs, place, Pair { times, source });
                return Ok(());
            }
        }
        self.pairs.push(Pair { times: by, source })?;
        Ok(())
    }

    /// Multiplies all by a number: the pairs and what there is to spare.
    fn multiply(&mut self, by: i64) -> Result<(), Stop> {
        for place in 0..self.pairs.len() {
            let pair = at(&self.pairs, place)?;
            let scaled = Pair {
                times: times(pair.times, by)?,
                source: pair.source,
            };
            put(&mut self.pairs, place, scaled);
        }
        self.scale = times(self.scale, by)?;
        self.spare = times(self.spare, by)?;
        Ok(())
    }

    /// Divides the pairs and the scale by what divides all of them. Whether the scale counts is said.
    fn lighten(&mut self, with_scale: bool) -> Result<(), Stop> {
        let mut divisor = if with_scale {
            self.scale.unsigned_abs()
        } else {
            0
        };
        for pair in self.pairs.as_slice() {
            divisor = common_divisor(pair.times.unsigned_abs(), divisor);
        }
        let by = i64::try_from(divisor).map_err(|_| Stop::Odd)?;
        if by > 1 {
            for place in 0..self.pairs.len() {
                let pair = at(&self.pairs, place)?;
                let lighter = Pair {
                    times: pair.times / by,
                    source: pair.source,
                };
                put(&mut self.pairs, place, lighter);
            }
            self.scale /= by;
        }
        Ok(())
    }
}

/// Replaces an event by the weaker one before it, where there is that much to spare. Whether it was.
fn weakened(
    limits: &Limits,
    event: Event,
    by: i64,
    multiples: &mut Multiples,
    taking: &mut Taking,
) -> Result<bool, Stop> {
    let Some(before) = event.before else {
        return Ok(false);
    };
    let gap = event.bound.checked_sub(limits.event(before)?.bound);
    match gap.and_then(|gap| gap.checked_mul(by)) {
        Some(cost) if cost <= taking.spare => {
            taking.spare = taking.spare.saturating_sub(cost);
            multiples.add(before, by)?;
            Ok(true)
        }
        _ => Ok(false),
    }
}

/// The number by which all is multiplied, so that a multiple can be divided.
fn missing(by: i64, divisor: i64) -> Result<i64, Stop> {
    let common = common_divisor(by.unsigned_abs(), divisor.unsigned_abs());
    let common = i64::try_from(common).map_err(|_| Stop::Odd)?;
    divisor.checked_div(common).ok_or(Stop::Odd)
}

/// Replaces a multiple of an event that was not rounded by its reason.
fn take_exact(
    limits: &Limits,
    number: usize,
    event: Event,
    by: i64,
    multiples: &mut Multiples,
    taking: &mut Taking,
) -> Result<(), Stop> {
    let factor = missing(by, event.divisor)?;
    if factor != 1 {
        multiples.multiply(number, factor)?;
        taking.multiply(factor)?;
    }
    let part = times(by, factor)?
        .checked_div(event.divisor)
        .ok_or(Stop::Odd)?;
    match event.reason {
        Reason::Item(item) => taking.add_pair(part, Source::Item(item)),
        Reason::Sum(span) => {
            for weighted in limits.weights(span) {
                multiples.add(weighted.event, times(part, weighted.times)?)?;
            }
            Ok(())
        }
    }
}

/// Replaces the multiple of one event: by a weaker event, by its reason, or by a round where it was rounded.
fn take_event(
    limits: &Limits,
    number: usize,
    multiples: &mut Multiples,
    rounded: &mut Rounded,
    taking: &mut Taking,
) -> Result<(), Stop> {
    let by = multiples.take(number)?;
    if by == 0 {
        return Ok(());
    }
    let event = limits.event(number)?;
    if weakened(limits, event, by, multiples, taking)? {
        return Ok(());
    }
    if event.tight {
        take_exact(limits, number, event, by, multiples, taking)
    } else {
        taking.add_pair(by, Source::Round(rounded.number(number)?))
    }
}

/// By how much the reason of an event may be less, and the event is still what it is rounded to.
fn spare_of(limits: &Limits, event: Event, weights: &[Weighted]) -> Result<i64, Stop> {
    let mut sum = 0;
    for weighted in weights {
        let bound = limits.event(weighted.event)?.bound;
        sum = plus(sum, times(weighted.times, bound)?)?;
    }
    let rounded = times(event.divisor, event.bound)?
        .checked_sub(sum)
        .ok_or(Stop::Odd)?;
    Ok(
        event
            .divisor
            .saturating_sub(1)
            .saturating_sub(rounded)
            .max(0),
    )
}

/// What multiples of events rest on, in one pass from the newest event back.
fn explain(
    alloc: Global,
    limits: &Limits,
    start: &[Weighted],
    spare: i64,
    multiples: &mut Multiples,
    rounded: &mut Rounded,
) -> Result<Taking, Stop> {
    let mut taking = Taking {
        pairs: Seq::new(alloc),
        scale: 1,
        spare,
    };
    let mut count: usize = 0;
    for weighted in start {
        multiples.add(weighted.event, weighted.times)?;
        count = count.max(weighted.event.saturating_add(1));
    }
    for back in 0..count {
        if multiples.open == 0 {
            break;
        }
        take_event(limits, count - 1 - back, multiples, rounded, &mut taking)?;
    }
    taking.lighten(true)?;
    Ok(taking)
}

/// The round for an event: of one fact, or of what its reason rests on.
fn round_of(
    alloc: Global,
    limits: &Limits,
    number: usize,
    multiples: &mut Multiples,
    rounded: &mut Rounded,
) -> Result<Round, Stop> {
    let event = limits.event(number)?;
    match event.reason {
        Reason::Item(item) => {
            let mut pairs = Seq::new(alloc);
            pairs.push(Pair {
                times: 1,
                source: Source::Item(item),
            })?;
            Ok(Round {
                divisor: event.divisor,
                pairs,
            })
        }
        Reason::Sum(span) => {
            let weights = limits.weights(span);
            let spare = spare_of(limits, event, weights)?;
            let taking = explain(alloc, limits, weights, spare, multiples, rounded)?;
            Ok(Round {
                divisor: times(event.divisor, taking.scale)?,
                pairs: taking.pairs,
            })
        }
    }
}

/// The pairs of a sum that a clash of limits comes from, and the rounds that it rests on, in no order.
pub fn explained(
    alloc: Global,
    limits: &Limits,
    spare: i64,
) -> Result<(Seq<Round>, Seq<Pair>), Stop> {
    let count = limits.count_events();
    let mut multiples = Multiples {
        of: repeated(alloc, 0, count)?,
        open: 0,
    };
    let mut rounded = Rounded {
        events: Seq::new(alloc),
        numbers: repeated(alloc, None, count)?,
    };
    let start = limits.clash.as_slice();
    let mut taking = explain(alloc, limits, start, spare, &mut multiples, &mut rounded)?;
    taking.lighten(false)?;
    let mut rounds = Seq::new(alloc);
    for place in 0..count {
        let Some(number) = rounded.events.get(place).copied() else {
            break;
        };
        rounds.push(round_of(alloc, limits, number, &mut multiples, &mut rounded)?)?;
    }
    Ok((rounds, taking.pairs))
}
