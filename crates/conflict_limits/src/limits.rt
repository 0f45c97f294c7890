//! The limits of variables and of lines on a path, each with its reason, and what contradicts them.

use crate::events::{Conflict, Event, Limit, Reach, Reason, Weighted, bound_above};
use crate::partners::meet_partner;
use crate::queue::{Queue, no_queue};
use conflict_tables::{
    Fact, Factor, Span, Stop, Table, at, is_against, items_in, line_of, opposite, put, repeated,
    way_of,
};
use std::alloc::{AllocError, Global};
use unity_base::Seq;

/// The limits.
#[derive(Drop)]
pub struct Limits {
    events: Seq<Event>,
    reasons: Seq<Weighted>,
    /// The limit of each way.
    tightest: Seq<Option<Limit>>,
    /// What cannot be, where that is known.
    pub conflict: Option<Conflict>,
    /// The limits that clash.
    pub(crate) clash: Seq<Weighted>,
    /// Lines that may limit their variables anew.
    pub(crate) queue: Queue,
    /// When the variables of each mask with one member were limited last.
    changed: Seq<u64>,
    /// How many limits were given so far, from 1 on.
    pub clock: u64,
    /// How many more lines and formulas are looked at.
    steps: u64,
}

/// A state to which limits can be taken back.
#[derive(Clone, Copy)]
pub struct LimitsMark {
    events: usize,
    reasons: usize,
}

impl LimitsMark {
    /// The state with no limits.
    pub const ROOT: LimitsMark = LimitsMark {
        events: 0,
        reasons: 0,
    };
}

/// No limits, and so many looks at lines and formulas. An error where memory is refused.
pub fn no_limits(alloc: Global, steps: u64) -> Result<Limits, AllocError> {
    Ok(Limits {
        events: Seq::new(alloc),
        reasons: Seq::new(alloc),
        tightest: Seq::new(alloc),
        conflict: None,
        clash: Seq::new(alloc),
        queue: no_queue(alloc),
        changed: repeated(alloc, 0, 64)?,
        clock: 1,
        steps,
    })
}

impl Limits {
    /// Takes in lines that are new in the table. An error where memory is refused.
    pub fn grow(&mut self, table: &Table) -> Result<(), Stop> {
        for _ in self.queue.room()..table.count_lines() {
            self.tightest.push(None)?;
            self.tightest.push(None)?;
            self.queue.grow()?;
        }
        Ok(())
    }

    /// Counts a step. The last one ends the search.
    pub fn count_step(&mut self) -> Result<(), Stop> {
        if self.steps == 0 {
            return Err(Stop::Odd);
        }
        self.steps -= 1;
        Ok(())
    }

    /// The limit of a way.
    pub fn limit(&self, way: usize) -> Option<Limit> {
        match self.tightest.get(way) {
            Some(limit) => *limit,
            None => None,
        }
    }

    /// The event of a number. `Odd` where there is none.
    pub fn event(&self, number: usize) -> Result<Event, Stop> {
        at(&self.events, number)
    }

    /// How many events there are.
    pub fn count_events(&self) -> usize {
        self.events.len()
    }

    /// The multiples of limits that are a reason.
    pub fn weights(&self, span: Span) -> &[Weighted] {
        items_in(&self.reasons, span)
    }

    /// Whether none of the variables of a mask was limited after a time.
    pub fn is_unchanged(&self, mask: u64, time: u64) -> bool {
        let mut rest = mask;
        for _ in 0..64 {
            if rest == 0 {
                return true;
            }
            match self.changed.get(rest.trailing_zeros() as usize) {
                Some(last) if *last <= time => {}
                _ => return false,
            }
            rest &= rest.wrapping_sub(1);
        }
        true
    }

    /// The multiples of limits on which an event rests; none for a fact.
    pub fn reason_of(&self, event: Event) -> &[Weighted] {
        match event.reason {
            Reason::Item(_) => &[],
            Reason::Sum(span) => self.weights(span),
        }
    }

    /// The greatest value of a sum of factors, or of its negative.
    pub fn reach(&self, factors: &[Factor], against: bool) -> Option<Reach> {
        let mut sum: i64 = 0;
        let mut open: usize = 0;
        for factor in factors {
            let bounding = bound_above(*factor, against)?;
            match self.limit(bounding.way) {
                Some(limit) => {
                    sum = sum.checked_sub(bounding.times.checked_mul(limit.bound)?)?;
                }
                None => open = open.saturating_add(1),
            }
        }
        Some(Reach { sum, open })
    }

    /// The greatest value of a sum of factors, or of its negative, where it has one.
    pub fn greatest(&self, factors: &[Factor], against: bool) -> Option<i64> {
        let reach = self.reach(factors, against)?;
        if reach.open == 0 {
            Some(reach.sum)
        } else {
            None
        }
    }

    /// The place where a reason begins: what is pushed from here on belongs to it.
    pub fn begin_reason(&self) -> usize {
        self.reasons.len()
    }

    /// Adds a multiple of an event to the reason. An error where memory is refused.
    pub fn push_reason(&mut self, times: i64, event: usize) -> Result<(), Stop> {
        self.reasons.push(Weighted { times, event })?;
        Ok(())
    }

    /// The reason that was begun at a place.
    pub fn reason_from(&self, start: usize) -> Reason {
        Reason::Sum(Span {
            start,
            end: self.reasons.len(),
        })
    }

    /// Gives a way a limit, where it is tighter than the one before. `Odd` where memory or a number stops it.
    pub fn tighten(&mut self, table: &Table, event: Event) -> Result<(), Stop> {
        let before = self.limit(event.way);
        if let Some(limit) = before {
            if event.bound <= limit.bound {
                return Ok(());
            }
        }
        let number = self.events.len();
        self.events.push(Event {
            before: before.map(|limit| limit.event),
            ..event
        })?;
        let limit = Limit {
            bound: event.bound,
            event: number,
        };
        put(&mut self.tightest, event.way, Some(limit));
        self.meet_opposite(event.way, limit)?;
        if self.conflict.is_none() {
            self.follow(table, event.way)?;
        }
        Ok(())
    }

    /// The number of an event that is kept aside: it is no limit of its way. An error where memory is refused.
    pub fn add_aside(&mut self, event: Event) -> Result<usize, Stop> {
        let number = self.events.len();
        self.events.push(event)?;
        Ok(number)
    }

    /// Whether a limit contradicts the one from the other side.
    fn meet_opposite(&mut self, way: usize, limit: Limit) -> Result<(), Stop> {
        if let Some(other) = self.limit(opposite(way)) {
            let sum = limit.bound.saturating_add(other.bound);
            if sum > 0 {
                self.begin_clash(limit.event)?;
                self.add_clash(1, other.event)?;
                self.end_clash(sum - 1);
            }
        }
        Ok(())
    }

    /// Begins a clash with no event.
    pub fn begin_sum(&mut self) {
        self.clash.truncate(0);
    }

    /// Begins a clash with an event.
    pub fn begin_clash(&mut self, event: usize) -> Result<(), Stop> {
        self.begin_sum();
        self.add_clash(1, event)
    }

    /// Adds a multiple of an event to a clash.
    pub fn add_clash(&mut self, times: i64, event: usize) -> Result<(), Stop> {
        self.clash.push(Weighted { times, event })?;
        Ok(())
    }

    /// Ends a clash with so much to spare.
    pub fn end_clash(&mut self, spare: i64) {
        self.conflict = Some(Conflict::Clash { spare });
    }

    /// Adds to a clash what bounds a sum of factors from above, or its negative.
    pub fn add_bounds(&mut self, factors: &[Factor], against: bool) -> Result<(), Stop> {
        for factor in factors {
            let bounding = bound_above(*factor, against).ok_or(Stop::Odd)?;
            let limit = self.limit(bounding.way).ok_or(Stop::Odd)?;
            self.add_clash(bounding.times, limit.event)?;
        }
        Ok(())
    }

    /// Says of the lines that a limit may touch that they are to be looked at.
    fn follow(&mut self, table: &Table, way: usize) -> Result<(), Stop> {
        let line = line_of(way);
        self.clock = self.clock.saturating_add(1);
        if table.is_single(line) {
            put(&mut self.changed, line % 64, self.clock);
            self.queue_lines_of(table, line)
        } else {
            for factor in table.line_factors(line) {
                put(&mut self.changed, factor.variable % 64, self.clock);
            }
            self.queue.add(line)
        }
    }

    /// Says that the lines in which a variable occurs are to be looked at, where they have a limit.
    fn queue_lines_of(&mut self, table: &Table, variable: usize) -> Result<(), Stop> {
        let mut next = table.first_link(variable);
        for _ in 0..table.count_lines() {
            let Some(link) = next.and_then(|number| table.link(number)) else {
                return Ok(());
            };
            if self.has_limit(link.line) {
                self.queue.add(link.line)?;
            }
            next = link.next;
        }
        Ok(())
    }

    /// Whether a line has a limit.
    pub fn has_limit(&self, line: usize) -> bool {
        self.limit(way_of(line, false)).is_some() || self.limit(way_of(line, true)).is_some()
    }

    /// Takes in a fact that is the item at a place. `Odd` where no looks are left or a number has more than 64 bits.
    pub fn add_fact(&mut self, table: &Table, fact: Fact, item: usize) -> Result<(), Stop> {
        if self.conflict.is_some() {
            return Ok(());
        }
        let Some(way) = fact.way else {
            if fact.constant < 0 {
                self.conflict = Some(Conflict::Item(item));
            }
            return Ok(());
        };
        self.tighten(
            table,
            Event {
                way,
                bound: fact.bound,
                before: None,
                reason: Reason::Item(item),
                divisor: fact.divisor,
                tight: fact.tight,
            },
        )?;
        if self.conflict.is_none() {
            self.meet_variables(table, way)?;
        }
        if self.conflict.is_none() {
            meet_partner(table.alloc, table, self, way)?;
        }
        Ok(())
    }

    /// Whether the limit of a line of several variables is out of reach of theirs.
    pub fn meet_variables(&mut self, table: &Table, way: usize) -> Result<(), Stop> {
        let factors = table.line_factors(line_of(way));
        if let Some(limit) = self.limit(way) {
            if let Some(most) = self.greatest(factors, is_against(way)) {
                if most < limit.bound && !table.is_single(line_of(way)) {
                    self.begin_clash(limit.event)?;
                    self.add_bounds(factors, is_against(way))?;
                    self.end_clash(limit.bound.saturating_sub(most).saturating_sub(1));
                }
            }
        }
        Ok(())
    }

    /// The state of the limits.
    pub fn mark(&self) -> LimitsMark {
        LimitsMark {
            events: self.events.len(),
            reasons: self.reasons.len(),
        }
    }

    /// Takes the limits back to a state, and any conflict.
    pub fn take_back(&mut self, mark: LimitsMark) {
        for _ in mark.events..self.events.len() {
            if let Some(event) = self.events.pop() {
                let number = self.events.len();
                self.forget(event, number);
            }
        }
        self.reasons.truncate(mark.reasons);
        self.conflict = None;
        self.queue.clear();
    }

    /// Takes back the limit that an event of this number gave, unless it was kept aside.
    fn forget(&mut self, event: Event, number: usize) {
        if self
            .limit(event.way)
            .is_some_and(|limit| limit.event == number)
        {
            let limit = self.limit_before(event);
            put(&mut self.tightest, event.way, limit);
        }
    }

    /// The limit that an event replaced.
    fn limit_before(&self, event: Event) -> Option<Limit> {
        let number = event.before?;
        let before = self.events.get(number)?;
        Some(Limit {
            bound: before.bound,
            event: number,
        })
    }
}
