//! The events of a path: a way got a limit, for a reason, or what is known cannot be.

use conflict_tables::{Factor, Span, way_of};

/// Why a way has a limit.
#[derive(Clone, Copy)]
pub enum Reason {
    /// The item at this place is a fact that says so.
    Item(usize),
    /// Multiples of other limits add up to it.
    Sum(Span),
}

/// A multiple of what an event says.
#[derive(Clone, Copy)]
pub struct Weighted {
    /// How often it counts.
    pub times: i64,
    /// The event's number.
    pub event: usize,
}

/// A way got a limit: it is at least so much.
#[derive(Clone, Copy)]
pub struct Event {
    /// The way that got it.
    pub way: usize,
    /// What the way is at least.
    pub bound: i64,
    /// The event of the weaker limit before.
    pub before: Option<usize>,
    /// Why.
    pub reason: Reason,
    /// The reason speaks of this multiple of the way.
    pub divisor: i64,
    /// Whether nothing was rounded where that was divided.
    pub tight: bool,
}

/// A way's limit and its event.
#[derive(Clone, Copy)]
pub struct Limit {
    /// What the way is at least.
    pub bound: i64,
    /// The number of the event.
    pub event: usize,
}

/// What cannot be.
#[derive(Clone, Copy)]
pub enum Conflict {
    /// The item at this place is a false fact.
    Item(usize),
    /// The limits of the clash add up to at least 1 where they must be at most 0: the sum has this much to spare.
    Clash { spare: i64 },
}

/// The greatest value of a sum within the limits, without those of its variables that have none.
#[derive(Clone, Copy)]
pub struct Reach {
    /// The greatest value of the others together.
    pub sum: i64,
    /// How many variables have no limit.
    pub open: usize,
}

/// How often a variable counts, and the way whose limit bounds that from above.
#[derive(Clone, Copy)]
pub struct Bounding {
    /// How often it counts, not negative.
    pub times: i64,
    /// The way.
    pub way: usize,
}

/// What bounds a factor times its variable from above, or its negative.
pub fn bound_above(factor: Factor, against: bool) -> Option<Bounding> {
    let times = factor.times.checked_abs()?;
    let falls = (factor.times < 0) != against;
    Some(Bounding {
        times,
        way: way_of(factor.variable, !falls),
    })
}
