//! Nested ranges.

/// An end of a range: a constant, or the number of an outer range's name with a constant added or taken away.
#[derive(Clone, Copy)]
pub struct NestEnd {
    /// The outer range whose number is meant, 0 being the outermost. Without one it is the number 0.
    pub level: Option<usize>,
    /// Whether the constant is taken away.
    pub minus: bool,
    /// The constant without its sign.
    pub number: u64,
}

/// The whole numbers from `low` to `high`, both included. The ends may mean the numbers of the ranges around it.
#[derive(Clone, Copy)]
pub struct NestRange {
    pub low: NestEnd,
    pub high: NestEnd,
}

/// That one number with a gap added is at most another. Each is the number of a range, or 0 where it has no level.
#[derive(Clone, Copy)]
pub struct Condition {
    pub low: Option<usize>,
    pub high: Option<usize>,
    pub gap: i128,
}

/// The numbers from `low` to `high`.
#[derive(Clone, Copy)]
pub struct Interval {
    pub low: i128,
    pub high: i128,
}

/// A count of instances.
#[derive(Clone, Copy)]
pub struct Counted {
    /// What is left of the room for them; `None` where there were more.
    pub left: Option<u64>,
    /// The turns that were taken, up to 2^64 - 1.
    pub turns: u64,
}
