//! Reads and writes that look whether there is such a place, and sums that look whether they fit.
use crate::stop::Stop;
use std::alloc::{AllocError, Global};
use unity_base::Seq;

/// The places of a list from one on, and before another.
#[derive(Clone, Copy, PartialEq, Eq)]
pub struct Span {
    /// The first place.
    pub start: usize,
    /// The place behind the last.
    pub end: usize,
}

/// The items of a span; none where the list ends before it does.
pub fn items_in<T>(list: &Seq<T>, span: Span) -> &[T] {
    match list.as_slice().get(span.start..span.end) {
        Some(items) => items,
        None => &[],
    }
}

/// The item at a place. `Odd` where there is none.
pub fn at<T: Copy>(list: &Seq<T>, place: usize) -> Result<T, Stop> {
    match list.get(place) {
        Some(item) => Ok(*item),
        None => Err(Stop::Odd),
    }
}

/// Puts an item in the place of another, where there is one, and does nothing else.
pub fn put<T: Drop>(list: &mut Seq<T>, place: usize, item: T) {
    if place < list.len() {
        let _ = list.replace(place, item);
    }
}

/// Puts items at the end, and gives their places. An error where memory is refused.
pub fn append<T: Copy>(list: &mut Seq<T>, items: &[T]) -> Result<Span, AllocError> {
    let start = list.len();
    for item in items {
        list.push(*item)?;
    }
    Ok(Span {
        start,
        end: list.len(),
    })
}

/// So many times the same item. An error where memory is refused.
pub fn repeated<T: Copy>(alloc: Global, item: T, count: usize) -> Result<Seq<T>, AllocError> {
    let mut list = Seq::new(alloc);
    for _ in 0..count {
        list.push(item)?;
    }
    Ok(list)
}

/// The sum of two numbers. `Odd` where it has more than 64 bits.
pub fn plus(a: i64, b: i64) -> Result<i64, Stop> {
    a.checked_add(b).ok_or(Stop::Odd)
}

/// The product of two numbers. `Odd` where it has more than 64 bits.
pub fn times(a: i64, b: i64) -> Result<i64, Stop> {
    a.checked_mul(b).ok_or(Stop::Odd)
}

/// The negative of a number. `Odd` where it has more than 64 bits.
pub fn minus(a: i64) -> Result<i64, Stop> {
    a.checked_neg().ok_or(Stop::Odd)
}

/// The greatest number that divides both; the other where one is 0.
pub fn common_divisor(a: u64, b: u64) -> u64 {
    let mut one = a;
    let mut other = b;
    'steps: while other > 0 {
        let rest = one % other;
        one = other;
        other = rest;
    }
    one
}
