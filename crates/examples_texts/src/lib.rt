//! Documents that several crates of examples try, each of which stands here once.
#![tactic(auto)]

mod counters;
mod halves;
mod rings;

pub use counters::COUNT;
