//! How many instances nested ranges have, and what they meet in one of them, without taking a turn for each
//! number of a range.
#![tactic(auto)]

mod conditions;
mod plans;
mod questions;
mod ranges;
mod walk;

pub use questions::{all_instances, is_ever_empty, is_ever_large, room_after, room_and_turns};
pub use ranges::{Counted, NestEnd, NestRange};
