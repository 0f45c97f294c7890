//! The names and types of expressions, statements and proofs: their words, or what is wrong first.
#![tactic(auto)]

mod alternatives;
mod checks;
mod components;
mod indices;
mod lists;
mod params;
mod ranges;
mod refs;
mod steps;
mod taken;
mod targets;
mod terms;
mod walk;
mod words;

pub use checks::{demand, same, unknown};
pub use indices::arguments;
pub use lists::items;
pub use ranges::{filled_range, signed};
pub use refs::program_word;
pub use steps::step;
pub use taken::{WordSet, take};
pub use walk::{expression, value};
pub use words::Table;
