//! Assignments in core form: guarded writes, and formulas that hold where an index is outside its array.
#![tactic(auto)]

mod alternatives;
mod arrays;
mod components;
mod counts;
mod parts;
mod places;
mod targets;
mod unwritten;
mod writes;

pub use components::effect_in;
pub use counts::is_large;
