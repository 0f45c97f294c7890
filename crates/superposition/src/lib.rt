//! Superposition: what holds of a program holds of a layer over it.
#![tactic(auto)]

mod extending;
mod helping;
mod labels;
mod layers;
mod naming;
mod shown;
mod superposing;

pub use superposing::{is_carried, superpose_rule};
