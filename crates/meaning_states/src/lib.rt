//! States, which give each slot a number, the step from one state to the next, and division that is
//! rounded down. The definitions stand in `specs/`.
#![tactic(auto)]

mod laws;

pub use laws::{division_laws, step_laws};
