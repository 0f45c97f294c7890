//! The command `fixed` over a document in core form: a run that stops at the first fixed point.
#![tactic(auto)]

mod commands;
mod programs;
mod traces;

pub use commands::run_to_fixed;
