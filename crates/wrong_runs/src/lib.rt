//! Calls that make preconditions, steps and runs, and that watch a trace, each under its own clauses; the edits in
//! `must-fail/` put wrong bodies in their place. Nothing stands on this crate.
#![tactic(auto)]

mod preconditions;
mod replacing;
mod runs;
mod watching;

pub use preconditions::wp;
pub use replacing::one_after_the_other;
pub use runs::{run_to_fixed, step};
pub use watching::{new_watch, watch_choices, watch_step};
