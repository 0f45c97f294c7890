//! The start state of a program, and its execution step by step.
#![tactic(auto)]

mod preparing;
mod runner;
mod start;
mod trying;

pub use core_terms as from_core_terms;
pub use core_terms::{from_case_tables, from_unity_base};
pub use preparing::writes_outside;
pub use runner::{Runner, StartError, Stepped};
pub use start::start_of;
pub use trying::{can_step, would_step};
