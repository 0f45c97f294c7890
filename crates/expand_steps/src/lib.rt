//! Proofs in core form.
#![tactic(auto)]

mod formulas;
mod step_rules;
mod steps;
mod term_forms;
mod terms;

pub use formulas::{formed, formula, is_too_large, metric};
pub use steps::{core_proof, core_step};
