//! What the steps of a document's proofs leave to be shown, and the verdict on a document.
#![tactic(auto)]

mod adding;
mod laws;
mod levels;
mod planning;
mod plans;
mod programs;

pub use laws::verdict_laws;
pub use levels::most_levels;
pub use planning::{Planned, plan_by_rules, walk};
pub use plans::{Plan, ScriptError, StepFault};
