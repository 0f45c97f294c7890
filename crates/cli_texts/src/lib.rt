//! The texts that the program answers with.
#![tactic(auto)]

mod refusals;
mod verdicts;

pub use refusals::{document_fault, input_refusal};
pub use verdicts::{accepted, rejected};
