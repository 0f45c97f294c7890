//! Examples of what the grammar reads and refuses, and of what documents mean. Nothing stands on
//! this crate.
#![tactic(auto)]

mod meanings;
mod texts;
mod values;

pub use meanings::{claim_examples, instance_examples, program_examples, step_examples};
pub use texts::grammar_examples;
pub use values::{division_examples, operator_examples, value_examples};
