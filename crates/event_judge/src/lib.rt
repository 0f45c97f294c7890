//! Whether a document's certificates refute what its steps leave to be shown, told event by event.
#![tactic(auto)]

mod faults;
mod judge;
mod laws;

pub use judge::Judge;
pub use laws::judge_laws;
