//! The program's one call under its own clauses, part by part, whose bodies the edits in `must-fail/` replace by wrong
//! ones. Nothing stands on this crate.
#![tactic(auto)]

mod checks;
mod laws;
mod reads;
mod tells;
mod watches;

pub use checks::unity_checks;
pub use laws::no_status_for_all;
pub use reads::unity_reads;
pub use tells::unity_tells;
pub use watches::unity_watches;
