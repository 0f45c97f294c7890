//! Obligations as scripts that solvers read: the text of an obligation in SMT-LIB, and what it means.
#![tactic(auto)]

mod forms;
mod laws;
mod names;
mod scripts;

pub use laws::script_laws;
pub use names::Names;
pub use scripts::{put_ranges, put_script};
