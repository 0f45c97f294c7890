//! Calls that write what is left to be shown, with its origins, places and scripts, each under its own clauses; the
//! edits in `must-fail/` put wrong bodies in their place. Nothing stands on this crate.
#![tactic(auto)]

mod dividing;
mod listings;
mod scripts;

pub use dividing::divided;
pub use listings::{lines_of, origins_of, write_obligations};
pub use scripts::{put_ranges, put_script};
