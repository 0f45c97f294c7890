//! The search for a certificate along the plain tree of an obligation, by which units are bounded.
#![tactic(auto)]

mod closing;
mod ends;
mod fixing;
mod halves;
mod laws;
mod leaf;
mod leaves;
mod marks;
mod plain_tree;
mod points;
mod searching;
mod taking;
mod trail;
mod views;

pub use ends::search_ends;
pub use laws::enough_laws;
pub use leaves::count_leaves;
pub use searching::{Found, search_tree};
