//! The search for a certificate of an obligation: by conflicts, and then along the plain tree, by which units are
//! bounded.
#![tactic(auto)]

mod finding;
mod nodes;
mod values;

pub use finding::search;
pub use search_tree::Found;
