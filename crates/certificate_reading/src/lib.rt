//! The certificates of a document, as the check takes them.
#![tactic(auto)]

mod laws;

pub use laws::whole_trees;
