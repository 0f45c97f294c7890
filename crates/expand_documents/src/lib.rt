//! The core form of a document, and its first fault of size or range: the definitions, in `specs/`. And what the always
//! names of a document become.
#![tactic(auto)]

mod definitions;
mod elements;

pub use definitions::add_definitions;
