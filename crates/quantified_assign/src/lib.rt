//! The core form of a document.
#![tactic(auto)]

mod bodies;
mod contents;
mod documents;
mod headings;
mod programs;
mod unions;

pub use documents::expand;
