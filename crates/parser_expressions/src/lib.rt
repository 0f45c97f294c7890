//! Tokens that are still to be read, and the reading of one of them; ranges, references and expressions.
//!
//! Each function promises that it gives what the reader of the grammar reads at its tokens. `depth`
//! is the number of brackets that may still be opened; a function that reads no bracket takes it
//! where its promise names it.
#![tactic(auto)]

mod cursor;
mod expressions;
mod joints;
mod lists;
mod nodes;
mod ranges;
mod references;
mod sections;
mod stop;
mod texts;

pub use cursor::Cursor;
pub use expressions::{condition, index, pred};
pub use lists::{Front, listed, owned, repeated};
pub use ranges::{BoundName, begins_range, bound, ends, names, range};
pub use references::{begins_reference, inst, reference};
pub use sections::section;
pub use stop::{Parsed, Stop};
