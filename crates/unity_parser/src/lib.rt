//! The reader of documents: from bytes to the one tree that they are, or their first fault.
#![tactic(auto)]

mod certificate;
mod documents;
mod fronts;
mod reading;
mod schedules;
mod texts;

pub use fronts::{front_laws, parse_front};
pub use reading::{parse, says_later};
pub use texts::{one_reading, read_document};
