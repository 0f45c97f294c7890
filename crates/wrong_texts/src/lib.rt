//! Calls that read and write texts, each under its own clauses; the edits in `must-fail/` put wrong bodies in their
//! place. Nothing stands on this crate.
#![tactic(auto)]

mod streams;
mod texts;

pub use streams::{read_all, window_fill, write_all};
pub use texts::{next_token, parse_front, pred, read_front, section_reader, section_take};
