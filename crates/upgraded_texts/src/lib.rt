//! A document in version 2: its text has a `2` as the version's number and is else as it was (`texts`), and it is
//! accepted with the certificates with which the document is (`verdicts`).
//!
//! The functions do nothing: they state the laws.
#![tactic(auto)]

mod texts;
mod verdicts;

pub use texts::text_laws;
pub use verdicts::verdict_laws;
