//! What a watch finds of a document is found of its own program, by its own claims and steps.
//!
//! These functions do nothing: each states laws.
#![tactic(auto)]

mod laws;

pub use laws::{accepted_laws, answer_laws, watch_laws};
