//! The words after the program's name, and what they ask for.
#![tactic(auto)]

mod laws;
mod numbers;
mod words;

pub use laws::{number_laws, request_laws};
pub use words::{Command, read_words};
