//! The names and types of programs and documents: what each word means, or what is wrong first.
#![tactic(auto)]

mod checking;
mod definitions;
mod documents;
mod entering;
mod enumerations;
mod indexing;
mod kinds;
mod meanings;
mod naming;
mod numbering;
mod programs;
mod scripts;
mod sharing;
mod start;
mod store;
mod unions;
mod variable;

pub use naming::{Names, check_names};
