//! The reading of proofs: their terms, their steps, and proofs whole.
#![tactic(auto)]

mod claims;
mod forms;
mod params;
mod rules;
mod steps;
mod term_parts;
mod terms;

pub use steps::proof;
