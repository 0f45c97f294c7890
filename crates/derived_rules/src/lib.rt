//! The further rules: what follows from a leads-to and an unless, or from two of one kind.
#![tactic(auto)]

mod completing;
mod kinds;
mod pairs;
mod shapes;
mod within;

pub use completing::complete_rule;
pub use pairs::{constant_rule, detects_rule, lead_cancel_rule, until_rule};
