//! Chains that close a branch by its facts alone: rounds, and then a sum that no values make at
//! least 0.
#![tactic(auto)]

mod bounds;
mod clash;
mod closing;
mod columns;
mod elimination;
mod judging;
mod keys;
mod reach;

pub use closing::close;
pub use elimination::eliminate;
pub use judging::{are_plain_pairs, is_closing, is_closing_sum, is_plain_chain, is_plain_number};
pub use reach::reach_chain;
