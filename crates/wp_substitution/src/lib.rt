//! Where a statement is defined, and its weakest preconditions.
#![tactic(auto)]

mod agreeing;
mod chains;
mod conjunction;
mod counting;
mod definedness;
mod known;
mod laws;
mod memos;
mod nodes;
mod numbers;
mod pooled;
mod preconditions;
mod settling;
mod substitution;
mod turning;

pub use conjunction::Conjunction;
pub use counting::is_oversized;
pub use definedness::defined;
pub use laws::precondition_laws;
pub use pooled::{WpError, wp_in};
pub use preconditions::wp;
