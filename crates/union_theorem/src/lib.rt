//! The union theorem: what holds of the parts of a union gives what holds of the union.
#![tactic(auto)]

mod definedness;
mod kinds;
mod shown;
mod unions;

pub use definedness::union_defined;
pub use unions::{union_ensures, union_invariant, union_unless};
