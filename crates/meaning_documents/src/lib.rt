//! What documents mean. The definitions stand in `specs/`.
#![tactic(auto)]

mod laws;

pub use laws::{stable_is_unless_false, system_laws, union_laws};
