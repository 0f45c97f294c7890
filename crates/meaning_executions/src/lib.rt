//! Systems, their executions and rounds, and the properties that are read on executions. The definitions stand in
//! `specs/`.
#![tactic(auto)]

mod laws;

pub use laws::{execution_laws, leads_to_laws, round_laws};
