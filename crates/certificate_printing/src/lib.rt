//! The texts of a search for certificates: the certificates themselves, and why one is missing.
#![tactic(auto)]

mod certificates;
mod findings;

pub use certificates::push_certificates;
pub use findings::{budget_text, names_of, refuted_text};
