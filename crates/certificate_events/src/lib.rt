//! The section of certificates of a text, read token by token: what each token tells, without a stack and without
//! memory.
#![tactic(auto)]

mod laws;
mod places;
mod reader;
mod signs;

pub use laws::section_laws;
pub use places::{Plain, Signed, Stage};
pub use reader::{CertReader, Taken};
