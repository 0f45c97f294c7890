//! Documents that are read in two parts: what stands before their certificates, and the certificates token by token.
#![tactic(auto)]

mod laws;

pub use laws::two_part_laws;
