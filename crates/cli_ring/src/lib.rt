//! The document of a token that goes round a ring.
#![tactic(auto)]

mod laws;
mod ring;

pub use laws::ring_laws;
pub use ring::make_demo;
