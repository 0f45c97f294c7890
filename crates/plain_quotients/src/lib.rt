//! A document of version 1 has neither `div` nor `mod`; without them a document has a core form without quotients, and
//! its steps leave no obligation in which a quotient can be taken, since no rule makes one.
//!
//! The functions do nothing: they state the laws.
#![tactic(auto)]

mod laws;

pub use laws::{plain_laws, source_laws};
