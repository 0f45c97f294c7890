//! A document that was read from a text, is well named and has no fault of expansion has a core form that meets all
//! conditions that calls on core documents ask: a program gives a slot one start value at most, which lies in its
//! range (`starts`); a sound document meets the conditions (`documents`); one that was read is sound (`readings`).
//!
//! These functions do nothing: each states laws.
#![tactic(auto)]

mod documents;
mod readings;
mod starts;

pub use documents::document_laws;
pub use readings::reading_laws;
pub use starts::start_laws;
