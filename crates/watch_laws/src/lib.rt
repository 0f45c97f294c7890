//! What a watch tells is told of the document's own claims, and there is nothing to tell of an accepted document.
//!
//! The function does nothing: it states laws.
#![tactic(auto)]

mod laws;

pub use laws::watch_laws;
