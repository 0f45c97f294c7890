//! What is left to be shown for the steps of a document, told step by step: which part of its rule each obligation is,
//! where its step stands, and the script that a solver reads.
#![tactic(auto)]

mod adding;
mod laws;
mod listing;
mod origins;
mod places;

pub use adding::origins_of;
pub use laws::listing_laws;
pub use listing::{Listing, write_obligations};
pub use origins::{Asked, Origin};
pub use places::lines_of;
