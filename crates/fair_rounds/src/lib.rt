//! Rounds of choices, and the records of proved properties.
#![tactic(auto)]

mod counts;
mod laws;
mod marks;
mod records;

pub use counts::{RoundCount, rounds};
pub use executor as from_executor;
pub use laws::record_laws;
pub use records::Record;
