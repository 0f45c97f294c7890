//! Reads a text into its tokens.
#![tactic(auto)]

mod ahead;
mod front;
mod laws;
mod pairs;
mod piece;
mod ready;
mod reserved;
mod runs;
mod scan;
mod stretches;
mod symbols;
mod tokens;

pub use front::{Front, FrontError, read_front};
pub use laws::{decided_pieces, one_reading, places_in_text, some_reading};
pub use pairs::{PairTokens, next_pair};
pub use ready::{ready_number, ready_word};
pub use scan::{Scan, next_token};
pub use tokens::lex;
