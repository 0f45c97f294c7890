//! What the nodes of a certificate make of an obligation's negation, one after the other.
#![tactic(auto)]

mod errors;
mod facts;
mod few;
mod frames;
mod nodes;
mod running;
mod wide;

pub use errors::Stop;
pub use frames::{Frame, Machine, Todo};
pub use nodes::{close, open_case, open_quot, open_share, open_split, round};
pub use running::Running;
