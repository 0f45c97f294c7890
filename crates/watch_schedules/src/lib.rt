//! The schedule of a document, watched for the steps of its program's proof, and the text that tells what was found.
#![tactic(auto)]

mod error;
mod telling;
mod text_sink;
mod watching;

pub use error::WatchStop;
pub use telling::ending_text;
pub use watching::{WatchedSchedule, watch_schedule};
