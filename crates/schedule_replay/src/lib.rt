//! Traces: their lines, and the schedules that choose their steps.
#![tactic(auto)]

mod buffer;
mod heading;
mod lines;
mod pieces;
mod replay;
mod schedule;

pub use buffer::Buffer;
pub use heading::Heading;
pub use lines::{write_fixed, write_heading, write_line, write_rounds, write_undefined};
pub use pieces::{put_index, put_instance, put_number, put_signed, put_word};
pub use replay::read_schedule;
pub use schedule::{ScheduleError, round_robin};
