//! Whole traces, and the commands `run` and `replay` over a document in core form.
#![tactic(auto)]

mod choices;
mod commands;
mod error;
mod finding;
mod laws;
mod programs;
mod trace_error;
mod traces;

pub use choices::Choices;
pub use commands::{replay_schedule, run_program};
pub use error::RunError;
pub use finding::{program_called, scheduled_program};
pub use laws::trace_laws;
pub use trace_error::TraceError;
pub use traces::{instances, write_step, write_trace};
