// Why a command writes no trace.
ghost use Rattle.std.specs.Prelude.{◌≡◌};

use crate::trace_error::TraceError;
use schedule_replay::ScheduleError;
use thiserror::Error;

/// Why a command writes no trace, or no whole one.
#[derive(Clone, Copy, Debug, PartialEq, Eq, Error)]
pub enum RunError {
    /// The name is that of no program: refusal 61. Nothing was written.
    #[error("no program has the name")]
    NoProgram,
    /// There is no schedule section: refusal 60. Nothing was written.
    #[error("there is no schedule")]
    NoSchedule,
    /// A choice names no instance of its program: refusal 41, at the first byte of the first such choice. Nothing
    /// was written.
    #[error("no such statement, at byte {at}")]
    NoSuchStatement { at: u64 },
    /// The start state does not meet the initially section: refusal 37. Nothing was written.
    #[error("the start state does not meet the initially section")]
    NotInitial,
    /// A write failed. A proper prefix of the trace was appended.
    #[error("a write failed")]
    Failed,
    /// Memory was refused. Nothing was written.
    #[error("memory was refused")]
    Memory,
}

impl From<TraceError> for RunError {
    ghost use Rattle.run_traces.specs.Errors.{trace_refusal};

    ghost from_gives = { λ trace error. error ≡ trace_refusal trace };

    fn from(error: TraceError) -> Self {
        match error {
            TraceError::NotInitial => RunError::NotInitial,
            TraceError::Failed => RunError::Failed,
            TraceError::Memory => RunError::Memory,
        }
    }
}

impl From<ScheduleError> for RunError {
    ghost use Rattle.run_traces.specs.Errors.{schedule_refusal};

    ghost from_gives = { λ schedule error. error ≡ schedule_refusal schedule };

    fn from(error: ScheduleError) -> Self {
        match error {
            ScheduleError::NoSchedule => RunError::NoSchedule,
            ScheduleError::Fault { at, .. } => RunError::NoSuchStatement { at },
            ScheduleError::Memory => RunError::Memory,
        }
    }
}
