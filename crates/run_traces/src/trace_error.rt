// Why a program has no trace.
ghost use Rattle.std.specs.Prelude.{◌≡◌};

use executor::StartError;
use std::alloc::AllocError;
use thiserror::Error;
use unity_base::Failed;

/// Why a program has no trace, or no whole one.
#[derive(Clone, Copy, Debug, PartialEq, Eq, Error)]
pub enum TraceError {
    /// The start state does not meet the initially section: refusal 37. Nothing was written.
    #[error("the start state does not meet the initially section")]
    NotInitial,
    /// A write failed. A proper prefix of the trace was appended.
    #[error("a write failed")]
    Failed,
    /// Memory was refused. Nothing was written.
    #[error("memory was refused")]
    Memory,
}

impl From<AllocError> for TraceError {
    ghost use Rattle.run_traces.specs.declared.trace_error.TraceError.TheVariants.{Memory};

    ghost from_gives = { λ _ error. error ≡ Memory };

    fn from(_: AllocError) -> Self {
        TraceError::Memory
    }
}

impl From<Failed> for TraceError {
    ghost use Rattle.run_traces.specs.declared.trace_error.TraceError.TheVariants.{Failed as WriteFailed};

    ghost from_gives = { λ _ error. error ≡ WriteFailed };

    fn from(_: Failed) -> Self {
        TraceError::Failed
    }
}

impl From<StartError> for TraceError {
    ghost use Rattle.run_traces.specs.TraceErrors.{trace_error};

    ghost from_gives = { λ start error. error ≡ trace_error start };

    fn from(error: StartError) -> Self {
        match error {
            StartError::NotInitial => TraceError::NotInitial,
            StartError::Memory => TraceError::Memory,
        }
    }
}
