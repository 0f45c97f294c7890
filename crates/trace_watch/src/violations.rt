// What a watch answers.
ghost use Rattle.std.specs.Prelude.{◌≡◌};

use std::alloc::AllocError;
use thiserror::Error;

/// A step that is violated.
#[derive(Clone, Copy, Debug, PartialEq, Eq)]
pub struct Violation {
    /// The place of the step's record, from 0.
    pub step: u32,
    /// The number of the case, from 0: of the choice of numbers for the step's parameters.
    pub case: u64,
}

/// Why there is no watch.
#[derive(Clone, Copy, Debug, PartialEq, Eq, Error)]
pub enum WatchError {
    /// The steps have more than 4,096 cases in all: refusal 62.
    #[error("the steps have too many cases")]
    TooManyCases,
    /// Memory was refused, or there are 2^31 records or more.
    #[error("memory was refused")]
    Memory,
}

impl From<AllocError> for WatchError {
    ghost use Rattle.trace_watch.specs.declared.violations.WatchError.TheVariants.{Memory};

    ghost from_gives = { λ _ error. error ≡ Memory };

    fn from(_: AllocError) -> Self {
        WatchError::Memory
    }
}
