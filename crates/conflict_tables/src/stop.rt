//! Why a search gave up.
use std::alloc::AllocError;

/// Why a search gave up.
#[derive(Clone, Copy, Debug, PartialEq, Eq)]
pub enum Stop {
    /// Memory was refused.
    Memory,
    /// A number was too great, too much was looked at, or the obligation is not one that is meant.
    Odd,
}

impl From<AllocError> for Stop {
    fn from(value: AllocError) -> Stop {
        Stop::Memory
    }
}
