// Which instance each step executes.
ghost use Rattle.std.specs.Prelude.{◌≡◌, ◌%◌, ◌<◌};

use core_terms::from_case_tables::Code;
use std::alloc::AllocError;
use thiserror::Error;

/// Why a document has no schedule to replay.
#[derive(Clone, Copy, Debug, PartialEq, Eq, Error)]
pub enum ScheduleError {
    /// There is no schedule section: refusal 60.
    #[error("there is no schedule")]
    NoSchedule,
    /// A choice names no instance of its program: refusal 41, at the first byte of the choice.
    #[error("no such statement, at byte {at}")]
    Fault { code: Code, at: u64 },
    /// Memory was refused.
    #[error("memory was refused")]
    Memory,
}

impl From<AllocError> for ScheduleError {
    ghost use Rattle.schedule_replay.specs.declared.schedule.ScheduleError.TheVariants.{Memory};

    ghost from_gives = { λ _ error. error ≡ Memory };

    fn from(_: AllocError) -> Self {
        ScheduleError::Memory
    }
}

/// The choice of step i of a run, from 0, among k instances: each in turn, in the order of the text.
pub fn round_robin(k: u32, i: u64) -> u32
    requires { 0 < k }
    ensures { result ≡ i % k }
{
    (i % u64::from(k)) as u32
}
