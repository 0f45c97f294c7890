// Why a document's schedule is not watched.
ghost use Rattle.std.specs.Prelude.{◌≡◌};

use executor::StartError;
use proof_plans::{ScriptError, StepFault};
use schedule_replay::ScheduleError;
use std::alloc::AllocError;
use trace_watch::WatchError;

/// Why a document's schedule is not watched: the first cause in this order, but for want of memory.
#[derive(Clone, Copy, Debug, PartialEq, Eq)]
pub enum WatchStop {
    /// The document has no schedule: refusal 60.
    NoSchedule,
    /// A choice names no instance, at this byte: refusal 41.
    NoSuchStatement { at: u64 },
    /// The start state of the schedule's program does not meet its initially section: refusal 37.
    NotInitial,
    /// The schedule's program has no proof: refusal 63.
    NoProof,
    /// A step of the document's proofs fails, or a proof has no `defined` step.
    Step(StepFault),
    /// The steps of the proof have more than 4,096 cases in all: refusal 62.
    TooManyCases,
    /// Memory was refused.
    Memory,
}

impl From<AllocError> for WatchStop {
    ghost use Rattle.watch_schedules.specs.declared.error.WatchStop.TheVariants.{Memory};

    ghost from_gives = { λ _ stop. stop ≡ Memory };

    fn from(_: AllocError) -> Self {
        WatchStop::Memory
    }
}

impl From<ScheduleError> for WatchStop {
    ghost use Rattle.watch_schedules.specs.Stops.{schedule_stop};

    ghost from_gives = { λ error stop. stop ≡ schedule_stop error };

    fn from(error: ScheduleError) -> Self {
        match error {
            ScheduleError::NoSchedule => WatchStop::NoSchedule,
            ScheduleError::Fault { at, .. } => WatchStop::NoSuchStatement { at },
            ScheduleError::Memory => WatchStop::Memory,
        }
    }
}

impl From<StartError> for WatchStop {
    ghost use Rattle.watch_schedules.specs.Stops.{start_stop};

    ghost from_gives = { λ error stop. stop ≡ start_stop error };

    fn from(error: StartError) -> Self {
        match error {
            StartError::NotInitial => WatchStop::NotInitial,
            StartError::Memory => WatchStop::Memory,
        }
    }
}

impl From<ScriptError> for WatchStop {
    ghost use Rattle.watch_schedules.specs.Stops.{script_stop};

    ghost from_gives = { λ error stop. stop ≡ script_stop error };

    fn from(error: ScriptError) -> Self {
        match error {
            ScriptError::Step(fault) => WatchStop::Step(fault),
            ScriptError::Memory => WatchStop::Memory,
        }
    }
}

impl From<WatchError> for WatchStop {
    ghost use Rattle.watch_schedules.specs.Stops.{watch_stop};

    ghost from_gives = { λ error stop. stop ≡ watch_stop error };

    fn from(error: WatchError) -> Self {
        match error {
            WatchError::TooManyCases => WatchStop::TooManyCases,
            WatchError::Memory => WatchStop::Memory,
        }
    }
}
