// Why a call has no answer.
ghost use Rattle.std.specs.Prelude.{◌≡◌};
ghost use Rattle.unity_cli.specs.Stop.{source_stop, stop_status};

use crate::status::Status;
use std::alloc::AllocError;
use streamed_documents::SourceStop;
use unity_base::Failed;

/// Why there is no answer.
#[derive(Clone, Copy, Debug, PartialEq, Eq)]
pub enum Stop {
    ReadFault,
    WriteFault,
    Memory,
}

impl Stop {
    pub fn status(self) -> Status
        ensures { result ≡ stop_status self }
    {
        match self {
            Stop::ReadFault => Status::ReadFault,
            Stop::WriteFault => Status::WriteFault,
            Stop::Memory => Status::WantOfMemory,
        }
    }
}

impl From<AllocError> for Stop {
    ghost use Rattle.unity_cli.specs.declared.stop.Stop.TheVariants.{Memory};

    ghost from_gives = { λ _ stop. stop ≡ Memory };

    fn from(_: AllocError) -> Self {
        Stop::Memory
    }
}

impl From<Failed> for Stop {
    ghost use Rattle.unity_cli.specs.declared.stop.Stop.TheVariants.{WriteFault};

    ghost from_gives = { λ _ stop. stop ≡ WriteFault };

    fn from(_: Failed) -> Self {
        Stop::WriteFault
    }
}

/// Why nothing was found of a source.
pub fn source_stop(stop: SourceStop) -> Stop
    ensures { result ≡ source_stop stop }
{
    match stop {
        SourceStop::Failed => Stop::ReadFault,
        SourceStop::Memory => Stop::Memory,
    }
}
