// Why a node was not taken.
ghost use Rattle.std.specs.Prelude.{◌≡◌};

use case_tables::Code;
use std::alloc::AllocError;

/// Why a node was not taken: it fails so, or memory was refused.
#[derive(Clone, Copy)]
pub enum Stop {
    Fault(Code),
    Memory,
}

impl From<AllocError> for Stop {
    ghost use Rattle.certificate_machine.specs.declared.errors.Stop.{Stop};
    ghost use Rattle.std.specs.declared.alloc.AllocError.{AllocError};

    ghost from_gives = { λ (e : AllocError) (s : Stop). s ≡ Stop.Memory };

    fn from(value: AllocError) -> Stop {
        Stop::Memory
    }
}
