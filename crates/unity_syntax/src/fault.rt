//! Why a text is refused.

use case_tables::Code;
use std::alloc::AllocError;

/// Why there is no answer for a text.
#[derive(Clone, Copy, Debug, PartialEq, Eq)]
pub enum SyntaxFault {
    /// The text is refused. The code says why, and `at` is the place of the first byte of what is
    /// wrong, counted in bytes from 0: the text's length where the text ends too early.
    Fault { code: Code, at: u64 },
    /// Memory was refused.
    Memory,
}

impl From<AllocError> for SyntaxFault {
    ghost use Rattle.std.specs.Prelude.{◌≡◌};
    ghost use Rattle.unity_syntax.specs.declared.fault.SyntaxFault.TheVariants.{Memory};

    ghost from_gives = { λ _ fault. fault ≡ Memory };

    fn from(_: AllocError) -> Self {
        SyntaxFault::Memory
    }
}
