//! Why no tree is read.

use crate::cursor::Cursor;
use std::alloc::AllocError;

/// Why no tree is read. Of a fault it has the tokens from the one on at which it was met.
#[derive(Clone, Copy)]
pub enum Stop<'a> {
    /// Memory was refused.
    Memory,
    /// No token that may stand here, or the end.
    Unexpected(Cursor<'a>),
    /// A number that is no version.
    OtherVersion(Cursor<'a>),
    /// An opening bracket for which no level is left.
    TooDeep(Cursor<'a>),
}

/// What is read and the tokens that are still to be read, or why nothing is.
pub type Parsed<'a, T> = Result<(T, Cursor<'a>), Stop<'a>>;

impl<'a> From<AllocError> for Stop<'a> {
    ghost use Rattle.std.specs.Prelude.{◌≡◌};
    ghost use Rattle.parser_expressions.specs.declared.stop.Stop.TheVariants.{Memory};

    ghost from_gives = { λ _ stop. stop ≡ Memory };

    fn from(_: AllocError) -> Self {
        Stop::Memory
    }
}
