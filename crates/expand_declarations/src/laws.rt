//! Laws of layouts.
//!
//! The function does nothing: it states laws.

ghost use Rattle.expand_declarations.specs.Slots.{PartsBeforeAreFew, PartsBeforeAreNear};

/// The part by which there are more than 4,096 slots is one of the parts, and those before it need no more.
/// Where the ends of all indices are not too large, those of the first parts are not.
pub fn parts_before()
    ensures few { PartsBeforeAreFew }
    ensures near { PartsBeforeAreNear }
{}
