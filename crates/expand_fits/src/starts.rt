//! The laws. The functions do nothing: they state them.

ghost use Rattle.expand_fits.specs.StartConditions.{StartsOnce, StartsFit, StartsShown};

/// A program of a well-named document, also a union, gives a slot one start value at most. It lies in the range of
/// the slot, where each enumeration stands at a byte of its own, and the program shows the slot, where the name of each
/// program does: as in each document that was read from a text.
pub fn start_laws()
    ensures once { StartsOnce }
    ensures fit { StartsFit }
    ensures shown { StartsShown }
{}
