//! The laws. The functions do nothing: they state them.

ghost use Rattle.expand_fits.specs.ReadingLaws.{ReadSound, ReadCores};

/// A document that at most 2^29 bytes are, and that is well named and has no fault of expansion, is sound: so its core
/// form is a document as calls on core documents take it.
pub fn reading_laws()
    ensures sound { ReadSound }
    ensures core { ReadCores }
{}
