//! The law. The function does nothing: it states it.

ghost use Rattle.expand_fits.specs.DocumentLaws.{DocumentsSound};

/// The core form of a sound document is a document as calls on core documents take it.
pub fn document_laws()
    ensures { DocumentsSound }
{}
