// The laws of found documents. The function does nothing: it states them.
ghost use Rattle.certificate_roundtrip.specs.DocumentLaws.{SectionIsDerived, FoundByTokens, FoundIsRead};

/// The section that is written for certificates that are whole trees of nodes that the text's version has, and whose
/// numbers can be read, is a section that says them. The text of a document with this section is the document with
/// these certificates: where tokens are read as they are for such a text, and so for each document whose certificates
/// have no number past 2^62.
pub fn found_laws()
    ensures section { SectionIsDerived }
    ensures tokens { FoundByTokens }
    ensures found { FoundIsRead }
{}
