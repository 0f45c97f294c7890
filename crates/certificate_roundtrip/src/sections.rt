// The laws of the written section. The function does nothing: it states them.
ghost use Rattle.certificate_roundtrip.specs.SectionLaws.{FrontIsRead, RefutingIsSmall, SectionIsRead};
ghost use Rattle.certificate_roundtrip.specs.SectionLaws.{SmallAreReadable, WholeIsRead};

/// The numbers of a whole and plain certificate that refutes are at most 2^62, and such numbers can be read. The text
/// of certificates whose numbers can be read is read into the tokens of their section: alone, in place of a text from
/// its word `certificates` on, and after a whole text.
pub fn section_laws()
    ensures refuting { RefutingIsSmall }
    ensures numbers { SmallAreReadable }
    ensures section { SectionIsRead }
    ensures front { FrontIsRead }
    ensures whole { WholeIsRead }
{}
