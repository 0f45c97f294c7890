//! Laws of documents that are read in two parts. The function does nothing: it states them.
ghost use Rattle.front_documents.specs.Laws.{FrontFaultsStay, TokenFaultsStay, SectionsComplete, SectionFaults};
ghost use Rattle.front_documents.specs.Laws.{SectionsEndEarly, WordsInFront};

/// The fault of a front is that of the whole text, whatever follows the word `certificates`. Where a front has none,
/// the first fault of the text is the first place behind the word where no token can be read, or else the first token
/// with which no section of certificates goes on, or the text's end, where the section does not end there. Where it
/// has none, the text is the document of the front with the section in the place of an empty one. The words of the
/// document stand in the front.
pub fn two_part_laws()
    ensures front { FrontFaultsStay }
    ensures tokens { TokenFaultsStay }
    ensures sections { SectionsComplete }
    ensures faults { SectionFaults }
    ensures ends { SectionsEndEarly }
    ensures words { WordsInFront }
{}
