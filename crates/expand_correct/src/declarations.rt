//! Laws of the core form of declarations: it is what the document means, and of a well-named document it
//! meets the conditions of the calls above.
//!
//! These functions do nothing: each states laws.
ghost use Rattle.expand_correct.specs.Declared.Agreement.{VariablesAgree, WordsAgree, RangesAgree, CountsAgree};
ghost use Rattle.expand_correct.specs.Declared.WordLaws.{WordsFound, NumbersTell};
ghost use Rattle.expand_correct.specs.Declared.SlotLaws.{SlotsAreSound, IndicesAreNear, SlotsHaveWords, ShownExist};
ghost use Rattle.expand_correct.specs.Declared.SlotLaws.{ShownRise};
ghost use Rattle.expand_correct.specs.Declared.NameLaws.{ProgramsDiffer, ProofsDiffer, StepsDiffer, ParamsHaveRanges};

/// The variables, the words of enumerations and the slots, with their ranges, are those of what the
/// document means.
pub fn agreement_laws()
    ensures variables { VariablesAgree }
    ensures words { WordsAgree }
    ensures ranges { RangesAgree }
    ensures counts { CountsAgree }
{}

/// A word stands at its number, which no other word has.
pub fn word_laws()
    ensures found { WordsFound }
    ensures tell { NumbersTell }
{}

/// The slots of a well-named document have ranges that are not empty and not too large, and their names
/// are words. Where they print words, there is one for each number. The ends of indices are not too large. The
/// slots that a program shows exist, each once, in order.
pub fn slot_laws()
    ensures sound { SlotsAreSound }
    ensures near { IndicesAreNear }
    ensures words { SlotsHaveWords }
    ensures shown { ShownExist }
    ensures rising { ShownRise }
{}

/// In a well-named document programs have different names, proofs different programs, and the steps of a
/// proof different names; and each parameter has a range that is not empty and not too large.
pub fn name_laws()
    ensures programs { ProgramsDiffer }
    ensures proofs { ProofsDiffer }
    ensures steps { StepsDiffer }
    ensures params { ParamsHaveRanges }
{}
