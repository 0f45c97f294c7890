//! The laws of exact documents. The functions do nothing: they state them.

ghost use Rattle.expand_correct.specs.Exact.Parts.{ProgramsStand, ProofsStand, StepsFaultless};
ghost use Rattle.expand_correct.specs.Exact.ByNames.{StatementsByNames, InitiallyByNames, AlwaysByNames};
ghost use Rattle.expand_correct.specs.Exact.Formulas.{FormulasByNames};
ghost use Rattle.expand_correct.specs.Exact.Seen.{StatementsSeen, InitiallySeen, FormulasSeen};

/// Before each part of a well-named document something is declared, after which the part has no fault, and
/// what it declares stays to the end; and each step of a proof without a fault has none after the steps
/// before it.
pub fn part_laws()
    ensures programs { ProgramsStand }
    ensures proofs { ProofsStand }
    ensures steps { StepsFaultless }
{}

/// In a well-named document each statement of each program becomes exact, and so do each initially section
/// and each always name.
pub fn exact_program_laws()
    ensures statements { StatementsByNames }
    ensures initially { InitiallyByNames }
    ensures always { AlwaysByNames }
{}

/// In a well-named document each formula of each step of each proof becomes exact.
pub fn exact_proof_laws()
    ensures { FormulasByNames }
{}

/// So it does wherever words stand for what they stand for in the document.
pub fn seen_laws()
    ensures statements { StatementsSeen }
    ensures initially { InitiallySeen }
    ensures formulas { FormulasSeen }
{}
