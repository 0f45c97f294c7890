//! The core form of a document means what the document means: its programs have the same first states and the
//! same steps.
//!
//! These functions do nothing: each states laws.
ghost use Rattle.expand_correct.specs.Preserved.Sight.{SeesAlike, SeesAlikeAmong};
ghost use Rattle.expand_correct.specs.Preserved.Faultless.{SlotsAreFew, HeadingsFaultless, BodiesFaultless};
ghost use Rattle.expand_correct.specs.Preserved.Exact.{ProgramsExact};
ghost use Rattle.expand_correct.specs.Preserved.Meaning.{ProgramsMatch, CoresMatch, SlotsMatch, ProgramsAlike};
ghost use Rattle.expand_correct.specs.Preserved.Claims.{ClaimsByBounds, ArgumentsBound, ClaimsSay};
ghost use Rattle.expand_correct.specs.Preserved.Terms.{TermsSay};
ghost use Rattle.expand_correct.specs.Preserved.References.{UsingRefers, RulesRefer, HelpersRefer};
ghost use Rattle.expand_correct.specs.Preserved.Proofs.{ProofsMatch, ProofsFound};

/// Where a document's expressions become core form, each word stands for what it stands for where they have
/// their meaning, outside all bound names and among them.
pub fn sight_laws()
    ensures outside { SeesAlike }
    ensures among { SeesAlikeAmong }
{}

/// A document without a fault has few enough slots, and neither the heading nor the body of a part of it has
/// a fault.
pub fn fault_laws()
    ensures slots { SlotsAreFew }
    ensures headings { HeadingsFaultless }
    ensures bodies { BodiesFaultless }
{}

/// The statements and the initially sections of a well-named document without a fault become exact, and no end of a
/// range and no divisor in them is bad.
pub fn exact_laws()
    ensures { ProgramsExact }
{}

/// Each program of such a document has one core program, and each core program is that of a program. It starts
/// and steps as the program does, at the same states: the two have the same executions.
pub fn program_laws()
    ensures programs { ProgramsMatch }
    ensures cores { CoresMatch }
    ensures slots { SlotsMatch }
    ensures alike { ProgramsAlike }
{}

/// Each proof has its core form, in the order of the document, and the program that it is about has its core
/// program.
pub fn proof_laws()
    ensures proofs { ProofsMatch }
    ensures found { ProofsFound }
{}

/// The two formulas of a step in core form are true, for all arguments of its claim, at the states at which those
/// of the claim are.
pub fn claim_laws()
    ensures bounds { ClaimsByBounds }
    ensures arguments { ArgumentsBound }
    ensures claims { ClaimsSay }
{}

/// The formulas and the measures of a proof term in core form are worth, at each state and for all numbers of the
/// parameters and of the names that the term binds, what those of the term are.
pub fn term_laws()
    ensures { TermsSay }
{}

/// A step in core form uses, and its rule refers to, the steps that it refers to in the document, with the same
/// numbers for their parameters. The instance that helps it is the one that the document names.
pub fn reference_laws()
    ensures using { UsingRefers }
    ensures rules { RulesRefer }
    ensures helpers { HelpersRefer }
{}
