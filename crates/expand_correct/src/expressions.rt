//! The laws of core forms. The functions do nothing: they state them.

ghost use Rattle.expand_correct.specs.Values.ValueLaws.{CoreHasValue};
ghost use Rattle.expand_correct.specs.Values.StepLaws.{CoreHasStep};
ghost use Rattle.expand_correct.specs.Values.ExactLaws.{ExpressionsExact, ExpressionsConstant, AssignmentsExact};
ghost use Rattle.expand_correct.specs.Values.DocumentExact.{DocumentAgrees};
ghost use Rattle.expand_correct.specs.Values.WeightLaws.{ExpressionsWithin, AssignmentsWithin};
ghost use Rattle.expand_correct.specs.Values.SightLaws.{FormedBySight, AssignedBySight};
ghost use Rattle.expand_correct.specs.Values.ProgramLaws.{PlainMatches, UnionMatches, MatchesAlike};

/// The core of an expression is worth what the expression is, at each state of the document and for all
/// numbers of bound names and parameters.
pub fn value_laws()
    ensures { CoreHasValue }
{}

/// The core of a statement's instance has the instance's step, at each state of the document.
pub fn step_laws()
    ensures { CoreHasStep }
{}

/// What expressions and assignments become depends on what words stand for alone.
pub fn lookup_laws()
    ensures formed { FormedBySight }
    ensures assigned { AssignedBySight }
{}

/// The core of a program starts and steps as the program does, and so does a union of such cores: the two
/// have the same executions.
pub fn core_program_laws()
    ensures plain { PlainMatches }
    ensures union { UnionMatches }
    ensures alike { MatchesAlike }
{}

/// What is exact by its names, as it is where they have no fault, becomes exact, where the place at which
/// names are looked up agrees with the one at which expressions are expanded.
pub fn exact_expression_laws()
    ensures expressions { ExpressionsExact }
    ensures constants { ExpressionsConstant }
    ensures assignments { AssignmentsExact }
{}

/// The places of a well-named document at which names are looked up and expressions are expanded agree, and
/// so each of its expressions becomes exact.
pub fn scope_laws()
    ensures { DocumentAgrees }
{}

/// Cores weigh no more than is counted of them before folding.
pub fn weight_laws()
    ensures expressions { ExpressionsWithin }
    ensures assignments { AssignmentsWithin }
{}
