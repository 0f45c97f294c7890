// The laws of accepted documents.
ghost use Rattle.soundness.specs.Properties.{PlannedStepsAreTrue, EachClaimIsTrue};
ghost use Rattle.soundness.specs.Executions.{ExecutionsExist};

/// Where a well-named document has its core form, the steps of this give a plan, and all that is left to be
/// shown is valid, each step of the document claims what is true of its program, in all executions: by the
/// record at its place in the plan, a leads-to within that record's bound. (The properties are those of chapter
/// 3 of the book, read on finite executions; the bound in rounds is this profile's.)
pub fn claim_laws()
    ensures plan { PlannedStepsAreTrue }
    ensures each { EachClaimIsTrue }
{}

/// The start state of the program of each proof is then one of its initial states, and every list of choices
/// of its instances is that of an execution.
pub fn execution_laws()
    ensures { ExecutionsExist }
{}
