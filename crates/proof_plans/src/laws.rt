// The laws of verdicts. The function does nothing: it states them.
ghost use Rattle.proof_plans.specs.Following.{AcceptedFollows};
ghost use Rattle.proof_plans.specs.Laws.{AcceptedHolds, AcceptedIsValid};

/// The verdict is a plan exactly where each step gets its record by the rules, each proof has its `defined` step, and
/// there is one certificate for each obligation, in order, which refutes it. Then the walk along the steps gives the
/// plan, each obligation is valid, and the property of each step holds in all executions of its program.
pub fn verdict_laws()
    ensures follows { AcceptedFollows }
    ensures valid { AcceptedIsValid }
    ensures holds { AcceptedHolds }
{}
