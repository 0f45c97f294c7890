// The laws of plans.
ghost use Rattle.soundness.specs.PlanSteps.{PlanIsSteps, PlanIsStarted};

/// Where the steps of a document in core form give a plan, the plan has the record of each, in order: with its
/// names, its claim and its parameters. The program of each proof has the record of a `defined` step, and
/// passes the test of start states.
pub fn plan_laws()
    ensures steps { PlanIsSteps }
    ensures started { PlanIsStarted }
{}
