// The laws of steps. The function does nothing: it states them.
ghost use Rattle.step_plans.specs.Laws.{NextIsFewer, ReachGoesOn, VerdictGoesOn};

/// How far the steps go that are left, and the verdict on them, follow from the step that comes next and from those
/// behind it. Each step is taken once.
pub fn step_laws()
    ensures reach { ReachGoesOn }
    ensures verdict { VerdictGoesOn }
    ensures fewer { NextIsFewer }
{}
