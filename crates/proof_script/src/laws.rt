// The laws of searches. The function does nothing: it states them.
ghost use Rattle.proof_plans.specs.Laws.{ReachIsWalk};
ghost use Rattle.proof_script.specs.Laws.{EnoughSuffices, SomeFinding};

/// How far steps go by their rules is what the walk along them says; no search ends for want of units where
/// the budget is at least what always suffices for all obligations; and whatever the budget, there is
/// something for a search to find of each document.
pub fn search_laws()
    ensures walk { ReachIsWalk }
    ensures enough { EnoughSuffices }
    ensures some { SomeFinding }
{}
