// The laws of obligations and of settling. The functions do nothing: they state them.
ghost use Rattle.obligations.specs.Settling.{SettledHolds, RefusedHolds};
ghost use Rattle.obligations.specs.Opening.{FirstHolds};
ghost use Rattle.obligations.specs.Variables.{ObligationMeans};
ghost use Rattle.obligations.specs.Obligations.{HasVariables, HasSmallLoad, HasSmallWidth, HasSoundRanges};
ghost use Rattle.obligations.specs.Obligations.{WeightSettles, HasOwn, ScopeVariables, ScopeRoom};

/// A branch with a formula settled holds exactly where the branch and the formula do; with its negation
/// settled, where the branch does and the formula does not. An obligation's first branch holds exactly
/// where its form is false and the values lie in their ranges.
pub fn settling_laws()
    ensures settled { SettledHolds }
    ensures refused { RefusedHolds }
    ensures first { FirstHolds }
{}

/// What an obligation's limits say of its variables and numbers, which weights suffice for settling, and
/// what its validity says of states.
pub fn obligation_laws()
    ensures variables { HasVariables }
    ensures own { HasOwn }
    ensures scope { ScopeVariables }
    ensures room { ScopeRoom }
    ensures load { HasSmallLoad }
    ensures width { HasSmallWidth }
    ensures ranges { HasSoundRanges }
    ensures settling { WeightSettles }
    ensures meaning { ObligationMeans }
{}
