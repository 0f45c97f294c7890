// The laws of certificates. The function does nothing: it states them.
ghost use Rattle.certificate_rules.specs.Refutation.{WalkAppends, WalkKeeps, Sound, MoreLevels};
ghost use Rattle.certificate_rules.specs.Trees.{WalkIsTree};

/// A walk along nodes can be made in parts. Where no branch holds that it leaves, none held before; so an
/// obligation of which it leaves none is valid. Along the nodes of a tree it leaves none exactly where the
/// tree refutes. What refutes within some levels does so within more.
pub fn certificate_laws()
    ensures appends { WalkAppends }
    ensures keeps { WalkKeeps }
    ensures sound { Sound }
    ensures tree { WalkIsTree }
    ensures more { MoreLevels }
{}
