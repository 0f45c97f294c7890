// The laws of rules. The functions do nothing: they state them.
ghost use Rattle.rules_table.specs.Validity.{GoalShown};
ghost use Rattle.rules_table.specs.WalkLaws.{WalkSound, LayersStand};
ghost use Rattle.rules_table.specs.Sound.{DefinedSound, InvariantSound, UnlessSound, FixedSound, EnsuresSound};
ghost use Rattle.rules_table.specs.Sound.{WeakenSound, PairSound, InstanceSound, TermSound, DeriveSound};
ghost use Rattle.rules_table.specs.Sound.{CompleteSound, LeadCancelSound, UntilSound, DetectsSound, ConstantSound};
ghost use Rattle.rules_table.specs.Sound.{UnionDefinedSound, UnionInvariantSound, UnionUnlessSound, UnionEnsuresSound};
ghost use Rattle.rules_table.specs.Sound.{UnderHolds, UnionShows};
ghost use Rattle.rules_table.specs.LayerLaws.{LayerIsOver, SuperposeSound, SuperposeBegins, SuperposeShows};

/// A formula whose obligation is valid holds at every state and all numbers of its parameters in their
/// ranges.
pub fn goals_shown()
    ensures { GoalShown }
{}

/// Where the premises stand and what is left to be shown is valid, what a rule gives stands.
pub fn rules_sound()
    ensures always_defined { DefinedSound }
    ensures invariant { InvariantSound }
    ensures unless { UnlessSound }
    ensures fixed { FixedSound }
    ensures ensured { EnsuresSound }
    ensures weaken { WeakenSound }
    ensures pair { PairSound }
    ensures instance { InstanceSound }
    ensures under { UnderHolds }
{}

/// So does what the further rules give: completion within the greater of two bounds, cancellation for a leads-to
/// within the sum.
pub fn further_sound()
    ensures complete { CompleteSound }
    ensures cancel { LeadCancelSound }
    ensures until { UntilSound }
    ensures detects { DetectsSound }
    ensures constant { ConstantSound }
{}

/// So does what a proof term gives, for each of its nodes, and the record that is derived from it.
pub fn terms_sound()
    ensures term { TermSound }
    ensures derive { DeriveSound }
{}

/// What a rule gives from records of the parts of a union stands of the union.
pub fn unions_sound()
    ensures always_defined { UnionDefinedSound }
    ensures invariant { UnionInvariantSound }
    ensures unless { UnionUnlessSound }
    ensures ensured { UnionEnsuresSound }
    ensures shows { UnionShows }
{}

/// A program that is a layer over another does what that does, where the layer's own slots are put back; so
/// what stands of that program stands of the layer. In a document whose steps give a plan, where all that is left
/// to be shown is valid, the program of each step by `superpose` is a layer, and may begin only where the program
/// under it may.
pub fn layers_sound()
    ensures over { LayerIsOver }
    ensures stands { SuperposeSound }
    ensures begins { SuperposeBegins }
    ensures shows { SuperposeShows }
    ensures walked { LayersStand }
{}

/// Where the steps of a whole document give a plan, and all that is left to be shown is valid, the
/// property of each step holds in all executions of its program.
pub fn walk_sound()
    ensures { WalkSound }
{}
