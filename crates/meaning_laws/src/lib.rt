//! Laws of executions, on which rules of proofs stand.
//!
//! A system is an initial test and a list of acts. What systems do, and the properties of what they
//! do, is defined in `meaning_executions`. Here stand the laws of these properties over any system: how
//! those of single steps pass to executions and to unions, how they combine, and when two systems
//! share them.
//!
//! These functions do nothing: each states laws.
#![tactic(auto)]

ghost use Rattle.meaning_laws.specs.KeptLaws.{KeptRuns, ImplicationKept, UnlessKept, EnsuresLeadsKept};
ghost use Rattle.meaning_laws.specs.KeptLaws.{DefinedNarrows, InvariantNarrows, UnlessNarrows, EnsuresNarrows};
ghost use Rattle.meaning_laws.specs.KeptLaws.{LeadsNarrows};
ghost use Rattle.meaning_laws.specs.StandingLaws.{InvariantBoth, DefinedHolds, FixedHolds, InvariantHolds};
ghost use Rattle.meaning_laws.specs.StandingLaws.{UnlessHolds, ConstantHolds, EnsuresHolds, LeadsHolds};
ghost use Rattle.meaning_laws.specs.PairRules.{ConjunctionRule, ConjunctionEnsured, SimpleConjunction, Disjunction};
ghost use Rattle.meaning_laws.specs.PairRules.{SimpleDisjunction, Cancellation, Constancy, WeakerUnless, WeakerEnsures};
ghost use Rattle.meaning_laws.specs.UnionRules.{UnionDefined, UnionUnless, UnionInvariant};
ghost use Rattle.meaning_laws.specs.UnionRules.{UnionInvariantSecond, UnionEnsures, UnionEnsuresSecond};
ghost use Rattle.meaning_laws.specs.RoundSums.{RoundsAreLeft, LaterHaveFewer, RoundsOfJoined, MarksSuffice};
ghost use Rattle.meaning_laws.specs.ProgressLaws.{Transitivity, EitherLeads, AnyLeads, ProgressWithSafety, LeadsWeaker};
ghost use Rattle.meaning_laws.specs.ProgressLaws.{LeadsByInduction, Completion, LeadsCancellation};
ghost use Rattle.meaning_laws.specs.AlikeLaws.{AlikeBack, KeptAlike, RunsAlike, DefinedAlike};
ghost use Rattle.meaning_laws.specs.AlikeLaws.{FixedAlike, InvariantAlike, UnlessAlike, ConstantAlike};
ghost use Rattle.meaning_laws.specs.AlikeLaws.{EnsuresAlike, LeadsAlike};
ghost use Rattle.meaning_laws.specs.Examples.{CounterIsSafe, CounterEnsures, CounterArrives, UnionOfTwo};
ghost use Rattle.meaning_laws.specs.Examples.{CountersAlike};

/// A system that is kept to a test has those of its executions whose states all pass the test; what
/// stands of single steps between such states holds in these.
pub fn kept_laws()
    ensures runs { KeptRuns }
    ensures implication { ImplicationKept }
    ensures unless { UnlessKept }
    ensures leads { EnsuresLeadsKept }
{}

/// What stands where a test holds stands where a stronger test holds.
pub fn narrowing_laws()
    ensures defined { DefinedNarrows }
    ensures invariant { InvariantNarrows }
    ensures unless { UnlessNarrows }
    ensures ensured { EnsuresNarrows }
    ensures leads { LeadsNarrows }
{}

/// What stands of single steps, where a test holds before and after them, holds in executions where
/// that test always holds.
pub fn standing_laws()
    ensures both { InvariantBoth }
    ensures defined { DefinedHolds }
    ensures fixed { FixedHolds }
    ensures invariant { InvariantHolds }
    ensures unless { UnlessHolds }
    ensures constant { ConstantHolds }
    ensures ensured { EnsuresHolds }
    ensures leads { LeadsHolds }
{}

/// The rules by which two `unless` of one system, or an `unless` and an `ensures`, combine:
/// conjunction, disjunction, their simple forms, cancellation, constancy, and a weaker end.
pub fn pair_rules()
    ensures conjunction { ConjunctionRule }
    ensures conjunction_ensured { ConjunctionEnsured }
    ensures simple_conjunction { SimpleConjunction }
    ensures disjunction { Disjunction }
    ensures simple_disjunction { SimpleDisjunction }
    ensures cancellation { Cancellation }
    ensures constancy { Constancy }
    ensures weaker_unless { WeakerUnless }
    ensures weaker_ensures { WeakerEnsures }
{}

/// What stands of the single steps of both parts stands of those of their union.
pub fn union_rules()
    ensures defined { UnionDefined }
    ensures unless { UnionUnless }
    ensures invariant { UnionInvariant }
    ensures invariant_second { UnionInvariantSecond }
    ensures ensured { UnionEnsures }
    ensures ensured_second { UnionEnsuresSecond }
{}

/// The rounds of choices that are made one part after the other add up.
pub fn round_sums()
    ensures left { RoundsAreLeft }
    ensures fewer { LaterHaveFewer }
    ensures joined { RoundsOfJoined }
    ensures marks { MarksSuffice }
{}

/// One leads-to follows from others: bounds of steps on the way add, of cases and of ends that are kept
/// the greatest serves, and a measure that falls within a bound takes it once for each of its values.
pub fn progress_laws()
    ensures trans { Transitivity }
    ensures either { EitherLeads }
    ensures exists { AnyLeads }
    ensures psp { ProgressWithSafety }
    ensures weaken { LeadsWeaker }
    ensures induct { LeadsByInduction }
    ensures complete { Completion }
    ensures cancel { LeadsCancellation }
{}

/// Two systems that start and step alike at the states of a document have the same executions, and so
/// the same properties.
pub fn alike_laws()
    ensures back { AlikeBack }
    ensures kept { KeptAlike }
    ensures runs { RunsAlike }
    ensures defined { DefinedAlike }
    ensures fixed { FixedAlike }
    ensures invariant { InvariantAlike }
    ensures unless { UnlessAlike }
    ensures constant { ConstantAlike }
    ensures ensured { EnsuresAlike }
    ensures leads { LeadsAlike }
{}

/// A small system to which the laws apply, computed: a number of 0..2 that is counted up or left alone.
pub fn law_examples()
    ensures safe { CounterIsSafe }
    ensures ensured { CounterEnsures }
    ensures leads { CounterArrives }
    ensures union { UnionOfTwo }
    ensures alike { CountersAlike }
{}
