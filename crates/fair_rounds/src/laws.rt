// The laws of records. The function does nothing: it states them.
ghost use Rattle.fair_rounds.specs.RecordLaws.{DefinedKept, InvariantKept, KeptHolds};

/// A record that stands of a program, and whose `under` holds in every execution, has its property in
/// every execution. A defined step gives that no step is undefined, and an ensures needs it.
pub fn record_laws()
    ensures always_defined { DefinedKept }
    ensures invariant { InvariantKept }
    ensures holds { KeptHolds }
{}
