//! The laws of a program's statements. The function does nothing: it states them.

ghost use Rattle.expand_statements.specs.ItemLaws.{FaultlessInstances, FitIsAll};

/// Where a program's statements have no fault, each of its instances is there, and none is too large, or has an end of
/// a range that is too large or a divisor below 1.
pub fn statement_laws()
    ensures fit { FitIsAll }
    ensures faultless { FaultlessInstances }
{}
