//! The laws of divisions and of steps. The functions do nothing: they state them.

ghost use Rattle.meaning_states.specs.DivisionLaws.{DivisorIsPositive, PartsMakeTheNumber};
ghost use Rattle.meaning_states.specs.DivisionLaws.{RestIsBelow, RestIsNoLess};
ghost use Rattle.meaning_states.specs.StepLaws.{StepKeepsRanges, WrittenHasValue, OthersKeepNumbers};

/// A number is its divisor times its quotient, and a rest that is at least 0 and below the divisor.
pub fn division_laws()
    ensures positive { DivisorIsPositive }
    ensures parts { PartsMakeTheNumber }
    ensures least { RestIsNoLess }
    ensures below { RestIsBelow }
{}

/// A defined step leads from a state to a state: each slot that is written has its value, and every
/// other slot keeps its number.
pub fn step_laws()
    ensures ranges { StepKeepsRanges }
    ensures written { WrittenHasValue }
    ensures others { OthersKeepNumbers }
{}
