//! Values of expressions, worked out by hand. These functions do nothing: each states examples.

ghost use Rattle.examples_definitions.specs.ValueExamples.{SlotExamples, NameExamples, BoundNameExamples};
ghost use Rattle.examples_definitions.specs.ValueExamples.{ElementExamples, QuantifierExamples};
ghost use Rattle.examples_definitions.specs.OperatorExamples.{ComparisonExamples, ConnectiveExamples};
ghost use Rattle.examples_definitions.specs.OperatorExamples.{ArithmeticExamples, RangeExamples};
ghost use Rattle.examples_definitions.specs.DivisionExamples.{DivisionExamples};

/// Values in a small program: variables and their slots, enumeration words, always names and bound names,
/// arrays read inside and outside, and quantifiers.
pub fn value_examples()
    ensures slots { SlotExamples }
    ensures names { NameExamples }
    ensures bound_names { BoundNameExamples }
    ensures elements { ElementExamples }
    ensures quantifiers { QuantifierExamples }
{}

/// Each kind of expression in a small program.
pub fn operator_examples()
    ensures comparisons { ComparisonExamples }
    ensures connectives { ConnectiveExamples }
    ensures arithmetic { ArithmeticExamples }
    ensures ranges { RangeExamples }
{}

/// Divisions, rounded down, and what they leave.
pub fn division_examples()
    ensures { DivisionExamples }
{}
