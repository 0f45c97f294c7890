// What is derived, with another bound.
ghost use Rattle.std.specs.Prelude.{List, Result};
ghost use Rattle.case_tables.specs.declared.code_table.Code.{Code as TheCode};
ghost use Rattle.core_terms.specs.declared.programs.CSlot.{CSlot};
ghost use Rattle.rules_table.specs.Conclusion.{Conclusion};
ghost use Rattle.safety_rules.specs.Answers.{RuleAnswers};
ghost use Rattle.safety_rules.specs.Bounds.{bounded_row};

use crate::places::{Derived, RuleError};

/// What is derived, with this bound.
pub fn lengthened(answer: Result<Derived, RuleError>, bound: u64) -> Result<Derived, RuleError>
    ensures { (slots : List CSlot) (row : Result Conclusion TheCode) → RuleAnswers answer slots row →
        RuleAnswers result slots (bounded_row bound row) }
{
    match answer {
        Ok(derived) => {
            let mut derived = derived;
            derived.made.bound = bound;
            Ok(derived)
        }
        Err(error) => Err(error),
    }
}
