// The records of all steps of a document's proofs.
ghost use Rattle.core_terms.specs.Conditions.{IsCoreDocument};
ghost use Rattle.rules_steps.specs.Starts.{starts_in};
ghost use Rattle.safety_rules.specs.from_rules_table.Walk.{walk_of};
ghost use Rattle.step_plans.specs.Books.{Books};

use crate::planner::Planner;
use core_terms::CDocument;
use fair_rounds::Record;
use proof_plans::ScriptError;
use std::alloc::Global;
use unity_base::Seq;

/// The records of all steps of a document's proofs, in order. What a step leaves to be shown is let go before the next
/// is planned.
///
/// The error is the first failure, as a planner tells it; or `Memory`, where memory was refused.
pub fn book_of(alloc: Global, doc: &CDocument) -> Result<Seq<Record>, ScriptError>
    requires { IsCoreDocument doc.now }
    ensures { Books result (walk_of doc.now (starts_in doc.now.slots)) }
{
    let mut planner = Planner::new(alloc);
    'steps: loop {
        match planner.next(alloc, doc) {
            Ok(Some(_)) => {}
            Ok(None) => return Ok(planner.into_records()),
            Err(error) => return Err(error),
        }
    }
}
