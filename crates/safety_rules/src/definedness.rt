// That no step is undefined.
ghost use Rattle.std.specs.Prelude.{◌≡◌, ◌++◌, ◌∷◌, [], IfOk, IsTrue};
ghost use Rattle.meaning_states.specs.State.{is_state};
ghost use Rattle.core_terms.specs.Steps.{slot_ranges};
ghost use Rattle.core_terms.specs.Values.{form_value};
ghost use Rattle.core_terms.specs.Conditions.{StatementFits};
ghost use Rattle.wp_substitution.specs.Preconditions.{defined_form};
ghost use Rattle.rules_table.specs.Forms as formula;
ghost use Rattle.rules_table.specs.Table as table;
ghost use Rattle.safety_rules.specs.Answers.{site_of, IsPlace, RuleAnswers};
ghost use Rattle.safety_rules.specs.Goals.{Added};
ghost use Rattle.safety_rules.specs.Sound.{StandsWhereShown};

use crate::concluding::{add_goal, conclude};
use crate::places::{Derived, Place, RuleError};
use crate::premises::{imply, joined};
use crate::recording::Claim;
use case_tables::{Code, Kind};
use core_terms::{CForm, CStmt, holds};
use obligations::Obligation;
use std::alloc::{AllocError, Global};
use unity_base::{Seq, Shared};
use wp_substitution::{defined, is_oversized};

// Where U holds, the step of the statement is defined.
fn where_defined(alloc: Global, pl: &Place, s: &CStmt) -> Result<CForm, AllocError>
    requires place { IsPlace pl.now }
    requires statement { StatementFits pl.now.slots.now s.now }
    ensures { IfOk result (λ f. f ≡ formula.imply pl.now.using.now (defined_form pl.now.slots.now s.now)) }
{
    let form = Shared::new(alloc, defined(alloc, s, pl.slots)?)?;
    let using = joined(alloc, pl.using)?;
    imply(alloc, using, form)
}

// The obligations of `defined`, one for each statement.
fn add_defined(alloc: Global, pl: &Place, goals: &mut Seq<Obligation>) -> Result<(), RuleError>
    requires { IsPlace pl.now }
    ensures { Added result goals.old goals.new pl.now.slots.now pl.now.params.now
        (table.defined_forms (site_of pl.now)) }
{
    for s in pl.program.statements.as_slice() {
        let statement = s.get();
        if is_oversized(alloc, statement)? {
            return Err(RuleError::Fault(Code::FormulaTooLarge));
        }
        let form = where_defined(alloc, pl, statement)?;
        add_goal(alloc, pl, goals, form)?;
    }
    Ok(())
}

/// `defined` by the program's text: where U holds, the step of each statement is defined. `start` is the
/// program's start state (this profile).
///
/// The faults are 37: the start state does not meet the initially section; 42: an obligation is too
/// large.
pub fn defined_rule(alloc: Global, pl: &Place, start: &[i64]) -> Result<Derived, RuleError>
    requires place { IsPlace pl.now }
    requires start { IsTrue (is_state (slot_ranges pl.now.slots.now) start.now) }
    ensures answer { RuleAnswers result pl.now.slots.now (table.defined_of (site_of pl.now)
        (form_value start.now [] pl.now.program.now.initially)) }
    ensures sound { StandsWhereShown pl.now result }
{
    if !holds(&pl.program.initially, start, &[]) {
        return Err(RuleError::Fault(Code::NoStart));
    }
    let mut goals = Seq::new(alloc);
    add_defined(alloc, pl, &mut goals)?;
    let claim = Claim {
        kind: Kind::Defined,
        p: Shared::new(alloc, CForm::Top)?,
        q: Shared::new(alloc, CForm::Top)?,
        first: &[],
        second: &[],
        helper: None,
    };
    conclude(alloc, pl, claim, goals)
}
