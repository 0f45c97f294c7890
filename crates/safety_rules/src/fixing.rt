// That a formula holds at fixed points alone.
ghost use Rattle.std.specs.Prelude.{◌≡◌, IfOk, All, map};
ghost use Rattle.core_terms.specs.Conditions.{FormFits, StatementFits};
ghost use Rattle.fixed_points.specs.FixedForms as form_of;
ghost use Rattle.rules_table.specs.Forms as formula;
ghost use Rattle.rules_table.specs.Table as table;
ghost use Rattle.safety_rules.specs.Answers.{site_of, IsPlace, RuleAnswers};
ghost use Rattle.safety_rules.specs.Goals.{Added};
ghost use Rattle.safety_rules.specs.Sound.{StandsWhereShown};
ghost use Rattle.safety_rules.specs.Usable.{IsUsable};

use crate::concluding::{add_goal, conclude};
use crate::places::{Derived, Place, RuleError};
use crate::premises::{imply, joined};
use crate::recording::Claim;
use crate::texts::using_and;
use case_tables::{Code, Kind};
use core_terms::{CForm, CStmt, held_form};
use fixed_points::fixed_part;
use obligations::Obligation;
use std::alloc::{AllocError, Global};
use unity_base::{Seq, Shared};
use wp_substitution::is_oversized;

// Where the premises hold, the step of the statement leads back.
fn where_fixed(
    alloc: Global,
    pl: &Place,
    premises: &[CForm],
    s: &CStmt,
) -> Result<CForm, AllocError>
    requires place { IsPlace pl.now }
    requires premises { All (IsUsable pl.now.slots.now pl.now.params.now) premises.now }
    requires statement { StatementFits pl.now.slots.now s.now }
    ensures { IfOk result (λ f. f ≡ formula.imply premises.now (form_of.fixed_part pl.now.slots.now s.now)) }
{
    let form = fixed_part(alloc, s, pl.slots)?;
    let premises = joined(alloc, premises)?;
    imply(alloc, premises, form)
}

// The obligations of each statement: where the premises hold, its step leads back.
fn add_fixed(
    alloc: Global,
    pl: &Place,
    premises: &[CForm],
    goals: &mut Seq<Obligation>,
) -> Result<(), RuleError>
    requires place { IsPlace pl.now }
    requires premises { All (IsUsable pl.now.slots.now pl.now.params.now) premises.now }
    ensures { Added result goals.old goals.new pl.now.slots.now pl.now.params.now
        (map (λ s. formula.imply premises.now (form_of.fixed_part pl.now.slots.now s))
        pl.now.program.now.statements) }
{
    for s in pl.program.statements.as_slice() {
        let statement = s.get();
        if is_oversized(alloc, statement)? {
            return Err(RuleError::Fault(Code::FormulaTooLarge));
        }
        let form = where_fixed(alloc, pl, premises, statement)?;
        add_goal(alloc, pl, goals, form)?;
    }
    Ok(())
}

/// `fixed p` by the program's text: where p holds, the step of each statement is defined and leads back, where U
/// holds (this profile).
///
/// The fault is 42: p or an obligation is too large.
pub fn fixed_rule(alloc: Global, pl: &Place, p: &CForm) -> Result<Derived, RuleError>
    requires place { IsPlace pl.now }
    requires p { FormFits pl.now.slots.now pl.now.params.now p.now }
    ensures answer { RuleAnswers result pl.now.slots.now (table.fixed_of (site_of pl.now) p.now) }
    ensures sound { StandsWhereShown pl.now result }
{
    let premises = using_and(alloc, pl, p)?;
    let mut goals = Seq::new(alloc);
    add_fixed(alloc, pl, premises.as_slice(), &mut goals)?;
    let claim = Claim {
        kind: Kind::Fixed,
        p: held_form(alloc, p)?,
        q: Shared::new(alloc, CForm::Bottom)?,
        first: &[],
        second: &[],
        helper: None,
    };
    conclude(alloc, pl, claim, goals)
}
