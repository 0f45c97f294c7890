// What the parts stand under has to follow in the union.
ghost use Rattle.std.specs.Prelude.{◌++◌, [], All, map};
ghost use Rattle.core_terms.specs.Conditions.{FormFits};
ghost use Rattle.safety_rules.specs.from_rules_table.Forms as formula;
ghost use Rattle.safety_rules.specs.from_rules_table.Table as table;
ghost use Rattle.safety_rules.specs.Answers.{site_of, IsPlace, IsPremiseAt, RuleAnswers};
ghost use Rattle.safety_rules.specs.Goals.{Added};
ghost use Rattle.safety_rules.specs.Usable.{NamesExist};

use case_tables::Kind;
use core_terms::{CForm, Helper, held_form, owned_form};
use fair_rounds::Record;
use obligations::Obligation;
use safety_rules::{Claim, Derived, Place, RuleError, add_goal, after, conclude, copied_helper};
use std::alloc::Global;
use unity_base::Seq;

// The obligations that these formulas follow from U.
fn add_shown(
    alloc: Global,
    pl: &Place,
    forms: &[CForm],
    goals: &mut Seq<Obligation>,
) -> Result<(), RuleError>
    requires place { IsPlace pl.now }
    requires forms { All (FormFits pl.now.slots.now []) forms.now }
    ensures { Added result goals.old goals.new pl.now.slots.now pl.now.params.now
        (map (formula.imply pl.now.using.now) forms.now) }
{
    for f in forms {
        let form = after(alloc, pl, f)?;
        add_goal(alloc, pl, goals, owned_form(alloc, form)?)?;
    }
    Ok(())
}

// The obligations that the formulas under which both parts stand follow from U.
fn add_both_shown(
    alloc: Global,
    pl: &Place,
    a: &Record,
    b: &Record,
    goals: &mut Seq<Obligation>,
) -> Result<(), RuleError>
    requires place { IsPlace pl.now }
    requires a { IsPremiseAt pl.now a.now }
    requires b { IsPremiseAt pl.now b.now }
    ensures { Added result goals.old goals.new pl.now.slots.now pl.now.params.now
        (table.shown_forms (site_of pl.now) a.now b.now) }
{
    add_shown(alloc, pl, a.under.as_slice(), goals)?;
    add_shown(alloc, pl, b.under.as_slice(), goals)
}

// A property of the union, under what both parts stand under.
pub(crate) fn united(
    alloc: Global,
    pl: &Place,
    a: &Record,
    b: &Record,
    kind: Kind,
    p: &CForm,
    q: &CForm,
    helper: &Option<Helper>,
) -> Result<Derived, RuleError>
    requires place { IsPlace pl.now }
    requires a { IsPremiseAt pl.now a.now }
    requires b { IsPremiseAt pl.now b.now }
    requires p { NamesExist pl.now.slots.now pl.now.params.now p.now }
    requires q { NamesExist pl.now.slots.now pl.now.params.now q.now }
    ensures { RuleAnswers result pl.now.slots.now (table.concluded pl.now.slots.now pl.now.params.now
        (table.record_of (site_of pl.now) kind p.now q.now (a.now.under ++ b.now.under) helper.now)
        (table.shown_forms (site_of pl.now) a.now b.now)) }
{
    let mut goals = Seq::new(alloc);
    add_both_shown(alloc, pl, a, b, &mut goals)?;
    let claim = Claim {
        kind,
        p: held_form(alloc, p)?,
        q: held_form(alloc, q)?,
        first: a.under.as_slice(),
        second: b.under.as_slice(),
        helper: copied_helper(alloc, helper)?,
    };
    conclude(alloc, pl, claim, goals)
}
