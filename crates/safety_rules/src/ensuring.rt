// An ensures by the statement that helps.
ghost use Rattle.std.specs.Prelude.{◌≡◌, ◌++◌, [], IfOk, Some, length, map};
ghost use Rattle.core_terms.specs.Conditions.{FormFits, HelperWellScoped, is_below};
ghost use Rattle.rules_table.specs.Table as table;
ghost use Rattle.safety_rules.specs.Answers.{site_of, IsPlace, RuleAnswers};
ghost use Rattle.safety_rules.specs.Goals.{Added};
ghost use Rattle.safety_rules.specs.Sound.{StandsWhereShown};

use crate::concluding::{add_goal, conclude};
use crate::meanings::{helped, one_meant};
use crate::naming::{is_helper, may_mean, names_some};
use crate::places::{Derived, Place, RuleError};
use crate::preconditions::before;
use crate::recording::{Claim, some_helper};
use crate::texts::{add_unless, after};
use case_tables::{Code, Kind};
use core_terms::{CForm, Helper, Pool, held_form, owned_form};
use obligations::Obligation;
use std::alloc::{AllocError, Global};
use unity_base::Seq;

// The obligation that one of the statements that may be meant is, where indices name parameters.
fn add_meant(
    alloc: Global,
    pl: &Place,
    h: &Helper,
    goals: &mut Seq<Obligation>,
) -> Result<(), RuleError>
    requires place { IsPlace pl.now }
    requires helper { HelperWellScoped (is_below (length pl.now.params.now)) h.now }
    ensures { Added result goals.old goals.new pl.now.slots.now pl.now.params.now
        (table.meant_forms (site_of pl.now) h.now) }
{
    if !names_some(h.args.as_slice()) {
        return Ok(());
    }
    let form = one_meant(alloc, pl, h)?;
    add_goal(alloc, pl, goals, owned_form(alloc, form)?)
}

// The obligations of the statements that may be meant: each that is gives q.
fn add_helped(
    alloc: Global,
    pl: &Place,
    pool: &mut Pool,
    p: &CForm,
    q: &CForm,
    h: &Helper,
    goals: &mut Seq<Obligation>,
) -> Result<(), RuleError>
    requires place { IsPlace pl.now }
    requires p { FormFits pl.now.slots.now pl.now.params.now p.now }
    requires q { FormFits pl.now.slots.now pl.now.params.now q.now }
    requires helper { HelperWellScoped (is_below (length pl.now.params.now)) h.now }
    ensures { Added result goals.old goals.new pl.now.slots.now pl.now.params.now
        (map (table.helped_form (site_of pl.now) p.now q.now h.now) (table.instances_of (site_of pl.now) h.now)) }
{
    let held = after(alloc, pl, q)?;
    let id = pool.put_form(held.get())?;
    for s in pl.program.statements.as_slice() {
        let statement = s.get();
        if may_mean(h, statement) {
            let before = before(alloc, pl, pool, id, statement)?;
            let form = helped(alloc, pl, p, q, h, statement, before)?;
            add_goal(alloc, pl, goals, owned_form(alloc, form)?)?;
        }
    }
    Ok(())
}

// The obligations of `p ensures q`: those of `p unless q`, and those of the statement that helps.
fn add_ensures(
    alloc: Global,
    pl: &Place,
    pool: &mut Pool,
    p: &CForm,
    q: &CForm,
    h: &Helper,
    goals: &mut Seq<Obligation>,
) -> Result<(), RuleError>
    requires place { IsPlace pl.now }
    requires p { FormFits pl.now.slots.now pl.now.params.now p.now }
    requires q { FormFits pl.now.slots.now pl.now.params.now q.now }
    requires helper { HelperWellScoped (is_below (length pl.now.params.now)) h.now }
    ensures { Added result goals.old goals.new pl.now.slots.now pl.now.params.now
        (table.unless_forms (site_of pl.now) p.now q.now ++ table.helper_forms (site_of pl.now) p.now q.now h.now) }
{
    add_unless(alloc, pl, pool, p, q, goals)?;
    add_meant(alloc, pl, h, goals)?;
    add_helped(alloc, pl, pool, p, q, h, goals)
}

// The same, with a pool of their own.
fn ensures_goals(
    alloc: Global,
    pl: &Place,
    p: &CForm,
    q: &CForm,
    h: &Helper,
    goals: &mut Seq<Obligation>,
) -> Result<(), RuleError>
    requires place { IsPlace pl.now }
    requires p { FormFits pl.now.slots.now pl.now.params.now p.now }
    requires q { FormFits pl.now.slots.now pl.now.params.now q.now }
    requires helper { HelperWellScoped (is_below (length pl.now.params.now)) h.now }
    ensures { Added result goals.old goals.new pl.now.slots.now pl.now.params.now
        (table.unless_forms (site_of pl.now) p.now q.now ++ table.helper_forms (site_of pl.now) p.now q.now h.now) }
{
    let mut pool = Pool::new(alloc);
    add_ensures(alloc, pl, &mut pool, p, q, h, goals)
}

/// `p ensures q` by the program's text: `p unless q`, and the statement that helps gives q where p holds
/// and q does not (chapter 3 of the book), where U holds before and after it. With indices that name
/// parameters one of the program's instances has to be meant, and each that may be gives q (this profile).
///
/// The faults are 41: no statement has the label and as many indices, or with constant indices this is no
/// instance; 42: p, q or an obligation is too large.
pub fn ensures_rule(
    alloc: Global,
    pl: &Place,
    p: &CForm,
    q: &CForm,
    h: &Helper,
) -> Result<Derived, RuleError>
    requires place { IsPlace pl.now }
    requires p { FormFits pl.now.slots.now pl.now.params.now p.now }
    requires q { FormFits pl.now.slots.now pl.now.params.now q.now }
    requires helper { HelperWellScoped (is_below (length pl.now.params.now)) h.now }
    ensures answer { RuleAnswers result pl.now.slots.now (table.ensures_of (site_of pl.now) p.now q.now h.now) }
    ensures sound { StandsWhereShown pl.now result }
{
    if !is_helper(pl, h) {
        return Err(RuleError::Fault(Code::NoSuchStatement));
    }
    let mut goals = Seq::new(alloc);
    ensures_goals(alloc, pl, p, q, h, &mut goals)?;
    let claim = Claim {
        kind: Kind::Ensures,
        p: held_form(alloc, p)?,
        q: held_form(alloc, q)?,
        first: &[],
        second: &[],
        helper: some_helper(alloc, h)?,
    };
    conclude(alloc, pl, claim, goals)
}
