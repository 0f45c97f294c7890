// What follows from a program's text.
ghost use Rattle.std.specs.Prelude.{◌≡◌, ◌<◌, ◌++◌, ◌∷◌, [], IfOk, IfErr, All, map, length, slice_get, Some};
ghost use Rattle.core_terms.specs.declared.trees.CForm.{CForm};
ghost use Rattle.core_terms.specs.Conditions.{FormFits, StatementFits};
ghost use Rattle.core_terms.specs.Pools.{Keeps};
ghost use Rattle.core_terms.specs.Sizes.{form_nodes};
ghost use Rattle.wp_substitution.specs.Preconditions.{wp_form};
ghost use Rattle.rules_table.specs.Forms as formula;
ghost use Rattle.rules_table.specs.Table as table;
ghost use Rattle.safety_rules.specs.Answers.{site_of, IsPlace, RuleAnswers};
ghost use Rattle.safety_rules.specs.Goals.{Added};
ghost use Rattle.safety_rules.specs.Premises.{implied_by, PremisesAreLight};
ghost use Rattle.safety_rules.specs.Sound.{StandsWhereShown};
ghost use Rattle.safety_rules.specs.Usable.{IsUsable};

use crate::concluding::{add_goal, conclude};
use crate::places::{Derived, Place, RuleError};
use crate::preconditions::before;
use crate::premises::{either, imply, joined, shared};
use crate::recording::Claim;
use case_tables::{Code, Kind};
use core_terms::{CForm, CStmt, FormId, Pool, copy_form, copy_forms, held_form, not_form};
use obligations::Obligation;
use std::alloc::{AllocError, Global};
use unity_base::{Seq, Shared};
use wp_substitution::{WpError, is_oversized};

/// The formula, where U holds.
///
/// An error says that memory was refused.
pub fn after(alloc: Global, pl: &Place, q: &CForm) -> Result<Shared<CForm>, AllocError>
    requires place { IsPlace pl.now }
    requires q { IsUsable pl.now.slots.now pl.now.params.now q.now }
    ensures tree { IfOk result (λ f. f ≡ formula.imply pl.now.using.now q.now) }
    ensures usable { IfOk result (IsUsable pl.now.slots.now pl.now.params.now) }
{
    let using = joined(alloc, pl.using)?;
    let q = held_form(alloc, q)?;
    Shared::new(alloc, imply(alloc, using, q)?)
}

// Where the premises hold, the step of the statement is defined and gives the formula of this number.
//
// The error is `TooLarge` where it has more nodes than an obligation may have.
fn kept(
    alloc: Global,
    pl: &Place,
    pool: &mut Pool,
    premises: &Option<Shared<CForm>>,
    after: FormId,
    s: &CStmt,
) -> Result<CForm, WpError>
    requires premises { PremisesAreLight premises.now }
    requires statement { StatementFits pl.now.slots.now s.now }
    requires number { after.place < length pool.old.forms }
    requires after { (q : CForm) → slice_get pool.old.forms after.place ≡ Some q →
        IsUsable pl.now.slots.now pl.now.params.now q }
    ensures tree { (q : CForm) → slice_get pool.old.forms after.place ≡ Some q →
        IfOk result (λ f. f ≡ implied_by premises.now (wp_form pl.now.slots.now s.now q)) }
    ensures too_large { (q : CForm) → slice_get pool.old.forms after.place ≡ Some q →
        IfErr result (λ e. e ≡ WpError.TooLarge → 65536 < form_nodes (wp_form pl.now.slots.now s.now q)) }
    ensures kept { Keeps pool.old.forms pool.new.forms }
{
    let before = before(alloc, pl, pool, after, s)?;
    let premises = shared(premises)?;
    Ok(imply(alloc, premises, before)?)
}

// The obligations of each statement: where the premises hold, it keeps q.
fn add_kept(
    alloc: Global,
    pl: &Place,
    pool: &mut Pool,
    premises: &[CForm],
    q: &CForm,
    goals: &mut Seq<Obligation>,
) -> Result<(), RuleError>
    requires place { IsPlace pl.now }
    requires premises { All (IsUsable pl.now.slots.now pl.now.params.now) premises.now }
    requires q { IsUsable pl.now.slots.now pl.now.params.now q.now }
    ensures { Added result goals.old goals.new pl.now.slots.now pl.now.params.now
        (map (λ s. formula.imply premises.now (wp_form pl.now.slots.now s (formula.imply pl.now.using.now q.now)))
        pl.now.program.now.statements) }
{
    let held = after(alloc, pl, q)?;
    let id = pool.put_form(held.get())?;
    let whole = joined(alloc, premises)?;
    for s in pl.program.statements.as_slice() {
        let statement = s.get();
        if is_oversized(alloc, statement)? {
            return Err(RuleError::Fault(Code::FormulaTooLarge));
        }
        let form = kept(alloc, pl, pool, &whole, id, statement)?;
        add_goal(alloc, pl, goals, form)?;
    }
    Ok(())
}

/// U and p.
///
/// An error says that memory was refused.
pub fn using_and(alloc: Global, pl: &Place, p: &CForm) -> Result<Seq<CForm>, AllocError>
    ensures { IfOk result (λ all. all ≡ pl.now.using.now ++ p.now ∷ []) }
{
    let mut all = copy_forms(alloc, pl.using)?;
    all.push(copy_form(alloc, p)?)?;
    Ok(all)
}

// Adds the obligations of `p unless q`, one for each statement.
pub(crate) fn add_unless(
    alloc: Global,
    pl: &Place,
    pool: &mut Pool,
    p: &CForm,
    q: &CForm,
    goals: &mut Seq<Obligation>,
) -> Result<(), RuleError>
    requires place { IsPlace pl.now }
    requires p { FormFits pl.now.slots.now pl.now.params.now p.now }
    requires q { FormFits pl.now.slots.now pl.now.params.now q.now }
    ensures { Added result goals.old goals.new pl.now.slots.now pl.now.params.now
        (table.unless_forms (site_of pl.now) p.now q.now) }
{
    let mut premises = using_and(alloc, pl, p)?;
    premises.push(not_form(alloc, copy_form(alloc, q)?)?)?;
    let either = either(alloc, p, q)?;
    add_kept(alloc, pl, pool, premises.as_slice(), either.get(), goals)
}

// The same, with a pool of their own.
fn unless_goals(
    alloc: Global,
    pl: &Place,
    p: &CForm,
    q: &CForm,
    goals: &mut Seq<Obligation>,
) -> Result<(), RuleError>
    requires place { IsPlace pl.now }
    requires p { FormFits pl.now.slots.now pl.now.params.now p.now }
    requires q { FormFits pl.now.slots.now pl.now.params.now q.now }
    ensures { Added result goals.old goals.new pl.now.slots.now pl.now.params.now
        (table.unless_forms (site_of pl.now) p.now q.now) }
{
    let mut pool = Pool::new(alloc);
    add_unless(alloc, pl, &mut pool, p, q, goals)
}

/// `p unless q` by the program's text: each statement, where p holds and q does not, keeps p or gives q
/// (chapter 3 of the book), where U holds before and after it (this profile).
///
/// The fault is 42: p, q or an obligation is too large.
pub fn unless_rule(alloc: Global, pl: &Place, p: &CForm, q: &CForm) -> Result<Derived, RuleError>
    requires place { IsPlace pl.now }
    requires p { FormFits pl.now.slots.now pl.now.params.now p.now }
    requires q { FormFits pl.now.slots.now pl.now.params.now q.now }
    ensures answer { RuleAnswers result pl.now.slots.now (table.unless_of (site_of pl.now) p.now q.now) }
    ensures sound { StandsWhereShown pl.now result }
{
    let mut goals = Seq::new(alloc);
    unless_goals(alloc, pl, p, q, &mut goals)?;
    let claim = Claim {
        kind: Kind::Unless,
        p: held_form(alloc, p)?,
        q: held_form(alloc, q)?,
        first: &[],
        second: &[],
        helper: None,
    };
    conclude(alloc, pl, claim, goals)
}

// The obligations of `invariant p`: the initially section gives it, and each statement keeps it.
fn add_invariant(
    alloc: Global,
    pl: &Place,
    pool: &mut Pool,
    p: &CForm,
    goals: &mut Seq<Obligation>,
) -> Result<(), RuleError>
    requires place { IsPlace pl.now }
    requires p { FormFits pl.now.slots.now pl.now.params.now p.now }
    ensures { Added result goals.old goals.new pl.now.slots.now pl.now.params.now
        (table.invariant_forms (site_of pl.now) p.now) }
{
    let first = starts(alloc, pl, p)?;
    add_goal(alloc, pl, goals, first)?;
    let premises = using_and(alloc, pl, p)?;
    add_kept(alloc, pl, pool, premises.as_slice(), p, goals)
}

// The same, with a pool of their own.
fn invariant_goals(
    alloc: Global,
    pl: &Place,
    p: &CForm,
    goals: &mut Seq<Obligation>,
) -> Result<(), RuleError>
    requires place { IsPlace pl.now }
    requires p { FormFits pl.now.slots.now pl.now.params.now p.now }
    ensures { Added result goals.old goals.new pl.now.slots.now pl.now.params.now
        (table.invariant_forms (site_of pl.now) p.now) }
{
    let mut pool = Pool::new(alloc);
    add_invariant(alloc, pl, &mut pool, p, goals)
}

// Where U and the initially section hold, so does p.
fn starts(alloc: Global, pl: &Place, p: &CForm) -> Result<CForm, AllocError>
    requires place { IsPlace pl.now }
    requires p { FormFits pl.now.slots.now pl.now.params.now p.now }
    ensures { IfOk result (λ f. f ≡ formula.imply (pl.now.using.now ++ pl.now.program.now.initially ∷ []) p.now) }
{
    let premises = using_and(alloc, pl, &pl.program.initially)?;
    let whole = joined(alloc, premises.as_slice())?;
    let p = held_form(alloc, p)?;
    imply(alloc, whole, p)
}

/// `invariant p` by the program's text: p holds at first, and each statement keeps it (chapter 3 of the
/// book), where U holds (this profile).
///
/// The fault is 42: p or an obligation is too large.
pub fn invariant_rule(alloc: Global, pl: &Place, p: &CForm) -> Result<Derived, RuleError>
    requires place { IsPlace pl.now }
    requires p { FormFits pl.now.slots.now pl.now.params.now p.now }
    ensures answer { RuleAnswers result pl.now.slots.now (table.invariant_of (site_of pl.now) p.now) }
    ensures sound { StandsWhereShown pl.now result }
{
    let mut goals = Seq::new(alloc);
    invariant_goals(alloc, pl, p, &mut goals)?;
    let claim = Claim {
        kind: Kind::Invariant,
        p: held_form(alloc, p)?,
        q: Shared::new(alloc, CForm::Bottom)?,
        first: &[],
        second: &[],
        helper: None,
    };
    conclude(alloc, pl, claim, goals)
}
