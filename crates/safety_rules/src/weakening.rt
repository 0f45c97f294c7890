// A weaker end of an unless or an ensures.
ghost use Rattle.std.specs.Prelude.{◌≡◌, ◌++◌, ◌∷◌, ◌||◌, [], IfOk};
ghost use Rattle.core_terms.specs.Conditions.{FormFits};
ghost use Rattle.rules_table.specs.Forms as formula;
ghost use Rattle.rules_table.specs.Table as table;
ghost use Rattle.safety_rules.specs.Answers.{site_of, IsPlace, IsPremiseAt, RuleAnswers};
ghost use Rattle.safety_rules.specs.Goals.{Added};
ghost use Rattle.safety_rules.specs.Sound.{StandsAt, StandsWhereShown};
ghost use Rattle.safety_rules.specs.Usable.{IsUsable};

use crate::concluding::{add_goal, conclude};
use crate::places::{Derived, Place, RuleError};
use crate::premises::{imply, joined};
use crate::recording::{Claim, copied_helper};
use crate::texts::using_and;
use case_tables::{Code, Kind};
use core_terms::{CForm, held_form};
use fair_rounds::Record;
use obligations::Obligation;
use std::alloc::{AllocError, Global};
use unity_base::Seq;

/// Whether a record of this kind is an unless.
pub fn is_unless(kind: Kind) -> bool
    ensures { result ≡ table.is_unless kind }
{
    matches!(kind, Kind::Unless)
}

/// Whether a record of this kind is an ensures.
pub fn is_ensures(kind: Kind) -> bool
    ensures { result ≡ table.is_ensures kind }
{
    matches!(kind, Kind::Ensures)
}

/// Whether a record of this kind is an invariant.
pub fn is_invariant(kind: Kind) -> bool
    ensures { result ≡ table.is_invariant kind }
{
    matches!(kind, Kind::Invariant)
}

fn has_end(kind: Kind) -> bool
    ensures { result ≡ (table.is_unless kind || table.is_ensures kind) }
{
    is_unless(kind) || is_ensures(kind)
}

// Where U and q hold, so does r.
fn follows(alloc: Global, pl: &Place, q: &CForm, r: &CForm) -> Result<CForm, AllocError>
    requires place { IsPlace pl.now }
    requires q { IsUsable pl.now.slots.now pl.now.params.now q.now }
    requires r { IsUsable pl.now.slots.now pl.now.params.now r.now }
    ensures { IfOk result (λ f. f ≡ formula.imply (pl.now.using.now ++ q.now ∷ []) r.now) }
{
    let premises = using_and(alloc, pl, q)?;
    let whole = joined(alloc, premises.as_slice())?;
    let r = held_form(alloc, r)?;
    imply(alloc, whole, r)
}

/// The obligation that r follows from q, where U holds.
///
/// The fault is 42: the obligation is too large.
pub fn add_follows(
    alloc: Global,
    pl: &Place,
    q: &CForm,
    r: &CForm,
    goals: &mut Seq<Obligation>,
) -> Result<(), RuleError>
    requires place { IsPlace pl.now }
    requires q { IsUsable pl.now.slots.now pl.now.params.now q.now }
    requires r { IsUsable pl.now.slots.now pl.now.params.now r.now }
    ensures { Added result goals.old goals.new pl.now.slots.now pl.now.params.now
        (formula.imply (pl.now.using.now ++ q.now ∷ []) r.now ∷ []) }
{
    let form = follows(alloc, pl, q, r)?;
    add_goal(alloc, pl, goals, form)
}

/// From `p unless q` or `p ensures q` the same with r for q, where q gives r (chapter 3 of the book) and U
/// holds (this profile).
///
/// The faults are 32: the record is neither an unless nor an ensures; 42: r or the obligation is too
/// large.
pub fn weaken_rule(alloc: Global, pl: &Place, a: &Record, r: &CForm) -> Result<Derived, RuleError>
    requires place { IsPlace pl.now }
    requires record { IsPremiseAt pl.now a.now }
    requires r { FormFits pl.now.slots.now pl.now.params.now r.now }
    ensures answer { RuleAnswers result pl.now.slots.now (table.weaken_of (site_of pl.now) a.now r.now) }
    ensures sound { StandsAt pl.now a.now → StandsWhereShown pl.now result }
{
    if !has_end(a.kind) {
        return Err(RuleError::Fault(Code::WrongKind));
    }
    let mut goals = Seq::new(alloc);
    add_follows(alloc, pl, &a.q, r, &mut goals)?;
    let claim = Claim {
        kind: a.kind,
        p: held_form(alloc, &a.p)?,
        q: held_form(alloc, r)?,
        first: a.under.as_slice(),
        second: &[],
        helper: copied_helper(alloc, &a.helper)?,
    };
    conclude(alloc, pl, claim, goals)
}
