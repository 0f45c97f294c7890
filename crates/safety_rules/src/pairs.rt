// What two properties of one program give together.
ghost use Rattle.std.specs.Prelude.{◌≡◌, ◌≤◌, ◌^◌, ◌&&◌, ◌||◌, ◌++◌, [], max, None, IfOk};
ghost use Rattle.core_terms.specs.Weights.{plain_weight};
ghost use Rattle.core_terms.specs.Folding as fold;
ghost use Rattle.rules_table.specs.Table as table;
ghost use Rattle.safety_rules.specs.Answers.{site_of, IsPlace, IsPremiseAt, RuleAnswers};
ghost use Rattle.safety_rules.specs.Pairs.{simple_rule};
ghost use Rattle.safety_rules.specs.Sound.{StandsAt, StandsWhereShown};
ghost use Rattle.safety_rules.specs.Usable.{NamesExist};

use crate::concluding::conclude;
use crate::places::{Derived, Place, RuleError};
use crate::premises::{both, either, joined_two, one_of_three, second_alone};
use crate::recording::{Claim, copied_helper, is_same};
use crate::weakening::{is_ensures, is_unless};
use case_tables::{Code, Kind, RuleName};
use core_terms::{CForm, Joining, held_form};
use fair_rounds::Record;
use std::alloc::{AllocError, Global};
use unity_base::{Seq, Shared};

/// Whether both records are an unless.
pub fn are_unless(a: &Record, b: &Record) -> bool
    ensures { result ≡ (table.is_unless a.now.kind && table.is_unless b.now.kind) }
{
    is_unless(a.kind) && is_unless(b.kind)
}

fn may_join(a: &Record, b: &Record) -> bool
    ensures { result ≡ (table.is_unless a.now.kind && (table.is_unless b.now.kind || table.is_ensures b.now.kind)) }
{
    is_unless(a.kind) && (is_unless(b.kind) || is_ensures(b.kind))
}

// What either ends on, while the other still holds or ends too.
fn ends_of_both(alloc: Global, a: &Record, b: &Record) -> Result<Shared<CForm>, AllocError>
    requires a { max (plain_weight a.now.p) (plain_weight a.now.q) ≤ 2 ^ 62 }
    requires b { max (plain_weight b.now.p) (plain_weight b.now.q) ≤ 2 ^ 62 }
    ensures { IfOk result (λ f. f ≡ table.ends_of_both a.now.p a.now.q b.now.p b.now.q) }
{
    let first = both(alloc, &a.p, &b.q)?;
    let second = both(alloc, &b.p, &a.q)?;
    let third = both(alloc, &a.q, &b.q)?;
    one_of_three(alloc, first, second, third)
}

// What either ends on where the other does not hold, or both end on.
fn ends_of_either(alloc: Global, a: &Record, b: &Record) -> Result<Shared<CForm>, AllocError>
    requires a { max (plain_weight a.now.p) (plain_weight a.now.q) ≤ 2 ^ 62 }
    requires b { max (plain_weight b.now.p) (plain_weight b.now.q) ≤ 2 ^ 62 }
    ensures { IfOk result (λ f. f ≡ table.ends_of_either a.now.p a.now.q b.now.p b.now.q) }
{
    let first = second_alone(alloc, &a.p, &b.q)?;
    let second = second_alone(alloc, &b.p, &a.q)?;
    let third = both(alloc, &a.q, &b.q)?;
    one_of_three(alloc, first, second, third)
}

// An unless of these formulas, under what both premises stand under.
fn paired(
    alloc: Global,
    pl: &Place,
    a: &Record,
    b: &Record,
    p: Shared<CForm>,
    q: Shared<CForm>,
) -> Result<Derived, RuleError>
    requires p { NamesExist pl.now.slots.now pl.now.params.now p }
    requires q { NamesExist pl.now.slots.now pl.now.params.now q }
    ensures { RuleAnswers result pl.now.slots.now
        (table.paired (site_of pl.now) Kind.Unless None p q a.now b.now) }
{
    let claim = Claim {
        kind: Kind::Unless,
        p,
        q,
        first: a.under.as_slice(),
        second: b.under.as_slice(),
        helper: None,
    };
    conclude(alloc, pl, claim, Seq::new(alloc))
}

// Conjunction; with an ensures for the second, an ensures by the same statement.
fn conj(alloc: Global, pl: &Place, a: &Record, b: &Record) -> Result<Derived, RuleError>
    requires place { IsPlace pl.now }
    requires a { IsPremiseAt pl.now a.now }
    requires b { IsPremiseAt pl.now b.now }
    ensures { RuleAnswers result pl.now.slots.now (table.pair_of (site_of pl.now) RuleName.Conj a.now b.now) }
{
    if !may_join(a, b) {
        return Err(RuleError::Fault(Code::WrongKind));
    }
    let claim = Claim {
        kind: b.kind,
        p: both(alloc, &a.p, &b.p)?,
        q: ends_of_both(alloc, a, b)?,
        first: a.under.as_slice(),
        second: b.under.as_slice(),
        helper: copied_helper(alloc, &b.helper)?,
    };
    conclude(alloc, pl, claim, Seq::new(alloc))
}

// Simple conjunction, or simple disjunction.
fn simple(
    alloc: Global,
    pl: &Place,
    joining: Joining,
    a: &Record,
    b: &Record,
) -> Result<Derived, RuleError>
    requires place { IsPlace pl.now }
    requires a { IsPremiseAt pl.now a.now }
    requires b { IsPremiseAt pl.now b.now }
    ensures { RuleAnswers result pl.now.slots.now (table.pair_of (site_of pl.now) (simple_rule joining) a.now b.now) }
{
    if !are_unless(a, b) {
        return Err(RuleError::Fault(Code::WrongKind));
    }
    let p = joined_two(alloc, joining, &a.p, &b.p)?;
    let q = either(alloc, &a.q, &b.q)?;
    paired(alloc, pl, a, b, p, q)
}

// Disjunction.
fn disj(alloc: Global, pl: &Place, a: &Record, b: &Record) -> Result<Derived, RuleError>
    requires place { IsPlace pl.now }
    requires a { IsPremiseAt pl.now a.now }
    requires b { IsPremiseAt pl.now b.now }
    ensures { RuleAnswers result pl.now.slots.now (table.pair_of (site_of pl.now) RuleName.Disj a.now b.now) }
{
    if !are_unless(a, b) {
        return Err(RuleError::Fault(Code::WrongKind));
    }
    let p = either(alloc, &a.p, &b.p)?;
    let q = ends_of_either(alloc, a, b)?;
    paired(alloc, pl, a, b, p, q)
}

// Cancellation.
fn cancel(alloc: Global, pl: &Place, a: &Record, b: &Record) -> Result<Derived, RuleError>
    requires place { IsPlace pl.now }
    requires a { IsPremiseAt pl.now a.now }
    requires b { IsPremiseAt pl.now b.now }
    ensures { RuleAnswers result pl.now.slots.now (table.pair_of (site_of pl.now) RuleName.Cancel a.now b.now) }
{
    if !are_unless(a, b) {
        return Err(RuleError::Fault(Code::WrongKind));
    }
    if !is_same(&a.q, &b.p) {
        return Err(RuleError::Fault(Code::MiddleDiffers));
    }
    let p = either(alloc, &a.p, &a.q)?;
    let q = held_form(alloc, &b.q)?;
    paired(alloc, pl, a, b, p, q)
}

/// What `p unless q` and `r unless s` give together, by conjunction, disjunction, their simple forms or
/// cancellation (chapter 3 of the book). With `r ensures s` conjunction gives an ensures.
///
/// The faults are 32: a record of another kind; 33: in cancellation q is not r; 42: the conclusion is
/// too large.
pub fn pair_rule(
    alloc: Global,
    pl: &Place,
    which: RuleName,
    a: &Record,
    b: &Record,
) -> Result<Derived, RuleError>
    requires place { IsPlace pl.now }
    requires a { IsPremiseAt pl.now a.now }
    requires b { IsPremiseAt pl.now b.now }
    ensures answer { RuleAnswers result pl.now.slots.now (table.pair_of (site_of pl.now) which a.now b.now) }
    ensures sound { StandsAt pl.now a.now → StandsAt pl.now b.now → StandsWhereShown pl.now result }
{
    match which {
        RuleName::Conj => conj(alloc, pl, a, b),
        RuleName::Simpleconj => simple(alloc, pl, Joining::Both, a, b),
        RuleName::Disj => disj(alloc, pl, a, b),
        RuleName::Simpledisj => simple(alloc, pl, Joining::Either, a, b),
        RuleName::Cancel => cancel(alloc, pl, a, b),
        _ => Err(RuleError::Fault(Code::WrongKind)),
    }
}
