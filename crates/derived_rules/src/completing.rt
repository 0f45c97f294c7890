// Completion.
ghost use Rattle.std.specs.Prelude.{◌≡◌, ◌≤◌, ◌^◌, ◌&&◌, ◌++◌, max, IfOk, OnOk};
ghost use Rattle.core_terms.specs.Folding as fold;
ghost use Rattle.core_terms.specs.Trees.{same_form};
ghost use Rattle.core_terms.specs.Weights.{plain_weight};
ghost use Rattle.safety_rules.specs.from_rules_table.Further as further;
ghost use Rattle.safety_rules.specs.from_rules_table.Table as table;
ghost use Rattle.safety_rules.specs.Answers.{site_of, IsPlace, IsPremiseAt, RuleAnswers};
ghost use Rattle.safety_rules.specs.Sound.{StandsAt, StandsWhereShown};

use crate::kinds::leads_and_keeps;
use crate::shapes::is_either;
use crate::within::within;
use case_tables::{Code, Kind};
use core_terms::{CForm, copy_form, copy_forms};
use fair_rounds::Record;
use safety_rules::{Derived, Place, RuleError, both, either, is_same};
use std::alloc::{AllocError, Global};
use unity_base::{Seq, Shared};

// Whether these are a leads-to, an unless, a leads-to and an unless.
fn have_kinds(a: &Record, b: &Record, c: &Record, d: &Record) -> bool
    ensures { result ≡ ((further.is_leadsto a.now.kind && table.is_unless b.now.kind)
        && (further.is_leadsto c.now.kind && table.is_unless d.now.kind)) }
{
    leads_and_keeps(a, b) && leads_and_keeps(c, d)
}

// Whether the leads-to ends on what the unless keeps, or on its end.
fn ends_kept(alloc: Global, a: &Record, b: &Record) -> Result<bool, AllocError>
    requires { max (plain_weight b.now.p) (plain_weight b.now.q) ≤ 2 ^ 62 }
    ensures { IfOk result (λ t. t ≡ same_form a.now.q (fold.or_form b.now.p b.now.q)) }
{
    is_either(alloc, &a.q, &b.p, &b.q)
}

// Whether each leads-to ends on what its unless keeps, or on the end of both.
fn are_ends_kept(
    alloc: Global,
    a: &Record,
    b: &Record,
    c: &Record,
    d: &Record,
) -> Result<bool, AllocError>
    requires b { max (plain_weight b.now.p) (plain_weight b.now.q) ≤ 2 ^ 62 }
    requires d { max (plain_weight d.now.p) (plain_weight d.now.q) ≤ 2 ^ 62 }
    ensures { IfOk result (λ t. t ≡ (same_form b.now.q d.now.q
        && (same_form a.now.q (fold.or_form b.now.p b.now.q)
        && same_form c.now.q (fold.or_form d.now.p d.now.q)))) }
{
    let first = ends_kept(alloc, a, b)?;
    let second = ends_kept(alloc, c, d)?;
    Ok(is_same(&b.q, &d.q) && first && second)
}

// Adds copies of formulas.
fn add_copies(alloc: Global, all: &mut Seq<CForm>, forms: &[CForm]) -> Result<(), AllocError>
    ensures { OnOk result (all.new ≡ all.old ++ forms.now) }
{
    for f in forms {
        all.push(copy_form(alloc, f)?)?;
    }
    Ok(())
}

// What both stand under.
fn under_both(alloc: Global, a: &Record, b: &Record) -> Result<Seq<CForm>, AllocError>
    ensures { IfOk result (λ all. all ≡ a.now.under ++ b.now.under) }
{
    let mut all = copy_forms(alloc, a.under.as_slice())?;
    add_copies(alloc, &mut all, b.under.as_slice())?;
    Ok(all)
}

// What both keep, or the end of the first.
fn kept_or_ended(alloc: Global, b: &Record, d: &Record) -> Result<Shared<CForm>, AllocError>
    requires b { max (plain_weight b.now.p) (plain_weight b.now.q) ≤ 2 ^ 62 }
    requires d { plain_weight d.now.p ≤ 2 ^ 62 }
    ensures { IfOk result (λ f. f ≡ fold.or_form (fold.and_form b.now.p d.now.p) b.now.q) }
{
    let kept = both(alloc, &b.p, &d.p)?;
    either(alloc, kept.get(), &b.q)
}

// The greater of two bounds.
fn greater(a: &Record, b: &Record) -> u64
    ensures { result ≡ max a.now.bound b.now.bound }
{
    if a.bound < b.bound { b.bound } else { a.bound }
}

/// `p and p' leadsto (q and q') or r` from `p leadsto q or r`, `q unless r`, `p' leadsto q' or r` and `q' unless r`:
/// q and q' are each reached, and each is kept until r comes. The bound is the greater one (chapter 3 of the book; the
/// bounds are this profile's).
///
/// The faults are 32: a record of another kind; 33: the formulas of the records are not alike in this way; 40: the
/// bound is above 2^63; 42: the conclusion is too large.
pub fn complete_rule(
    alloc: Global,
    pl: &Place,
    a: &Record,
    b: &Record,
    c: &Record,
    d: &Record,
) -> Result<Derived, RuleError>
    requires place { IsPlace pl.now }
    requires a { IsPremiseAt pl.now a.now }
    requires b { IsPremiseAt pl.now b.now }
    requires c { IsPremiseAt pl.now c.now }
    requires d { IsPremiseAt pl.now d.now }
    ensures answer { RuleAnswers result pl.now.slots.now
        (further.complete_of (site_of pl.now) a.now b.now c.now d.now) }
    ensures sound { StandsAt pl.now a.now → StandsAt pl.now b.now → StandsAt pl.now c.now → StandsAt pl.now d.now →
        StandsWhereShown pl.now result }
{
    if !have_kinds(a, b, c, d) {
        return Err(RuleError::Fault(Code::WrongKind));
    }
    if !are_ends_kept(alloc, a, b, c, d)? {
        return Err(RuleError::Fault(Code::MiddleDiffers));
    }
    let first = under_both(alloc, a, b)?;
    let second = under_both(alloc, c, d)?;
    let p = both(alloc, &a.p, &c.p)?;
    let q = kept_or_ended(alloc, b, d)?;
    within(
        alloc,
        pl,
        Kind::Leadsto,
        p,
        q,
        first.as_slice(),
        second.as_slice(),
        u128::from(greater(a, c)),
    )
}
