// The nodes that refer to a step, from the record that their reference gives.
ghost use Rattle.std.specs.Prelude.{◌≡◌, ◌≤◌, ◌^◌, All, IfOk};
ghost use Rattle.core_terms.specs.Conditions.{IsRange};
ghost use Rattle.core_terms.specs.Folding as fold;
ghost use Rattle.core_terms.specs.Weights.{plain_weight};
ghost use Rattle.safety_rules.specs.Foldable.{IsFoldable};
ghost use Rattle.rules_table.specs.Table.{go_on, is_unless};
ghost use Rattle.rules_table.specs.Terms as terms;
ghost use Rattle.safety_rules.specs.Answers.{site_of};
ghost use Rattle.safety_rules.specs.Instances.{RecordFits};
ghost use Rattle.safety_rules.specs.Usable.{NamesExist};
ghost use Rattle.leadsto_rules.specs.Leading.{TermGives, LedFits, beside};
ghost use Rattle.leadsto_rules.specs.References.{FitsIn};

use crate::joining::both_lists;
use crate::nodes::{Claim, node};
use crate::parts::joined;
use crate::references::{Purpose, referred};
use case_tables::Kind;
use core_terms::{CForm, Joining, Range, Ref, copy_forms, held_form};
use fair_rounds::Record;
use rules_table::Led;
use safety_rules::{Place, RuleError};
use std::alloc::{AllocError, Global};
use unity_base::{Seq, Shared};

// The rounds of a record: one for an ensures.
fn rounds_of(a: &Record) -> u64
    ensures { result ≡ terms.within_rounds a.now.kind a.now.bound }
{
    match a.kind {
        Kind::Ensures => 1,
        _ => a.bound,
    }
}

// What a record says.
fn told(alloc: Global, pl: &Place, ranges: &[Range], a: &Record) -> Result<Led, RuleError>
    requires { FitsIn pl.now.slots.now ranges.now a.now }
    ensures answer { TermGives result (terms.node (site_of pl.now) ranges.now (terms.leads_from a.now)) }
    ensures fits { IfOk result (LedFits pl.now.slots.now ranges.now) }
{
    let claim = Claim {
        p: held_form(alloc, &a.p)?,
        q: held_form(alloc, &a.q)?,
        rounds: u128::from(rounds_of(a)),
        under: copy_forms(alloc, a.under.as_slice())?,
        forms: Seq::new(alloc),
    };
    node(pl, ranges, claim)
}

// `from R`: what the instance says that R refers to.
pub(crate) fn led_from(
    alloc: Global,
    pl: &Place,
    ranges: &[Range],
    book: &[Record],
    r: &Ref,
) -> Result<Led, RuleError>
    requires ranges { All IsRange ranges.now }
    requires book { All (RecordFits pl.now.slots.now) book.now }
    ensures answer { TermGives result (go_on
        (terms.referred (site_of pl.now) ranges.now book.now terms.leads r.now)
        (λ a. terms.node (site_of pl.now) ranges.now (terms.leads_from a))) }
    ensures fits { IfOk result (LedFits pl.now.slots.now ranges.now) }
{
    let a = referred(alloc, pl, ranges, book, Purpose::Lead, r)?;
    told(alloc, pl, ranges, a.get())
}

// That both formulas hold, from copies.
fn both_of(alloc: Global, p: &CForm, q: &CForm) -> Result<Shared<CForm>, AllocError>
    requires p { IsFoldable p.now }
    requires q { IsFoldable q.now }
    ensures { IfOk result (λ f. f ≡ fold.and_form p.now q.now) }
{
    let first = held_form(alloc, p)?;
    let second = held_form(alloc, q)?;
    joined(alloc, Joining::Both, first, second)
}

// That q and the record's p hold, or its q does.
fn kept_or_ended(alloc: Global, q: &CForm, a: &Record) -> Result<Shared<CForm>, AllocError>
    requires q { plain_weight q.now ≤ 2 ^ 62 }
    requires before { plain_weight a.now.p ≤ 2 ^ 62 }
    requires after { plain_weight a.now.q ≤ 2 ^ 62 }
    ensures { IfOk result (λ f. f ≡ fold.or_form (fold.and_form q.now a.now.p) a.now.q) }
{
    let first = held_form(alloc, q)?;
    let kept = joined(alloc, Joining::Both, first, held_form(alloc, &a.p)?)?;
    joined(alloc, Joining::Either, kept, held_form(alloc, &a.q)?)
}

// From p to q in the rounds of a leads-to, beside a record.
fn beside(
    alloc: Global,
    pl: &Place,
    ranges: &[Range],
    t: Led,
    a: &Record,
    p: &CForm,
    q: &CForm,
) -> Result<Led, RuleError>
    requires t { LedFits pl.now.slots.now ranges.now t }
    requires record { FitsIn pl.now.slots.now ranges.now a.now }
    requires p { NamesExist pl.now.slots.now ranges.now p.now }
    requires q { NamesExist pl.now.slots.now ranges.now q.now }
    ensures answer { TermGives result (terms.node (site_of pl.now) ranges.now (beside t a.now p.now q.now)) }
    ensures fits { IfOk result (LedFits pl.now.slots.now ranges.now) }
{
    let more_under = copy_forms(alloc, a.under.as_slice())?;
    let Led {
        p: _first,
        q: _second,
        bound,
        under,
        forms,
    } = t;
    let under = both_lists(alloc, under, more_under)?;
    let claim = Claim {
        p: held_form(alloc, p)?,
        q: held_form(alloc, q)?,
        rounds: u128::from(bound),
        under,
        forms,
    };
    node(pl, ranges, claim)
}

// From p to q, where the unless of the record holds too.
fn kept_safe(
    alloc: Global,
    pl: &Place,
    ranges: &[Range],
    t: Led,
    a: &Record,
) -> Result<Led, RuleError>
    requires t { LedFits pl.now.slots.now ranges.now t }
    requires record { FitsIn pl.now.slots.now ranges.now a.now }
    ensures answer { TermGives result (terms.node (site_of pl.now) ranges.now (terms.leads_safely t a.now)) }
    ensures fits { IfOk result (LedFits pl.now.slots.now ranges.now) }
{
    let p = both_of(alloc, t.p.get(), &a.p)?;
    let q = kept_or_ended(alloc, t.q.get(), a)?;
    beside(alloc, pl, ranges, t, a, p.get(), q.get())
}

// `psp T R`, from what T gives: beside the instance that R refers to.
pub(crate) fn led_safely(
    alloc: Global,
    pl: &Place,
    ranges: &[Range],
    book: &[Record],
    t: Led,
    r: &Ref,
) -> Result<Led, RuleError>
    requires ranges { All IsRange ranges.now }
    requires book { All (RecordFits pl.now.slots.now) book.now }
    requires t { LedFits pl.now.slots.now ranges.now t }
    ensures answer { TermGives result (go_on
        (terms.referred (site_of pl.now) ranges.now book.now is_unless r.now)
        (λ a. terms.node (site_of pl.now) ranges.now (terms.leads_safely t a))) }
    ensures fits { IfOk result (LedFits pl.now.slots.now ranges.now) }
{
    let a = referred(alloc, pl, ranges, book, Purpose::Safe, r)?;
    kept_safe(alloc, pl, ranges, t, a.get())
}
