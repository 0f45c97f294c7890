// What each form of node gives, from what its parts give.
ghost use Rattle.std.specs.Prelude.{◌≡◌, ◌≤◌, ◌++◌, max, IfOk, Result};
ghost use Rattle.case_tables.specs.declared.code_table.Code.{Code as TheCode};
ghost use Rattle.core_terms.specs.Conditions.{FormFits};
ghost use Rattle.core_terms.specs.Folding as fold;
ghost use Rattle.core_terms.specs.Senses.{joined_form};
ghost use Rattle.core_terms.specs.Trees.{same_form};
ghost use Rattle.core_terms.specs.Weights.{plain_weight};
ghost use Rattle.safety_rules.specs.Foldable.{IsFoldable};
ghost use Rattle.rules_table.specs.Table.{go_on, needs};
ghost use Rattle.rules_table.specs.Terms as terms;
ghost use Rattle.rules_table.specs.declared.led.Led.{Led as TheLed};
ghost use Rattle.safety_rules.specs.Answers.{site_of, IsPlace};
ghost use Rattle.leadsto_rules.specs.Leading.{TermGives, LedFits};

use crate::gathering::follows;
use crate::joining::both_lists;
use crate::nodes::{Claim, node};
use case_tables::Code;
use core_terms::{CForm, Joining, Range, and_form, held_form, or_form, owned_form};
use rules_table::Led;
use safety_rules::{Place, RuleError, is_same};
use std::alloc::{AllocError, Global};
use unity_base::{Seq, Shared};

// That two formulas hold, or that one of them does.
pub(crate) fn joined(
    alloc: Global,
    joining: Joining,
    p: Shared<CForm>,
    q: Shared<CForm>,
) -> Result<Shared<CForm>, AllocError>
    requires p { IsFoldable p }
    requires q { IsFoldable q }
    ensures tree { IfOk result (λ f. f ≡ joined_form joining p q) }
    ensures weight { IfOk result (λ f. plain_weight f ≤ max (plain_weight p) (plain_weight q)) }
{
    let p = owned_form(alloc, p)?;
    let q = owned_form(alloc, q)?;
    match joining {
        Joining::Both => Shared::new(alloc, and_form(alloc, p, q)?),
        Joining::Either => Shared::new(alloc, or_form(alloc, p, q)?),
    }
}

// That one of two formulas holds, from copies.
fn either_of(alloc: Global, p: &CForm, q: &CForm) -> Result<Shared<CForm>, AllocError>
    requires p { IsFoldable p.now }
    requires q { IsFoldable q.now }
    ensures { IfOk result (λ f. f ≡ fold.or_form p.now q.now) }
{
    let first = held_form(alloc, p)?;
    let second = held_form(alloc, q)?;
    joined(alloc, Joining::Either, first, second)
}

// `imply p q`: within no round.
pub(crate) fn led_by(
    alloc: Global,
    pl: &Place,
    ranges: &[Range],
    p: &CForm,
    q: &CForm,
) -> Result<Led, RuleError>
    requires place { IsPlace pl.now }
    requires p { FormFits pl.now.slots.now ranges.now p.now }
    requires q { FormFits pl.now.slots.now ranges.now q.now }
    ensures answer { TermGives result
        (terms.node (site_of pl.now) ranges.now (terms.leads_by pl.now.using.now p.now q.now)) }
    ensures fits { IfOk result (LedFits pl.now.slots.now ranges.now) }
{
    let form = follows(alloc, pl, p, q)?;
    let mut forms = Seq::new(alloc);
    forms.push(owned_form(alloc, form)?)?;
    let claim = Claim {
        p: held_form(alloc, p)?,
        q: held_form(alloc, q)?,
        rounds: 0,
        under: Seq::new(alloc),
        forms,
    };
    node(pl, ranges, claim)
}

// A claim over two terms: under what either stands under, and with what either leaves to be shown.
fn claim_over(
    alloc: Global,
    p: Shared<CForm>,
    q: Shared<CForm>,
    rounds: u128,
    t: Led,
    u: Led,
) -> Result<Claim, AllocError>
    ensures p { IfOk result (λ c. c.p ≡ p) }
    ensures q { IfOk result (λ c. c.q ≡ q) }
    ensures rounds { IfOk result (λ c. c.rounds ≡ rounds) }
    ensures under { IfOk result (λ c. c.under ≡ t.under ++ u.under) }
    ensures forms { IfOk result (λ c. c.forms ≡ t.forms ++ u.forms) }
{
    let Led {
        p: _p,
        q: _q,
        bound: _bound,
        under,
        forms,
    } = t;
    let Led {
        p: _other_p,
        q: _other_q,
        bound: _other_bound,
        under: more_under,
        forms: more_forms,
    } = u;
    let under = both_lists(alloc, under, more_under)?;
    let forms = both_lists(alloc, forms, more_forms)?;
    Ok(Claim {
        p,
        q,
        rounds,
        under,
        forms,
    })
}

// `trans T U`, from what T gives and what U does: from p to q and from q to r, so from p to r.
pub(crate) fn led_on(
    alloc: Global,
    pl: &Place,
    ranges: &[Range],
    t: Led,
    u: Result<Led, RuleError>,
) -> Result<Led, RuleError>
    requires t { LedFits pl.now.slots.now ranges.now t }
    requires u { IfOk u (LedFits pl.now.slots.now ranges.now) }
    ensures answer { (row : Result TheLed TheCode) → TermGives u row → TermGives result (go_on row (λ u.
        needs (same_form t.q u.p) TheCode.MiddleDiffers
        (terms.node (site_of pl.now) ranges.now (terms.leads_on t u)))) }
    ensures fits { IfOk result (LedFits pl.now.slots.now ranges.now) }
{
    let u = u?;
    if !is_same(t.q.get(), u.p.get()) {
        return Err(RuleError::Fault(Code::MiddleDiffers));
    }
    let p = t.p.share()?;
    let q = u.q.share()?;
    let rounds = u128::from(t.bound) + u128::from(u.bound);
    let claim = claim_over(alloc, p, q, rounds, t, u)?;
    node(pl, ranges, claim)
}

// `either T U`, from what T gives and what U does: from p to r and from q to r, so from p or q to r.
pub(crate) fn led_either(
    alloc: Global,
    pl: &Place,
    ranges: &[Range],
    t: Led,
    u: Result<Led, RuleError>,
) -> Result<Led, RuleError>
    requires t { LedFits pl.now.slots.now ranges.now t }
    requires u { IfOk u (LedFits pl.now.slots.now ranges.now) }
    ensures answer { (row : Result TheLed TheCode) → TermGives u row → TermGives result (go_on row (λ u. needs
        (same_form t.q u.q) TheCode.MiddleDiffers (terms.node (site_of pl.now) ranges.now (terms.leads_either t u)))) }
    ensures fits { IfOk result (LedFits pl.now.slots.now ranges.now) }
{
    let u = u?;
    if !is_same(t.q.get(), u.q.get()) {
        return Err(RuleError::Fault(Code::MiddleDiffers));
    }
    let p = either_of(alloc, t.p.get(), u.p.get())?;
    let q = t.q.share()?;
    let rounds = u128::from(t.bound.max(u.bound));
    let claim = claim_over(alloc, p, q, rounds, t, u)?;
    node(pl, ranges, claim)
}

// `weaken p q T`: from a stronger p to a weaker q.
pub(crate) fn led_weaker(
    alloc: Global,
    pl: &Place,
    ranges: &[Range],
    p: &CForm,
    q: &CForm,
    t: Led,
) -> Result<Led, RuleError>
    requires place { IsPlace pl.now }
    requires p { FormFits pl.now.slots.now ranges.now p.now }
    requires q { FormFits pl.now.slots.now ranges.now q.now }
    requires t { LedFits pl.now.slots.now ranges.now t }
    ensures answer { TermGives result
        (terms.node (site_of pl.now) ranges.now (terms.leads_weaker pl.now.using.now p.now q.now t)) }
    ensures fits { IfOk result (LedFits pl.now.slots.now ranges.now) }
{
    let before = follows(alloc, pl, p, t.p.get())?;
    let after = follows(alloc, pl, t.q.get(), q)?;
    let Led {
        p: _first,
        q: _second,
        bound,
        under,
        forms,
    } = t;
    let mut forms = forms;
    forms.push(owned_form(alloc, before)?)?;
    forms.push(owned_form(alloc, after)?)?;
    let claim = Claim {
        p: held_form(alloc, p)?,
        q: held_form(alloc, q)?,
        rounds: u128::from(bound),
        under,
        forms,
    };
    node(pl, ranges, claim)
}
