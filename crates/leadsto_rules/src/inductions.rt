// Induction over a measure.
ghost use Rattle.std.specs.Prelude.{◌≡◌, ◌*◌, ◌&&◌, ◌++◌, ◌∷◌, [], IfOk, pos};
ghost use Rattle.case_tables.specs.declared.code_table.Code.{Code as TheCode};
ghost use Rattle.core_terms.specs.Conditions.{IsRange};
ghost use Rattle.core_terms.specs.Folding as fold;
ghost use Rattle.core_terms.specs.Trees.{same_form};
ghost use Rattle.core_terms.specs.declared.trees.CTerm.TheVariants.{Const, Param};
ghost use Rattle.safety_rules.specs.Foldable.{IsFoldable};
ghost use Rattle.rules_table.specs.Forms as formula;
ghost use Rattle.rules_table.specs.Table.{needs};
ghost use Rattle.rules_table.specs.Terms as terms;
ghost use Rattle.safety_rules.specs.Answers.{site_of, IsPlace};
ghost use Rattle.meaning_executions.specs.Counting.{range_size};
ghost use Rattle.leadsto_rules.specs.Inductions.{IsLightInduction, InductionFits};
ghost use Rattle.leadsto_rules.specs.Leading.{TermGives, LedFits};

use crate::nodes::{Claim, node};
use crate::parts::joined;
use case_tables::Code;
use core_terms::{
    CForm, CTerm, Joining, Range, at_least_form, copy_form, difference_term, held_form, held_term,
    not_form, owned_form, owned_term, zero_form,
};
use rules_table::Led;
use safety_rules::{Place, RuleError, implied, is_same, using_and};
use std::alloc::{AllocError, Global};
use unity_base::Shared;

// What an induction is over: a name and its range, a measure, p and q.
#[derive(Drop)]
pub(crate) struct Induction<'a> {
    pub name: u32,
    pub range: Range,
    pub measure: &'a CTerm,
    pub p: &'a CForm,
    pub q: &'a CForm,
}

// That the measure is the name's number.
fn at_number(alloc: Global, i: &Induction) -> Result<Shared<CForm>, AllocError>
    requires { IsLightInduction i.now }
    ensures tree { IfOk result (λ f. f ≡ fold.zero_form (fold.difference_term i.now.measure.now (Param i.now.name))) }
    ensures foldable { IfOk result IsFoldable }
{
    let measure = held_term(alloc, i.measure)?;
    let gap = Shared::new(
        alloc,
        difference_term(alloc, owned_term(alloc, measure)?, CTerm::Param(i.name))?,
    )?;
    Shared::new(alloc, zero_form(owned_term(alloc, gap)?))
}

// p, where the measure is the name's number.
fn at_measure(alloc: Global, i: &Induction) -> Result<Shared<CForm>, AllocError>
    requires { IsLightInduction i.now }
    ensures { IfOk result (λ f. f ≡ terms.at_measure i.now.measure.now i.now.name i.now.p.now) }
{
    let at = at_number(alloc, i)?;
    joined(alloc, Joining::Both, held_form(alloc, i.p)?, at)
}

// That the measure is below the name's number.
fn below_number(alloc: Global, i: &Induction) -> Result<Shared<CForm>, AllocError>
    requires { IsLightInduction i.now }
    ensures tree { IfOk result (λ f. f ≡ fold.at_least_form
        (fold.difference_term (fold.difference_term (Param i.now.name) i.now.measure.now) (Const (pos 1)))) }
    ensures foldable { IfOk result IsFoldable }
{
    let measure = held_term(alloc, i.measure)?;
    let gap = Shared::new(
        alloc,
        difference_term(alloc, CTerm::Param(i.name), owned_term(alloc, measure)?)?,
    )?;
    let less = Shared::new(
        alloc,
        difference_term(alloc, owned_term(alloc, gap)?, CTerm::Const(1))?,
    )?;
    Shared::new(alloc, at_least_form(owned_term(alloc, less)?))
}

// p where the measure is below the name's number, or q.
fn below_measure(alloc: Global, i: &Induction) -> Result<Shared<CForm>, AllocError>
    requires { IsLightInduction i.now }
    ensures { IfOk result (λ f. f ≡ terms.below_measure i.now.measure.now i.now.name i.now.p.now i.now.q.now) }
{
    let below = below_number(alloc, i)?;
    let kept = joined(alloc, Joining::Both, held_form(alloc, i.p)?, below)?;
    joined(alloc, Joining::Either, kept, held_form(alloc, i.q)?)
}

// That a number is at most the measure.
fn above_low(alloc: Global, i: &Induction) -> Result<Shared<CForm>, AllocError>
    requires { IsLightInduction i.now }
    ensures tree { IfOk result (λ f. f ≡ fold.at_least_form
        (fold.difference_term i.now.measure.now (Const i.now.range.lo))) }
    ensures foldable { IfOk result IsFoldable }
{
    let measure = held_term(alloc, i.measure)?;
    let gap = Shared::new(
        alloc,
        difference_term(alloc, owned_term(alloc, measure)?, CTerm::Const(i.range.lo))?,
    )?;
    Shared::new(alloc, at_least_form(owned_term(alloc, gap)?))
}

// That the measure is at most a number.
fn below_high(alloc: Global, i: &Induction) -> Result<Shared<CForm>, AllocError>
    requires { IsLightInduction i.now }
    ensures tree { IfOk result (λ f. f ≡ fold.at_least_form
        (fold.difference_term (Const i.now.range.hi) i.now.measure.now)) }
    ensures foldable { IfOk result IsFoldable }
{
    let measure = held_term(alloc, i.measure)?;
    let gap = Shared::new(
        alloc,
        difference_term(alloc, CTerm::Const(i.range.hi), owned_term(alloc, measure)?)?,
    )?;
    Shared::new(alloc, at_least_form(owned_term(alloc, gap)?))
}

// Where U and p hold and q does not, the measure lies in the range.
fn lies(alloc: Global, pl: &Place, i: &Induction) -> Result<Shared<CForm>, AllocError>
    requires place { IsPlace pl.now }
    requires light { IsLightInduction i.now }
    ensures { IfOk result (λ f. f ≡ formula.imply (pl.now.using.now ++ i.now.p.now ∷ fold.not_form i.now.q.now ∷ [])
        (terms.measure_lies i.now.measure.now i.now.range)) }
{
    let mut premises = using_and(alloc, pl, i.p)?;
    premises.push(not_form(alloc, copy_form(alloc, i.q)?)?)?;
    let low = above_low(alloc, i)?;
    let high = below_high(alloc, i)?;
    let within = joined(alloc, Joining::Both, low, high)?;
    implied(alloc, premises.as_slice(), within)
}

// How many numbers lie in a range.
#[tactic(auto, using(crate::proofs::InductionLaws::natural_abs))]
pub(crate) fn count_of(range: Range) -> u64
    requires { IsRange range }
    ensures { result ≡ range_size (range.lo, range.hi) }
{
    (range.hi + 1 - range.lo) as u64
}

// So many rounds for each number of a range.
fn rounds_down(range: Range, rounds: u64) -> u128
    requires { IsRange range }
    ensures { result ≡ range_size (range.lo, range.hi) * rounds }
{
    u128::from(count_of(range)) * u128::from(rounds)
}

// From p to q, since the measure falls.
fn fallen(
    alloc: Global,
    pl: &Place,
    ranges: &[Range],
    i: &Induction,
    t: Led,
) -> Result<Led, RuleError>
    requires place { IsPlace pl.now }
    requires induction { InductionFits pl.now.slots.now ranges.now i.now }
    requires t { LedFits pl.now.slots.now ranges.now t }
    ensures answer { TermGives result (terms.node (site_of pl.now) ranges.now
        (terms.leads_down pl.now.using.now i.now.range i.now.measure.now i.now.p.now i.now.q.now t)) }
    ensures fits { IfOk result (LedFits pl.now.slots.now ranges.now) }
{
    let form = lies(alloc, pl, i)?;
    let Led {
        p: _first,
        q: _second,
        bound,
        under,
        forms,
    } = t;
    let mut forms = forms;
    forms.push(owned_form(alloc, form)?)?;
    let claim = Claim {
        p: held_form(alloc, i.p)?,
        q: held_form(alloc, i.q)?,
        rounds: rounds_down(i.range, bound),
        under,
        forms,
    };
    node(pl, ranges, claim)
}

// `induct`, from what its part gives.
pub(crate) fn led_down(
    alloc: Global,
    pl: &Place,
    ranges: &[Range],
    i: &Induction,
    t: Led,
) -> Result<Led, RuleError>
    requires place { IsPlace pl.now }
    requires induction { InductionFits pl.now.slots.now ranges.now i.now }
    requires t { LedFits pl.now.slots.now ranges.now t }
    ensures answer { TermGives result (needs (same_form t.p (terms.at_measure i.now.measure.now i.now.name i.now.p.now)
        && same_form t.q (terms.below_measure i.now.measure.now i.now.name i.now.p.now i.now.q.now))
        TheCode.MiddleDiffers (terms.node (site_of pl.now) ranges.now
        (terms.leads_down pl.now.using.now i.now.range i.now.measure.now i.now.p.now i.now.q.now t))) }
    ensures fits { IfOk result (LedFits pl.now.slots.now ranges.now) }
{
    let at = at_measure(alloc, i)?;
    let below = below_measure(alloc, i)?;
    if is_same(t.p.get(), at.get()) && is_same(t.q.get(), below.get()) {
        fallen(alloc, pl, ranges, i, t)
    } else {
        Err(RuleError::Fault(Code::MiddleDiffers))
    }
}
