// That a formula holds at one of the numbers of a range. Where it names no slot and no other parameter its truth is
// found over stretches of numbers at once; else the disjunction grows with each number, and is soon too large.
ghost use Rattle.std.specs.Prelude.{◌≡◌, ℕ, ◌+◌, ◌<◌, ◌≤◌, ◌^◌, nat_eq, cond, pos, ◌+ℤ◌};
ghost use Rattle.std.specs.Prelude.{Some, None, IfOk, IfSome, MatchOption, map, true};
ghost use Rattle.std.specs.Int.RustNames.{unsigned_abs};
ghost use Rattle.core_terms.specs.Conditions.{IsRange};
ghost use Rattle.core_terms.specs.Folding as fold;
ghost use Rattle.core_terms.specs.Weights.{plain_weight};
ghost use Rattle.core_terms.specs.declared.documents.Arg.{Arg as TheArg};
ghost use Rattle.core_terms.specs.declared.trees.CForm.TheVariants.{Top, Bottom};
ghost use Rattle.rules_table.specs.Forms.{any_of, or_any};
ghost use Rattle.rules_table.specs.Numbers.{numbers_of, args_from};
ghost use Rattle.leadsto_rules.specs.Disjunctions.{instance_at, instances_at, IsInstanced, DisjunctionKnown};
ghost use Rattle.leadsto_rules.specs.Disjunctions.{IsJoinedSoFar, GivesAny};

use crate::inductions::count_of;
use crate::lines::{Start, Stretch};
use crate::stretches::truth_on;
use case_tables::Code;
use core_terms::{Arg, CForm, Joining, Range, joined_known, size_of, truth_of, with_params};
use safety_rules::RuleError;
use std::alloc::{AllocError, Global};
use unity_base::{Seq, Shared};

// A formula, the number of a name in it, and the ranges of all names.
#[derive(Drop)]
pub(crate) struct Instances<'a> {
    pub ranges: &'a [Range],
    pub name: u32,
    pub form: &'a CForm,
}

// The formula at the first numbers, joined: its truth, where that is known, how many nodes were counted, and how
// many numbers are done.
#[derive(Drop)]
struct Disjunction {
    whole: Shared<CForm>,
    truth: Option<bool>,
    nodes: u64,
    done: u64,
}

// The argument at a place: the number for the name, and for another name itself. More names than a u32 numbers
// do not fit in memory.
fn argument(name: u32, number: i64, place: usize) -> Result<Arg, AllocError>
    ensures { IfOk result (λ a. a ≡ cond (nat_eq place name) (TheArg.Number number) (TheArg.Param place (pos 0))) }
{
    if place == name as usize {
        return Ok(Arg::Number(number));
    }
    match u32::try_from(place) {
        Ok(other) => Ok(Arg::Param {
            number: other,
            add: 0,
        }),
        Err(_) => Err(AllocError),
    }
}

// The arguments that put a number for the name.
fn arguments(alloc: Global, i: &Instances, number: i64) -> Result<Seq<Arg>, AllocError>
    ensures { IfOk result (λ args. args ≡ args_from 0 i.now.name number i.now.ranges.now) }
{
    let mut args = Seq::new(alloc);
    for place in 0..i.ranges.len() {
        args.push(argument(i.name, number, place)?)?;
    }
    Ok(args)
}

// The formula at a number.
fn instance(alloc: Global, i: &Instances, number: i64) -> Result<Shared<CForm>, AllocError>
    requires formula { IsInstanced i.now }
    requires number { unsigned_abs number ≤ 2 ^ 62 }
    ensures tree { IfOk result (λ f. f ≡ instance_at i.now number) }
    ensures weight { IfOk result (λ f. plain_weight f ≤ 2 ^ 126) }
{
    let args = arguments(alloc, i, number)?;
    Shared::new(alloc, with_params(alloc, i.form, args.as_slice())?)
}

// The formula at a first number.
fn started(alloc: Global, i: &Instances, number: i64) -> Result<Disjunction, AllocError>
    requires formula { IsInstanced i.now }
    requires number { unsigned_abs number ≤ 2 ^ 62 }
    ensures whole { IfOk result (λ d. d.whole ≡ instance_at i.now number) }
    ensures done { IfOk result (λ d. d.done ≡ 1) }
    ensures known { IfOk result DisjunctionKnown }
{
    let whole = instance(alloc, i, number)?;
    let truth = truth_of(whole.get());
    let nodes = size_of(whole.get());
    Ok(Disjunction {
        whole,
        truth,
        nodes,
        done: 1,
    })
}

// How many nodes are counted of two formulas joined, whose truth this is.
fn nodes_of(truth: Option<bool>, first: u64, second: u64) -> u64
    ensures { MatchOption truth (result ≤ 1 + first + second) (λ holds. result ≡ 0) }
{
    match truth {
        Some(_) => 0,
        None => first.saturating_add(second).saturating_add(1),
    }
}

// A disjunction with one formula more.
fn joined(alloc: Global, d: Disjunction, g: Shared<CForm>) -> Result<Disjunction, AllocError>
    requires known { DisjunctionKnown d }
    requires weight { plain_weight g ≤ 2 ^ 126 }
    requires done { d.done < 2 ^ 32 }
    ensures whole { IfOk result (λ e. e.whole ≡ fold.or_form d.whole g) }
    ensures done { IfOk result (λ e. e.done ≡ d.done + 1) }
    ensures known { IfOk result DisjunctionKnown }
{
    let Disjunction {
        whole,
        truth: first,
        nodes,
        done,
    } = d;
    let more = size_of(g.get());
    let mut truth = truth_of(g.get());
    let whole = joined_known(alloc, Joining::Either, whole, first, g, &mut truth)?;
    Ok(Disjunction {
        whole,
        truth,
        nodes: nodes_of(truth, nodes, more),
        done: done + 1,
    })
}

// A disjunction of which no more than its truth is left.
fn settled(alloc: Global, holds: bool, done: u64) -> Result<Disjunction, AllocError>
    ensures whole { IfOk result (λ d. d.whole ≡ cond holds Top Bottom) }
    ensures done { IfOk result (λ d. d.done ≡ done) }
    ensures known { IfOk result DisjunctionKnown }
{
    let whole = if holds { CForm::Top } else { CForm::Bottom };
    Ok(Disjunction {
        whole: Shared::new(alloc, whole)?,
        truth: Some(holds),
        nodes: 0,
        done,
    })
}

// The truth of the formula at a number and at some that follow, where it is known.
fn stretch(i: &Instances, number: i64, reach: u64) -> Option<Stretch>
    ensures truth { IfSome result (λ s. (k : ℕ) → k ≤ s.reach →
        fold.truth_of (instance_at i.now (number +ℤ pos k)) ≡ Some s.holds) }
    ensures reach { IfSome result (λ s. s.reach ≤ reach) }
{
    if (i.name as usize) < i.ranges.len() {
        let start = Start {
            name: i.name,
            number,
            reach,
        };
        truth_on(i.form, &start)
    } else {
        None
    }
}

// The truth of the disjunction with the formula at a number and at some that follow, where both are known.
fn known_with(d: &Disjunction, i: &Instances, number: i64, reach: u64) -> Option<Stretch>
    requires { DisjunctionKnown d.now }
    ensures truth { IfSome result (λ s.
        or_any d.now.whole (instances_at i.now number (s.reach + 1)) ≡ cond s.holds Top Bottom) }
    ensures reach { IfSome result (λ s. s.reach ≤ reach) }
{
    let first = d.truth?;
    let more = stretch(i, number, reach)?;
    Some(Stretch {
        holds: first || more.holds,
        reach: more.reach,
    })
}

// The number that so many numbers stand before, from the first on.
fn number_after(low: i64, done: u64) -> i64
    requires low { unsigned_abs low ≤ 1000000000 }
    requires done { done ≤ 2000000001 }
    ensures { result ≡ low +ℤ pos done }
{
    low + done as i64
}

// The disjunction with one more number, or with some.
fn further(
    alloc: Global,
    d: Disjunction,
    i: &Instances,
    low: i64,
    total: u64,
) -> Result<Disjunction, AllocError>
    requires formula { IsInstanced i.now }
    requires low { unsigned_abs low ≤ 1000000000 }
    requires total { total ≤ 2000000001 }
    requires before { IsJoinedSoFar i.now low total d }
    requires more { d.done < total }
    ensures after { IfOk result (IsJoinedSoFar i.now low total) }
    ensures further { IfOk result (λ e. d.done < e.done) }
{
    let number = number_after(low, d.done);
    match known_with(&d, i, number, total - d.done - 1) {
        Some(s) => settled(alloc, s.holds, d.done + s.reach + 1),
        None => {
            let g = instance(alloc, i, number)?;
            joined(alloc, d, g)
        }
    }
}

// Whether a disjunction is too large for a conclusion, and so whatever is joined to it.
fn is_too_large(d: &Disjunction) -> bool
    ensures { result ≡ true → (d.now.truth ≡ None) × (65536 < d.now.nodes) }
{
    d.truth.is_none() && d.nodes > 65_536
}

// That the formula holds at one of the numbers of a range, unless that is too large for a conclusion.
pub(crate) fn any_instance(
    alloc: Global,
    i: &Instances,
    range: Range,
) -> Result<Shared<CForm>, RuleError>
    requires formula { IsInstanced i.now }
    requires range { IsRange range }
    ensures { GivesAny result (any_of (map (instance_at i.now) (numbers_of range))) }
{
    let total = count_of(range);
    let mut d = started(alloc, i, range.lo)?;
    'numbers: while d.done < total {
        d = further(alloc, d, i, range.lo, total)?;
        if is_too_large(&d) {
            return Err(RuleError::Fault(Code::FormulaTooLarge));
        }
    }
    let Disjunction {
        whole,
        truth: _truth,
        nodes: _nodes,
        done: _done,
    } = d;
    Ok(whole)
}
