// What wrong bodies change of records and of answers.
ghost use Rattle.std.specs.Prelude.{◌≡◌, IfOk, OnOk, Ok, [], slice_get, take};
ghost use Rattle.wrong_rules.specs.Changes.{changed, either, either_at, goals_of, less_first, rounds_of};
ghost use Rattle.wrong_rules.specs.Changes.{turned, with_bound, with_goals, with_kind};

use case_tables::Kind;
use core_terms::{CForm, Range, copy_form, copy_forms, held_form};
use fair_rounds::Record;
use obligations::Obligation;
use safety_rules::{Derived, RuleError, copied_helper};
use std::alloc::{AllocError, Global};
use unity_base::{Held, Seq, Shared};

fn copied_ranges(alloc: Global, ranges: &[Range]) -> Result<Seq<Range>, AllocError>
    ensures { IfOk result (λ copy. copy ≡ ranges.now) }
{
    let mut copy = Seq::new(alloc);
    for range in ranges {
        copy.push(*range)?;
    }
    Ok(copy)
}

/// A copy of a record, with this kind, this end, and these formulas under which it stands.
///
/// An error says that memory was refused.
pub fn changed_record(
    alloc: Global,
    a: &Record,
    kind: Kind,
    q: &CForm,
    under: &[CForm],
) -> Result<Held<Record>, AllocError>
    ensures { IfOk result (λ r. r ≡ record a.now { kind = kind; q = q.now; under = under.now }) }
{
    let p = copy_form(alloc, &a.p)?;
    let q = copy_form(alloc, q)?;
    let under = copy_forms(alloc, under)?;
    let params = copied_ranges(alloc, a.params.as_slice())?;
    let helper = copied_helper(alloc, &a.helper)?;
    Held::new(
        alloc,
        Record {
            name: a.name,
            program: a.program,
            kind,
            p,
            q,
            under,
            params,
            bound: a.bound,
            helper,
        },
    )
}

/// An answer with these rounds.
pub fn with_bound(answer: Result<Derived, RuleError>, bound: u64) -> Result<Derived, RuleError>
    ensures { result ≡ changed (with_bound bound) answer }
{
    let mut derived = answer?;
    derived.made.bound = bound;
    Ok(derived)
}

/// The rounds of an answer, and 0 where there is none.
pub fn rounds_of(answer: &Result<Derived, RuleError>) -> u64
    ensures { result ≡ rounds_of answer.now }
{
    match answer {
        Ok(derived) => derived.made.bound,
        Err(_) => 0,
    }
}

/// An answer of this kind.
pub fn with_kind(answer: Result<Derived, RuleError>, kind: Kind) -> Result<Derived, RuleError>
    ensures { result ≡ changed (with_kind kind) answer }
{
    let mut derived = answer?;
    derived.made.kind = kind;
    Ok(derived)
}

/// An answer whose two sides have changed places.
pub fn turned(answer: Result<Derived, RuleError>) -> Result<Derived, RuleError>
    ensures { result ≡ changed turned answer }
{
    let mut derived = answer?;
    std::mem::swap(&mut derived.made.p, &mut derived.made.q);
    Ok(derived)
}

/// An answer without the first of its obligations.
pub fn without_first_goal(answer: Result<Derived, RuleError>) -> Result<Derived, RuleError>
    ensures { result ≡ changed (with_goals less_first) answer }
{
    let mut derived = answer?;
    if !derived.obligations.is_empty() {
        let _first = derived.obligations.remove(0);
    }
    Ok(derived)
}

/// An answer with so many of its obligations, from the first on.
pub fn with_first_goals(
    answer: Result<Derived, RuleError>,
    count: usize,
) -> Result<Derived, RuleError>
    ensures { result ≡ changed (with_goals (take count)) answer }
{
    let mut derived = answer?;
    derived.obligations.truncate(count);
    Ok(derived)
}

/// An answer with the obligations of another one.
pub fn with_goals_of(
    answer: Result<Derived, RuleError>,
    other: Result<Derived, RuleError>,
) -> Result<Derived, RuleError>
    ensures { result ≡ changed (with_goals (goals_of other)) answer }
{
    match (answer, other) {
        (Ok(derived), Ok(other)) => Ok(Derived {
            made: derived.made,
            obligations: other.obligations,
        }),
        (answer, _) => answer,
    }
}

// That one of two obligations holds.
fn either(alloc: Global, one: &Obligation, two: Obligation) -> Result<Held<Obligation>, AllocError>
    ensures { IfOk result (λ o. o ≡ either one.now two) }
{
    let Obligation { form, variables } = two;
    let second = Shared::new(alloc, form)?;
    let first = held_form(alloc, &one.form)?;
    let form = CForm::Or(first, second);
    Held::new(alloc, Obligation { form, variables })
}

// At this place of the obligations, that it or the other one holds.
fn put_either(
    alloc: Global,
    goals: &mut Seq<Obligation>,
    place: usize,
    other: Obligation,
) -> Result<(), AllocError>
    ensures { OnOk result (goals.new ≡ either_at place goals.old other) }
{
    if place < goals.len() {
        let whole = either(alloc, &goals.as_slice()[place], other)?;
        let _one = goals.replace(place, whole.into_inner());
    }
    Ok(())
}

/// An answer whose obligation at this place is that it or the other one holds.
///
/// An error more than those of the answer says that memory was refused.
pub fn with_either_goal(
    alloc: Global,
    answer: Result<Derived, RuleError>,
    place: usize,
    other: Obligation,
) -> Result<Derived, RuleError>
    ensures { IfOk result (λ d. Ok d ≡ changed (with_goals (λ goals. either_at place goals other)) answer) }
{
    let mut derived = answer?;
    put_either(alloc, &mut derived.obligations, place, other)?;
    Ok(derived)
}

/// The obligation at this place of an answer, where it has one.
pub fn goal_at(answer: Result<Derived, RuleError>, place: usize) -> Option<Obligation>
    ensures { result ≡ slice_get (goals_of answer []) place }
{
    match answer {
        Ok(mut derived) => {
            if place < derived.obligations.len() {
                Some(derived.obligations.remove(place))
            } else {
                None
            }
        }
        Err(_) => None,
    }
}
