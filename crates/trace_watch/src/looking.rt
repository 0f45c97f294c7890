// All cases looked at, at one place.
ghost use Rattle.std.specs.Prelude.{◌≡◌, ◌<◌, ◌++◌, ◌∷◌, [], ℕ, List, All, IfSome, IsTrue, option_to_list, length, map};
ghost use Rattle.std.specs.Prelude.{not, ◌&&◌, cond, Some, None};
ghost use Rattle.std.specs.List.{position_from};
ghost use Rattle.std.specs.Option.{option_or, ForSome};
ghost use Rattle.meaning_states.specs.State.{State};
ghost use Rattle.fair_rounds.specs.Records.{are_in_ranges, holding};
ghost use Rattle.trace_watch.specs.Readings.{is_violated};
ghost use Rattle.trace_watch.specs.Cases.{case_count, environments, reading_of};
ghost use Rattle.trace_watch.specs.Violations.{first_case, violation};
ghost use Rattle.trace_watch.specs.Places.{system_at, instances_at, state_at, before_at, RecordFormsFit, TrialFits};
ghost use Rattle.trace_watch.specs.Places as places;
ghost use Rattle.trace_watch.specs.Waiting.{CaseStands, CasesStand, CaseSaw, CasesSaw, seen_at, verdict};
ghost use Rattle.trace_watch.specs.Readings as readings;
ghost use Rattle.trace_watch.specs.Stepping.{StepFits, StepStands, StepSaw, watched_as};

use crate::case::{Case, Findings, Seen};
use crate::keeping::keeps_forms;
use crate::numbers::case_values;
use crate::place::Place;
use crate::step::Step;
use crate::trial::Trial;
use crate::trying::is_helped;
use crate::violations::Violation;
use case_tables::Kind;
use core_terms::holds;
use fair_rounds::Record;

// Of a claim with more cases than this it is asked once at a place whether what it names has changed, which costs no
// more than to look at one case.
const FEW_CASES: usize = 4;

// Whether p and q hold here. Where all that they name has the numbers that it had at the place before, that is what
// was seen there.
fn seen_here(
    here: &Place,
    claim: &Record,
    is_kept: bool,
    values: &[i64],
    before: Option<Seen>,
) -> Seen
    requires fits { RecordFormsFit here.now.slots.now claim.now }
    requires values { IsTrue (are_in_ranges claim.now.params values.now) }
    requires kept { IsTrue is_kept → IsTrue (places.keeps_forms here.now claim.now) }
    requires saw { ForSome before (λ seen.
        seen ≡ seen_at (reading_of here.now.program.now claim.now values.now) (before_at here.now)) }
    ensures { seen_at (reading_of here.now.program.now claim.now values.now) (state_at here.now) ≡ result }
{
    if is_kept {
        if let Some(seen) = before {
            return seen;
        }
    }
    let p = holds(&claim.p, here.state, values);
    let q = holds(&claim.q, here.state, values);
    Seen { p, q }
}

// One place more for a case, and whether it is violated there.
fn look_case(
    here: &Place,
    claim: &Record,
    is_kept: bool,
    values: &[i64],
    choice: Option<u32>,
    trial: &mut Trial,
    case: &mut Case,
) -> bool
    requires fits { RecordFormsFit here.now.slots.now claim.now }
    requires values { IsTrue (are_in_ranges claim.now.params values.now) }
    requires kept { IsTrue is_kept → IsTrue (places.keeps_forms here.now claim.now) }
    requires choice { IfSome choice (λ c. c < instances_at here.now) }
    requires trial { TrialFits here.now trial.old }
    requires saw { CaseSaw (before_at here.now) case.old (reading_of here.now.program.now claim.now values.now) }
    ensures trial { TrialFits here.now trial.new }
    ensures saw { CaseSaw (state_at here.now) case.new (reading_of here.now.program.now claim.now values.now) }
    ensures stands { (states : List State) (choices : List ℕ) →
        length (choices ++ option_to_list choice) ≡ length states →
        CaseStands (instances_at here.now) case.old (reading_of here.now.program.now claim.now values.now) states
        choices →
        CaseStands (instances_at here.now) case.new (reading_of here.now.program.now claim.now values.now)
        (states ++ state_at here.now ∷ []) (choices ++ option_to_list choice) }
    ensures violated { (states : List State) (choices : List ℕ) →
        length (choices ++ option_to_list choice) ≡ length states →
        CaseStands (instances_at here.now) case.old (reading_of here.now.program.now claim.now values.now) states
        choices →
        result ≡ is_violated (system_at here.now) (reading_of here.now.program.now claim.now values.now)
        (states ++ state_at here.now ∷ []) (choices ++ option_to_list choice) }
{
    let now = seen_here(here, claim, is_kept, values, case.before);
    let found = case.find(claim.kind, claim.bound, now, choice);
    fails(here, claim, values, case.helper, found, trial)
}

// Whether a case is violated, by what was found of it.
fn fails(
    here: &Place,
    claim: &Record,
    values: &[i64],
    helper: Option<u32>,
    found: Findings,
    trial: &mut Trial,
) -> bool
    requires fits { RecordFormsFit here.now.slots.now claim.now }
    requires values { IsTrue (are_in_ranges claim.now.params values.now) }
    requires trial { TrialFits here.now trial.old }
    ensures trial { TrialFits here.now trial.new }
    ensures verdict { result ≡ verdict claim.now.kind (system_at here.now) (holding values.now claim.now.q) helper
        (state_at here.now) found }
{
    match claim.kind {
        Kind::Defined => trial.is_stuck(here),
        Kind::Invariant => !found.now.p,
        Kind::Unless => found.is_lost,
        Kind::Ensures => found.is_lost
            || fails_to_help(here, claim, values, helper, found.now, &mut trial.room),
        Kind::Leadsto => found.is_overdue,
        Kind::Until => found.is_lost || found.is_overdue,
        Kind::Detects => found.now.p && !found.now.q || found.is_overdue,
        Kind::Constant => found.is_changed,
        Kind::Fixed => found.now.p && !trial.is_fixed(here),
    }
}

// Whether p holds and not q, and the instance that is to help does not.
fn fails_to_help(
    here: &Place,
    claim: &Record,
    values: &[i64],
    helper: Option<u32>,
    now: Seen,
    trial: &mut [i64],
) -> bool
    requires fits { RecordFormsFit here.now.slots.now claim.now }
    requires values { IsTrue (are_in_ranges claim.now.params values.now) }
    requires trial { length trial.old ≡ length (state_at here.now) }
    ensures { result ≡ ((now.p && not now.q)
        && not (readings.is_helped (system_at here.now) (holding values.now claim.now.q) helper (state_at here.now))) }
{
    if now.p && !now.q {
        !is_helped(here, claim, values, helper, trial)
    } else {
        false
    }
}

// One place more for each case of a claim, and the number of the first that is violated there.
fn look_cases(
    here: &Place,
    claim: &Record,
    values: &mut [i64],
    choice: Option<u32>,
    trial: &mut Trial,
    cases: &mut [Case],
) -> Option<u64>
    requires fits { RecordFormsFit here.now.slots.now claim.now }
    requires room { length values.old ≡ length claim.now.params }
    requires count { length cases.old ≡ case_count claim.now.params }
    requires choice { IfSome choice (λ c. c < instances_at here.now) }
    requires trial { TrialFits here.now trial.old }
    requires saw { CasesSaw (before_at here.now) cases.old
        (map (reading_of here.now.program.now claim.now) (environments claim.now.params)) }
    ensures trial { TrialFits here.now trial.new }
    ensures saw { CasesSaw (state_at here.now) cases.new
        (map (reading_of here.now.program.now claim.now) (environments claim.now.params)) }
    ensures stands { (states : List State) (choices : List ℕ) →
        length (choices ++ option_to_list choice) ≡ length states →
        CasesStand (instances_at here.now) cases.old
        (map (reading_of here.now.program.now claim.now) (environments claim.now.params)) states choices →
        CasesStand (instances_at here.now) cases.new
        (map (reading_of here.now.program.now claim.now) (environments claim.now.params))
        (states ++ state_at here.now ∷ []) (choices ++ option_to_list choice) }
    ensures violated { (states : List State) (choices : List ℕ) →
        length (choices ++ option_to_list choice) ≡ length states →
        CasesStand (instances_at here.now) cases.old
        (map (reading_of here.now.program.now claim.now) (environments claim.now.params)) states choices →
        result ≡ position_from (λ r. is_violated (system_at here.now) r
        (states ++ state_at here.now ∷ []) (choices ++ option_to_list choice)) 0
        (map (reading_of here.now.program.now claim.now) (environments claim.now.params)) }
{
    let is_kept = cases.len() > FEW_CASES && keeps_forms(here, claim);
    let mut first = None;
    for number in 0..cases.len() {
        case_values(claim.params.as_slice(), number as u64, values);
        let is_violated = look_case(
            here,
            claim,
            is_kept,
            values,
            choice,
            trial,
            &mut cases[number],
        );
        first = or_number(first, is_violated, number as u64);
    }
    first
}

// The number that there is, or else this one where it is violated.
fn or_number(first: Option<u64>, is_violated: bool, number: u64) -> Option<u64>
    ensures { result ≡ option_or first (cond is_violated (Some number) None) }
{
    match first {
        Some(earlier) => Some(earlier),
        None => { if is_violated { Some(number) } else { None } }
    }
}

// One place more for a step, and its first case that is violated there.
fn look_step(
    here: &Place,
    choice: Option<u32>,
    trial: &mut Trial,
    step: &mut Step,
) -> Option<Violation>
    requires fits { StepFits here.now.slots.now step.old }
    requires choice { IfSome choice (λ c. c < instances_at here.now) }
    requires trial { TrialFits here.now trial.old }
    requires saw { StepSaw here.now.program.now (before_at here.now) step.old }
    ensures trial { TrialFits here.now trial.new }
    ensures saw { StepSaw here.now.program.now (state_at here.now) step.new }
    ensures fits { StepFits here.now.slots.now step.new }
    ensures watched { (watched_as here.now.program.now step.new) ≡ (watched_as here.now.program.now step.old) }
    ensures stands { (states : List State) (choices : List ℕ) →
        length (choices ++ option_to_list choice) ≡ length states →
        StepStands here.now.program.now states choices step.old →
        StepStands here.now.program.now (states ++ state_at here.now ∷ []) (choices ++ option_to_list choice) step.new }
    ensures violated { (states : List State) (choices : List ℕ) →
        length (choices ++ option_to_list choice) ≡ length states →
        StepStands here.now.program.now states choices step.old →
        result ≡ first_case (λ r. is_violated (system_at here.now) r
        (states ++ state_at here.now ∷ []) (choices ++ option_to_list choice))
        (watched_as here.now.program.now step.old) }
{
    match look_cases(
        here,
        step.record,
        &mut step.values,
        choice,
        trial,
        &mut step.cases,
    ) {
        Some(case) => Some(Violation {
            step: step.place,
            case,
        }),
        None => None,
    }
}

// The first of two violations that there is.
fn or_violation(first: Option<Violation>, other: Option<Violation>) -> Option<Violation>
    ensures { result ≡ option_or first other }
{
    match first {
        Some(earlier) => Some(earlier),
        None => other,
    }
}

// One place more for each step, and the first violation there.
pub(crate) fn look(
    here: &Place,
    choice: Option<u32>,
    trial: &mut Trial,
    steps: &mut [Step],
) -> Option<Violation>
    requires fits { All (StepFits here.now.slots.now) steps.old }
    requires choice { IfSome choice (λ c. c < instances_at here.now) }
    requires room { length trial.old.room.items ≡ length (state_at here.now) }
    requires saw { All (StepSaw here.now.program.now (before_at here.now)) steps.old }
    ensures trial { TrialFits here.now trial.new }
    ensures saw { All (StepSaw here.now.program.now (state_at here.now)) steps.new }
    ensures fits { All (StepFits here.now.slots.now) steps.new }
    ensures watched { map (watched_as here.now.program.now) steps.new
        ≡ map (watched_as here.now.program.now) steps.old }
    ensures stands { (states : List State) (choices : List ℕ) →
        length (choices ++ option_to_list choice) ≡ length states →
        All (StepStands here.now.program.now states choices) steps.old →
        All (StepStands here.now.program.now (states ++ state_at here.now ∷ []) (choices ++ option_to_list choice))
        steps.new }
    ensures violated { (states : List State) (choices : List ℕ) →
        length (choices ++ option_to_list choice) ≡ length states →
        All (StepStands here.now.program.now states choices) steps.old →
        result ≡ violation (system_at here.now) (map (watched_as here.now.program.now) steps.old)
        (states ++ state_at here.now ∷ []) (choices ++ option_to_list choice) }
{
    trial.begin();
    let mut first = None;
    for place in 0..steps.len() {
        let found = look_step(here, choice, trial, &mut steps[place]);
        first = or_violation(first, found);
    }
    first
}
