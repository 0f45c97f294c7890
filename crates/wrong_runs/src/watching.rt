// What watches a trace.
ghost use Rattle.std.specs.Prelude.{◌≡◌, ◌<◌, ◌↔◌, ◌∷◌, ◌++◌, [], ℕ, List, All, IfOk, IsErrOf, IsTrue, length};
ghost use Rattle.meaning_states.specs.State.{State, is_state};
ghost use Rattle.core_terms.specs.Conditions.{IsProgram};
ghost use Rattle.core_terms.specs.Steps.{slot_ranges};
ghost use Rattle.executor.specs.Running.{program_of, slots_of, state_of};
ghost use Rattle.trace_watch.specs.Cases.{total_cases, watched};
ghost use Rattle.trace_watch.specs.Places.{RecordFormsFit};
ghost use Rattle.trace_watch.specs.Tracing.{EndsAs, WatchesDefined};
ghost use Rattle.trace_watch.specs.Violations.{violation};
ghost use Rattle.trace_watch.specs.Watching as watching;
ghost use Rattle.trace_watch.specs.Watching.{WatchStandsFor};

use core_terms::{CProgram, CSlot};
use executor::Runner;
use fair_rounds::Record;
use std::alloc::Global;
use trace_watch::{Ending, Violation, Watch, WatchError};

/// The call `new` of a watch, with its clauses.
pub fn new_watch<'a>(
    alloc: Global,
    p: &'a CProgram,
    slots: &'a [CSlot],
    records: &'a [Record],
    start: &[i64],
) -> Result<Watch<'a>, WatchError>
    requires program { IsProgram slots.now p.now }
    requires start { IsTrue (is_state (slot_ranges slots.now) start.now) }
    requires fits { All (RecordFormsFit slots.now) records.now }
    ensures program { IfOk result (λ w. watching.program_of w ≡ p.now) }
    ensures slots { IfOk result (λ w. watching.slots_of w ≡ slots.now) }
    ensures steps { IfOk result (λ w. watching.steps_of w ≡ watched p.now records.now) }
    ensures begun { IfOk result (λ w. WatchStandsFor w (start.now ∷ []) []) }
    ensures many { IsErrOf result WatchError.TooManyCases ↔ (4096 < total_cases p.now records.now) }
{
    Watch::new(alloc, p, slots, records, start)
}

/// The call `watch_choices`, with its clauses.
pub fn watch_choices(runner: &mut Runner, watch: &mut Watch, choices: &[u32]) -> Ending
    requires program { watching.program_of watch.old ≡ program_of runner.old }
    requires slots { watching.slots_of watch.old ≡ slots_of runner.old }
    requires begun { WatchStandsFor watch.old (state_of runner.old ∷ []) [] }
    requires defined { WatchesDefined (watching.steps_of watch.old) }
    requires instances { All (λ choice. choice < length (program_of runner.old).statements) choices.now }
    ensures { EndsAs (watching.system_of watch.old) (watching.steps_of watch.old) (state_of runner.old) choices.now
        (state_of runner.new) result }
{
    trace_watch::watch_choices(runner, watch, choices)
}

/// The call `step` of a watch, with its clauses.
pub fn watch_step(watch: &mut Watch, choice: u32, next: &[i64]) -> Option<Violation>
    requires choice { choice < length (watching.program_of watch.old).statements }
    requires next { IsTrue (is_state (slot_ranges (watching.slots_of watch.old)) next.now) }
    ensures program { watching.program_of watch.new ≡ watching.program_of watch.old }
    ensures slots { watching.slots_of watch.new ≡ watching.slots_of watch.old }
    ensures steps { watching.steps_of watch.new ≡ watching.steps_of watch.old }
    ensures longer { (states : List State) (choices : List ℕ) → WatchStandsFor watch.old states choices →
        WatchStandsFor watch.new (states ++ next.now ∷ []) (choices ++ choice ∷ []) }
    ensures exact { (states : List State) (choices : List ℕ) → WatchStandsFor watch.old states choices →
        result ≡ violation (watching.system_of watch.old) (watching.steps_of watch.old) (states ++ next.now ∷ [])
        (choices ++ choice ∷ []) }
{
    watch.step(choice, next)
}
