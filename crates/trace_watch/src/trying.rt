// What instances would do at a place.
ghost use Rattle.std.specs.Prelude.{◌≡◌, ◌<◌, length, IsTrue};
ghost use Rattle.executor.specs.Running.{chosen_step};
ghost use Rattle.fair_rounds.specs.Records.{holding, are_in_ranges};
ghost use Rattle.trace_watch.specs.Readings as readings;
ghost use Rattle.trace_watch.specs.Places.{system_at, instances_at, state_at, RecordFormsFit};

use crate::place::Place;
use core_terms::holds;
use executor::{Stepped, can_step, would_step};
use fair_rounds::Record;

// Whether the step of some instance is undefined.
pub(crate) fn is_stuck(here: &Place) -> bool
    ensures { result ≡ readings.is_stuck (system_at here.now) (state_at here.now) }
{
    for choice in 0..here.program.statements.len() {
        if !can_step(here.program, here.slots, here.state, choice as u32) {
            return true;
        }
    }
    false
}

// Whether there is an instance that is to help, and its step is defined and gives a state with a claim's q.
pub(crate) fn is_helped(
    here: &Place,
    claim: &Record,
    values: &[i64],
    helper: Option<u32>,
    trial: &mut [i64],
) -> bool
    requires fits { RecordFormsFit here.now.slots.now claim.now }
    requires values { IsTrue (are_in_ranges claim.now.params values.now) }
    requires trial { length trial.old ≡ length (state_at here.now) }
    ensures { result ≡ readings.is_helped (system_at here.now) (holding values.now claim.now.q) helper
        (state_at here.now) }
{
    let choice = match helper {
        Some(choice) => choice,
        None => return false,
    };
    if choice as usize >= here.program.statements.len() {
        return false;
    }
    gives(here, claim, values, choice, trial)
}

// Whether the step of an instance is defined and gives a state with a claim's q.
fn gives(here: &Place, claim: &Record, values: &[i64], choice: u32, trial: &mut [i64]) -> bool
    requires choice { choice < instances_at here.now }
    requires fits { RecordFormsFit here.now.slots.now claim.now }
    requires values { IsTrue (are_in_ranges claim.now.params values.now) }
    requires trial { length trial.old ≡ length (state_at here.now) }
    ensures { result ≡ readings.passes (holding values.now claim.now.q)
        (chosen_step here.now.slots.now here.now.program.now choice (state_at here.now)) }
{
    match would_step(here.program, here.slots, here.state, choice, trial) {
        Stepped::Done => holds(&claim.q, trial, values),
        Stepped::Undefined => false,
    }
}
