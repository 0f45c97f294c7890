// A whole trace that is watched.
ghost use Rattle.std.specs.Prelude.{◌≡◌, ◌<◌, ◌∷◌, [], All, length};
ghost use Rattle.executor.specs.Running.{program_of, slots_of, state_of};
ghost use Rattle.trace_watch.specs.Watching as watching;
ghost use Rattle.trace_watch.specs.Watching.{WatchStandsFor};
ghost use Rattle.trace_watch.specs.Tracing.{EndsAs, WatchesDefined};

use crate::violations::Violation;
use crate::watch::Watch;
use executor::{Runner, Stepped};

/// How a watched trace ends.
#[derive(Clone, Copy, Debug, PartialEq, Eq)]
pub enum Ending {
    /// This step is violated at this place, from 0.
    Violated { place: u64, violation: Violation },
    /// All choices were made, and nothing is violated.
    Unviolated,
}

/// Makes the steps of these choices, from the runner's state, which the watch was begun with, up to the first
/// violation. The runner is left in the state of the last place that was looked at.
///
/// A `defined` step is among those that are watched, so no step is undefined before a violation is found.
pub fn watch_choices(runner: &mut Runner, watch: &mut Watch, choices: &[u32]) -> Ending
    requires program { watching.program_of watch.old ≡ program_of runner.old }
    requires slots { watching.slots_of watch.old ≡ slots_of runner.old }
    requires begun { WatchStandsFor watch.old (state_of runner.old ∷ []) [] }
    requires defined { WatchesDefined (watching.steps_of watch.old) }
    requires instances { All (λ choice. choice < length (program_of runner.old).statements) choices.now }
    ensures { EndsAs (watching.system_of watch.old) (watching.steps_of watch.old) (state_of runner.old) choices.now
        (state_of runner.new) result }
{
    match watch.first() {
        Some(violation) => {
            return Ending::Violated {
                place: 0,
                violation,
            };
        }
        None => {}
    }
    for number in 0..choices.len() {
        let choice = choices[number];
        match runner.step(choice) {
            Stepped::Done => {}
            Stepped::Undefined => return Ending::Unviolated,
        }
        match watch.step(choice, runner.state()) {
            Some(violation) => {
                return Ending::Violated {
                    place: number as u64 + 1,
                    violation,
                };
            }
            None => {}
        }
    }
    Ending::Unviolated
}
