// What serves all cases at a place.
ghost use Rattle.std.specs.Prelude.{◌≡◌, length, IfOk, OnOk};
ghost use Rattle.trace_watch.specs.Places.{system_at, state_at, TrialFits};
ghost use Rattle.trace_watch.specs.Readings as readings;
ghost use Rattle.fixed_points.specs.FixedPoints as points;

use crate::place::Place;
use crate::trying::is_stuck;
use fixed_points::is_fixed;
use std::alloc::{AllocError, Global};

/// Room for a state, and what was found of the place for the first case that asked.
#[derive(Drop)]
pub(crate) struct Trial {
    pub(crate) room: Vec<i64>,
    fixed: Option<bool>,
    stuck: Option<bool>,
}

impl Trial {
    /// With room for a state, as this one.
    pub(crate) fn new(alloc: Global, state: &[i64]) -> Result<Trial, AllocError>
        ensures { IfOk result (λ trial. length trial.room.items ≡ length state.now) }
    {
        Ok(Trial {
            room: Vec::from_slice(alloc, state)?,
            fixed: None,
            stuck: None,
        })
    }

    /// For another place, of which nothing was found.
    pub(crate) fn begin(&mut self)
        ensures room { self.new.room ≡ self.old.room }
        ensures fixed { self.new.fixed ≡ None }
        ensures stuck { self.new.stuck ≡ None }
    {
        self.fixed = None;
        self.stuck = None;
    }

    /// Whether the state of the place is a fixed point.
    pub(crate) fn is_fixed(&mut self, here: &Place) -> bool
        requires { TrialFits here.now self.old }
        ensures fits { TrialFits here.now self.new }
        ensures exact { result ≡ points.is_fixed (system_at here.now) (state_at here.now) }
    {
        let found = match self.fixed {
            Some(found) => found,
            None => is_fixed(here.program, here.slots, here.state),
        };
        self.fixed = Some(found);
        found
    }

    /// Whether the step of some instance is undefined there.
    pub(crate) fn is_stuck(&mut self, here: &Place) -> bool
        requires { TrialFits here.now self.old }
        ensures fits { TrialFits here.now self.new }
        ensures exact { result ≡ readings.is_stuck (system_at here.now) (state_at here.now) }
    {
        let found = match self.stuck {
            Some(found) => found,
            None => is_stuck(here),
        };
        self.stuck = Some(found);
        found
    }
}
