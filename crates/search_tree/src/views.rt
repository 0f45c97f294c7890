//! What a walk of the plain tree sees at a branch.
ghost use Rattle.std.specs.Prelude.{◌-◌, ◌<◌};
ghost use Rattle.search_tree.specs.Views.{ViewSees};

use core_terms::Range;
use obligations::Variable;

/// The variables of the obligation and those of the branch's scope, how many levels are left, and the ranges.
#[derive(Clone, Copy)]
pub struct View<'a> {
    pub vs: &'a [Variable],
    pub scope: &'a [Variable],
    pub rest: u32,
    pub ranges: &'a [Range],
}

impl<'a> View<'a> {
    /// The view with a level less.
    pub fn below(self) -> View<'a>
        requires { 0 < self.rest }
        ensures { ViewSees result self.entry.vs.now self.entry.scope.now (self.entry.rest - 1) self.entry.ranges.now }
    {
        View {
            rest: self.rest - 1,
            ..self
        }
    }

    /// The view in another scope.
    pub fn within(self, scope: &'a [Variable]) -> View<'a>
        ensures { ViewSees result self.entry.vs.now scope.now self.entry.rest self.entry.ranges.now }
    {
        View { scope, ..self }
    }

    /// The view over other ranges.
    pub fn over(self, ranges: &'a [Range]) -> View<'a>
        ensures { ViewSees result self.entry.vs.now self.entry.scope.now self.entry.rest ranges.now }
    {
        View { ranges, ..self }
    }
}
