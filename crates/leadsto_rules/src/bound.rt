// The names that a term binds.
ghost use Rattle.std.specs.Prelude.{◌≡◌, ◌++◌, OnOk};
ghost use Rattle.core_terms.specs.Conditions.{bound_ranges};

use core_terms::{PTerm, Range};
use std::alloc::AllocError;
use unity_base::Seq;

// Adds the ranges of the names that a term binds, in reading order.
pub(crate) fn add_bound(t: &PTerm, ranges: &mut Seq<Range>) -> Result<(), AllocError>
    ensures { OnOk result (ranges.new ≡ ranges.old ++ bound_ranges t.now) }
{
    match t {
        PTerm::Imply(_, _) => Ok(()),
        PTerm::From(_) => Ok(()),
        PTerm::Trans(t, u) => {
            add_bound(t.get(), ranges)?;
            add_bound(u.get(), ranges)
        }
        PTerm::Either(t, u) => {
            add_bound(t.get(), ranges)?;
            add_bound(u.get(), ranges)
        }
        PTerm::Exists(_, range, t) => {
            ranges.push(*range)?;
            add_bound(t.get(), ranges)
        }
        PTerm::Induct(_, range, _, _, _, t) => {
            ranges.push(*range)?;
            add_bound(t.get(), ranges)
        }
        PTerm::Psp(t, _) => add_bound(t.get(), ranges),
        PTerm::Weaken(_, _, t) => add_bound(t.get(), ranges),
    }
}
