//! The limits of variables and of sums on a path of a search by conflicts, each with its reason: what follows from
//! them, what contradicts them, and the trees that close a branch by a conflict's reasons.
#![tactic(auto)]

mod copies;
mod corners;
mod events;
mod limits;
mod partners;
mod path;
mod propagation;
mod queue;
mod reasons;
mod rounds;
mod trees;

pub use events::{Conflict, Event, Limit, Reach, Reason, Weighted};
pub use limits::{Limits, LimitsMark, no_limits};
pub use partners::has_partner;
pub use path::{Path, PathMark, Quotient, no_path};
pub use propagation::propagate;
pub use rounds::{Pair, Round, Source};
pub use trees::{LeafRound, Step, Tree, Trees, no_trees};
