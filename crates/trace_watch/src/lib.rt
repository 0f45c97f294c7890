//! A trace watched for violations of the steps of a proof, place by place.
#![tactic(auto)]

mod case;
mod helpers;
mod keeping;
mod looking;
mod making;
mod numbers;
mod place;
mod step;
mod tracing;
mod trial;
mod trying;
mod violations;
mod watch;

pub use numbers::case_values;
pub use tracing::{Ending, watch_choices};
pub use violations::{Violation, WatchError};
pub use watch::Watch;
