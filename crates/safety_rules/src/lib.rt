//! The calls by which steps follow from a program's text and from earlier steps.
#![tactic(auto)]

mod bounds;
mod concluding;
mod definedness;
mod ensuring;
mod equations;
mod fixing;
mod gathering;
mod instances;
mod instancing;
mod meanings;
mod naming;
mod pairs;
mod places;
mod preconditions;
mod premises;
mod recording;
mod texts;
mod weakening;

pub use bounds::lengthened;
pub use concluding::{add_goal, conclude};
pub use definedness::defined_rule;
pub use ensuring::ensures_rule;
pub use fixing::fixed_rule;
pub use gathering::implied;
pub use instancing::{instance, instance_in};
pub use naming::{may_mean, names_some};
pub use pairs::{are_unless, pair_rule};
pub use places::{Derived, Place, RuleError};
pub use premises::{both, either};
pub use recording::{Claim, copied_helper, is_same};
pub use texts::{after, invariant_rule, unless_rule, using_and};
pub use weakening::{add_follows, is_ensures, is_invariant, is_unless, weaken_rule};
