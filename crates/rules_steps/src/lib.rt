//! What a step of a proof gives by its rule, from the steps before it.
#![tactic(auto)]

mod around;
mod kinds;
mod layers;
mod references;
mod ruling;
mod terms;
mod unions;
mod using;

pub use around::Around;
pub use kinds::has_defined;
pub use ruling::step_rule;
pub use using::find_record;
