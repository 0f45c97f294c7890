//! What the steps of an accepted document claim is true of its programs, and so is what `check` prints of it.
//!
//! These functions do nothing: each states laws.
#![tactic(auto)]

mod plans;
mod projections;
mod properties;
mod texts;
mod told;

pub use plans::plan_laws;
pub use projections::{projection_laws, superposed_laws};
pub use properties::{claim_laws, execution_laws};
pub use texts::text_laws;
pub use told::told_laws;
