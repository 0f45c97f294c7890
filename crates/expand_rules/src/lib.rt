//! What expressions, assignments and lists of statements become in core form: the definitions, in `specs/`, and the
//! types of what is made.
#![tactic(auto)]

mod cores;
mod effects;
mod flaws;

pub use core_terms as from_core_terms;
pub use core_terms::{from_case_tables, from_unity_base};
pub use cores::{Bound, Core, Flaws, Formed, Measure};
pub use effects::{Count, Effect};
pub use flaws::nearer;
pub use names_rules as from_names_rules;
pub use names_rules::from_unity_syntax;
