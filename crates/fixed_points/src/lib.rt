//! Fixed points: the formula of where a program's state is one, and whether a state is.
#![tactic(auto)]

mod forming;
mod laws;
mod telling;

pub use forming::{fixed_form, fixed_part};
pub use laws::fixed_point_laws;
pub use telling::{changing, is_fixed};
