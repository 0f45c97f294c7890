//! What a proof rule leaves to be shown: a formula over variables with ranges. Here it is opened as
//! a branch: facts that are linear in the variables, and formulas that wait to be taken apart.
#![tactic(auto)]

mod branches;
mod certificates;
mod factors;
mod first_choice;
mod first_quotient;
mod laws;
mod linear;
mod making;
mod occurrence;
mod opening;
mod pairing;
mod quotients;
mod scopes;
mod settling;
mod shapes;
mod sides;
mod small;
mod waiting;

pub use branches::{Bound, Branch, Choice, Fact, Line, Obligation, Replaced, Taken, Variable};
pub use certificates::{Cert, Node, units};
pub use core_terms as from_core_terms;
pub use core_terms::{from_case_tables, from_unity_base};
pub use factors::Factors;
pub use laws::{obligation_laws, settling_laws};
pub use linear::{fact_from, factor_at, zero_line};
pub use making::{TooLargeError, make, make_in, with_variables};
pub use opening::open_branch;
pub use quotients::{add_quotient, is_either, without_quotient};
pub use scopes::{has_room, next_param, scope_of};
pub use settling::{refuse_onto, settle, settle_onto};
pub use shapes::{height, need};
pub use sides::{Side, settle_side};
pub use small::{small_product, small_sum};
