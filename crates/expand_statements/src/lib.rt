//! The statements of a program in core form, one for each instance, and their first fault. How many they are, and
//! where their ranges fail, is found without a turn for each number of a range.
#![tactic(auto)]

mod building;
mod chains;
mod checking;
mod counting;
mod laws;
mod places;
mod visiting;

pub use building::push_statements;
pub use checking::check_items;
pub use counting::check_count;
pub use laws::statement_laws;
