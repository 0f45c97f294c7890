//! What limits say together: sums of several that no limit of one line shows, and what follows of equations about
//! quotients.
#![tactic(auto)]

mod columns;
mod cuts;
mod elimination;
mod lattice;

pub use elimination::eliminate;
