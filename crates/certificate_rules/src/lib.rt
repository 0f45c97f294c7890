//! What each node of a certificate makes of a branch, and when the nodes refute an obligation.
#![tactic(auto)]

mod indexes;
mod laws;
mod sums;

pub use indexes::index_laws;
pub use laws::certificate_laws;
pub use obligations as from_obligations;
pub use sums::{
    MultipleSum, add_multiple, add_pairs, added, all_divided, all_zero, below_0, closes, copy_fact,
    divides, parts, product, quotient, rounded,
};
