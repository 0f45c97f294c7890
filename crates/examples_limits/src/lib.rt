//! Trees and formulas of the greatest depth, and ranges of the greatest width, which calls take within an ordinary
//! stack and in few turns; chains that are found to close facts; and small obligations and preconditions by hand.
//! Nothing stands on this crate, and all of it is tests.
#![tactic(auto)]

#[cfg(test)]
mod chains;
#[cfg(test)]
mod deep_obligations;
#[cfg(test)]
mod deep_pools;
#[cfg(test)]
mod deep_trees;
#[cfg(test)]
mod preconditions;
#[cfg(test)]
mod wide_ranges;
