//! Proof terms: that p leads to q, by the parts of a term.
#![tactic(auto)]

mod bound;
mod cited;
mod derivation;
mod disjunctions;
mod gathering;
mod inductions;
mod joining;
mod leading;
mod lines;
mod naming;
mod nodes;
mod parts;
mod ranging;
mod references;
mod stretches;

pub use derivation::derive;
