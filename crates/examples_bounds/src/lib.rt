//! A plain and slow test of the bounds that leads-to proofs print: all executions of a few choices are walked.
//! Nothing stands on this crate, and all of it but what its definitions name is tests.
#![tactic(auto)]

mod claims;
#[cfg(test)]
mod opening;
#[cfg(test)]
mod starts;
#[cfg(test)]
mod states;
#[cfg(test)]
mod tables;
#[cfg(test)]
mod tests;
#[cfg(test)]
mod walking;

pub use claims::Claim;
#[cfg(test)]
pub use starts::leads_from;
#[cfg(test)]
pub use states::{is_in, leads_everywhere};
#[cfg(test)]
pub use tables::{Move, always, equals, slots_to, table};
