//! Documents that are judged as they are read, and with certificates that are held whole; and documents of rings.
//! Nothing stands on this crate, and all of it is tests.
#![tactic(auto)]

#[cfg(test)]
mod certificates;
#[cfg(test)]
mod judged;
#[cfg(test)]
mod refusal;
#[cfg(test)]
mod rings;
#[cfg(test)]
mod tests;
#[cfg(test)]
mod whole;
