//! The calls of `unity_base` and `unity_lexer`, tried: sources, sinks and windows that fail now and then, lists and
//! boxes, texts with their tokens or their first fault, and the tables of words. Nothing stands on this crate.
#![tactic(auto)]

#[cfg(test)]
mod ground;
#[cfg(test)]
mod tables;
#[cfg(test)]
mod tokens;
