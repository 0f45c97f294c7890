//! The core forms of a document that is well named and not too large meet the conditions of the calls above: what
//! they name is there, their parts weigh no more than numbers can say, and statements, words, programs, proofs and
//! steps are counted, numbered and named as the calls ask.
//!
//! These functions do nothing: each states laws.
#![tactic(auto)]

pub mod fitting;
pub mod numbering;
