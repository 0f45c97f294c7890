//! The command `fixed` over a document: what it writes are the states that the steps of the document's own program
//! give, up to the first fixed point of that program.
//!
//! This function does nothing: it states a law.
#![tactic(auto)]

ghost use Rattle.fixed_correct.specs.Laws.{FixedRunsSay};

/// What `fixed` answers over the core form of a document is what it answers over the document itself.
pub fn command_laws()
    ensures { FixedRunsSay }
{}
