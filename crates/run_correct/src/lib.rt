//! The traces of a document: what `run` and `replay` write are the states that the steps of the document's own
//! programs give, and the instances that a schedule names are theirs.
//!
//! These functions do nothing: each states laws.
#![tactic(auto)]

ghost use Rattle.run_correct.specs.Laws.{AllNamesMatch, TracesSay, RunsSay, ReplaysSay};

/// A core program and its instances have the names of the program that it comes of and of that program's instances.
pub fn name_laws()
    ensures { AllNamesMatch }
{}

/// The trace of a core program is that of the program that it comes of: the states that the program's own steps
/// give from the start state, up to the first undefined step, with the rounds of all choices.
pub fn trace_laws()
    ensures { TracesSay }
{}

/// What `run` and `replay` answer over the core form of a document is what they answer over the document itself.
pub fn command_laws()
    ensures runs { RunsSay }
    ensures replays { ReplaysSay }
{}
