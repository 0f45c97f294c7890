//! The laws that tie the definitions of `specs/` together. These functions do nothing: each states laws.

ghost use Rattle.meaning_documents.specs.SystemLaws.{EveryStateInRange, UnionSteps, UnionInitial, UnionIsTogether};
ghost use Rattle.meaning_documents.specs.SystemLaws.{SourceAlike, StableIsUnlessFalse};

/// At every state of every execution of a program or union each slot's number lies in its range; and a system that
/// starts as it does, and steps as it does at each state of the document, is alike.
pub fn system_laws()
    ensures range { EveryStateInRange }
    ensures source { SourceAlike }
{}

/// A union has the steps of both its parts, the first part's first, and is initial where both are: its system is the
/// union of their systems.
pub fn union_laws()
    ensures steps { UnionSteps }
    ensures initial { UnionInitial }
    ensures together { UnionIsTogether }
{}

/// `stable p` claims what `p unless false` claims.
pub fn stable_is_unless_false()
    ensures { StableIsUnlessFalse }
{}
