//! Layers: systems that do what a system under them does, and more to slots of their own.
//!
//! The projection of an execution of a layer drops the choices of what the layer adds, with the states
//! after them, and gives each slot of the layer's own its number in the first state. It is an execution
//! of the system under the layer, with at least as many rounds; so what stands of that system stands of
//! the layer.
//!
//! These functions do nothing: each states laws.
#![tactic(auto)]

ghost use Rattle.layer_laws.specs.Layers.{ProjectionRuns, RoundsOfBelow, UnlessCarried, EnsuresCarried};
ghost use Rattle.layer_laws.specs.Layers.{InvariantCarried, LeadsCarried, ThroughoutCarried};
ghost use Rattle.layer_laws.specs.Resets.{ResetItself, WrittenReset, WrittenBeside, OldAreDefined, ResetIsState};
ghost use Rattle.layer_laws.specs.Writing.{WritingLayer};

/// What stands of a system stands of a layer over it, a leads-to within its bound.
pub fn layer_laws()
    ensures runs { ProjectionRuns }
    ensures rounds { RoundsOfBelow }
    ensures unless { UnlessCarried }
    ensures ensured { EnsuresCarried }
    ensures invariant { InvariantCarried }
    ensures leads { LeadsCarried }
    ensures throughout { ThroughoutCarried }
{}

/// A state with a layer's own slots put back, and writes made there; a system whose instances make the
/// writes of another's, and more to slots of its own, is a layer over it.
pub fn reset_laws()
    ensures itself { ResetItself }
    ensures below { WrittenReset }
    ensures beside { WrittenBeside }
    ensures defined { OldAreDefined }
    ensures state { ResetIsState }
    ensures layer { WritingLayer }
{}
