// The laws of layers. The functions do nothing: they state them.
ghost use Rattle.soundness.specs.Layers.{LayersProject, SuperposedProject};

/// Where a program of a document is a layer over another, each of its executions whose first state may begin the
/// other, without the choices of what the layer adds and with the layer's own variables as they are in the first
/// state, is an execution of the other, with at least as many rounds.
pub fn projection_laws()
    ensures { LayersProject }
{}

/// In an accepted document the program of each step by `superpose` is a layer over the program that the step refers
/// to, and each of its executions is projected on that program.
pub fn superposed_laws()
    ensures { SuperposedProject }
{}
