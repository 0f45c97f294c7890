// The law of what is told. The function does nothing: it states it.
ghost use Rattle.soundness.specs.Told.{AcceptedTells};

/// The lines of an accepted document's text are those of its steps, in order, and what each claims is true; a leads-to
/// within the rounds that its line tells.
pub fn told_laws()
    ensures { AcceptedTells }
{}
