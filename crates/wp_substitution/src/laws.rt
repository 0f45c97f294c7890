// The laws of preconditions. The function does nothing: it states them.
ghost use Rattle.wp_substitution.specs.Exact.{ExactDefinedness, ExactPrecondition};

/// The formula of where a statement is defined holds exactly there, and its weakest precondition exactly
/// where it is defined and the formula holds after it.
pub fn precondition_laws()
    ensures definedness { ExactDefinedness }
    ensures precondition { ExactPrecondition }
{}
