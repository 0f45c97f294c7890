// The laws of texts.
ghost use Rattle.soundness.specs.Written.{ClaimsAreWritten};

/// Where a document is that of some tokens, each claim of two predicates has `unless`, `ensures` or `leadsto`
/// between them.
pub fn text_laws()
    ensures { ClaimsAreWritten }
{}
