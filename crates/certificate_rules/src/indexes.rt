// The law of a certificate's indexes. The function does nothing: it states it.
ghost use Rattle.certificate_rules.specs.Indexes.{IndexesAreSmall};

/// The numbers of formulas, variables and facts in a certificate that refutes an obligation's negation are at most
/// 2^62.
pub fn index_laws()
    ensures { IndexesAreSmall }
{}
