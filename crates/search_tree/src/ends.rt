// The law of what a search can find. The function does nothing: it states it.
ghost use Rattle.search_tree.specs.Ends.{SearchEnds};

/// For each obligation there is a certificate that refutes it within `enough` units, or there are values in its
/// ranges that make its form false: with any budget that is not less than `enough`, a search can answer one of the
/// two.
pub fn search_ends()
    ensures { SearchEnds }
{}
