// The law of what is enough. The function does nothing: it states it.
ghost use Rattle.search_tree.specs.Laws.{EnoughBelowNeed};

/// Of each obligation that `make` can give, the units that are enough for a search, which are counted along
/// its plain tree, are no more than its need, which takes no search to compute.
pub fn enough_laws()
    ensures { EnoughBelowNeed }
{}
