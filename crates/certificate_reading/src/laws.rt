// The law of written certificates. The function does nothing: it states it.
ghost use Rattle.certificate_reading.specs.Laws.{AreWholeTrees};

/// The nodes of each certificate of a text are one whole tree, each node before its subtrees.
pub fn whole_trees()
    ensures { AreWholeTrees }
{}
