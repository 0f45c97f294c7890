// The laws of a watched schedule.
ghost use Rattle.watch_correct.specs.Laws.{WatchesSay, OneEnding, OneStop, NoStop, SomeEnding, NoneViolated};

/// What is found of a document in core form is found of the document: the first violation of the claims of its
/// program's proof, by the document's own values and steps; and each cause for which it is not watched.
pub fn watch_laws()
    ensures { WatchesSay }
{}

/// The trace of a document's schedule ends in one way, and one text is told of it; or there is one cause for which it
/// is not watched. One of the two is so.
pub fn answer_laws()
    ensures ending { OneEnding }
    ensures stop { OneStop }
    ensures either { NoStop }
    ensures some { SomeEnding }
{}

/// Where the document is accepted, its schedule violates nothing.
pub fn accepted_laws()
    ensures { NoneViolated }
{}
