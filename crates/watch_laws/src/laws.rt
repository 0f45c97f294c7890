// The laws of watched traces.
ghost use Rattle.watch_laws.specs.WatchLaws.{ViolationsAlike, NoneOnAccepted};

/// At states of the document, the first step and case that are violated of a core program's records are those of the
/// document's own claims, read by the document's own steps, with the rounds and the helpers of the records. Where the
/// document is accepted, nothing is violated at any place of any execution of any of its programs.
pub fn watch_laws()
    ensures alike { ViolationsAlike }
    ensures accepted { NoneOnAccepted }
{}
