// The laws of events. The function does nothing: it states them.
ghost use Rattle.event_checker.specs.Laws.{EventsTellNodes};

/// The events of nodes tell these nodes.
pub fn event_laws()
    ensures { EventsTellNodes }
{}
