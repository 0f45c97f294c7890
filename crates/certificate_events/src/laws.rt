// The law of sections of certificates. The function does nothing: it states it.
ghost use Rattle.certificate_events.specs.Laws.{ToldByTokens, EventsOfSections};

/// What the tokens of a section tell is what the section's tree says; and its events are those of its certificates.
pub fn section_laws()
    ensures told { ToldByTokens }
    ensures events { EventsOfSections }
{}
