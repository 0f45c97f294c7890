// The laws of events. The function does nothing: it states them.
ghost use Rattle.event_judge.specs.Laws.{EventsTellCertificates};

/// The events of certificates, one after the other, tell these certificates.
pub fn judge_laws()
    ensures { EventsTellCertificates }
{}
