// The laws of what is told. The function does nothing: it states them.
ghost use Rattle.told_obligations.specs.Laws.{StepOrigins, LaterOrigins, DocumentOrigins};

/// Where the table of rules gives a step a conclusion, the step has as many origins as obligations, also where the
/// origins are told from the records of later steps too. So a document whose steps all go has as many as its plan has
/// obligations.
pub fn listing_laws()
    ensures step { StepOrigins }
    ensures later { LaterOrigins }
    ensures document { DocumentOrigins }
{}
