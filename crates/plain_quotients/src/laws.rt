// The laws of documents without quotients. The functions do nothing: they state them.
ghost use Rattle.plain_quotients.specs.Laws.{EarlierHasOnlyTimes, EarlierLeaveNone, FirstHasOnlyTimes, FirstLeaveNone};
ghost use Rattle.plain_quotients.specs.Laws.{OnlyTimesLeaveNone, PlainLeaveNone};
ghost use Rattle.plain_quotients.specs.Sources.{AssignmentsPlain, DocumentsPlain, ExpressionsPlain};

/// A text of version 1, or any that does not say that it is of version 2, is a document without `div` and `mod`.
/// Without them an expression becomes a term or a formula without quotients, an assignment becomes writes and formulas
/// without them, and a document has none in core form.
pub fn source_laws()
    ensures earlier { EarlierHasOnlyTimes }
    ensures first { FirstHasOnlyTimes }
    ensures expressions { ExpressionsPlain }
    ensures assignments { AssignmentsPlain }
    ensures documents { DocumentsPlain }
{}

/// Where no formula and no term of a document in core form has a quotient, neither has any obligation that its steps
/// leave; so none has of a document without `div` and `mod`, nor of one of version 1.
pub fn plain_laws()
    ensures rules { PlainLeaveNone }
    ensures only { OnlyTimesLeaveNone }
    ensures earlier { EarlierLeaveNone }
    ensures version { FirstLeaveNone }
{}
