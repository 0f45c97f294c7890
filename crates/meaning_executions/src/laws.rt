//! The laws that tie the definitions of `specs/` together. These functions do nothing: each states laws.

ghost use Rattle.meaning_executions.specs.ExecutionLaws.{PrefixIsExecution, EachIsAStep, DefinedRuns};
ghost use Rattle.meaning_executions.specs.RoundLaws.{NoRound, OneMoreRound, OneShortest, ShortestExists};
ghost use Rattle.meaning_executions.specs.RoundLaws.{LeadsIsFollows, WithinNone, BoundGrows, EnsuresLeads};

/// Every prefix of an execution is an execution; each state but the first is a step by a choice; and where no step is
/// undefined every list of choices runs.
pub fn execution_laws()
    ensures prefix { PrefixIsExecution }
    ensures step { EachIsAStep }
    ensures runs { DefinedRuns }
{}

/// Rounds by their definition: none where an instance does not occur, else, where there is an instance at
/// all, one more than in what follows the shortest prefix in which all occur. There is one shortest prefix
/// with so many rounds.
pub fn round_laws()
    ensures none { NoRound }
    ensures more { OneMoreRound }
    ensures unique { OneShortest }
    ensures exists { ShortestExists }
{}

/// A leads-to within a bound: its end need not be named, within 0 rounds q holds where p does, a
/// greater bound says less, and `p ensures q` gives it within one round.
pub fn leads_to_laws()
    ensures follows { LeadsIsFollows }
    ensures none { WithinNone }
    ensures grows { BoundGrows }
    ensures one { EnsuresLeads }
{}
