//! Laws of core documents. These functions do nothing: each states laws.

ghost use Rattle.expand_fits_parts.specs.Conditions.StatementConditions.{InstancesCounted, InstancesApart};
ghost use Rattle.expand_fits_parts.specs.Conditions.StatementConditions.{InstancesLabelled};

/// Lists of statements without a fault have an instance, and as many as are counted. In a well-named document
/// two instances differ in label or in the numbers of their bound names, and those of one label have equally
/// many.
pub fn statement_laws()
    ensures counted { InstancesCounted }
    ensures apart { InstancesApart }
    ensures labelled { InstancesLabelled }
{}

ghost use Rattle.expand_fits_parts.specs.Conditions.WordConditions.{TextsHavePlaces, NumbersTellTexts};
ghost use Rattle.expand_fits_parts.specs.Conditions.WordConditions.{ProgramsHaveWords};
ghost use Rattle.expand_fits_parts.specs.Conditions.ProgramConditions.{ProgramNamesDiffer, UnionsFit};

/// Each text that the core form of a document names has its place among the words, which no other text has. So
/// the names of programs and the labels of their statements are words.
pub fn word_laws()
    ensures places { TextsHavePlaces }
    ensures tell { NumbersTellTexts }
    ensures programs { ProgramsHaveWords }
{}

/// No two programs of a well-named document have one name, and a union is made of two programs before it.
pub fn program_laws()
    ensures names { ProgramNamesDiffer }
    ensures unions { UnionsFit }
{}

ghost use Rattle.expand_fits_parts.specs.Conditions.SizeConditions.{CoreSlotsAreFew, StatementsAreFew};

/// A document without a fault of size has at most 4,096 slots, and each of its programs, unions too, has 1 to
/// 4,096 statements.
pub fn size_laws()
    ensures slots { CoreSlotsAreFew }
    ensures statements { StatementsAreFew }
{}

ghost use Rattle.expand_fits_parts.specs.Conditions.ProofConditions.{ProofProgramsDiffer, StepNamesDiffer};
ghost use Rattle.expand_fits_parts.specs.Conditions.ProofConditions.{ParametersHaveRanges};
ghost use Rattle.expand_fits_parts.specs.Conditions.ProofConditions.{KindsFit};

/// In a well-named document no two proofs are of one program, and no two steps of a proof have one name. Each
/// parameter has a range, and `defined` and `invariant` have no parameters.
pub fn proof_laws()
    ensures programs { ProofProgramsDiffer }
    ensures names { StepNamesDiffer }
    ensures params { ParametersHaveRanges }
    ensures kinds { KindsFit }
{}

ghost use Rattle.expand_fits_parts.specs.Conditions.NamedConditions.{StatementsApart, ProofsNamed};

/// In a well-named document two statements of a program, also of a union, differ in label or indices, those of
/// one label have equally many indices, and each proof is of a program.
pub fn naming_laws()
    ensures statements { StatementsApart }
    ensures proofs { ProofsNamed }
{}

ghost use Rattle.expand_fits_parts.specs.Conditions.ShownConditions.{ShownSlotsExist, ShownSlotsRise, SchedulesFit};

/// The slots that a program shows, also a union, exist, each once and in order. The schedule of a well-named
/// document is of a program, and its labels are words.
pub fn shown_laws()
    ensures exist { ShownSlotsExist }
    ensures rise { ShownSlotsRise }
    ensures schedules { SchedulesFit }
{}

ghost use Rattle.expand_fits_parts.specs.Conditions.TermConditions.{ParametersNamed, TermsNumbered};
ghost use Rattle.expand_fits_parts.specs.Conditions.TermConditions.{BoundNamesHaveRanges};

/// A step has a name for each of its parameters and for each name that its term binds. In a well-named document
/// these have the numbers after those of the parameters, in reading order, and ranges.
pub fn term_laws()
    ensures names { ParametersNamed }
    ensures numbers { TermsNumbered }
    ensures ranges { BoundNamesHaveRanges }
{}

ghost use Rattle.expand_fits_parts.specs.Conditions.StepConditions.{StepsHaveWords, UsingNamed, RulesNamed, RefsNamed};
ghost use Rattle.expand_fits_parts.specs.Conditions.ArgumentConditions.{ArgumentsFit, TermArgumentsFit};

/// The names of steps and their parameters, and what their rules and `using` name, are words. In a well-named
/// document arguments name only the parameters of the step, and names that a term binds around them. Their numbers
/// are within bounds where those of the text are.
pub fn step_laws()
    ensures words { StepsHaveWords }
    ensures using { UsingNamed }
    ensures rules { RulesNamed }
    ensures refs { RefsNamed }
    ensures numbers { ArgumentsFit }
    ensures terms { TermArgumentsFit }
{}

ghost use Rattle.expand_fits_parts.specs.Conditions.ArgumentConditions.{StepsFit, HelpersIndexed};

/// Where the numbers in the arguments of all steps are within bounds, those in core form are. No index of a helper in a
/// well-named document is a variable.
pub fn argument_laws()
    ensures steps { StepsFit }
    ensures helpers { HelpersIndexed }
{}
