//! The laws. The functions do nothing: they state them.

ghost use Rattle.expand_fits_parts.specs.Forms.NamingLaws.{ExpressionsName, AssignmentsName, ExpressionsPass};
ghost use Rattle.expand_fits_parts.specs.Forms.NamingLaws.{AssignmentsPass};
ghost use Rattle.expand_fits_parts.specs.Forms.NamingLaws.{FormsBelow, TermsBelow};
ghost use Rattle.expand_fits_parts.specs.Forms.Placing.{SlotsExist, SlotsWeigh, SlotsShown};
ghost use Rattle.expand_fits_parts.specs.Forms.Programs.{KeepsFit, UnionsKeep, UnionsShow};
ghost use Rattle.expand_fits_parts.specs.Forms.ShowingLaws.{ProgramsShow};
ghost use Rattle.expand_fits_parts.specs.Forms.StepLaws.{ClaimsFit, TermsFit, NamesNumbered, NamesCounted, RangesRead};
ghost use Rattle.expand_fits_parts.specs.Forms.Visible.{ExpressionsRead, AssignmentsRead};
ghost use Rattle.expand_fits_parts.specs.Forms.DocumentLaws.{DocumentsFit, ProgramsFit};
ghost use Rattle.expand_fits_parts.specs.Forms.FittingLaws.{FormulasFit, NumbersFit, InstancesFit, DefinitionsFit};

/// What the core of expressions and assignments names: only slots and parameters that pass tests, where
/// those of the words do that stand in them.
pub fn naming_laws()
    ensures expressions { ExpressionsName }
    ensures assignments { AssignmentsName }
    ensures pass { ExpressionsPass }
    ensures assignments_pass { AssignmentsPass }
    ensures forms { FormsBelow }
    ensures terms { TermsBelow }
{}

/// Among words that stand for what is there, expressions and statements have a core that fits, where nothing
/// in it is too large.
pub fn fitting_laws()
    ensures formulas { FormulasFit }
    ensures numbers { NumbersFit }
    ensures instances { InstancesFit }
    ensures definitions { DefinitionsFit }
{}

/// The words of what has no fault of names are found where it stands.
pub fn reading_laws()
    ensures expressions { ExpressionsRead }
    ensures assignments { AssignmentsRead }
{}

/// The slots of each variable are there and have its range, and a program shows those of the variables that it
/// declares.
pub fn layout_laws()
    ensures exist { SlotsExist }
    ensures weigh { SlotsWeigh }
    ensures shown { SlotsShown }
{}

/// What is said of the statements and the first states of programs is said of those of a union.
pub fn union_laws()
    ensures keep { KeepsFit }
    ensures unions_keep { UnionsKeep }
    ensures unions_show { UnionsShow }
{}

/// In a document without a fault of expansion, the statements and the first states of its programs fit its slots.
pub fn document_laws()
    ensures scopes { DocumentsFit }
    ensures programs { ProgramsFit }
{}

/// The statements and the first states of each program of a well-named document, a union or not, name only slots
/// that the program shows.
pub fn showing_laws()
    ensures { ProgramsShow }
{}

/// In a well-named document without a fault of expansion, the claims of steps fit the slots and the parameters of
/// the step, and the formulas and the terms in proof terms fit also the names bound around them. Bound names are
/// numbered after the parameters, each has a word, and their ranges have no fault in the text.
pub fn claim_laws()
    ensures claims { ClaimsFit }
    ensures terms { TermsFit }
    ensures numbered { NamesNumbered }
    ensures counted { NamesCounted }
    ensures ranges { RangesRead }
{}
