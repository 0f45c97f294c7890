//! Laws of well-named documents, on which those of expansion stand.
//!
//! What names mean, and which documents are well named, is defined in `names_rules`. Here stands what
//! this says of expressions and assignments, which a linear term can then say exactly; and that the words
//! of such a document are those of what it means, as `meaning_documents` defines it: its variables with
//! their slots, what each word stays in the rest of the document, and its always names.
//!
//! These functions do nothing: each states laws.
#![tactic(auto)]

ghost use Rattle.names_laws.specs.AttributeLaws.{ExactWhereFaultless, ConstantAsRead, DocumentsVary, VariablesVary};
ghost use Rattle.names_laws.specs.AttributeLaws.{DefinitionsVary};
ghost use Rattle.names_laws.specs.SlotLaws.{SlotsAsDeclared, NumbersAsDeclared, TruthsAreBits, TruthSlotsAreBits};
ghost use Rattle.names_laws.specs.VariableLaws.{MirroredByDocuments, MirroredByVariables, MirroredByDefinitions};
ghost use Rattle.names_laws.specs.VariableLaws.{VariablesStay, PlainSlot, VariableFound};
ghost use Rattle.names_laws.specs.StayingLaws.{StaysInDocuments, StaysInVariables, StaysInDefinitions};
ghost use Rattle.names_laws.specs.AssignmentLaws.{ExactAssignments};
ghost use Rattle.names_laws.specs.AlwaysLaws.{DefinedIsAlways};

/// An expression without a fault, among words of which no array is constant, is exact: each `*` has a
/// constant on one of its two sides, each `div` and `mod` on the right one, and each word in a range end is
/// a bound name. It names no variable and no parameter where its reading says that it is constant, and only
/// there.
pub fn attribute_laws()
    ensures exact { ExactWhereFaultless }
    ensures constant { ConstantAsRead }
{}

/// No array is constant in the tables in which the words of a document are looked up.
pub fn table_laws()
    ensures documents { DocumentsVary }
    ensures variables { VariablesVary }
    ensures definitions { DefinitionsVary }
{}

/// A slot of a variable has the variable's range, and at each state a number of that range; boolean
/// variables have 0 and 1.
pub fn slot_laws()
    ensures ranges { SlotsAsDeclared }
    ensures numbers { NumbersAsDeclared }
    ensures truths { TruthsAreBits }
    ensures bits { TruthSlotsAreBits }
{}

/// The words that a document declares as variables are the variables that it means: wherever a part of
/// it ends without a fault, each such word is the name of one, with its kind and its indices, and each
/// variable so far is such a word. It keeps its slots in the rest of the document, and a word that means it
/// finds them.
pub fn variable_laws()
    ensures documents { MirroredByDocuments }
    ensures variables { MirroredByVariables }
    ensures definitions { MirroredByDefinitions }
    ensures stay { VariablesStay }
    ensures plain_slot { PlainSlot }
    ensures found { VariableFound }
{}

/// A word that is declared is what it is there in the rest of the document, but for the program that
/// declared it last: its meaning, its type, its indices, and whether it is constant.
pub fn staying_laws()
    ensures documents { StaysInDocuments }
    ensures variables { StaysInVariables }
    ensures definitions { StaysInDefinitions }
{}

/// An assignment without a fault, among such words, is exact: so are its indices, its values
/// and its conditions, and each word in the ends of its ranges is a bound name.
pub fn assignment_laws()
    ensures { ExactAssignments }
{}

/// A word that a program of a document defines is an always name in the whole document, so it is neither
/// a variable nor a word of an enumeration.
pub fn always_laws()
    ensures { DefinedIsAlways }
{}
