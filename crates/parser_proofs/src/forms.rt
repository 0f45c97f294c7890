//! The terms whose word alone says what stands in their parentheses, and the claims of one predicate.

ghost use Rattle.std.specs.Prelude.{◌≡◌};
ghost use Rattle.grammar_theory.specs.Ebnf.{node};
ghost use Rattle.unity_syntax.specs.Kinds.{kind};
ghost use Rattle.unity_syntax.specs.View.{view_claim, view_expr};
ghost use Rattle.parser_proofs.specs.Forms.{form_word, property_kind, property_word};

use case_tables::Word;
use unity_syntax::{Claim, Expr};

/// A form of a term.
#[derive(Clone, Copy)]
pub enum Form {
    /// `imply`
    Imply,
    /// `exists`
    Exists,
    /// `induct`
    Induct,
    /// `psp`
    Psp,
    /// `weaken`
    Weaken,
}

impl Form {
    /// The word that it begins with.
    pub fn word(self) -> Word
        ensures { result ≡ form_word self }
    {
        match self {
            Form::Imply => Word::Imply,
            Form::Exists => Word::Exists,
            Form::Induct => Word::Induct,
            Form::Psp => Word::Psp,
            Form::Weaken => Word::Weaken,
        }
    }
}

/// What stands in the parentheses of a term.
#[derive(Clone, Copy)]
pub enum Enclosed {
    /// The parts of a form.
    Parts(Form),
    /// Two terms, after this word.
    Terms(Word),
}

/// A property that a claim states of one predicate.
#[derive(Clone, Copy)]
pub enum Property {
    /// `invariant`
    Invariant,
    /// `stable`
    Stable,
    /// `constant`
    Constant,
    /// `fixed`
    Fixed,
}

impl Property {
    /// The word that its claim begins with.
    pub fn word(self) -> Word
        ensures { result ≡ property_word self }
    {
        match self {
            Property::Invariant => Word::Invariant,
            Property::Stable => Word::Stable,
            Property::Constant => Word::Constant,
            Property::Fixed => Word::Fixed,
        }
    }

    /// The claim of a predicate, at this place.
    pub fn claim(self, at: u64, of: Expr) -> Claim
        ensures { view_claim result ≡ node (kind (property_kind self)) at (view_expr of) }
    {
        match self {
            Property::Invariant => Claim::Invariant { at, of },
            Property::Stable => Claim::Stable { at, of },
            Property::Constant => Claim::Constant { at, of },
            Property::Fixed => Claim::Fixed { at, of },
        }
    }
}
