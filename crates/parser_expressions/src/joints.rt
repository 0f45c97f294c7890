//! What joins units.

ghost use Rattle.std.specs.Prelude.{◌≡◌, [], ◌∷◌};
ghost use Rattle.grammar_theory.specs.Reader.{begins};
ghost use Rattle.unity_syntax.specs.Classes.{reserved};
ghost use Rattle.parser_expressions.specs.Gives.{Skips, remaining};
ghost use Rattle.parser_expressions.specs.Joints.{joint_word};

use crate::cursor::Cursor;
use crate::stop::Stop;
use case_tables::Word;

/// What stands between units that are joined: the same word between any two of them.
#[derive(Clone, Copy)]
pub enum Joint {
    /// `and`
    And,
    /// `or`
    Or,
}

impl Joint {
    /// The word.
    fn word(self) -> Word
        ensures { result ≡ joint_word self }
    {
        match self {
            Joint::And => Word::And,
            Joint::Or => Word::Or,
        }
    }

    /// Whether a further unit is joined by the same word.
    pub fn goes_on(self, text: Cursor) -> bool
        ensures { result ≡ begins (reserved (joint_word self) ∷ []) (remaining text.entry) }
    {
        text.begins_reserved(self.word())
    }

    /// What remains after the word, which has to come.
    pub fn skip<'a>(self, text: Cursor<'a>) -> Result<Cursor<'a>, Stop<'a>>
        ensures { Skips (reserved (joint_word self)) result text.entry }
    {
        text.reserved(self.word())
    }
}
