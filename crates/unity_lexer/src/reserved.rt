//! The reserved words.

ghost use Rattle.std.specs.Prelude.{◌≡◌, MatchOption, Contains};
ghost use Rattle.case_tables.specs.Rows.{HasName};
ghost use Rattle.case_tables.specs.TableRows.{word_rows};
ghost use Rattle.unity_lexer.specs.ReservedShapes.{has_reserved_shape, may_be_reserved};

use case_tables::{Word, words};

/// The reserved word that is spelled so; `None` exactly where there is none.
pub(crate) fn reserved_word(word: &[u8]) -> Option<Word>
    ensures { MatchOption result (¬ HasName word_rows word.now) (λ reserved. Contains word_rows (word.now, reserved)) }
{
    if let Some(reserved) = node_word(word) {
        return Some(reserved);
    }
    if may_be_reserved(word) {
        words().find(word)
    } else {
        None
    }
}

/// The reserved word with which a node of a certificate begins, where it is spelled so. A text has mostly these, and
/// they are told without a look into the table.
fn node_word(word: &[u8]) -> Option<Word>
    ensures { MatchOption result (Unit {0}) (λ reserved. Contains word_rows (word.now, reserved)) }
{
    if word == b"sum".as_slice() {
        Some(Word::Sum)
    } else if word == b"round".as_slice() {
        Some(Word::Round)
    } else if word == b"split".as_slice() {
        Some(Word::Split)
    } else if word == b"case".as_slice() {
        Some(Word::Case)
    } else {
        None
    }
}

/// Whether some reserved word has the length and the first byte of this one. Most names are told
/// from the reserved words so, without a look into the table.
fn may_be_reserved(word: &[u8]) -> bool
    ensures { result ≡ may_be_reserved word.now }
{
    !word.is_empty() && has_reserved_shape(word.len(), word[0])
}

fn has_reserved_shape(len: usize, first: u8) -> bool
    ensures { result ≡ has_reserved_shape len first }
{
    match len {
        2 => matches!(first, b'b' | b'i' | b'o'),
        3 => matches!(first, b'a' | b'd' | b'e' | b'm' | b'n' | b'p' | b's'),
        4 => matches!(first, b'c' | b'd' | b'f' | b'q' | b't' | b'w'),
        5 => matches!(first, b'a' | b'f' | b'i' | b'p' | b'r' | b's' | b't' | b'u'),
        6 => matches!(first, b'a' | b'c' | b'e' | b'i' | b's' | b'u' | b'w'),
        7 => matches!(first, b'b' | b'd' | b'e' | b'l' | b'p'),
        8 => matches!(first, b'c' | b's'),
        9 => matches!(first, b'i' | b's'),
        10 => first == b's',
        12 => first == b'c',
        _ => false,
    }
}
