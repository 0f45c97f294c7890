//! Names, range ends and ranges.

use case_tables::Symbol;
use unity_base::Seq;

/// A word that is not reserved.
#[derive(Debug, Drop)]
pub struct Name {
    /// The byte at which it begins.
    pub at: u64,
    /// Its ASCII letters, digits and `_`.
    pub text: Seq<u8>,
}

/// An end of a range: `end = [ "-" ] number | word [ ( "+" | "-" ) number ]`.
#[derive(Drop)]
pub enum End {
    /// A number, or with `minus` its negation.
    Number {
        at: u64,
        minus: bool,
        number: u64,
    },
    /// The value of a name, which a number may be added to or taken from.
    Word {
        at: u64,
        name: Name,
        offset: Option<(Symbol, u64)>,
    },
}

/// The whole numbers from `low` to `high`, both included: `range = end ".." end`.
#[derive(Drop)]
pub struct Range {
    pub at: u64,
    pub low: End,
    pub high: End,
}
