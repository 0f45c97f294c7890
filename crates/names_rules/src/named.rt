//! What a word means.

use std::alloc::AllocError;
use unity_syntax::from_case_tables::Code;
use unity_syntax::from_unity_base::Seq;

/// Why a document is not well named, or not known to be.
#[derive(Clone, Copy, Debug, PartialEq, Eq)]
pub enum NameFault {
    /// The document's first fault: its code, from 10 to 17, and the byte at which it stands.
    Fault { code: Code, at: u64 },
    /// Memory was refused.
    Memory,
}

impl From<AllocError> for NameFault {
    ghost use Rattle.std.specs.Prelude.{◌≡◌};
    ghost use Rattle.names_rules.specs.declared.named.NameFault.TheVariants.{Memory};

    ghost from_gives = { λ _ fault. fault ≡ Memory };

    fn from(_: AllocError) -> Self {
        NameFault::Memory
    }
}

/// A type.
#[derive(Clone, Copy, Debug, PartialEq, Eq)]
pub enum Sort {
    Number,
    Boolean,
    /// An enumeration, by the byte at which it first stands, and the value of its last word.
    Words { at: u64, last: u64 },
}

/// What a word means. A name is known by the byte at which it is first declared.
#[derive(Clone, Copy, Debug, PartialEq, Eq)]
pub enum Meaning {
    Variable(u64),
    Always(u64),
    /// A name that a quantifier binds.
    Bound(u64),
    /// A parameter of a step, or a name that `exists` or `induct` binds, by its number in its step.
    Param(u64),
    /// A word of an enumeration, by its value.
    Value(u64),
    Program(u64),
}

/// The whole numbers from `low` to `high`, both included.
#[derive(Clone, Copy, Debug, PartialEq, Eq)]
pub struct Span {
    pub low: i128,
    pub high: i128,
}

/// A word that has a meaning in an expression.
#[derive(Clone, Copy, Debug, PartialEq, Eq)]
pub struct Named {
    pub meaning: Meaning,
    pub sort: Sort,
    /// The declared range of a variable or an array's elements; `0..0` where it has none.
    pub range: Span,
    /// The indices of an array.
    pub indices: Option<Span>,
    /// Whether it names no variable and no parameter.
    pub constant: bool,
    /// The program that declared it last, by the byte at which its name stands.
    pub program: u64,
}

/// The type of an expression, and whether it names no variable and no parameter.
#[derive(Clone, Copy, Debug, PartialEq, Eq)]
pub struct Typed {
    pub sort: Sort,
    pub constant: bool,
}

/// A program.
#[derive(Drop)]
pub struct Composed {
    /// The byte at which its name stands first.
    pub at: u64,
    /// The plain programs that it is made of, each by the byte at which its name stands first.
    pub parts: Seq<u64>,
}

/// Where indices and arguments stand.
#[derive(Clone, Copy, Debug, PartialEq, Eq)]
pub enum Indices {
    /// After the label of a helper.
    Helper,
    /// After the name of a step.
    Reference,
    /// After a label in a schedule.
    Schedule,
}
