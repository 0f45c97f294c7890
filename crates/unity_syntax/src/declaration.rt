//! What stands before a program's statements: variables, always names and start values.

use crate::expression::Expr;
use crate::name::{Name, Range};
use unity_base::Seq;

/// The type of a variable that is no array:
/// `plain = "boolean" | range | "{" word { "," word } "}"`.
#[derive(Drop)]
pub enum Plain {
    /// False, which counts as 0, or true, which counts as 1.
    Boolean {
        at: u64,
    },
    /// A whole number of the range.
    Range {
        at: u64,
        range: Range,
    },
    /// One of the words, which count from 0.
    Words {
        at: u64,
        first: Name,
        rest: Seq<Name>,
    },
}

/// The type of a variable: `plain | "array" range "of" plain`.
#[derive(Drop)]
pub enum VarType {
    Plain { at: u64, of: Plain },
    /// One variable for each index of the range.
    Array { at: u64, range: Range, of: Plain },
}

/// A variable's declaration: `var = word ":" ( plain | "array" range "of" plain )`.
#[derive(Drop)]
pub struct Var {
    pub at: u64,
    pub name: Name,
    pub kind: VarType,
}

/// An always name's definition: `def = word "=" pred`.
#[derive(Drop)]
pub struct Def {
    pub at: u64,
    pub name: Name,
    pub of: Expr,
}

/// A value in a start section: `[ "-" ] number | word | "true" | "false"`.
#[derive(Drop)]
pub enum InitValue {
    Number { at: u64, minus: bool, number: u64 },
    Word { at: u64, name: Name },
    True { at: u64 },
    False { at: u64 },
}

/// A variable's value in the start state:
/// `init = word [ "[" [ "-" ] number "]" ] "=" ( [ "-" ] number | word | "true" | "false" )`.
#[derive(Drop)]
pub struct Init {
    pub at: u64,
    pub name: Name,
    /// The index of an array, whether `-` stands before it, and its number.
    pub index: Option<(bool, u64)>,
    pub value: InitValue,
}
