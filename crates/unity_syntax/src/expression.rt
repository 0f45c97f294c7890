//! Expressions.

use crate::name::{Name, Range};
use case_tables::{Symbol, Word};
use unity_base::{Held, Seq};

/// What stands between two factors of a product.
#[derive(Clone, Copy, Debug, PartialEq, Eq)]
pub enum Operator {
    /// `"*"`
    Times,
    /// `"div"`: the quotient, rounded down.
    Div,
    /// `"mod"`: what such a division leaves.
    Mod,
}

/// An expression: the productions from `pred` to `atom`. One operand with no operator is the tree
/// of that operand.
#[derive(Drop)]
pub enum Expr {
    /// `joined "=>" joined`
    Implies {
        at: u64,
        left: Held<Expr>,
        right: Held<Expr>,
    },
    /// `unit "and" unit { "and" unit }`
    And {
        at: u64,
        first: Held<Expr>,
        rest: Seq<Expr>,
    },
    /// `unit "or" unit { "or" unit }`
    Or {
        at: u64,
        first: Held<Expr>,
        rest: Seq<Expr>,
    },
    /// `"not" compare`
    Not {
        at: u64,
        of: Held<Expr>,
    },
    /// `sum relation sum`, with one of the six relations
    Compare {
        at: u64,
        left: Held<Expr>,
        relation: Symbol,
        right: Held<Expr>,
    },
    /// `[ "-" ] product { ( "+" | "-" ) product }`, with `-` in front or more than one product
    Sum {
        at: u64,
        minus: bool,
        first: Held<Expr>,
        rest: Seq<(Symbol, Expr)>,
    },
    /// `atom operator atom { operator atom }`, read from the left
    Product {
        at: u64,
        first: Held<Expr>,
        rest: Seq<(Operator, Expr)>,
    },
    /// `number`
    Number {
        at: u64,
        number: u64,
    },
    /// `"true"`
    True {
        at: u64,
    },
    /// `"false"`
    False {
        at: u64,
    },
    /// `word [ "[" pred "]" ]`
    Word {
        at: u64,
        name: Name,
        index: Option<Held<Expr>>,
    },
    /// `"(" pred ")"`
    Brackets {
        at: u64,
        of: Held<Expr>,
    },
    /// `"(" ( "all" | "any" | "sum" ) word ":" range "::" pred ")"`
    Quantified {
        at: u64,
        which: Word,
        name: Name,
        range: Range,
        of: Held<Expr>,
    },
}
