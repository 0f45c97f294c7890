//! Statements.

use crate::expression::Expr;
use crate::name::{Name, Range};
use unity_base::{Held, Seq};

/// What is assigned to: `target = word [ "[" pred "]" ]`.
#[derive(Drop)]
pub struct Target {
    pub at: u64,
    pub name: Name,
    pub index: Option<Expr>,
}

/// One value for each target: `values = pred { "," pred }`.
#[derive(Drop)]
pub struct Values {
    pub at: u64,
    pub first: Expr,
    pub rest: Seq<Expr>,
}

/// The alternatives of an assignment: `alts = values [ "if" pred { "~" values "if" pred } ]`.
#[derive(Drop)]
pub struct Alts {
    pub at: u64,
    pub values: Values,
    /// The condition of these values, and the further alternatives.
    pub condition: Option<(Expr, Seq<(Values, Expr)>)>,
}

/// A part of an assignment:
/// `comp = target { "," target } ":=" alts | "<||" word ":" range "::" assign "|>"`.
#[cycle(assign)]
#[derive(Drop)]
pub enum Component {
    Set {
        at: u64,
        first: Target,
        rest: Seq<Target>,
        alts: Alts,
    },
    /// The assignment for each number of the range, all at once.
    Quantified {
        at: u64,
        name: Name,
        range: Range,
        of: Held<Assign>,
    },
}

/// Assignments that are made at once: `assign = comp { "||" comp }`.
#[cycle(assign)]
#[derive(Drop)]
pub struct Assign {
    pub at: u64,
    pub first: Component,
    pub rest: Seq<Component>,
}

/// A statement, or a list of them for each number of a range:
/// `item = word ":" assign | "<[]" word ":" range "::" items "|>"`.
#[cycle(items)]
#[derive(Drop)]
pub enum Item {
    Statement {
        at: u64,
        label: Name,
        assign: Assign,
    },
    Quantified {
        at: u64,
        name: Name,
        range: Range,
        of: Held<Items>,
    },
}

/// The statements of a program: `items = item { "[]" item }`.
#[cycle(items)]
#[derive(Drop)]
pub struct Items {
    pub at: u64,
    pub first: Item,
    pub rest: Seq<Item>,
}
