//! References and the terms that prove a leads-to.

use crate::expression::Expr;
use crate::name::{End, Name, Range};
use case_tables::Word;
use unity_base::{Held, Seq};

/// A statement's name: `inst = word [ "[" end { "," end } "]" ]`.
#[derive(Drop)]
pub struct Inst {
    pub at: u64,
    pub label: Name,
    pub indices: Option<(End, Seq<End>)>,
}

/// A step's name, with the program's where it is another:
/// `ref = word [ "." word ] [ "[" end { "," end } "]" ]`.
#[derive(Drop)]
pub struct Ref {
    pub at: u64,
    pub name: Name,
    /// The step, where `name` is its program.
    pub step: Option<Name>,
    pub args: Option<(End, Seq<End>)>,
}

/// A proof term:
/// `term = "imply" "(" pred "," pred ")" | "from" ref
///       | ( "trans" | "either" ) "(" term "," term ")"
///       | "exists" "(" word ":" range "," term ")"
///       | "induct" "(" word ":" range "," pred "," pred "," pred "," term ")"
///       | "psp" "(" term "," ref ")" | "weaken" "(" pred "," pred "," term ")"`.
#[derive(Drop)]
pub enum Term {
    Imply {
        at: u64,
        p: Expr,
        q: Expr,
    },
    From {
        at: u64,
        of: Ref,
    },
    /// `trans` or `either`, as `which` says.
    Pair {
        at: u64,
        which: Word,
        first: Held<Term>,
        second: Held<Term>,
    },
    Exists {
        at: u64,
        name: Name,
        range: Range,
        of: Held<Term>,
    },
    Induct {
        at: u64,
        name: Name,
        range: Range,
        measure: Expr,
        p: Expr,
        q: Expr,
        of: Held<Term>,
    },
    Psp {
        at: u64,
        of: Held<Term>,
        by: Ref,
    },
    Weaken {
        at: u64,
        p: Expr,
        q: Expr,
        of: Held<Term>,
    },
}
