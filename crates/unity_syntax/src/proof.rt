//! Proofs and their steps.

use crate::expression::Expr;
use crate::name::{Name, Range};
use crate::term::{Inst, Ref, Term};
use case_tables::Word;
use unity_base::Seq;

/// A parameter of a step: `param = word ":" range`.
#[derive(Drop)]
pub struct Param {
    pub at: u64,
    pub name: Name,
    pub range: Range,
}

/// What a step claims:
/// `claim = "defined" | "invariant" pred | "stable" pred | "constant" pred | "fixed" pred
///        | pred ( "unless" | "ensures" | "leadsto" | "until" | "detects" ) pred`.
#[derive(Drop)]
pub enum Claim {
    Defined {
        at: u64,
    },
    Invariant {
        at: u64,
        of: Expr,
    },
    Stable {
        at: u64,
        of: Expr,
    },
    Constant {
        at: u64,
        of: Expr,
    },
    Fixed {
        at: u64,
        of: Expr,
    },
    /// `unless`, `ensures`, `leadsto`, `until` or `detects`, as `which` says.
    Between {
        at: u64,
        p: Expr,
        which: Word,
        q: Expr,
    },
}

/// How a step is proved:
/// `rule = "text" [ "with" inst ] | "weaken" ref | pairrule ref ref | "superpose" ref
///       | "complete" ref ref ref ref | term`, with
/// `pairrule = "conj" | "simpleconj" | "disj" | "simpledisj" | "cancel" | "union"
///           | "until" | "detects" | "constant"`.
#[derive(Drop)]
pub enum Rule {
    Text {
        at: u64,
        with: Option<Inst>,
    },
    Weaken {
        at: u64,
        of: Ref,
    },
    Pair {
        at: u64,
        which: Word,
        first: Ref,
        second: Ref,
    },
    /// The step of the program under this one, carried up.
    Superpose {
        at: u64,
        of: Ref,
    },
    Complete {
        at: u64,
        first: Ref,
        second: Ref,
        third: Ref,
        fourth: Ref,
    },
    Term {
        at: u64,
        of: Term,
    },
}

/// A step of a proof:
/// `step = word [ "(" param { "," param } ")" ] ":" claim "by" rule [ "using" ref { "," ref } ] ";"`.
#[derive(Drop)]
pub struct Step {
    pub at: u64,
    pub name: Name,
    pub params: Option<(Param, Seq<Param>)>,
    pub claim: Claim,
    pub rule: Rule,
    pub using: Option<(Ref, Seq<Ref>)>,
}

/// A proof of a program: `proof = "proof" word { step } "end"`.
#[derive(Drop)]
pub struct Proof {
    pub at: u64,
    pub program: Name,
    pub steps: Seq<Step>,
}
