//! Certificates as they stand in a document.

use unity_base::Seq;

/// A multiplier and the number of a fact: `pair = [ "-" ] number "*" number`.
#[derive(Drop)]
pub struct Pair {
    pub at: u64,
    pub minus: bool,
    pub multiplier: u64,
    pub fact: u64,
}

/// A node of a certificate:
/// `node = "case" number | "split" number [ "-" ] number | "sum" { pair }
///       | "round" [ "-" ] number { pair } | "quot" number | "share" [ "-" ] number { pair }`.
#[derive(Drop)]
pub enum Node {
    /// Takes a waiting form apart.
    Case {
        at: u64,
        number: u64,
    },
    /// Splits the range of a variable after a value.
    Split {
        at: u64,
        variable: u64,
        minus: bool,
        bound: u64,
    },
    /// Adds facts up to a contradiction.
    Sum {
        at: u64,
        pairs: Seq<Pair>,
    },
    /// Adds facts, divides and rounds.
    Round {
        at: u64,
        minus: bool,
        divisor: u64,
        pairs: Seq<Pair>,
    },
    /// Takes a quotient out of a waiting form.
    Quot {
        at: u64,
        number: u64,
    },
    /// States a fact of variables, given by their numbers, to show it once.
    Share {
        at: u64,
        minus: bool,
        constant: u64,
        pairs: Seq<Pair>,
    },
}

/// One certificate, its nodes in prefix order: `number ":" node { node } ";"`.
#[derive(Drop)]
pub struct CertText {
    pub at: u64,
    pub number: u64,
    pub first: Node,
    pub rest: Seq<Node>,
}

/// The certificates: `certificates = "certificates" { number ":" node { node } ";" } "end"`.
#[derive(Drop)]
pub struct Certificates {
    pub at: u64,
    pub items: Seq<CertText>,
}
