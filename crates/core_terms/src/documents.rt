// Proofs, schedules and whole documents. Words are given by their numbers.
use crate::programs::{CProgram, CSlot};
use crate::trees::{CForm, CTerm, Range};
use case_tables::{Kind, RuleName};
use unity_base::{Held, Seq};

/// What a reference or a helper gives for a parameter.
#[derive(Clone, Copy, Debug, PartialEq, Eq)]
pub enum Arg {
    /// A number.
    Number(i64),
    /// The parameter of this number, and so much more.
    Param { number: u32, add: i64 },
    /// A variable, which no reference may give.
    Slot,
}

/// A step of a proof, with arguments for its parameters. `program` and `step` are words.
#[derive(Drop)]
pub struct Ref {
    pub program: u32,
    pub step: u32,
    pub args: Seq<Arg>,
}

/// The statement that helps: its label and its indices.
#[derive(Drop)]
pub struct Helper {
    pub label: u32,
    pub args: Seq<Arg>,
}

/// How a leads-to is derived. The number of `Exists` and `Induct` is that of the name that they bind.
#[derive(Drop)]
pub enum PTerm {
    Imply(CForm, CForm),
    From(Ref),
    Trans(Held<PTerm>, Held<PTerm>),
    Either(Held<PTerm>, Held<PTerm>),
    Exists(u32, Range, Held<PTerm>),
    /// The bound name and its range, the measure, p and q, and the part.
    Induct(u32, Range, CTerm, CForm, CForm, Held<PTerm>),
    Psp(Held<PTerm>, Ref),
    Weaken(CForm, CForm, Held<PTerm>),
}

/// How a step is justified.
#[derive(Drop)]
pub enum CRule {
    /// By the program's text.
    Text,
    /// By the program's text, with the statement that helps.
    TextWith(Helper),
    WeakenStep(Ref),
    Pair(RuleName, Ref, Ref),
    /// From a step of each part of a union.
    Union(Ref, Ref),
    /// From a step of the program under this one, which is a layer over it.
    Superpose(Ref),
    /// From two leads-to steps and the two unless steps that keep what they reach.
    Complete(Ref, Ref, Ref, Ref),
    Proof(PTerm),
}

/// One step of a proof.
#[derive(Drop)]
pub struct CStep {
    pub name: u32,
    /// The ranges of the step's own parameters, by number.
    pub params: Seq<Range>,
    /// The names of the step's parameters and of the names that its term binds, by number.
    pub param_names: Seq<u32>,
    pub kind: Kind,
    /// `Top` for `defined`.
    pub p: CForm,
    /// `Top` for `defined`, and `Bottom` for `invariant`, `stable`, `constant` and `fixed`.
    pub q: CForm,
    pub rule: CRule,
    pub using: Seq<Ref>,
}

/// The proof of a program.
#[derive(Drop)]
pub struct CProof {
    pub program: u32,
    pub steps: Seq<CStep>,
}

/// One statement that a schedule chooses, and its place in the text, in bytes.
#[derive(Drop)]
pub struct Choice {
    pub label: u32,
    pub indices: Seq<i64>,
    pub at: u64,
}

/// What the trace executes.
#[derive(Drop)]
pub struct CSchedule {
    pub program: u32,
    pub choices: Seq<Choice>,
}

/// A whole document. The number of a word is its place in `words`.
#[derive(Drop)]
pub struct CDocument {
    pub version: u64,
    pub words: Seq<Seq<u8>>,
    pub slots: Seq<CSlot>,
    pub programs: Seq<CProgram>,
    pub proofs: Seq<CProof>,
    pub schedule: Option<CSchedule>,
}
