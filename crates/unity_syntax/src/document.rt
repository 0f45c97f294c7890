//! Whole documents.

use crate::certificate::Certificates;
use crate::name::Name;
use crate::program::Program;
use crate::proof::Proof;
use crate::term::Inst;
use unity_base::Seq;

/// A schedule: `schedule = "schedule" word ":" [ inst { "," inst } ] "end"`.
#[derive(Drop)]
pub struct Schedule {
    pub at: u64,
    pub program: Name,
    pub choices: Option<(Inst, Seq<Inst>)>,
}

/// A program or a proof.
#[derive(Drop)]
pub enum Part {
    Program { at: u64, of: Program },
    Proof { at: u64, of: Proof },
}

/// A document:
/// `document = "unity" number { program | proof } [ schedule ] [ certificates ]`.
#[derive(Drop)]
pub struct Document {
    pub at: u64,
    /// The byte at which the number begins.
    pub number_at: u64,
    /// The version of the language.
    pub number: u64,
    pub parts: Seq<Part>,
    pub schedule: Option<Schedule>,
    pub certificates: Option<Certificates>,
}
