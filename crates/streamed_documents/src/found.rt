//! What a text that is read from a source is found to be.
ghost use Rattle.std.specs.Prelude.{◌≡◌};

use case_tables::Code;
use core_terms::CDocument;
use proof_plans::StepFault;
use std::alloc::AllocError;
use step_plans::Summary;
use unity_base::{Failed, Held, Seq};

/// Why a text is no document without a fault.
#[derive(Clone, Copy, Debug, PartialEq, Eq)]
pub enum Flaw {
    /// It has more bytes than the limit.
    TooLong,
    /// It has a first fault: of the text, or else of the names, or else of the expansion.
    Fault {
        /// What is at fault.
        code: Code,
        /// The place, in bytes from 0.
        at: u64,
    },
}

/// A document without a fault, and how its proofs and certificates are judged.
#[derive(Drop)]
pub struct JudgedDocument {
    /// The core form.
    pub core: CDocument,
    /// What is kept of the plan of all steps, or the first failure.
    pub verdict: Result<Summary, StepFault>,
}

/// What a text is found to be.
#[derive(Drop)]
pub enum Finding {
    /// No document without a fault.
    Refused(Flaw),
    /// A document without a fault.
    Judged(Held<JudgedDocument>),
}

/// What is kept of a document without a fault where its certificates are not judged.
#[derive(Drop)]
pub struct ReadDocument {
    /// The core form.
    pub core: CDocument,
    /// The place of the version's number.
    pub number_at: u64,
    /// The place of the word `certificates`, where there is a section.
    pub section_at: Option<u64>,
    /// The place of each step's name, in the order of the document.
    pub places: Seq<u64>,
}

/// What a text is read as.
#[derive(Drop)]
pub enum Reading {
    /// No document without a fault.
    Refused(Flaw),
    /// A document without a fault.
    Document(Held<ReadDocument>),
}

/// Why nothing is found.
#[derive(Clone, Copy, Debug, PartialEq, Eq)]
pub enum SourceStop {
    /// A read failed: only where the source's count of faults rose.
    Failed,
    /// Memory was refused.
    Memory,
}

impl From<Failed> for SourceStop {
    ghost use Rattle.streamed_documents.specs.declared.found.SourceStop.TheVariants.{Failed};

    ghost from_gives = { λ _ stop. stop ≡ Failed };

    fn from(_: Failed) -> Self {
        SourceStop::Failed
    }
}

impl From<AllocError> for SourceStop {
    ghost use Rattle.streamed_documents.specs.declared.found.SourceStop.TheVariants.{Memory};

    ghost from_gives = { λ _ stop. stop ≡ Memory };

    fn from(_: AllocError) -> Self {
        SourceStop::Memory
    }
}
