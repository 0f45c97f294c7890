// What the steps of proofs leave, and how a step fails.
ghost use Rattle.std.specs.Prelude.{◌≡◌};

use case_tables::Code;
use fair_rounds::Record;
use obligations::Obligation;
use std::alloc::AllocError;
use unity_base::Seq;

/// What the steps of a document's proofs leave.
#[derive(Drop)]
pub struct Plan {
    /// The property of each step, in order.
    pub records: Seq<Record>,
    /// What is left to be shown for the steps, in order.
    pub obligations: Seq<Obligation>,
    /// The place of each obligation's record, from 0.
    pub owner: Seq<u32>,
}

/// How a step fails.
#[derive(Clone, Copy, Debug, PartialEq, Eq)]
pub struct StepFault {
    pub code: Code,
    /// The program, by its word's number; `None` for a surplus certificate alone.
    pub program: Option<u32>,
    /// The step, by its word's number; `None` for a surplus certificate, and for a proof without a
    /// `defined` step.
    pub step: Option<u32>,
    /// The obligation that fails, from 1 through the document, or the first surplus certificate;
    /// `None` where a rule fails.
    pub obligation: Option<u64>,
}

/// Why the proofs of a document are not accepted.
#[derive(Clone, Copy, Debug, PartialEq, Eq)]
pub enum ScriptError {
    /// The first failure.
    Step(StepFault),
    /// Memory was refused.
    Memory,
}

impl From<AllocError> for ScriptError {
    ghost use Rattle.proof_plans.specs.declared.plans.ScriptError.TheVariants.{Memory};

    ghost from_gives = { λ _ error. error ≡ Memory };

    fn from(_: AllocError) -> Self {
        ScriptError::Memory
    }
}
