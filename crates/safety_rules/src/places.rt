// Where a rule is applied, and what it gives.
ghost use Rattle.std.specs.Prelude.{◌≡◌};

use case_tables::Code;
use core_terms::{CForm, CProgram, CSlot, Range};
use fair_rounds::Record;
use obligations::{Obligation, TooLargeError};
use std::alloc::AllocError;
use unity_base::Seq;
use wp_substitution::WpError;

/// Where a rule is applied: the step's name, program and parameters, and the predicates of the
/// invariants that it uses.
pub struct Place<'a> {
    pub program: &'a CProgram,
    pub slots: &'a [CSlot],
    pub params: &'a [Range],
    pub name: u32,
    pub using: &'a [CForm],
}

/// What a rule gives: the step's record, and what is left to be shown.
#[derive(Drop)]
pub struct Derived {
    pub made: Record,
    pub obligations: Seq<Obligation>,
}

/// Why a rule gives nothing.
#[derive(Clone, Copy, Debug, PartialEq, Eq)]
pub enum RuleError {
    /// The first condition that failed has this code.
    Fault(Code),
    /// Memory was refused.
    Memory,
}

impl From<AllocError> for RuleError {
    ghost use Rattle.safety_rules.specs.declared.places.RuleError.TheVariants.{Memory};

    ghost from_gives = { λ _ error. error ≡ Memory };

    fn from(_: AllocError) -> Self {
        RuleError::Memory
    }
}

impl From<TooLargeError> for RuleError {
    ghost use Rattle.safety_rules.specs.Errors.{rule_error};

    ghost from_gives = { λ cause error. error ≡ rule_error cause };

    fn from(cause: TooLargeError) -> Self {
        match cause {
            TooLargeError::TooLarge => RuleError::Fault(Code::FormulaTooLarge),
            TooLargeError::Memory => RuleError::Memory,
        }
    }
}

impl From<WpError> for RuleError {
    ghost use Rattle.safety_rules.specs.Errors.{precondition_error};

    ghost from_gives = { λ cause error. error ≡ precondition_error cause };

    fn from(cause: WpError) -> Self {
        match cause {
            WpError::TooLarge => RuleError::Fault(Code::FormulaTooLarge),
            WpError::Memory => RuleError::Memory,
        }
    }
}
