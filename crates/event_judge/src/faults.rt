// How certificates fail.
ghost use Rattle.std.specs.Prelude.{◌≡◌, ◌+◌, ℕ};
ghost use Rattle.proof_plans.specs.Verdicts as verdicts;

use case_tables::Code;
use proof_plans::StepFault;

/// The obligation of this number, from 1, which this step of this program leaves, fails.
pub(crate) fn refutation_fault(program: u32, step: u32, number: u64, code: Code) -> StepFault
    ensures { (before : ℕ) → number ≡ before + 1 → result ≡ verdicts.refutation_fault program step before code }
{
    StepFault {
        code,
        program: Some(program),
        step: Some(step),
        obligation: Some(number),
    }
}

/// The certificate of this number, from 1, is one too many.
pub(crate) fn surplus_fault(number: u64) -> StepFault
    ensures { (before : ℕ) → number ≡ before + 1 → result ≡ verdicts.surplus_fault before }
{
    StepFault {
        code: Code::CertSurplus,
        program: None,
        step: None,
        obligation: Some(number),
    }
}
