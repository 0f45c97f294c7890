//! Small programs whose meaning was worked out by hand. These functions do nothing: each states examples.

ghost use Rattle.examples_definitions.specs.StepExamples.{AtOnceExamples, AlternativeExamples, OutsideExamples};
ghost use Rattle.examples_definitions.specs.StepExamples.{InstanceExamples};
ghost use Rattle.examples_definitions.specs.ProgramExamples.{UnionExamples, RoundExamples};
ghost use Rattle.examples_definitions.specs.ClaimExamples.{ExecutionExamples, SafetyExamples, EnsuresExamples};
ghost use Rattle.examples_definitions.specs.ClaimExamples.{ProgressExamples, NoSuchProgram};

/// The step of small assignments at one state: what is done at once, which alternatives are taken,
/// and where a step is undefined.
pub fn step_examples()
    ensures at_once { AtOnceExamples }
    ensures alternatives { AlternativeExamples }
    ensures outside { OutsideExamples }
{}

/// The instances of small programs in their order, and their steps.
pub fn instance_examples()
    ensures { InstanceExamples }
{}

/// Unions of programs by name, and the rounds of some lists of choices.
pub fn program_examples()
    ensures unions { UnionExamples }
    ensures rounds { RoundExamples }
{}

/// Claims on three small programs, true and false ones: executions, `defined`, `fixed`, `constant`,
/// `unless`, `ensures` with and without a parameter, a leads-to that holds within two rounds and not
/// within one, `until` and `detects`; and a claim on a program that is not there.
pub fn claim_examples()
    ensures executions { ExecutionExamples }
    ensures safety { SafetyExamples }
    ensures helping { EnsuresExamples }
    ensures progress { ProgressExamples }
    ensures no_program { NoSuchProgram }
{}
