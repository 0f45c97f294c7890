// A step of a proof, by its rule.
ghost use Rattle.std.specs.Prelude.{◌≡◌, ◌++◌, ◌∷◌, [], All, IfOk, List, OnOk, reverse};
ghost use Rattle.core_terms.specs.Conditions.{IsProgram, IsStep};
ghost use Rattle.core_terms.specs.declared.documents.CProof.{CProof};
ghost use Rattle.obligations.specs.Obligations.{IsObligation};
ghost use Rattle.proof_plans.specs.Verdicts.{rule_fault};
ghost use Rattle.rules_steps.specs.Starts.{IsAround, seen_of};
ghost use Rattle.rules_steps.specs.Using.{BookFits};
ghost use Rattle.safety_rules.specs.from_rules_table.Walk.{rule_of};
ghost use Rattle.step_plans.specs.Planning.{PlansStep};
ghost use Rattle.step_plans.specs.Stepping.{by_rule};

use case_tables::Code;
use core_terms::{CProgram, CStep};
use fair_rounds::Record;
use obligations::Obligation;
use proof_plans::{ScriptError, StepFault};
use rules_steps::{Around, step_rule};
use safety_rules::{Derived, RuleError};
use std::alloc::{AllocError, Global};
use unity_base::{Held, Seq};

/// A step that was planned.
#[derive(Drop)]
pub struct PlannedStep {
    /// Its program, by its word's number.
    pub program: u32,
    /// The step, by its word's number.
    pub step: u32,
    /// What is left to be shown for it, in the opposite order: what is taken out at the end comes first.
    pub obligations: Seq<Obligation>,
}

// A condition of a rule fails, or at a proof's end its `defined` step is missing.
pub(crate) fn fault(program: u32, step: Option<u32>, code: Code) -> ScriptError
    ensures { result ≡ ScriptError.Step (rule_fault program step code) }
{
    ScriptError::Step(StepFault {
        code,
        program: Some(program),
        step,
        obligation: None,
    })
}

// The obligations in the opposite order.
fn turned(alloc: Global, obligations: Seq<Obligation>) -> Result<Seq<Obligation>, AllocError>
    ensures { IfOk result (λ all. reverse all ≡ obligations) }
{
    let mut left = obligations;
    let mut all = Seq::new(alloc);
    'items: while let Some(obligation) = left.pop() {
        all.push(obligation)?;
    }
    Ok(all)
}

// Adds the record of a step. What it leaves is given back, in the opposite order.
fn add(
    alloc: Global,
    derived: Held<Derived>,
    records: &mut Seq<Record>,
) -> Result<Seq<Obligation>, AllocError>
    ensures records { OnOk result (records.new ≡ records.old ++ derived.made ∷ []) }
    ensures obligations { IfOk result (λ all. reverse all ≡ derived.obligations) }
{
    let Derived { made, obligations } = derived.into_inner();
    records.push(made)?;
    turned(alloc, obligations)
}

// A step of this program, by its rule. Its record is added.
pub(crate) fn plan_step(
    alloc: Global,
    around: &Around,
    program: &CProgram,
    step: &CStep,
    records: &mut Seq<Record>,
) -> Result<PlannedStep, ScriptError>
    requires around { IsAround around.now }
    requires program { IsProgram around.now.slots.now program.now }
    requires step { IsStep around.now.slots.now step.now }
    requires book { BookFits around.now.slots.now records.old }
    ensures planned { (left : List CProof) → PlansStep result (by_rule around.now.slots.now program.now step.now left
        (rule_of (seen_of around.now) program.now step.now records.old)) left records.old records.new }
    ensures book { OnOk result (BookFits around.now.slots.now records.new) }
    ensures obligations { IfOk result (λ s. All IsObligation (reverse s.obligations)) }
{
    match step_rule(alloc, around, program, step, records.as_slice()) {
        Ok(derived) => {
            let obligations = add(alloc, derived, records)?;
            Ok(PlannedStep {
                program: program.name,
                step: step.name,
                obligations,
            })
        }
        Err(RuleError::Fault(code)) => Err(fault(program.name, Some(step.name), code)),
        Err(RuleError::Memory) => Err(ScriptError::Memory),
    }
}
