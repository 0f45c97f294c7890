// The steps of proofs by their rules alone: their records, and what is left to be shown for them.
ghost use Rattle.std.specs.Prelude.{◌+◌, ◌≡◌, ◌<◌, ◌^◌, All, IfOk, length, map, sum, Some};
ghost use Rattle.core_terms.specs.Conditions.{IsCoreDocument, IsProgram, IsProof, IsStep};
ghost use Rattle.core_terms.specs.declared.documents.CProof.{CProof};
ghost use Rattle.safety_rules.specs.from_rules_table.Walk.{program_of, walk_of};
ghost use Rattle.proof_plans.specs.Planning.{Reaches, Walks, reach_from};
ghost use Rattle.proof_plans.specs.Reaching.{proof_reach, proofs_reach, reach_of, step_reach, steps_reach};
ghost use Rattle.proof_plans.specs.Verdicts.{rule_fault};
ghost use Rattle.rules_steps.specs.Starts.{IsAround, document_seen, seen_of, starts_in};
ghost use Rattle.rules_steps.specs.Using.{BookFits};

use crate::adding::{add, new_plan};
use crate::plans::{Plan, ScriptError, StepFault};
use crate::programs::{around, find_program};
use case_tables::Code;
use core_terms::{CDocument, CProgram, CProof, CStep};
use rules_steps::{Around, has_defined, step_rule};
use safety_rules::RuleError;
use std::alloc::{AllocError, Global};

// A condition of a rule fails, or at a proof's end its `defined` step is missing.
fn fault(program: u32, step: Option<u32>, code: Code) -> ScriptError
    ensures { result ≡ ScriptError.Step (rule_fault program step code) }
{
    ScriptError::Step(StepFault {
        code,
        program: Some(program),
        step,
        obligation: None,
    })
}

// One step, by its rule.
fn plan_step(
    alloc: Global,
    around: &Around,
    program: &CProgram,
    step: &CStep,
    plan: &mut Plan,
) -> Result<(), ScriptError>
    requires around { IsAround around.now }
    requires program { IsProgram around.now.slots.now program.now }
    requires step { IsStep around.now.slots.now step.now }
    requires book { BookFits around.now.slots.now plan.old.records }
    requires room { length plan.old.records < 2 ^ 31 }
    ensures { Reaches result plan.new (step_reach (seen_of around.now) program.now step.now plan.old) }
{
    match step_rule(alloc, around, program, step, plan.records.as_slice()) {
        Ok(derived) => {
            add(alloc, derived, plan)?;
            Ok(())
        }
        Err(RuleError::Fault(code)) => Err(fault(program.name, Some(step.name), code)),
        Err(RuleError::Memory) => Err(ScriptError::Memory),
    }
}

// The steps of a proof, in order.
fn plan_steps(
    alloc: Global,
    around: &Around,
    program: &CProgram,
    steps: &[CStep],
    plan: &mut Plan,
) -> Result<(), ScriptError>
    requires around { IsAround around.now }
    requires program { IsProgram around.now.slots.now program.now }
    requires steps { All (IsStep around.now.slots.now) steps.now }
    requires book { BookFits around.now.slots.now plan.old.records }
    requires room { length plan.old.records + length steps.now < 2 ^ 31 }
    ensures { Reaches result plan.new (steps_reach (seen_of around.now) program.now steps.now plan.old) }
{
    for step in steps {
        plan_step(alloc, around, program, step, plan)?;
    }
    Ok(())
}

// The proof of a program: its steps, and that one of them is `defined`.
fn plan_program(
    alloc: Global,
    around: &Around,
    program: &CProgram,
    proof: &CProof,
    plan: &mut Plan,
) -> Result<(), ScriptError>
    requires around { IsAround around.now }
    requires program { IsProgram around.now.slots.now program.now }
    requires steps { All (IsStep around.now.slots.now) proof.now.steps }
    requires book { BookFits around.now.slots.now plan.old.records }
    requires room { length plan.old.records + length proof.now.steps < 2 ^ 31 }
    ensures { Reaches result plan.new (proof_reach (seen_of around.now) (Some program.now) proof.now plan.old) }
{
    plan_steps(alloc, around, program, proof.steps.as_slice(), plan)?;
    if has_defined(program.name, plan.records.as_slice()) {
        Ok(())
    } else {
        Err(fault(program.name, None, Code::DefinedMissing))
    }
}

// One proof.
fn plan_proof(
    alloc: Global,
    around: &Around,
    proof: &CProof,
    plan: &mut Plan,
) -> Result<(), ScriptError>
    requires around { IsAround around.now }
    requires steps { All (IsStep around.now.slots.now) proof.now.steps }
    requires book { BookFits around.now.slots.now plan.old.records }
    requires room { length plan.old.records + length proof.now.steps < 2 ^ 31 }
    ensures { Reaches result plan.new (proof_reach (seen_of around.now)
        (program_of around.now.programs.now proof.now.program) proof.now plan.old) }
{
    match find_program(proof.program, around.programs) {
        None => Ok(()),
        Some(program) => plan_program(alloc, around, program, proof, plan),
    }
}

// Proofs, in order.
fn plan_each(
    alloc: Global,
    around: &Around,
    proofs: &[CProof],
    plan: &mut Plan,
) -> Result<(), ScriptError>
    requires around { IsAround around.now }
    requires proofs { All (IsProof around.now.slots.now around.now.programs.now) proofs.now }
    requires book { BookFits around.now.slots.now plan.old.records }
    requires room { length plan.old.records + sum (map (λ (p : CProof). length p.steps) proofs.now) < 2 ^ 31 }
    ensures { Reaches result plan.new (proofs_reach (seen_of around.now) proofs.now plan.old) }
{
    for proof in proofs {
        plan_proof(alloc, around, proof, plan)?;
    }
    Ok(())
}

// All proofs of a document, in order.
fn plan_proofs(alloc: Global, doc: &CDocument, plan: &mut Plan) -> Result<(), ScriptError>
    requires document { IsCoreDocument doc.now }
    requires book { BookFits doc.now.slots plan.old.records }
    requires room { length plan.old.records + sum (map (λ (p : CProof). length p.steps) doc.now.proofs) < 2 ^ 31 }
    ensures { Reaches result plan.new (proofs_reach (document_seen doc.now) doc.now.proofs plan.old) }
{
    let around = around(doc);
    plan_each(alloc, &around, doc.proofs.as_slice(), plan)
}

/// What the steps of a document leave by their rules alone: all of them, or those before the first that fails.
#[derive(Drop)]
pub struct Planned {
    pub plan: Plan,
    /// How the first step fails that fails by its rule, or a proof without a `defined` step.
    pub stopped: Option<StepFault>,
}

/// The records of the steps of a document's proofs, in order, and what is left to be shown for them, as far as the
/// rules go, and the first failure of a rule. Nothing is searched for, and no certificate is read.
///
/// The error is that memory was refused.
pub fn plan_by_rules(alloc: Global, doc: &CDocument) -> Result<Planned, AllocError>
    requires document { IsCoreDocument doc.now }
    ensures { IfOk result (λ planned. reach_of doc.now ≡ reach_from planned.plan planned.stopped) }
{
    let mut plan = new_plan(alloc);
    match plan_proofs(alloc, doc, &mut plan) {
        Ok(()) => Ok(Planned {
            plan,
            stopped: None,
        }),
        Err(ScriptError::Step(fault)) => Ok(Planned {
            plan,
            stopped: Some(fault),
        }),
        Err(ScriptError::Memory) => Err(AllocError),
    }
}

/// The records of all steps of a document's proofs, in order, and what is left to be shown for them, by the
/// table of rules (chapter 3 and 7 of the book, in this profile). Nothing is searched for, and no certificate
/// is read.
///
/// The error is the first failure: a code from 30 to 42 for the first condition of a step's rule that fails,
/// or 36 with no step for a proof without a `defined` step; or `Memory`, where memory was refused.
pub fn walk(alloc: Global, doc: &CDocument) -> Result<Plan, ScriptError>
    requires document { IsCoreDocument doc.now }
    ensures { Walks doc.now.slots result (walk_of doc.now (starts_in doc.now.slots)) }
{
    let mut plan = new_plan(alloc);
    plan_proofs(alloc, doc, &mut plan)?;
    Ok(plan)
}
