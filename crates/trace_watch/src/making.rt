// A watch is made: the cases of the steps of a program.
ghost use Rattle.std.specs.Prelude.{◌≡◌, ◌<◌, ◌≤◌, ◌^◌, ◌++◌, [], All, IfOk, OnOk, length, map};
ghost use Rattle.core_terms.specs.Conditions.{IsProgram};
ghost use Rattle.trace_watch.specs.Cases as cases;
ghost use Rattle.trace_watch.specs.Places.{RecordFormsFit};
ghost use Rattle.trace_watch.specs.Waiting.{CasesStand};
ghost use Rattle.trace_watch.specs.Stepping.{StepFits, StepStands, watched_as};

use crate::case::Case;
use crate::helpers::helper_place;
use crate::numbers::{case_count, case_values};
use crate::step::Step;
use core_terms::{CProgram, CSlot};
use fair_rounds::Record;
use std::alloc::{AllocError, Global};

// The steps of a program, before any place was seen. The slots are those of the document.
pub(crate) fn steps_of<'a>(
    alloc: Global,
    p: &'a CProgram,
    slots: &'a [CSlot],
    records: &'a [Record],
) -> Result<Vec<Step<'a>>, AllocError>
    requires program { IsProgram slots.now p.now }
    requires fits { All (RecordFormsFit slots.now) records.now }
    requires few { length records.now < 2 ^ 31 }
    requires cases { cases.total_cases p.now records.now ≤ 4096 }
    ensures fits { IfOk result (λ steps. All (StepFits slots.now) steps.items) }
    ensures watched { IfOk result (λ steps. map (watched_as p.now) steps.items ≡ cases.watched p.now records.now) }
    ensures stands { IfOk result (λ steps. All (StepStands p.now [] []) steps.items) }
{
    let mut steps = Vec::new(alloc);
    for place in 0..records.len() {
        add_step(alloc, p, slots, place as u32, &records[place], &mut steps)?;
    }
    Ok(steps)
}

// Adds the step of a claim, if it is one of the program's.
fn add_step<'a>(
    alloc: Global,
    p: &'a CProgram,
    slots: &'a [CSlot],
    place: u32,
    claim: &'a Record,
    steps: &mut Vec<Step<'a>>,
) -> Result<(), AllocError>
    requires program { IsProgram slots.now p.now }
    requires fits { RecordFormsFit slots.now claim.now }
    requires few { cases.own_cases p.now claim.now ≤ 4096 }
    ensures fits { All (StepFits slots.now) steps.old.items → OnOk result (All (StepFits slots.now) steps.new.items) }
    ensures watched { OnOk result (map (watched_as p.now) steps.new.items
        ≡ map (watched_as p.now) steps.old.items ++ cases.watched_one p.now place claim.now) }
    ensures stands { All (StepStands p.now [] []) steps.old.items →
        OnOk result (All (StepStands p.now [] []) steps.new.items) }
{
    if claim.program != p.name {
        return Ok(());
    }
    let step = step_of(alloc, p, slots, place, claim)?;
    steps.push(step)?;
    Ok(())
}

// A step, before any place was seen.
fn step_of<'a>(
    alloc: Global,
    p: &'a CProgram,
    slots: &'a [CSlot],
    place: u32,
    claim: &'a Record,
) -> Result<Step<'a>, AllocError>
    requires program { IsProgram slots.now p.now }
    requires fits { RecordFormsFit slots.now claim.now }
    requires few { cases.case_count claim.now.params ≤ 4096 }
    ensures fits { IfOk result (λ step. StepFits slots.now step) }
    ensures watched { IfOk result (λ step. watched_as p.now step ≡ cases.watched_step p.now place claim.now) }
    ensures stands { IfOk result (λ step. StepStands p.now [] [] step) }
{
    let mut values = vec![in alloc; 0; claim.params.len()]?;
    let cases = cases_of(alloc, p, claim, &mut values)?;
    Ok(Step {
        place,
        record: claim,
        values,
        cases,
    })
}

// The cases of a step, before any place was seen.
fn cases_of(
    alloc: Global,
    p: &CProgram,
    claim: &Record,
    values: &mut [i64],
) -> Result<Vec<Case>, AllocError>
    requires some { 1 ≤ length p.now.statements }
    requires instances { length p.now.statements ≤ 4096 }
    requires room { length values.old ≡ length claim.now.params }
    requires few { cases.case_count claim.now.params ≤ 4096 }
    ensures count { IfOk result (λ made. length made.items ≡ cases.case_count claim.now.params) }
    ensures stands { IfOk result (λ made. CasesStand (length p.now.statements) made.items
        (map (cases.reading_of p.now claim.now) (cases.environments claim.now.params)) [] []) }
{
    let mut made = Vec::new(alloc);
    for number in 0..case_count(claim.params.as_slice()) {
        case_values(claim.params.as_slice(), number, values);
        let helper = helper_place(p, &claim.helper, values);
        made.push(Case::new(p.statements.len() as u32, helper))?;
    }
    Ok(made)
}
