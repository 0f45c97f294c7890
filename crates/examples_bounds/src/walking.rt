// The walk through all executions of a few choices.
ghost use Rattle.std.specs.Prelude.{◌≡◌, ◌↔◌, ◌<◌, ◌∷◌, ◌++◌, ℕ, List, [], length, IfOk, IsTrue};
ghost use Rattle.meaning_states.specs.State.{State, is_state};
ghost use Rattle.meaning_executions.specs.Execution.{chosen_step};
ghost use Rattle.core_terms.specs.Steps.{slot_ranges};
ghost use Rattle.fair_rounds.specs.Counts.{CountStandsFor};
ghost use Rattle.executor.specs.CoreSystem.{core_system};
ghost use Rattle.examples_bounds.specs.Claims.{IsClaim, claimed, before, after};
ghost use Rattle.examples_bounds.specs.Walking.{LeadsBehind, ComesAt, LeadsWithin, LeadsAt};

use crate::claims::Claim;
use core_terms::holds;
use executor::{Runner, StartError, Stepped};
use fair_rounds::RoundCount;
use std::alloc::{AllocError, Global};
use unity_base::Seq;

// The state after a choice, where its step is defined.
fn state_after(
    alloc: Global,
    claim: &Claim,
    state: &[i64],
    choice: u32,
) -> Result<Option<Seq<i64>>, AllocError>
    requires claim { IsClaim claim.now }
    requires state { IsTrue (is_state (slot_ranges claim.now.slots.now) state.now) }
    requires choice { choice < length claim.now.program.now.statements }
    ensures { IfOk result (λ next. next ≡ chosen_step (claimed claim.now) choice state.now) }
{
    match Runner::new(alloc, claim.program, claim.slots, state) {
        Ok(runner) => {
            let mut runner = runner;
            match runner.step(choice) {
                Stepped::Done => Ok(Some(copied(alloc, runner.state())?)),
                Stepped::Undefined => Ok(None),
            }
        }
        Err(StartError::NotInitial) => Ok(None),
        Err(StartError::Memory) => Err(AllocError),
    }
}

pub(crate) fn copied(alloc: Global, state: &[i64]) -> Result<Seq<i64>, AllocError>
    ensures { IfOk result (λ copy. copy ≡ state.now) }
{
    let mut copy = Seq::new(alloc);
    for number in state {
        copy.push(*number)?;
    }
    Ok(copy)
}

// How many instances there are.
fn instances(claim: &Claim) -> u32
    requires { IsClaim claim.now }
    ensures { result ≡ length claim.now.program.now.statements }
{
    claim.program.statements.len() as u32
}

// The count with one choice more.
fn with_choice(count: &RoundCount, choice: u32) -> RoundCount
    requires { choice < count.now.instances }
    ensures instances { result.instances ≡ count.now.instances }
    ensures longer { (made : List ℕ) → CountStandsFor count.now made → CountStandsFor result (made ++ choice ∷ []) }
{
    let mut longer = *count;
    longer.add(choice);
    longer
}

// Whether q holds at the state, or comes at each way of at most so many choices before the rounds have ended.
#[cycle(coming)]
fn comes(
    alloc: Global,
    claim: &Claim,
    state: &[i64],
    count: &RoundCount,
    most: u32,
) -> Result<bool, AllocError>
    requires claim { IsClaim claim.now }
    requires state { IsTrue (is_state (slot_ranges claim.now.slots.now) state.now) }
    requires instances { count.now.instances ≡ length claim.now.program.now.statements }
    ensures { IfOk result (λ b. (made : List ℕ) → CountStandsFor count.now made →
        (IsTrue b ↔ LeadsBehind (claimed claim.now) (after claim.now) claim.now.bound most made state.now)) }
{
    if holds(claim.q, state, claim.params) {
        return Ok(true);
    }
    if count.rounds() >= claim.bound {
        return Ok(false);
    }
    if most == 0 {
        return Ok(true);
    }
    for choice in 0..instances(claim) {
        let held = comes_at(alloc, claim, state, count, choice, most - 1)?;
        if !held {
            return Ok(false);
        }
    }
    Ok(true)
}

// Whether it does so after a choice.
#[cycle(coming)]
fn comes_at(
    alloc: Global,
    claim: &Claim,
    state: &[i64],
    count: &RoundCount,
    choice: u32,
    most: u32,
) -> Result<bool, AllocError>
    requires claim { IsClaim claim.now }
    requires state { IsTrue (is_state (slot_ranges claim.now.slots.now) state.now) }
    requires instances { count.now.instances ≡ length claim.now.program.now.statements }
    requires choice { choice < length claim.now.program.now.statements }
    ensures { IfOk result (λ b. (made : List ℕ) → CountStandsFor count.now made →
        (IsTrue b ↔ ComesAt (claimed claim.now) (after claim.now) claim.now.bound most made state.now choice)) }
{
    match state_after(alloc, claim, state, choice)? {
        Some(next) => {
            let longer = with_choice(count, choice);
            let held = comes(alloc, claim, next.as_slice(), &longer, most)?;
            Ok(held)
        }
        None => Ok(true),
    }
}

// Whether, if p holds at the state, q holds there or comes.
fn leads_here(alloc: Global, claim: &Claim, state: &[i64], most: u32) -> Result<bool, AllocError>
    requires claim { IsClaim claim.now }
    requires state { IsTrue (is_state (slot_ranges claim.now.slots.now) state.now) }
    ensures { IfOk result (λ b. IsTrue b ↔ (IsTrue (before claim.now state.now) →
        LeadsBehind (claimed claim.now) (after claim.now) claim.now.bound most [] state.now)) }
{
    if !holds(claim.p, state, claim.params) {
        return Ok(true);
    }
    let count = RoundCount::new(instances(claim));
    comes(alloc, claim, state, &count, most)
}

/// Whether the claim holds along each way of at most so many choices from a state.
///
/// An error says that memory was refused.
#[cycle(leading)]
pub(crate) fn leads(
    alloc: Global,
    claim: &Claim,
    state: &[i64],
    most: u32,
) -> Result<bool, AllocError>
    requires claim { IsClaim claim.now }
    requires state { IsTrue (is_state (slot_ranges claim.now.slots.now) state.now) }
    ensures { IfOk result (λ b. IsTrue b ↔
        LeadsWithin (claimed claim.now) (before claim.now) (after claim.now) claim.now.bound most state.now) }
{
    let here = leads_here(alloc, claim, state, most)?;
    if !here {
        return Ok(false);
    }
    if most == 0 {
        return Ok(true);
    }
    for choice in 0..instances(claim) {
        let held = leads_at(alloc, claim, state, choice, most - 1)?;
        if !held {
            return Ok(false);
        }
    }
    Ok(true)
}

// Whether it does so after a choice.
#[cycle(leading)]
fn leads_at(
    alloc: Global,
    claim: &Claim,
    state: &[i64],
    choice: u32,
    most: u32,
) -> Result<bool, AllocError>
    requires claim { IsClaim claim.now }
    requires state { IsTrue (is_state (slot_ranges claim.now.slots.now) state.now) }
    requires choice { choice < length claim.now.program.now.statements }
    ensures { IfOk result (λ b. IsTrue b ↔
        LeadsAt (claimed claim.now) (before claim.now) (after claim.now) claim.now.bound most state.now choice) }
{
    match state_after(alloc, claim, state, choice)? {
        Some(next) => {
            let held = leads(alloc, claim, next.as_slice(), most)?;
            Ok(held)
        }
        None => Ok(true),
    }
}
