// Whether numbers are a state, and the walk from each state.
ghost use Rattle.std.specs.Prelude.{◌≡◌, ◌↔◌, ◌<◌, ◌≤◌, ◌≤ℤ◌, ℤ, length, IfOk, IsTrue, Some, slice_get};
ghost use Rattle.meaning_states.specs.State.{is_state};
ghost use Rattle.core_terms.specs.Conditions.{IsProgram};
ghost use Rattle.core_terms.specs.Steps.{slot_ranges};
ghost use Rattle.executor.specs.CoreSystem.{core_system};
ghost use Rattle.fair_rounds.specs.Records.{holding};
ghost use Rattle.examples_bounds.specs.Bounded.{LeadsEverywhere};
ghost use Rattle.examples_bounds.specs.Claims.{IsClaim, claimed, before, after};
ghost use Rattle.examples_bounds.specs.Readable.{FormIsReadable};
ghost use Rattle.examples_bounds.specs.Tables.{SlotsAreLight};
ghost use Rattle.examples_bounds.specs.Walking.{LeadsOn};

use crate::claims::Claim;
use crate::opening::open_program;
use crate::walking::{copied, leads};
use core_terms::{CForm, CProgram, CSlot};
use std::alloc::{AllocError, Global};

/// Whether a list of numbers is a state: a number for each slot, within its range.
pub fn is_in(slots: &[CSlot], state: &[i64]) -> bool
    ensures { result ≡ is_state (slot_ranges slots.now) state.now }
{
    if slots.len() != state.len() {
        return false;
    }
    for place in 0..slots.len() {
        let range = slots[place].range;
        if state[place] < range.lo || range.hi < state[place] {
            return false;
        }
    }
    true
}

// Whether the claim holds from each state that begins with these numbers.
#[cycle(filling)]
fn leads_on(alloc: Global, claim: &Claim, begun: &[i64], most: u32) -> Result<bool, AllocError>
    requires claim { IsClaim claim.now }
    requires light { SlotsAreLight claim.now.slots.now }
    requires begun { length begun.now ≤ length claim.now.slots.now }
    ensures { IfOk result (λ b. IsTrue b ↔ LeadsOn (slot_ranges claim.now.slots.now) most (claimed claim.now)
        (before claim.now) (after claim.now) claim.now.bound begun.now) }
{
    if begun.len() < claim.slots.len() {
        return leads_onward(alloc, claim, begun, most);
    }
    if !is_in(claim.slots, begun) {
        return Ok(true);
    }
    leads(alloc, claim, begun, most)
}

// Whether it does so with each number that the next slot can have.
#[cycle(filling)]
fn leads_onward(alloc: Global, claim: &Claim, begun: &[i64], most: u32) -> Result<bool, AllocError>
    requires claim { IsClaim claim.now }
    requires light { SlotsAreLight claim.now.slots.now }
    requires begun { length begun.now < length claim.now.slots.now }
    ensures { IfOk result (λ b. IsTrue b ↔ LeadsOn (slot_ranges claim.now.slots.now) most (claimed claim.now)
        (before claim.now) (after claim.now) claim.now.bound begun.now) }
{
    let range = claim.slots[begun.len()].range;
    for number in range.lo..range.hi + 1 {
        let mut longer = copied(alloc, begun)?;
        longer.push(number)?;
        let held = leads_on(alloc, claim, longer.as_slice(), most)?;
        if !held {
            return Ok(false);
        }
    }
    Ok(true)
}

/// Whether `p leadsto q` holds within the bound as far as the executions of at most so many choices from all states
/// show it, for these numbers of the parameters. All choices are tried from each state, a start or not.
///
/// An error says that memory was refused.
pub fn leads_everywhere(
    alloc: Global,
    slots: &[CSlot],
    program: &CProgram,
    p: &CForm,
    q: &CForm,
    params: &[i64],
    bound: u64,
    most: u32,
) -> Result<bool, AllocError>
    requires program { IsProgram slots.now program.now }
    requires light { SlotsAreLight slots.now }
    requires p { FormIsReadable slots.now params.now p.now }
    requires q { FormIsReadable slots.now params.now q.now }
    ensures { IfOk result (λ b. IsTrue b ↔ LeadsEverywhere (slot_ranges slots.now) most
        (core_system slots.now program.now) (holding params.now p.now) (holding params.now q.now) bound) }
{
    let whole = open_program(alloc, slots, program)?;
    let claim = Claim {
        slots,
        program: &whole,
        p,
        q,
        params,
        bound,
    };
    let held = leads_on(alloc, &claim, [].as_slice(), most)?;
    Ok(held)
}
