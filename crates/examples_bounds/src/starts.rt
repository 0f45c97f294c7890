// The walk from a state.
ghost use Rattle.std.specs.Prelude.{◌≡◌, ◌↔◌, IfOk, IsTrue};
ghost use Rattle.meaning_states.specs.State.{is_state};
ghost use Rattle.core_terms.specs.Conditions.{IsProgram};
ghost use Rattle.core_terms.specs.Steps.{slot_ranges};
ghost use Rattle.executor.specs.CoreSystem.{core_system};
ghost use Rattle.fair_rounds.specs.Records.{holding};
ghost use Rattle.examples_bounds.specs.Bounded.{LeadsFrom};
ghost use Rattle.examples_bounds.specs.Readable.{FormIsReadable};

use crate::claims::Claim;
use crate::opening::open_program;
use crate::walking::leads;
use core_terms::{CForm, CProgram, CSlot};
use std::alloc::{AllocError, Global};

/// Whether `p leadsto q` holds within the bound as far as the executions of at most so many choices from a state
/// show it, for these numbers of the parameters. All choices are tried.
///
/// An error says that memory was refused.
pub fn leads_from(
    alloc: Global,
    slots: &[CSlot],
    program: &CProgram,
    first: &[i64],
    p: &CForm,
    q: &CForm,
    params: &[i64],
    bound: u64,
    most: u32,
) -> Result<bool, AllocError>
    requires program { IsProgram slots.now program.now }
    requires first { IsTrue (is_state (slot_ranges slots.now) first.now) }
    requires p { FormIsReadable slots.now params.now p.now }
    requires q { FormIsReadable slots.now params.now q.now }
    ensures { IfOk result (λ b. IsTrue b ↔ LeadsFrom first.now most (core_system slots.now program.now)
        (holding params.now p.now) (holding params.now q.now) bound) }
{
    let whole = open_program(alloc, slots, program)?;
    let claim = Claim {
        slots,
        program: &whole,
        p,
        q,
        params,
        bound,
    };
    let held = leads(alloc, &claim, first, most)?;
    Ok(held)
}
