// The weakest precondition of a statement.
ghost use Rattle.std.specs.Prelude.{◌≡◌, ◌^◌, ◌≤◌, IfOk, All, length};
ghost use Rattle.core_terms.specs.Weights.{plain_weight};
ghost use Rattle.core_terms.specs.Conditions.{StatementFits};
ghost use Rattle.core_terms.specs.Places.{form_slots, form_params};
ghost use Rattle.core_terms.specs.Folding as fold;
ghost use Rattle.wp_substitution.specs.Preconditions.{form_after, wp_form};
ghost use Rattle.wp_substitution.specs.Joined.{IsLightWrite};
ghost use Rattle.wp_substitution.specs.Exact.{HoldsBefore};

use crate::chains::chains;
use crate::definedness::held_defined;
use crate::substitution;
use core_terms::from_unity_base::Shared;
use core_terms::{CForm, CSlot, CStmt, CWrite, Joining, joined_known, owned_form};
use std::alloc::{AllocError, Global};

/// The weakest precondition of the statement for `q`: the formula that holds exactly where the statement is
/// defined and `q` holds after it (chapter 2 of the book). All written slots are replaced at once, and the
/// whole is folded (this profile).
///
/// An error says that memory was refused.
pub fn wp(alloc: Global, s: &CStmt, q: &CForm, slots: &[CSlot]) -> Result<CForm, AllocError>
    requires statement { StatementFits slots.now s.now }
    requires slots_exist { form_slots q.now ≤ length slots.now }
    requires weight { plain_weight q.now ≤ 2 ^ 62 }
    ensures tree { IfOk result (λ f. f ≡ wp_form slots.now s.now q.now) }
    ensures meaning { IfOk result (HoldsBefore slots.now s.now q.now) }
    ensures weight { IfOk result (λ f. plain_weight f ≤ 2 ^ 125) }
    ensures slots { IfOk result (λ f. form_slots f ≤ length slots.now) }
    ensures params { IfOk result (λ f. form_params f ≤ form_params q.now) }
{
    let mut first = None;
    let mut truth = None;
    let defined = held_defined(alloc, s, slots, &mut first)?;
    let after = held_after(alloc, s.writes.as_slice(), q, &mut truth)?;
    Ok(owned_form(
        alloc,
        joined_known(alloc, Joining::Both, defined, first, after, &mut truth)?,
    )?)
}

// The formula with all written slots replaced.
fn held_after(
    alloc: Global,
    writes: &[CWrite],
    q: &CForm,
    truth: &mut Option<bool>,
) -> Result<Shared<CForm>, AllocError>
    requires writes { All IsLightWrite writes.now }
    requires weight { plain_weight q.now ≤ 2 ^ 62 }
    ensures tree { IfOk result (λ f. f ≡ form_after writes.now q.now) }
    ensures truth { IfOk result (λ f. truth.new ≡ fold.truth_of f) }
    ensures weight { IfOk result (λ f. plain_weight f ≤ 2 ^ 124) }
{
    let chains = chains(alloc, writes)?;
    substitution::form_after(alloc, q, &chains, truth)
}
