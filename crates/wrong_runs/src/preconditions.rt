// What makes weakest preconditions.
ghost use Rattle.std.specs.Prelude.{◌≡◌, ◌≤◌, ◌^◌, length, IfOk};
ghost use Rattle.core_terms.specs.Conditions.{StatementFits};
ghost use Rattle.core_terms.specs.Places.{form_params, form_slots};
ghost use Rattle.core_terms.specs.Weights.{plain_weight};
ghost use Rattle.wp_substitution.specs.Exact.{HoldsBefore};
ghost use Rattle.wp_substitution.specs.Preconditions.{wp_form};

use core_terms::{CForm, CSlot, CStmt};
use std::alloc::{AllocError, Global};

/// The call `wp` of `wp_substitution`, with its clauses.
pub fn wp(alloc: Global, s: &CStmt, q: &CForm, slots: &[CSlot]) -> Result<CForm, AllocError>
    requires statement { StatementFits slots.now s.now }
    requires slots_exist { form_slots q.now ≤ length slots.now }
    requires weight { plain_weight q.now ≤ 2 ^ 62 }
    ensures tree { IfOk result (λ f. f ≡ wp_form slots.now s.now q.now) }
    ensures meaning { IfOk result (HoldsBefore slots.now s.now q.now) }
    ensures weight { IfOk result (λ f. plain_weight f ≤ 2 ^ 125) }
    ensures slots { IfOk result (λ f. form_slots f ≤ length slots.now) }
    ensures params { IfOk result (λ f. form_params f ≤ form_params q.now) }
{
    wp_substitution::wp(alloc, s, q, slots)
}
