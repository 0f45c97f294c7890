// Preconditions of statements for a formula of a pool.
ghost use Rattle.std.specs.Prelude.{◌≡◌, ◌<◌, ◌≤◌, ◌^◌, length, slice_get, Some, IfOk, IfErr};
ghost use Rattle.core_terms.specs.declared.trees.CForm.{CForm};
ghost use Rattle.core_terms.specs.Conditions.{StatementFits};
ghost use Rattle.core_terms.specs.Pools.{Keeps};
ghost use Rattle.core_terms.specs.Sizes.{form_nodes};
ghost use Rattle.core_terms.specs.Weights.{plain_weight};
ghost use Rattle.wp_substitution.specs.Preconditions.{wp_form};
ghost use Rattle.safety_rules.specs.Usable.{IsUsable};

use crate::places::Place;
use core_terms::{CForm, CStmt, FormId, Pool};
use std::alloc::Global;
use unity_base::Shared;
use wp_substitution::{WpError, wp_in};

// The weakest precondition of the statement for the formula of this number. Its parts that the pool holds are shared
// with the pool; what else it put there is forgotten.
//
// The error is `TooLarge` where it has more nodes than an obligation may have.
pub(crate) fn before(
    alloc: Global,
    pl: &Place,
    pool: &mut Pool,
    after: FormId,
    s: &CStmt,
) -> Result<Shared<CForm>, WpError>
    requires statement { StatementFits pl.now.slots.now s.now }
    requires number { after.place < length pool.old.forms }
    requires after { (q : CForm) → slice_get pool.old.forms after.place ≡ Some q →
        IsUsable pl.now.slots.now pl.now.params.now q }
    ensures tree { (q : CForm) → slice_get pool.old.forms after.place ≡ Some q →
        IfOk result (λ f. f ≡ wp_form pl.now.slots.now s.now q) }
    ensures weight { IfOk result (λ f. plain_weight f ≤ 2 ^ 125) }
    ensures too_large { (q : CForm) → slice_get pool.old.forms after.place ≡ Some q →
        IfErr result (λ e. e ≡ WpError.TooLarge → 65536 < form_nodes (wp_form pl.now.slots.now s.now q)) }
    ensures kept { Keeps pool.old.forms pool.new.forms }
{
    let mark = pool.mark();
    let id = wp_in(alloc, pool, s, after, pl.slots, 65_536)?;
    let form = pool.form(id)?;
    pool.forget(mark);
    Ok(Shared::new(alloc, form)?)
}
