// Weakest preconditions of formulas in a pool.
ghost use Rattle.std.specs.Prelude.{◌≡◌, ◌<◌, ◌≤◌, ◌^◌, nat_lt, length, slice_get, Some, All, IfOk, IfErr};
ghost use Rattle.core_terms.specs.declared.trees.CForm.{CForm};
ghost use Rattle.std.specs.Bool.{OnTrue};
ghost use Rattle.core_terms.specs.Folding.{truth_of, and_form};
ghost use Rattle.core_terms.specs.Sizes.{form_nodes};
ghost use Rattle.core_terms.specs.Weights.{plain_weight};
ghost use Rattle.core_terms.specs.Conditions.{StatementFits};
ghost use Rattle.core_terms.specs.Places.{form_slots, form_params};
ghost use Rattle.core_terms.specs.Pools.{form_or, Grows};
ghost use Rattle.core_terms.specs.Marks.{KeepsMarks};
ghost use Rattle.wp_substitution.specs.Preconditions.{form_after, wp_form};
ghost use Rattle.wp_substitution.specs.Joined.{IsLight, IsLightWrite};
ghost use Rattle.wp_substitution.specs.Memos.{IsFormKnown};
ghost use Rattle.wp_substitution.specs.Exact.{HoldsBefore};

use crate::chains::chains;
use crate::definedness::held_defined;
use crate::memos::{FormKnown, Memo};
use crate::nodes::put_both;
use crate::settling::form_settled;
use core_terms::{CForm, CSlot, CStmt, CWrite, FormId, Pool, size_within};
use std::alloc::{AllocError, Global};

/// Why there is no weakest precondition.
#[derive(Clone, Copy, Debug, PartialEq, Eq)]
pub enum WpError {
    /// It has more nodes than the limit.
    TooLarge,
    /// Memory was refused.
    Memory,
}

impl From<AllocError> for WpError {
    ghost use Rattle.wp_substitution.specs.declared.pooled.WpError.{WpError};
    ghost use Rattle.std.specs.declared.alloc.AllocError.{AllocError};

    ghost from_gives = { λ (e : AllocError) (s : WpError). s ≡ WpError.Memory };

    fn from(value: AllocError) -> WpError {
        WpError::Memory
    }
}

/// The weakest precondition of the statement for a formula of a pool, put into the pool. What a node of the formula
/// becomes is worked out once, however many others share it, and one that stays as it is keeps its number.
///
/// The error is `TooLarge` exactly where the weakest precondition has more than `limit` nodes. All that the pool held
/// stays, whatever is answered.
pub fn wp_in(
    alloc: Global,
    pool: &mut Pool,
    s: &CStmt,
    q: FormId,
    slots: &[CSlot],
    limit: u64,
) -> Result<FormId, WpError>
    requires statement { StatementFits slots.now s.now }
    requires id { q.place < length pool.old.forms }
    requires slots_exist { (f : CForm) → slice_get pool.old.forms q.place ≡ Some f → form_slots f ≤ length slots.now }
    requires weight { (f : CForm) → slice_get pool.old.forms q.place ≡ Some f → plain_weight f ≤ 2 ^ 62 }
    ensures id { IfOk result (λ id. id.place < length pool.new.forms) }
    ensures tree { (f : CForm) → slice_get pool.old.forms q.place ≡ Some f →
        IfOk result (λ id. slice_get pool.new.forms id.place ≡ Some (wp_form slots.now s.now f)) }
    ensures meaning { (f : CForm) → slice_get pool.old.forms q.place ≡ Some f →
        IfOk result (λ id. (g : CForm) → slice_get pool.new.forms id.place ≡ Some g →
        HoldsBefore slots.now s.now f g) }
    ensures weight { IfOk result (λ id. (g : CForm) → slice_get pool.new.forms id.place ≡ Some g →
        plain_weight g ≤ 2 ^ 125) }
    ensures slots { IfOk result (λ id. (g : CForm) → slice_get pool.new.forms id.place ≡ Some g →
        form_slots g ≤ length slots.now) }
    ensures params { (f : CForm) → slice_get pool.old.forms q.place ≡ Some f →
        IfOk result (λ id. (g : CForm) → slice_get pool.new.forms id.place ≡ Some g →
        form_params g ≤ form_params f) }
    ensures within { (f : CForm) → slice_get pool.old.forms q.place ≡ Some f →
        IfOk result (λ id. form_nodes (wp_form slots.now s.now f) ≤ limit) }
    ensures too_large { (f : CForm) → slice_get pool.old.forms q.place ≡ Some f →
        IfErr result (λ e. e ≡ WpError.TooLarge → limit < form_nodes (wp_form slots.now s.now f)) }
    ensures kept { Grows pool.old pool.new }
    ensures marks { KeepsMarks pool.old pool.new }
{
    wp_put(alloc, pool, s, q, slots, limit)
}

// The same, for the formula at its place.
#[tactic(auto, using(core_terms::proofs::PoolLaws::grown))]
fn wp_put(
    alloc: Global,
    pool: &mut Pool,
    s: &CStmt,
    q: FormId,
    slots: &[CSlot],
    limit: u64,
) -> Result<FormId, WpError>
    requires outside { All IsLight s.now.outside }
    requires writes { All IsLightWrite s.now.writes }
    requires id { q.place < length pool.old.forms }
    requires weight { plain_weight (form_or pool.old.forms q.place) ≤ 2 ^ 62 }
    ensures tree { IfOk result (λ id. slice_get pool.new.forms id.place ≡
        Some (wp_form slots.now s.now (form_or pool.old.forms q.place))) }
    ensures weight { IfOk result (λ id. plain_weight (wp_form slots.now s.now (form_or pool.old.forms q.place)) ≤
        2 ^ 125) }
    ensures within { IfOk result (λ id. form_nodes (wp_form slots.now s.now (form_or pool.old.forms q.place)) ≤ limit) }
    ensures too_large { IfErr result (λ e. e ≡ WpError.TooLarge →
        limit < form_nodes (wp_form slots.now s.now (form_or pool.old.forms q.place))) }
    ensures kept { Grows pool.old pool.new }
    ensures marks { KeepsMarks pool.old pool.new }
{
    let mut truth = None;
    let defined = held_defined(alloc, s, slots, &mut truth)?;
    if stays_larger(defined.get(), truth, limit) {
        return Err(WpError::TooLarge);
    }
    let before = put_before(alloc, pool, s.writes.as_slice(), q, defined.get(), truth)?;
    let larger = is_larger(pool, before, limit)?;
    if larger {
        return Err(WpError::TooLarge);
    }
    Ok(before)
}

// Whether a formula has more nodes than the limit, and keeps them where others are joined to it; `truth` is its truth.
#[tactic(auto, using(crate::proofs::OversizedLaws::open_larger))]
fn stays_larger(f: &CForm, truth: Option<bool>, limit: u64) -> bool
    requires { truth ≡ truth_of f.now }
    ensures { OnTrue result ((g : CForm) → limit < form_nodes (and_form f.now g)) }
{
    match truth {
        Some(_) => false,
        None => size_within(f, limit).is_none(),
    }
}

// A formula, whose truth is known, joined to the one of the pool with all written slots replaced.
fn put_before(
    alloc: Global,
    pool: &mut Pool,
    writes: &[CWrite],
    q: FormId,
    defined: &CForm,
    truth: Option<bool>,
) -> Result<FormId, AllocError>
    requires writes { All IsLightWrite writes.now }
    requires id { q.place < length pool.old.forms }
    requires weight { plain_weight (form_or pool.old.forms q.place) ≤ 2 ^ 62 }
    requires truth { truth ≡ truth_of defined.now }
    ensures tree { IfOk result (λ id. slice_get pool.new.forms id.place ≡
        Some (and_form defined.now (form_after writes.now (form_or pool.old.forms q.place)))) }
    ensures kept { Grows pool.old pool.new }
    ensures marks { KeepsMarks pool.old pool.new }
{
    let after = put_after(alloc, pool, writes, q)?;
    let id = pool.put_form(defined)?;
    put_both(pool, FormKnown { id, truth }, after)
}

// The formula with all written slots replaced.
fn put_after(
    alloc: Global,
    pool: &mut Pool,
    writes: &[CWrite],
    q: FormId,
) -> Result<FormKnown, AllocError>
    requires writes { All IsLightWrite writes.now }
    requires id { q.place < length pool.old.forms }
    requires weight { plain_weight (form_or pool.old.forms q.place) ≤ 2 ^ 62 }
    ensures known { IfOk result (IsFormKnown pool.new (form_after writes.now (form_or pool.old.forms q.place))) }
    ensures kept { Grows pool.old pool.new }
    ensures marks { KeepsMarks pool.old pool.new }
{
    let chains = chains(alloc, writes)?;
    let mut memo = Memo::new(alloc, pool)?;
    form_settled(alloc, pool, &mut memo, &chains, q)
}

// Whether a formula of the pool has more nodes than the limit.
fn is_larger(pool: &Pool, id: FormId, limit: u64) -> Result<bool, AllocError>
    requires { id.place < length pool.now.forms }
    ensures { IfOk result (λ larger. larger ≡ nat_lt limit (form_nodes (form_or pool.now.forms id.place))) }
{
    if limit < 1 << 63 {
        return Ok(limit < pool.form_size(id));
    }
    let f = pool.form(id)?;
    Ok(size_within(&f, limit).is_none())
}
