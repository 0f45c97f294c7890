// The obligation of a formula.
ghost use Rattle.std.specs.Prelude.{
  ◌≡◌,
  ◌+◌,
  ◌<◌,
  ◌^◌,
  ◌≤◌,
  ◌≤ℤ◌,
  ◌++◌,
  ◌∷◌,
  [],
  ◌&&◌,
  nat_le,
  false,
  true,
  length,
  All,
  IfOk,
  IfErr,
  Some,
  slice_get,
};
ghost use Rattle.core_terms.specs.Sizes.{form_nodes};
ghost use Rattle.core_terms.specs.Weights.{form_weight, slot_weight, place_weight};
ghost use Rattle.core_terms.specs.Places.{form_slots, form_params};
ghost use Rattle.core_terms.specs.declared.programs.CSlot.{CSlot};
ghost use Rattle.core_terms.specs.declared.trees.CForm.{CForm};
ghost use Rattle.core_terms.specs.declared.trees.Range.{Range};
ghost use Rattle.obligations.specs.Opening.{Valid};
ghost use Rattle.obligations.specs.Plain.{height_of};
ghost use Rattle.obligations.specs.Variables.{variables_of, obligation_of, slot_ranges, IsTrueInRanges};
ghost use Rattle.obligations.specs.Obligations.{are_in_order, is_within_limits, IsObligation};

use crate::branches::Obligation;
use crate::occurrence::add_occurring;
use crate::scopes::next_param;
use crate::shapes::capped_height;
use core_terms::from_unity_base::Seq;
use core_terms::{CForm, CSlot, FormId, Pool, Range, size_within, weight_of};
use std::alloc::{AllocError, Global};

/// Why there is no obligation.
#[derive(Clone, Copy, Debug, PartialEq, Eq)]
pub enum TooLargeError {
    /// The height is more than 960, the size more than 65,536 nodes, or the weight more than 2^62.
    TooLarge,
    /// Memory was refused, or a parameter that occurs has a number of 2^31 or more.
    Memory,
}

impl From<AllocError> for TooLargeError {
    ghost use Rattle.obligations.specs.declared.making.TooLargeError.{TooLargeError};
    ghost use Rattle.std.specs.declared.alloc.AllocError.{AllocError};

    ghost from_gives = { λ (e : AllocError) (s : TooLargeError). s ≡ TooLargeError.Memory };

    fn from(value: AllocError) -> TooLargeError {
        TooLargeError::Memory
    }
}

/// The obligation that a formula holds, however large it is: its variables are the slots and the
/// parameters that occur in it, slots by number and then parameters by number, each with its range.
/// Where it is valid, the formula is true at every state and all parameters in the ranges.
pub fn with_variables(
    alloc: Global,
    form: CForm,
    slots: &[Range],
    params: &[Range],
) -> Result<Obligation, AllocError>
    ensures form { IfOk result (λ o. o.form ≡ form) }
    ensures variables { IfOk result (λ o. o.variables ≡ variables_of form slots.now params.now) }
    ensures count { IfOk result (λ o. length o.variables ≤ length slots.now + length params.now) }
    ensures order { IfOk result (λ o. are_in_order o.variables ≡ true) }
    ensures meaning { IfOk result (λ o. Valid o → IsTrueInRanges form slots.now params.now) }
{
    let mut variables = Seq::new(alloc);
    add_occurring(alloc, &mut variables, &form, false, slots)?;
    add_occurring(alloc, &mut variables, &form, true, params)?;
    Ok(Obligation { form, variables })
}

// The ranges of all slots.
#[tactic(auto, using(crate::proofs::OccurrenceLaws::slot_ranges_laws))]
fn slot_ranges(alloc: Global, slots: &[CSlot]) -> Result<Seq<Range>, AllocError>
    ensures { IfOk result (λ ranges. ranges ≡ slot_ranges slots.now) }
{
    let mut ranges = Seq::new(alloc);
    for slot in slots {
        ranges.push(slot.range)?;
    }
    Ok(ranges)
}

// Whether a formula's size and weight are within their limits.
fn is_small_form(form: &CForm, slots: &[CSlot], params: &[Range]) -> bool
    requires slots { form_slots form.now ≤ length slots.now }
    requires params { form_params form.now ≤ length params.now }
    ensures { result ≡ (nat_le (form_nodes form.now) 65536
        && nat_le (form_weight (slot_weight slots.now) (place_weight params.now) form.now) (2 ^ 62)) }
{
    match size_within(form, 65_536) {
        Some(_) => weight_of(form, slots, params) <= 1 << 62,
        None => false,
    }
}

// Whether an obligation's height is within its limit.
fn is_low(o: &Obligation) -> bool
    ensures { result ≡ nat_le (height_of o.now) 960 }
{
    capped_height(&o.form, o.variables.as_slice()) <= 960
}

/// The obligation that a formula holds: its variables are the slots and the parameters that occur in
/// it, slots by number and then parameters by number, each with its range. Where it is valid, the
/// formula is true at every state and all parameters in the ranges. The error is `TooLarge` exactly
/// where height, size or weight are past their limits, and `Memory` also where a parameter that occurs
/// has a number of 2^31 or more.
pub fn make(
    alloc: Global,
    form: CForm,
    slots: &[CSlot],
    params: &[Range],
) -> Result<Obligation, TooLargeError>
    requires slots { form_slots form ≤ length slots.now }
    requires params { form_params form ≤ length params.now }
    requires slot_ranges { All (λ (s : CSlot). s.range.lo ≤ℤ s.range.hi) slots.now }
    requires param_ranges { All (λ (r : Range). r.lo ≤ℤ r.hi) params.now }
    ensures obligation { IfOk result (λ o. o ≡ obligation_of form (slot_ranges slots.now) params.now) }
    ensures makeable { IfOk result IsObligation }
    ensures meaning { IfOk result (λ o. Valid o → IsTrueInRanges form (slot_ranges slots.now) params.now) }
    ensures too_large { IfErr result (λ e. e ≡ TooLargeError.TooLarge →
        is_within_limits (obligation_of form (slot_ranges slots.now) params.now) ≡ false) }
{
    if !is_small_form(&form, slots, params) {
        return Err(TooLargeError::TooLarge);
    }
    let ranges = slot_ranges(alloc, slots)?;
    let obligation = with_variables(alloc, form, ranges.as_slice(), params)?;
    if !is_low(&obligation) {
        return Err(TooLargeError::TooLarge);
    }
    if next_param(obligation.variables.as_slice()) <= 1 << 31 {
        Ok(obligation)
    } else {
        Err(TooLargeError::Memory)
    }
}

/// The obligation that a formula of a pool holds, as `make` gives it. Of a formula of more than 65,536 nodes no more
/// than its size is looked at.
pub fn make_in(
    alloc: Global,
    pool: &Pool,
    id: FormId,
    slots: &[CSlot],
    params: &[Range],
) -> Result<Obligation, TooLargeError>
    requires id { id.place < length pool.now.forms }
    requires slots { (f : CForm) → slice_get pool.now.forms id.place ≡ Some f → form_slots f ≤ length slots.now }
    requires params { (f : CForm) → slice_get pool.now.forms id.place ≡ Some f → form_params f ≤ length params.now }
    requires slot_ranges { All (λ (s : CSlot). s.range.lo ≤ℤ s.range.hi) slots.now }
    requires param_ranges { All (λ (r : Range). r.lo ≤ℤ r.hi) params.now }
    ensures obligation { (f : CForm) → slice_get pool.now.forms id.place ≡ Some f →
        IfOk result (λ o. o ≡ obligation_of f (slot_ranges slots.now) params.now) }
    ensures makeable { IfOk result IsObligation }
    ensures meaning { (f : CForm) → slice_get pool.now.forms id.place ≡ Some f →
        IfOk result (λ o. Valid o → IsTrueInRanges f (slot_ranges slots.now) params.now) }
    ensures too_large { (f : CForm) → slice_get pool.now.forms id.place ≡ Some f →
        IfErr result (λ e. e ≡ TooLargeError.TooLarge →
        is_within_limits (obligation_of f (slot_ranges slots.now) params.now) ≡ false) }
{
    if pool.form_size(id) > 65_536 {
        return Err(TooLargeError::TooLarge);
    }
    make(alloc, pool.form(id)?, slots, params)
}
