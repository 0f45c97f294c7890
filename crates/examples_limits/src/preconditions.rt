// What a small statement's step is, worked out by hand; and formulas of the greatest depth, through the weakest
// precondition. A call that took too much stack would end the test; that it answers rightly is proved.
ghost use Rattle.std.specs.Prelude.{◌≡◌, ◌<◌, pos, [], ◌∷◌, IfOk, All};
ghost use Rattle.core_terms.specs.declared.trees.CForm.TheVariants.{Top};
ghost use Rattle.core_terms.specs.declared.trees.CTerm.TheVariants.{Const};
ghost use Rattle.core_terms.specs.Conditions.{WriteFits, StatementFits};
ghost use Rattle.examples_limits.specs.Deep.{IsDeepForm};
ghost use Rattle.examples_limits.specs.Swap.{digit, two_slots, copying, swap, HasStep};

use crate::deep_trees::deep_trees;
use core_terms::{CForm, CSlot, CStmt, CTerm, CWrite, FormNode, Pool, Print, Range, size_of};
use std::alloc::{AllocError, Global};
use std::test::Fail;
use unity_base::Seq;
use wp_substitution::{WpError, wp, wp_in};

// A slot of the numbers 0 to 9.
fn digit() -> CSlot
    ensures { result ≡ digit }
{
    CSlot {
        name: 0,
        index: None,
        range: Range { lo: 0, hi: 9 },
        print: Print::Number,
    }
}

// Two such slots.
fn two_slots(alloc: Global) -> Result<Seq<CSlot>, AllocError>
    ensures { IfOk result (λ slots. slots ≡ two_slots) }
{
    let mut slots = Seq::new(alloc);
    slots.push(digit())?;
    slots.push(digit())?;
    Ok(slots)
}

// A slot gets the number of another.
fn copying(slot: u32, from: u32) -> CWrite
    requires slot { slot < 2 }
    requires from { from < 2 }
    ensures write { result ≡ copying slot from }
    ensures fits { WriteFits two_slots result }
{
    CWrite {
        slot,
        when: CForm::Top,
        value: CTerm::Slot(from),
    }
}

// The first slot gets the number 5.
fn five() -> CWrite
    ensures { WriteFits two_slots result }
{
    CWrite {
        slot: 0,
        when: CForm::Top,
        value: CTerm::Const(5),
    }
}

// Each of the two slots gets the number of the other.
fn swap(alloc: Global) -> Result<CStmt, AllocError>
    ensures statement { IfOk result (λ s. s ≡ swap) }
    ensures fits { IfOk result (StatementFits two_slots) }
{
    let mut writes = Seq::new(alloc);
    writes.push(copying(0, 1))?;
    writes.push(copying(1, 0))?;
    Ok(CStmt {
        label: 0,
        indices: Seq::new(alloc),
        outside: Seq::new(alloc),
        writes,
    })
}

// The first slot gets the number 5, and the second stays as it is.
fn one_five(alloc: Global) -> Result<CStmt, AllocError>
    ensures { IfOk result (StatementFits two_slots) }
{
    let mut writes = Seq::new(alloc);
    writes.push(five())?;
    Ok(CStmt {
        label: 0,
        indices: Seq::new(alloc),
        outside: Seq::new(alloc),
        writes,
    })
}

/// There is a state at which the swap is made, and the statement is one of those that laws of preconditions
/// speak of. The function does nothing: it states this.
pub fn swap_is_made()
    ensures { HasStep }
{}

// The size of the precondition of a formula that a pool takes, or none where it is above the limit.
fn size_in(
    alloc: Global,
    pool: &mut Pool,
    s: &CStmt,
    q: &CForm,
    slots: &[CSlot],
    limit: u64,
) -> Result<Option<u64>, AllocError>
    requires slots { slots.now ≡ two_slots }
    requires statement { StatementFits two_slots s.now }
    requires formula { IsDeepForm q.now }
{
    let id = pool.put_form(q)?;
    match wp_in(alloc, pool, s, id, slots, limit) {
        Ok(before) => Ok(Some(pool.form_size(before))),
        Err(WpError::TooLarge) => Ok(None),
        Err(WpError::Memory) => Err(AllocError),
    }
}

// The same of a pool of its own.
fn size_in_pool(
    alloc: Global,
    s: &CStmt,
    q: &CForm,
    slots: &[CSlot],
    limit: u64,
) -> Result<Option<u64>, AllocError>
    requires slots { slots.now ≡ two_slots }
    requires statement { StatementFits two_slots s.now }
    requires formula { IsDeepForm q.now }
{
    let mut pool = Pool::new(alloc);
    size_in(alloc, &mut pool, s, q, slots, limit)
}

// Whether the precondition of the formula that the second slot is 0 ends with the number of that formula.
fn keeps_number_in(
    alloc: Global,
    pool: &mut Pool,
    s: &CStmt,
    slots: &[CSlot],
) -> Result<bool, AllocError>
    requires slots { slots.now ≡ two_slots }
    requires statement { StatementFits two_slots s.now }
{
    let id = pool.put_form(&CForm::Zero(CTerm::Slot(1)))?;
    match wp_in(alloc, pool, s, id, slots, 65_536) {
        Ok(before) => match pool.form_node(before) {
            FormNode::And(_, after) => Ok(after == id),
            _ => Ok(false),
        },
        Err(_) => Err(AllocError),
    }
}

// The same of a pool of its own.
fn keeps_number(alloc: Global, s: &CStmt, slots: &[CSlot]) -> Result<bool, AllocError>
    requires slots { slots.now ≡ two_slots }
    requires statement { StatementFits two_slots s.now }
{
    let mut pool = Pool::new(alloc);
    keeps_number_in(alloc, &mut pool, s, slots)
}

#[test]
fn keeps_what_is_not_written(rt: HostRuntime) -> Result<(), Fail> {
    let s = one_five(rt.alloc())?;
    let slots = two_slots(rt.alloc())?;
    assert!(rt; keeps_number(rt.alloc(), &s, slots.as_slice())?);
    Ok(())
}

// Whether the precondition of a deep formula is looked at whole, without a pool and in one.
fn goes_down(alloc: Global, s: &CStmt, q: &CForm, slots: &[CSlot]) -> Result<bool, AllocError>
    requires slots { slots.now ≡ two_slots }
    requires statement { StatementFits two_slots s.now }
    requires formula { IsDeepForm q.now }
{
    let size = size_of(&wp(alloc, s, q, slots)?);
    let in_pool = size_in_pool(alloc, s, q, slots, size)?;
    Ok(size > 1 && in_pool == Some(size))
}

// Whether those of all deep formulas are.
fn all_go_down(alloc: Global, s: &CStmt, slots: &[CSlot]) -> Result<bool, AllocError>
    requires slots { slots.now ≡ two_slots }
    requires statement { StatementFits two_slots s.now }
{
    let forms = deep_trees(alloc)?;
    for f in forms.as_slice() {
        if !goes_down(alloc, s, f, slots)? {
            return Ok(false);
        }
    }
    Ok(true)
}

#[test]
fn goes_down_deep_trees(rt: HostRuntime) -> Result<(), Fail> {
    let s = swap(rt.alloc())?;
    let slots = two_slots(rt.alloc())?;
    assert!(rt; all_go_down(rt.alloc(), &s, slots.as_slice())?);
    Ok(())
}
