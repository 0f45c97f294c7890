// Statements whose formulas are too large, found without making the formulas.
ghost use Rattle.std.specs.Prelude.{◌≡◌, ◌+◌, ℕ, nat_eq, min, cond, IfOk, OnOk, All, List};
ghost use Rattle.std.specs.Bool.{OnTrue};
ghost use Rattle.std.specs.List.{list_any};
ghost use Rattle.core_terms.specs.declared.programs.CSlot.{CSlot};
ghost use Rattle.core_terms.specs.Conditions.{WriteFits};
ghost use Rattle.wp_substitution.specs.Preconditions.{defined_form};
ghost use Rattle.wp_substitution.specs.Joined.{IsLightWrite};
ghost use Rattle.wp_substitution.specs.Oversized.{IsOversized, is_open, pair_count, has_many_pairs, count_at};

use core_terms::{CStmt, CWrite, number_of, truth_of};
use std::alloc::{AllocError, Global};
use std::collections::BTreeMap;

/// Whether some write is open, and the statement makes more than 65,536 pairs of writes to one slot, so that the
/// formula of where it is defined has more than 65,536 nodes. The formula is not made.
///
/// A write is open where its condition or its value names a slot or a parameter. An error says that memory was
/// refused.
pub fn is_oversized(alloc: Global, s: &CStmt) -> Result<bool, AllocError>
    requires { All IsLightWrite s.now.writes }
    ensures pairs { IfOk result (λ many. many ≡ has_many_pairs s.now) }
    ensures large { IfOk result (λ many. OnTrue many ((slots : List CSlot) → All (WriteFits slots) s.now.writes →
        IsOversized (defined_form slots s.now))) }
{
    let writes = s.writes.as_slice();
    if !any_open(writes) {
        return Ok(false);
    }
    Ok(count_pairs(alloc, writes)? > 65_536)
}

/// Whether the condition or the value of some write names a slot or a parameter.
pub(crate) fn any_open(writes: &[CWrite]) -> bool
    requires { All IsLightWrite writes.now }
    ensures { result ≡ list_any is_open writes.now }
{
    for w in writes {
        if is_open(w) {
            return true;
        }
    }
    false
}

fn is_open(w: &CWrite) -> bool
    requires { IsLightWrite w.now }
    ensures { result ≡ is_open w.now }
{
    truth_of(&w.when).is_none() || number_of(&w.value).is_none()
}

// How many pairs of writes to one slot there are; 65,537 where there are more.
fn count_pairs(alloc: Global, writes: &[CWrite]) -> Result<u64, AllocError>
    ensures { IfOk result (λ pairs. pairs ≡ min (pair_count writes.now) 65537) }
{
    let mut counts = BTreeMap::new(alloc);
    let mut pairs = 0;
    let mut left = writes.len();
    while left > 0 {
        left -= 1;
        let others = count_one(&mut counts, writes[left].slot)?;
        pairs = capped(pairs, others);
    }
    Ok(pairs)
}

// One write more to a slot, and how many there were; 65,537 where there were more.
fn count_one(counts: &mut BTreeMap<u32, u64>, slot: u32) -> Result<u64, AllocError>
    ensures before { IfOk result (λ others. others ≡ count_at counts.old slot) }
    ensures counts { OnOk result ((n : ℕ) → count_at counts.new n ≡
        cond (nat_eq slot n) (min (count_at counts.old slot + 1) 65537) (count_at counts.old n)) }
{
    let others = match counts.get(&slot) {
        Some(others) => *others,
        None => 0,
    };
    counts.insert(slot, capped(others, 1))?;
    Ok(others)
}

// The sum of two counts; 65,537 where it is more.
fn capped(a: u64, b: u64) -> u64
    ensures { result ≡ min (a + b) 65537 }
{
    a.saturating_add(b).min(65_537)
}
