// Whether writes that name no slot and no parameter agree, told from one table of their numbers.
ghost use Rattle.std.specs.Prelude.{◌≡◌, ℕ, ℤ, false, IfOk, OnOk, All, Some, cond, nat_eq};
ghost use Rattle.std.specs.List.{list_any};
ghost use Rattle.std.specs.Ordering.{nat_cmp};
ghost use Rattle.std.specs.BTreeMap.{get};
ghost use Rattle.wp_substitution.specs.Joined.{IsLightWrite};
ghost use Rattle.wp_substitution.specs.Oversized.{is_open};
ghost use Rattle.wp_substitution.specs.Agreeing as agreeing;

use core_terms::{CWrite, number_of, truth_of};
use std::alloc::{AllocError, Global};
use std::collections::BTreeMap;

/// Whether the writes to one slot that are made all give it one number.
pub(crate) fn agree(alloc: Global, writes: &[CWrite]) -> Result<bool, AllocError>
    requires { All IsLightWrite writes.now }
    ensures { IfOk result (λ same. same ≡ agreeing.writes_agree writes.now) }
{
    let mut numbers = BTreeMap::new(alloc);
    let mut left = writes.len();
    while left > 0 {
        left -= 1;
        if !put_number(&mut numbers, &writes[left])? {
            return Ok(false);
        }
    }
    Ok(true)
}

// Whether a write agrees with the later one to its slot whose number the table has; its own number is then in it.
fn put_number(numbers: &mut BTreeMap<u32, i128>, w: &CWrite) -> Result<bool, AllocError>
    requires { IsLightWrite w.now }
    ensures same { IfOk result (λ same. same ≡ agreeing.value_agrees w.now (get nat_cmp numbers.old w.now.slot)) }
    ensures numbers { OnOk result ((n : ℕ) → get nat_cmp numbers.new n ≡
        cond (nat_eq w.now.slot n) (agreeing.number_at w.now (get nat_cmp numbers.old n))
        (get nat_cmp numbers.old n)) }
{
    let made = match truth_of(&w.when) {
        Some(truth) => truth,
        None => return Ok(true),
    };
    let number = match number_of(&w.value) {
        Some(number) => number,
        None => return Ok(true),
    };
    if !made {
        return Ok(true);
    }
    let same = match numbers.get(&w.slot) {
        Some(other) => number == *other,
        None => true,
    };
    numbers.insert(w.slot, number)?;
    Ok(same)
}
