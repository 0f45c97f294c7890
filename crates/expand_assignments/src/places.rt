//! The slots of arrays.

ghost use Rattle.std.specs.Prelude.{◌≡◌, ◌+◌, ◌^◌, ◌≤◌, ◌<◌, pos, ◌+ℤ◌, Some};
ghost use Rattle.std.specs.Int.RustNames.{unsigned_abs};
ghost use Rattle.meaning_documents.specs.Names as names;
ghost use Rattle.expand_rules.specs.declared.cores.Bound.TheVariants.{Number};
ghost use Rattle.meaning_executions.specs.Counting.{range_size};

use core_terms::Range;
use expand_expressions::Numbers;
use expand_rules::Bound;

/// The slots of an array.
#[derive(Clone, Copy)]
pub struct ArraySlots {
    /// The lowest and the highest index.
    pub ends: Range,
    /// The slot of the lowest index.
    pub first: u32,
    ghost within: { first + range_size (ends.lo, ends.hi) ≤ 2 ^ 32 },
}

impl ArraySlots {
    ghost use Rattle.expand_assignments.specs.Adding.{slot_ends};

    /// How many slots there are.
    pub fn len(&self) -> u64
        ensures { result ≡ range_size (slot_ends self.now) }
    {
        if self.ends.hi < self.ends.lo {
            0
        } else {
            (self.ends.hi as i128 + 1 - self.ends.lo as i128) as u64
        }
    }

    /// The slot at an index, where there is one.
    pub fn slot_at(&self, index: i128) -> Option<u32>
        ensures { result ≡ names.slot_at self.now.first (Some (slot_ends self.now)) (Some index) }
    {
        if self.ends.lo as i128 <= index && index <= self.ends.hi as i128 {
            Some(self.first + (index - self.ends.lo as i128) as u32)
        } else {
            None
        }
    }

    /// The index of the slot at a place, from the lowest on.
    #[tactic(auto, using(crate::proofs::SpreadLaws::natural_above))]
    pub fn index_at(&self, place: u64) -> i64
        requires { place < range_size (slot_ends self.now) }
        ensures { result ≡ self.now.ends.lo +ℤ pos place }
    {
        let _highest = self.ends.hi;
        (self.ends.lo as i128 + place as i128) as i64
    }

    /// The slot at a place.
    pub fn slot(&self, place: u64) -> u32
        requires { place < range_size (slot_ends self.now) }
        ensures { result ≡ self.now.first + place }
    {
        self.first + place as u32
    }
}

/// A number of a range, as what a name stands for.
pub fn bound_at(numbers: &Numbers, i: u64) -> Bound
    requires first { unsigned_abs numbers.now.first ≤ 2 ^ 30 }
    requires within { i < 2 ^ 31 }
    ensures { result ≡ Number (numbers.now.first +ℤ pos i) }
{
    Bound::Number(numbers.first + i as i64)
}
