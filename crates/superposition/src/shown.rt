// Which slots a program shows.
ghost use Rattle.std.specs.Prelude.{◌≡◌, ◌<◌, ◌||◌, ℕ, false, All, IfOk, length};
ghost use Rattle.core_terms.specs.Conditions.{is_shown};
ghost use Rattle.superposition.specs.Marks.{has_mark};

use std::alloc::{AllocError, Global};
use unity_base::Seq;

/// The slots that a program shows, and a mark for each of them.
#[derive(Drop)]
pub(crate) struct Shown<'a> {
    pub(crate) slots: &'a [u32],
    marks: Seq<bool>,
    ghost exact: { (n : ℕ) → has_mark marks n ≡ is_shown slots.now n },
}

// So many slots, none of them marked.
fn no_marks(alloc: Global, count: usize) -> Result<Seq<bool>, AllocError>
    ensures count { IfOk result (λ marks. length marks ≡ count) }
    ensures none { IfOk result (λ marks. (n : ℕ) → has_mark marks n ≡ false) }
{
    let mut marks = Seq::new(alloc);
    for _slot in 0..count {
        marks.push(false)?;
    }
    Ok(marks)
}

// Marks slots.
fn mark_all(marks: &mut Seq<bool>, slots: &[u32])
    requires { All (λ n. n < length marks.old) slots.now }
    ensures { (n : ℕ) → has_mark marks.new n ≡ (has_mark marks.old n || is_shown slots.now n) }
{
    for slot in slots {
        let _ = marks.replace(*slot as usize, true);
    }
}

impl<'a> Shown<'a> {
    // Of so many slots, those that a program shows.
    pub(crate) fn new(alloc: Global, slots: &'a [u32], count: usize) -> Result<Self, AllocError>
        requires { All (λ n. n < count) slots.now }
        ensures { IfOk result (λ shown. shown.slots.now ≡ slots.now) }
    {
        let mut marks = no_marks(alloc, count)?;
        mark_all(&mut marks, slots);
        Ok(Shown { slots, marks })
    }

    // Whether a slot is shown.
    pub(crate) fn has(&self, slot: u32) -> bool
        ensures { result ≡ is_shown self.now.slots.now slot }
    {
        match self.marks.get(slot as usize) {
            Some(mark) => *mark,
            None => false,
        }
    }
}
