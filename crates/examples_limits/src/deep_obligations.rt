// The deepest trees of 65,536 nodes, through each call on obligations that goes down a tree. A call that took too much
// stack would end the test; that it answers rightly is proved. And a small obligation whose numbers were worked out by
// hand.
ghost use Rattle.std.specs.Prelude.{◌≡◌, ◌≤◌, true, length, All, IfOk};
ghost use Rattle.obligations.specs.Obligations.{IsObligation, are_in_order};
ghost use Rattle.examples_limits.specs.Count.{HasNumbers};
ghost use Rattle.examples_limits.specs.Deep.{IsDeepForm, IsDeepTerm};

use crate::deep_trees::{NODES, TERMS, TermAround, add_terms, bit, deep_forms, term_around};
use core_terms::{CForm, CTerm, Pool, Range, copy_form};
use obligations::{
    Obligation, TooLargeError, height, make, make_in, need, next_param, open_branch, settle,
    with_variables,
};
use schedule_replay::Buffer;
use solver_scripts::put_script;
use std::alloc::{AllocError, Global};
use std::test::Fail;
use unity_base::{MemSink, Seq};

// More bytes than the script of a formula of so many nodes has here.
const ROOM: usize = 1 << 20;

/// Of the obligation that the step `x := x + 1 if x < 3` is defined, x in 0..3: what its numbers and its first branch
/// are, and the units of a small certificate. The function does nothing: it states this.
pub fn step_numbers()
    ensures { HasNumbers }
{}

// Quotients and remainders, with half of the greatest number of levels around x.
const FEWER: [(TermAround, u32); 2] = [
    (TermAround::Quotient, (NODES - 2) / 2),
    (TermAround::Remainder, (NODES - 2) / 4),
];

// Each way that has no choice, with the greatest number of levels around a choice between x and 0.
const CHOICES: [(TermAround, u32); 7] = [
    (TermAround::Scale, NODES - 5),
    (TermAround::Add, (NODES - 5) / 2),
    (TermAround::AddSecond, (NODES - 5) / 2),
    (TermAround::Sub, (NODES - 5) / 2),
    (TermAround::SubSecond, (NODES - 5) / 2),
    (TermAround::Quotient, (NODES - 5) / 2),
    (TermAround::Remainder, (NODES - 5) / 4),
];

// Whether an obligation that was made is low, or the formula is too large for one.
fn is_low(made: Result<Obligation, TooLargeError>) -> Result<bool, AllocError>
    requires { IfOk made IsObligation }
{
    match made {
        Ok(o) => Ok(height(&o) <= 960),
        Err(TooLargeError::TooLarge) => Ok(true),
        Err(TooLargeError::Memory) => Err(AllocError),
    }
}

// Whether that of the formula is.
fn is_made(alloc: Global, f: &CForm) -> Result<bool, AllocError>
    requires { IsDeepForm f.now }
{
    let form = copy_form(alloc, f)?;
    let slots = [bit()];
    is_low(make(alloc, form, slots.as_slice(), [].as_slice()))
}

// Whether that of the formula as a pool has it is.
fn is_made_in(alloc: Global, pool: &mut Pool, f: &CForm) -> Result<bool, AllocError>
    requires { IsDeepForm f.now }
{
    let id = pool.put_form(f)?;
    let slots = [bit()];
    is_low(make_in(alloc, pool, id, slots.as_slice(), [].as_slice()))
}

// The same of a pool of its own.
fn is_made_in_pool(alloc: Global, f: &CForm) -> Result<bool, AllocError>
    requires { IsDeepForm f.now }
{
    let mut pool = Pool::new(alloc);
    is_made_in(alloc, &mut pool, f)
}

// Whether the formula of an obligation is opened and settled.
fn is_settled(alloc: Global, o: &Obligation) -> Result<bool, AllocError>
    requires form { IsDeepForm o.now.form }
    requires count { length o.now.variables ≤ 1 }
    requires order { are_in_order o.now.variables ≡ true }
{
    if next_param(o.variables.as_slice()) > 1 << 31 {
        return Err(AllocError);
    }
    let todo = copy_form(alloc, &o.form)?;
    let branch = open_branch(alloc, o)?;
    let branch = settle(alloc, o, branch, todo)?;
    let some = need(o).is_some();
    Ok(2 <= branch.facts.len() && (some || !some))
}

// Whether the script of an obligation is written whole.
fn is_written(alloc: Global, o: &Obligation) -> Result<bool, AllocError> {
    let mut sink = MemSink::new(alloc, ROOM, Vec::new(alloc))?;
    let words = Seq::new(alloc);
    let slots = [bit()];
    let mut text = Buffer::new();
    put_script(
        &mut text,
        &mut sink,
        words.as_slice(),
        slots.as_slice(),
        [].as_slice(),
        o,
    );
    Ok(text.finish(&mut sink).is_ok())
}

// Whether the obligation that has the formula, however large, is.
fn is_taken(alloc: Global, f: &CForm) -> Result<bool, AllocError>
    requires { IsDeepForm f.now }
{
    let ranges = [Range { lo: 0, hi: 1 }];
    let form = copy_form(alloc, f)?;
    let o = with_variables(alloc, form, ranges.as_slice(), [].as_slice())?;
    Ok(is_settled(alloc, &o)? && is_written(alloc, &o)?)
}

// Deep formulas of each form, and of each form of a term around x and around a choice.
fn asked_trees(alloc: Global, choice: &CTerm) -> Result<Seq<CForm>, AllocError>
    requires { IsDeepTerm choice.now }
    ensures { IfOk result (All IsDeepForm) }
{
    let mut forms = deep_forms(alloc)?;
    add_terms(alloc, TERMS.as_slice(), &CTerm::Slot(0), &mut forms)?;
    add_terms(alloc, FEWER.as_slice(), &CTerm::Slot(0), &mut forms)?;
    add_terms(alloc, CHOICES.as_slice(), choice, &mut forms)?;
    Ok(forms)
}

// Whether the obligation of each formula is made and taken.
fn all_go_through(alloc: Global, forms: &[CForm]) -> Result<bool, AllocError>
    requires { All IsDeepForm forms.now }
{
    for f in forms {
        if !is_made(alloc, f)? || !is_made_in_pool(alloc, f)? || !is_taken(alloc, f)? {
            return Ok(false);
        }
    }
    Ok(true)
}

#[test]
fn takes_deep_trees(rt: HostRuntime) -> Result<(), Fail> {
    let choice = term_around(rt.alloc(), TermAround::Branch, CTerm::Slot(0))?;
    let forms = asked_trees(rt.alloc(), &choice)?;
    assert!(rt; all_go_through(rt.alloc(), forms.as_slice())?);
    Ok(())
}
