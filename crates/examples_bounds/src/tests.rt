// Programs of at most three statements, with bounds worked out by hand: along all executions of eight choices, from
// every state.
ghost use Rattle.std.specs.Prelude.{◌≤◌, ◌<◌, ◌^◌, [], length, IfOk};
ghost use Rattle.examples_bounds.specs.Readable.{FormIsReadable};
ghost use Rattle.examples_bounds.specs.Tables.{SlotsAreLight};

use super::*;
use core_terms::{CForm, CSlot};
use std::alloc::{AllocError, Global};
use std::test::Fail;

// That a slot has a number.
#[derive(Clone, Copy)]
struct Has {
    slot: u32,
    number: u32,
}

fn at(slot: u32, number: u32) -> Has {
    Has { slot, number }
}

// Where a slot has a number, it gets another.
fn turn(slot: u32, from: u32, to: u32) -> Move {
    Move {
        at: slot,
        from,
        slot,
        to,
    }
}

// Where there is no first formula, it always holds.
fn premise(alloc: Global, slots: &[CSlot], p: Option<Has>) -> Result<CForm, AllocError>
    requires { SlotsAreLight slots.now }
    ensures { IfOk result (FormIsReadable slots.now []) }
{
    match p {
        Some(p) => equals(alloc, slots, p.slot, p.number),
        None => Ok(always(slots)),
    }
}

// Whether the second formula holds within the bound of each state in which the first does.
fn follows(
    alloc: Global,
    tops: &[u32],
    rows: &[&[Move]],
    p: Option<Has>,
    q: Has,
    bound: u64,
) -> Result<bool, AllocError>
    requires slots { length tops.now < 2 ^ 32 }
    requires some { 1 ≤ length rows.now }
    requires few { length rows.now ≤ 4096 }
{
    let slots = slots_to(alloc, tops)?;
    let slots = slots.as_slice();
    let program = table(alloc, slots, rows, 0, 0)?;
    let p = premise(alloc, slots, p)?;
    let q = equals(alloc, slots, q.slot, q.number)?;
    leads_everywhere(alloc, slots, &program, &p, &q, [].as_slice(), bound, 8)
}

// The ring of three of examples/ring_of_three.unity: at 1 and at 2 the token is passed on, and at 0 it is sent back.
fn in_ring(alloc: Global, p: Option<Has>, q: Has, bound: u64) -> Result<bool, AllocError> {
    let first = [turn(0, 1, 0)];
    let second = [turn(0, 2, 1)];
    let wrap = [turn(0, 0, 2)];
    let rows = [first.as_slice(), second.as_slice(), wrap.as_slice()];
    follows(alloc, [2].as_slice(), rows.as_slice(), p, q, bound)
}

// From 2 the token may be passed on once in a round, when the choice at 1 comes before the one at 2.
#[test]
fn passes_the_token(rt: HostRuntime) -> Result<(), Fail> {
    assert!(rt; in_ring(rt.alloc(), None, at(0, 0), 2)?);
    assert!(rt; !in_ring(rt.alloc(), None, at(0, 0), 1)?);
    Ok(())
}

#[test]
fn sends_the_token_back(rt: HostRuntime) -> Result<(), Fail> {
    assert!(rt; in_ring(rt.alloc(), Some(at(0, 0)), at(0, 2), 1)?);
    assert!(rt; !in_ring(rt.alloc(), Some(at(0, 0)), at(0, 2), 0)?);
    Ok(())
}

// Two steps one after the other, whose bound is printed as 3, the sum of 2 and 1. By hand it is 2: at 2 there is
// nothing to wait for, and from 1 it takes a round to 0 and one back. Eight choices never make three rounds.
#[test]
fn goes_round(rt: HostRuntime) -> Result<(), Fail> {
    assert!(rt; in_ring(rt.alloc(), None, at(0, 2), 2)?);
    assert!(rt; !in_ring(rt.alloc(), None, at(0, 2), 1)?);
    Ok(())
}

// A number of 0 to 3 that is counted up.
fn in_count(alloc: Global, bound: u64) -> Result<bool, AllocError> {
    let count = [turn(0, 0, 1), turn(0, 1, 2), turn(0, 2, 3)];
    let rows = [count.as_slice()];
    follows(
        alloc,
        [3].as_slice(),
        rows.as_slice(),
        None,
        at(0, 3),
        bound,
    )
}

#[test]
fn counts_up(rt: HostRuntime) -> Result<(), Fail> {
    assert!(rt; in_count(rt.alloc(), 3)?);
    assert!(rt; !in_count(rt.alloc(), 2)?);
    Ok(())
}

// A flag is raised, and where it is, a second one.
fn in_flags(alloc: Global, p: Option<Has>, q: Has, bound: u64) -> Result<bool, AllocError> {
    let raise = [turn(0, 0, 1)];
    let follow = [Move {
        at: 0,
        from: 1,
        slot: 1,
        to: 1,
    }];
    let rows = [raise.as_slice(), follow.as_slice()];
    follows(alloc, [1, 1].as_slice(), rows.as_slice(), p, q, bound)
}

// The second flag may be tried before the first is raised.
#[test]
fn raises_two_flags(rt: HostRuntime) -> Result<(), Fail> {
    assert!(rt; in_flags(rt.alloc(), None, at(0, 1), 1)?);
    assert!(rt; in_flags(rt.alloc(), Some(at(0, 1)), at(1, 1), 1)?);
    assert!(rt; in_flags(rt.alloc(), None, at(1, 1), 2)?);
    assert!(rt; !in_flags(rt.alloc(), None, at(1, 1), 1)?);
    Ok(())
}

// The statements of both programs of examples/union_of_two.unity: a number is counted up, and a flag is turned.
fn in_union(alloc: Global, p: Option<Has>, q: Has, bound: u64) -> Result<bool, AllocError> {
    let count = [turn(0, 0, 1), turn(0, 1, 2), turn(0, 2, 3)];
    let flip = [turn(1, 0, 1), turn(1, 1, 0)];
    let rows = [count.as_slice(), flip.as_slice()];
    follows(alloc, [3, 1].as_slice(), rows.as_slice(), p, q, bound)
}

#[test]
fn counts_in_a_union(rt: HostRuntime) -> Result<(), Fail> {
    assert!(rt; in_union(rt.alloc(), Some(at(0, 0)), at(0, 1), 1)?);
    assert!(rt; !in_union(rt.alloc(), Some(at(0, 0)), at(0, 1), 0)?);
    assert!(rt; in_union(rt.alloc(), None, at(0, 3), 3)?);
    assert!(rt; !in_union(rt.alloc(), None, at(0, 3), 2)?);
    Ok(())
}

// A flag is turned, and where it is raised, a second one is. The second need never be tried at the right time.
fn in_turns(alloc: Global, q: Has, bound: u64) -> Result<bool, AllocError> {
    let flip = [turn(0, 0, 1), turn(0, 1, 0)];
    let follow = [Move {
        at: 0,
        from: 1,
        slot: 1,
        to: 1,
    }];
    let rows = [flip.as_slice(), follow.as_slice()];
    follows(alloc, [1, 1].as_slice(), rows.as_slice(), None, q, bound)
}

// Eight choices make four rounds at most.
#[test]
fn finds_what_need_not_come(rt: HostRuntime) -> Result<(), Fail> {
    for bound in 0..5 {
        assert!(rt; !in_turns(rt.alloc(), at(1, 1), bound)?);
    }
    assert!(rt; in_turns(rt.alloc(), at(1, 1), 5)?);
    Ok(())
}

// No state has a number for a slot that isn't there.
#[test]
fn finds_what_never_comes(rt: HostRuntime) -> Result<(), Fail> {
    for bound in 0..5 {
        assert!(rt; !in_turns(rt.alloc(), at(2, 0), bound)?);
    }
    Ok(())
}

// Whether the token comes to 0 within a round along all executions of so many choices from a state; what is no state
// gives nothing.
fn from_place(alloc: Global, place: i64, most: u32) -> Result<Option<bool>, AllocError> {
    let first = [turn(0, 1, 0)];
    let second = [turn(0, 2, 1)];
    let wrap = [turn(0, 0, 2)];
    let rows = [first.as_slice(), second.as_slice(), wrap.as_slice()];
    let slots = slots_to(alloc, [2].as_slice())?;
    let slots = slots.as_slice();
    let program = table(alloc, slots, rows.as_slice(), 0, 2)?;
    let p = always(slots);
    let q = equals(alloc, slots, 0, 0)?;
    let state = [place];
    let state = state.as_slice();
    if !is_in(slots, state) {
        return Ok(None);
    }
    let held = leads_from(
        alloc,
        slots,
        &program,
        state,
        &p,
        &q,
        [].as_slice(),
        1,
        most,
    )?;
    Ok(Some(held))
}

// From 1 it comes within a round; from 2, where the token is two choices later, it need not.
#[test]
fn walks_from_a_state(rt: HostRuntime) -> Result<(), Fail> {
    assert!(rt; from_place(rt.alloc(), 1, 4)? == Some(true));
    assert!(rt; from_place(rt.alloc(), 1, 5)? == Some(false));
    assert!(rt; from_place(rt.alloc(), 2, 2)? == Some(true));
    assert!(rt; from_place(rt.alloc(), 2, 3)? == Some(false));
    assert!(rt; from_place(rt.alloc(), 3, 3)? == None);
    Ok(())
}
