//! The two halves of the first range that has more than one value.
ghost use Rattle.std.specs.Prelude.{◌≡◌, ◌+◌, ◌-◌, ◌<◌, ◌^◌, map, slice_get, pos, ◌∷◌, []};
ghost use Rattle.std.specs.Prelude.{◌≤ℤ◌, ◌<ℤ◌, ◌+ℤ◌, ◌-ℤ◌, int_div, IfOk, OnOk, MatchOption};
ghost use Rattle.std.specs.Prelude.{length};
ghost use Rattle.std.specs.Option.{option_copied};
ghost use Rattle.obligations.specs.Settling.{added};
ghost use Rattle.obligations.specs.Plain.{ranges_of, middle, first_cut};
ghost use Rattle.search_tree.specs.Halves.{half_range, half_ranges, half_fact};

use core_terms::Range;
use obligations::{Branch, Fact, Factors, Node, Variable};
use std::alloc::{AllocError, Global};
use unity_base::Seq;

/// A variable that still has more than one value, and the middle of its range.
#[derive(Clone, Copy)]
pub struct Halves {
    pub place: u32,
    pub at: i64,
}

/// One of the two halves of a range.
#[derive(Clone, Copy)]
pub enum Half {
    Low,
    High,
}

fn difference(hi: &i64, lo: &i64) -> i128
    ensures { result ≡ hi.now -ℤ lo.now }
{
    *hi as i128 - *lo as i128
}

fn half_of(width: i128) -> i128
    requires { pos 0 ≤ℤ width }
    ensures { result ≡ int_div width (pos 2) }
{
    width / 2
}

fn shifted(lo: &i64, hi: &i64, by: i128) -> i64
    requires low { pos 0 ≤ℤ by }
    requires high { (lo.now +ℤ by) ≤ℤ hi.now }
    ensures { result ≡ lo.now +ℤ by }
{
    let _high = *hi;
    (*lo as i128 + by) as i64
}

/// The middle of a range, rounded down.
#[tactic(auto, using(crate::proofs::SearchLaws::middle_laws))]
fn middle_of(range: &Range) -> i64
    requires { range.now.lo ≤ℤ range.now.hi }
    ensures { result ≡ middle range.now }
{
    shifted(
        &range.lo,
        &range.hi,
        half_of(difference(&range.hi, &range.lo)),
    )
}

/// The first variable that still has more than one value.
pub fn first_halves(ranges: &[Range]) -> Option<Halves>
    requires { length ranges.now < 2 ^ 32 }
    ensures { MatchOption result (first_cut 0 ranges.now ≡ None)
        (λ h. first_cut 0 ranges.now ≡ Some (record { place = h.place; at = h.at })) }
{
    for (place, range) in ranges.iter().enumerate() {
        if range.lo < range.hi {
            return Some(Halves {
                place: place as u32,
                at: middle_of(range),
            });
        }
    }
    None
}

fn copy_ranges(alloc: Global, ranges: &[Range]) -> Result<Seq<Range>, AllocError>
    ensures { IfOk result (λ copy. copy ≡ ranges.now) }
{
    let mut copy = Seq::new(alloc);
    for range in ranges {
        copy.push(*range)?;
    }
    Ok(copy)
}

/// The half of a range.
fn half_range(range: &Range, halves: Halves, half: Half) -> Range
    requires { halves.at <ℤ pos (2 ^ 63 - 1) }
    ensures { result ≡ half_range half halves range.now }
{
    match half {
        Half::Low => Range {
            lo: range.lo,
            hi: halves.at,
        },
        Half::High => Range {
            lo: halves.at + 1,
            hi: range.hi,
        },
    }
}

/// The range at a place.
fn range_at(ranges: &[Range], place: usize) -> Option<&Range>
    ensures { option_copied result ≡ slice_get ranges.now place }
{
    ranges.get(place)
}

/// The ranges, that of the variable only by its half.
#[tactic(auto, using(crate::proofs::HalfLaws::half_laws))]
fn half_ranges(
    alloc: Global,
    ranges: &[Range],
    halves: Halves,
    half: Half,
) -> Result<Seq<Range>, AllocError>
    requires room { halves.at <ℤ pos (2 ^ 63 - 1) }
    ensures { IfOk result (λ all. all ≡ half_ranges half halves ranges.now) }
{
    let mut all = copy_ranges(alloc, ranges)?;
    match range_at(ranges, halves.place as usize) {
        Some(range) => {
            let _ = all.replace(halves.place as usize, half_range(range, halves, half));
            Ok(all)
        }
        None => Ok(all),
    }
}

/// The node that splits a variable's range.
pub fn split_node(halves: Halves) -> Node
    ensures { result ≡ Node.Split (halves.place + 1) halves.at }
{
    Node::Split(halves.place as u64 + 1, halves.at)
}

/// The fact that a variable times a sign and a constant are at least 0.
fn bound(alloc: Global, variable: u32, sign: i128, constant: i128) -> Result<Fact, AllocError>
    ensures { IfOk result (λ fact. fact ≡ record { factors = (variable, sign) ∷ []; constant = constant }) }
{
    let factors = Factors::one(alloc, variable, sign);
    Ok(Fact { factors, constant })
}

/// The fact that a variable is in a half of its range.
fn half_fact(alloc: Global, halves: Halves, half: Half) -> Result<Fact, AllocError>
    ensures { IfOk result (λ fact. fact ≡ half_fact half halves) }
{
    let at = halves.at as i128;
    match half {
        Half::Low => bound(alloc, halves.place, -1, at),
        Half::High => bound(alloc, halves.place, 1, -(at + 1)),
    }
}

/// Takes a half of a variable's range: adds the fact that the variable is in it, and gives the ranges.
pub fn take_half(
    alloc: Global,
    ranges: &[Range],
    halves: Halves,
    half: Half,
    branch: &mut Branch,
) -> Result<Seq<Range>, AllocError>
    requires room { halves.at <ℤ pos (2 ^ 63 - 1) }
    ensures ranges { IfOk result (λ all. all ≡ half_ranges half halves ranges.now) }
    ensures branch { OnOk result (branch.new ≡ added branch.old (half_fact half halves)) }
{
    let all = half_ranges(alloc, ranges, halves, half)?;
    let fact = half_fact(alloc, halves, half)?;
    branch.facts.push(fact)?;
    Ok(all)
}

/// The low ends of all ranges.
pub fn low_ends(alloc: Global, ranges: &[Range]) -> Result<Seq<i64>, AllocError>
    ensures { IfOk result (λ values. values ≡ map (λ r. r.lo) ranges.now) }
{
    let mut values = Seq::new(alloc);
    for range in ranges {
        values.push(range.lo)?;
    }
    Ok(values)
}

/// The ranges of variables.
pub fn ranges_in(alloc: Global, vs: &[Variable]) -> Result<Seq<Range>, AllocError>
    ensures { IfOk result (λ rs. rs ≡ ranges_of vs.now) }
{
    let mut ranges = Seq::new(alloc);
    for v in vs {
        ranges.push(v.range)?;
    }
    Ok(ranges)
}
