// How many cases there are, and their numbers.
ghost use Rattle.std.specs.Prelude.{◌≡◌, ◌<◌, ◌≤◌, ◌*◌, length, min, Some, slice_get};
ghost use Rattle.trace_watch.specs.Cases as cases;

use core_terms::{CProgram, Range};
use fair_rounds::Record;

/// The greatest number of cases that are watched.
pub(crate) const MOST_CASES: u64 = 4096;

/// Gives the parameters the numbers of the case of this number, from 0. In the order of the cases the last parameter's
/// number changes first.
pub fn case_values(params: &[Range], case: u64, into: &mut [i64])
    requires case { case < cases.case_count params.now }
    requires into { length into.old ≡ length params.now }
    ensures { slice_get (cases.environments params.now) case ≡ Some into.new }
{
    let mut rest = u128::from(case);
    for place in (0..params.len()).rev() {
        let range = params[place];
        let size = size_of(range);
        into[place] = number_at(range, rest % size);
        rest /= size;
    }
}

// How many numbers lie in a range.
fn size_of(range: Range) -> u128
    ensures { result ≡ cases.size_of range }
{
    if range.hi < range.lo {
        0
    } else {
        (i128::from(range.hi) - i128::from(range.lo) + 1) as u128
    }
}

// The number at a place of a range.
fn number_at(range: Range, place: u128) -> i64
    requires { place < cases.size_of range }
    ensures { slice_get (cases.numbers_in range) place ≡ Some result }
{
    (i128::from(range.lo) + place as i128) as i64
}

// How many cases there are for these parameters, or 4,097 where there are more.
pub(crate) fn case_count(params: &[Range]) -> u64
    ensures { result ≡ min (cases.case_count params.now) 4097 }
{
    let mut count = 1;
    for place in (0..params.len()).rev() {
        count = at_most(size_of(params[place])) * count;
        count = at_most(u128::from(count));
    }
    count
}

// The number, or 4,097 where it is greater.
fn at_most(number: u128) -> u64
    ensures { result ≡ min number 4097 }
{
    if number > 4097 { 4097 } else { number as u64 }
}

// How many cases the steps of a program have in all, or 4,097 where they have more.
pub(crate) fn total_cases(p: &CProgram, records: &[Record]) -> u64
    ensures { result ≡ min (cases.total_cases p.now records.now) 4097 }
{
    let mut total = 0;
    for place in (0..records.len()).rev() {
        total = at_most(u128::from(total + own_cases(p, &records[place])));
    }
    total
}

// How many cases a claim has, if it is one of the program's.
fn own_cases(p: &CProgram, claim: &Record) -> u64
    ensures { result ≡ min (cases.own_cases p.now claim.now) 4097 }
{
    if claim.program == p.name {
        case_count(claim.params.as_slice())
    } else {
        0
    }
}
