//! Where the ranges of lists fail.

ghost use Rattle.std.specs.Prelude.{◌≡◌, IfOk};
ghost use Rattle.case_tables.specs.declared.code_table.Code.{Code};
ghost use Rattle.names_rules.specs.Answers.{Demands};
ghost use Rattle.expand_rules.specs.Measures.{place_of};
ghost use Rattle.expand_rules.specs.Lists.{empty_place, fault_at, large_place, place_where, range_fault, range_place};
ghost use Rattle.expand_statements.specs.Standing.{standing_in};

use crate::chains::{Chain, nest_end, nest_range};
use case_tables::Code;
use expand_counting::{is_ever_empty, is_ever_large};
use expand_rules::nearer;
use names_rules::NameFault;
use std::alloc::{AllocError, Global};
use unity_syntax::{End, Range};

fn place_of(end: &End) -> u64
    ensures { result ≡ place_of end.now }
{
    match end {
        End::Number {
            at,
            minus: _,
            number: _,
        } => *at,
        End::Word {
            at,
            name: _,
            offset: _,
        } => *at,
    }
}

fn place_where(there: bool, at: u64) -> Option<u64>
    ensures { result ≡ place_where there at }
{
    if there { Some(at) } else { None }
}

fn empty_place(alloc: Global, range: &Range, chain: &Chain) -> Result<Option<u64>, AllocError>
    ensures { IfOk result (λ place. place ≡ empty_place range.now (standing_in chain.now)) }
{
    let nested = nest_range(chain.names.as_slice(), range);
    let there = is_ever_empty(alloc, chain.ranges.as_slice(), &nested)?;
    Ok(place_where(there, range.at))
}

fn large_place(alloc: Global, end: &End, chain: &Chain) -> Result<Option<u64>, AllocError>
    ensures { IfOk result (λ place. place ≡ large_place end.now (standing_in chain.now)) }
{
    let nested = nest_end(chain.names.as_slice(), end);
    let there = is_ever_large(alloc, chain.ranges.as_slice(), &nested)?;
    Ok(place_where(there, place_of(end)))
}

fn range_place(alloc: Global, range: &Range, chain: &Chain) -> Result<Option<u64>, AllocError>
    ensures { IfOk result (λ place. place ≡ range_place range.now (standing_in chain.now)) }
{
    let empty = empty_place(alloc, range, chain)?;
    let low = large_place(alloc, &range.low, chain)?;
    let high = large_place(alloc, &range.high, chain)?;
    Ok(nearer(empty, nearer(low, high)))
}

/// `BadRange` where the range of a list inside others is empty in an instance, or an end of it is too large in one,
/// at the first such place. `Memory` says that memory was refused.
pub fn check_range(alloc: Global, range: &Range, chain: &Chain) -> Result<(), NameFault>
    ensures { Demands result (range_fault range.now (standing_in chain.now)) }
{
    match range_place(alloc, range, chain)? {
        None => Ok(()),
        Some(at) => Err(NameFault::Fault {
            code: Code::BadRange,
            at,
        }),
    }
}
