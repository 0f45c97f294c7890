// Records with arguments for their parameters.
ghost use Rattle.std.specs.Prelude.{◌≡◌, ◌+ℤ◌, Some, slice_get, All, IfOk, map};
ghost use Rattle.std.specs.List.{list_any};
ghost use Rattle.std.specs.Int.RustNames.{int_le};
ghost use Rattle.rules_table.specs.Table as table;
ghost use Rattle.safety_rules.specs.Instances.{CanMove, MayPut, AllMayPut};

use core_terms::{Arg, Helper, Range};
use std::alloc::{AllocError, Global};
use unity_base::Seq;

// Whether an argument is a variable.
pub(crate) fn has_variable(args: &[Arg]) -> bool
    ensures { result ≡ list_any table.is_slot args.now }
{
    for arg in args {
        if matches!(arg, Arg::Slot) {
            return true;
        }
    }
    false
}

// Whether a number, with so much added, is at least another.
fn is_above(low: i64, number: i64, add: i64) -> bool
    ensures { result ≡ int_le low (number +ℤ add) }
{
    i128::from(low) <= i128::from(number) + i128::from(add)
}

// Whether a number, with so much added, is at most another.
fn is_below(high: i64, number: i64, add: i64) -> bool
    ensures { result ≡ int_le (number +ℤ add) high }
{
    i128::from(number) + i128::from(add) <= i128::from(high)
}

// Whether all numbers of a range, with so much added, lie in another.
fn contains(range: Range, r: Range, add: i64) -> bool
    ensures { result ≡ table.lies_in range (Some r) add }
{
    is_above(range.lo, r.lo, add) && is_below(range.hi, r.hi, add)
}

// The same of a name with so much added.
fn named_argument(ranges: &[Range], range: Range, name: usize, add: i64) -> bool
    ensures { result ≡ table.lies_in range (slice_get ranges.now name) add }
{
    if name < ranges.len() {
        contains(range, ranges[name], add)
    } else {
        false
    }
}

// Whether all numbers of an argument lie in the range, where those of names lie in these.
fn is_argument(ranges: &[Range], range: Range, arg: Arg) -> bool
    ensures { result ≡ table.is_argument ranges.now range arg }
{
    match arg {
        Arg::Number(k) => range.lo <= k && k <= range.hi,
        Arg::Param { number, add } => named_argument(ranges, range, number as usize, add),
        Arg::Slot => false,
    }
}

// Whether there is an argument for each range, and it lies in it.
pub(crate) fn are_arguments(ranges: &[Range], params: &[Range], args: &[Arg]) -> bool
    ensures { result ≡ table.are_arguments ranges.now params.now args.now }
{
    if params.len() != args.len() {
        return false;
    }
    for (place, arg) in args.iter().enumerate() {
        if !is_argument(ranges, params[place], *arg) {
            return false;
        }
    }
    true
}

// An argument with so much added.
fn moved(arg: Arg, add: i64) -> Arg
    requires { CanMove add (Some arg) }
    ensures { result ≡ table.moved add arg }
{
    match arg {
        Arg::Number(k) => Arg::Number(k + add),
        Arg::Param { number, add: more } => Arg::Param {
            number,
            add: more + add,
        },
        Arg::Slot => Arg::Number(add),
    }
}

// The argument of this number, with so much added; without it, that number.
fn moved_at(args: &[Arg], name: usize, add: i64) -> Arg
    requires { CanMove add (slice_get args.now name) }
    ensures { result ≡ table.moved_at add (slice_get args.now name) }
{
    if name < args.len() {
        moved(args[name], add)
    } else {
        Arg::Number(add)
    }
}

// An index with the arguments put in.
fn put_in(args: &[Arg], index: Arg) -> Arg
    requires { MayPut args.now index }
    ensures { result ≡ table.put_in args.now index }
{
    match index {
        Arg::Number(k) => Arg::Number(k),
        Arg::Param { number, add } => moved_at(args, number as usize, add),
        Arg::Slot => Arg::Slot,
    }
}

// Indices with the arguments put in.
fn put_all(alloc: Global, args: &[Arg], indices: &[Arg]) -> Result<Seq<Arg>, AllocError>
    requires { All (MayPut args.now) indices.now }
    ensures { IfOk result (λ all. all ≡ map (table.put_in args.now) indices.now) }
{
    let mut all = Seq::new(alloc);
    for index in indices {
        all.push(put_in(args, *index))?;
    }
    Ok(all)
}

// A statement's name with the arguments put in.
pub(crate) fn helper_with(
    alloc: Global,
    args: &[Arg],
    helper: &Option<Helper>,
) -> Result<Option<Helper>, AllocError>
    requires { AllMayPut args.now helper.now }
    ensures { IfOk result (λ h. h ≡ table.helper_with args.now helper.now) }
{
    match helper {
        None => Ok(None),
        Some(h) => Ok(Some(Helper {
            label: h.label,
            args: put_all(alloc, args, h.args.as_slice())?,
        })),
    }
}
