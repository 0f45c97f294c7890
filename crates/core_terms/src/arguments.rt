// The term that is put for a parameter.
ghost use Rattle.std.specs.Prelude.{◌≡◌, ◌^◌, ◌<◌, ◌≤◌, IfOk, length, slice_get, Some, None, All};
ghost use Rattle.std.specs.Int.RustNames.{unsigned_abs};
ghost use Rattle.core_terms.specs.Weights.{plain_weights};
ghost use Rattle.core_terms.specs.Folding as fold;
ghost use Rattle.core_terms.specs.Replacing.{IsSmallArg, shifted, arg_term};

use crate::documents::Arg;
use crate::known;
use crate::trees::CTerm;
use std::alloc::{AllocError, Global};
use unity_base::Shared;

/// What is put for the parameters.
#[derive(Clone, Copy)]
pub struct Arguments<'a> {
    pub args: &'a [Arg],
}

/// The term of a parameter's argument; `number` is then that of the term.
///
/// An error says that memory was refused.
#[inline(never)]
pub fn put_arg(
    alloc: Global,
    args: &[Arg],
    place: u32,
    number: &mut Option<i128>,
) -> Result<Shared<CTerm>, AllocError>
    requires place { place < length args.now }
    requires small { All IsSmallArg args.now }
    ensures tree { IfOk result (λ u. u ≡ arg_term (slice_get args.now place)) }
    ensures number { IfOk result (λ u. number.new ≡ fold.number_of u) }
    ensures own { IfOk result (λ u. (plain_weights u).own ≤ 2 ^ 63) }
    ensures most { IfOk result (λ u. (plain_weights u).most ≤ 2 ^ 63) }
{
    match arg_in(args, place) {
        Arg::Number(k) => known::constant_known(alloc, k, number),
        Arg::Param { number: n, add } => {
            *number = None;
            shifted_param(alloc, n, add)
        }
        Arg::Slot => known::constant_known(alloc, 0, number),
    }
}

fn arg_in(args: &[Arg], place: u32) -> Arg
    requires { place < length args.now }
    ensures item { slice_get args.now place ≡ Some result }
    ensures small { All IsSmallArg args.now → IsSmallArg result }
{
    args[place as usize]
}

// A parameter with a number added.
fn shifted_param(alloc: Global, number: u32, add: i64) -> Result<Shared<CTerm>, AllocError>
    requires { unsigned_abs add ≤ 2 ^ 62 }
    ensures tree { IfOk result (λ u. u ≡ shifted number add) }
    ensures number { IfOk result (λ u. fold.number_of u ≡ None) }
    ensures own { IfOk result (λ u. (plain_weights u).own ≤ 2 ^ 63) }
    ensures most { IfOk result (λ u. (plain_weights u).most ≤ 2 ^ 63) }
{
    if add == 0 {
        return Shared::new(alloc, CTerm::Param(number));
    }
    let param = Shared::new(alloc, CTerm::Param(number))?;
    if add > 0 {
        let more = Shared::new(alloc, CTerm::Const(add))?;
        Shared::new(alloc, CTerm::Add(param, more))
    } else {
        let less = Shared::new(alloc, CTerm::Const(-add))?;
        Shared::new(alloc, CTerm::Sub(param, less))
    }
}
