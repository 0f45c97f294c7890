//! Lists that may be left out: a first item, and those that follow it.

ghost use Rattle.std.specs.Prelude.{◌≡◌, ◌++◌};
ghost use Rattle.std.specs.Mem.{FitsInMemory};
ghost use Rattle.names_rules.specs.Declarations.{some_of};

use std::slice;
use unity_base::Seq;

/// A list that may be left out, in two: its first item, and those that follow it.
pub fn first_and_rest<T>(list: &Option<(T, Seq<T>)>) -> (&[T], &[T])
    requires { FitsInMemory T.row }
    ensures { result.0.now ++ result.1.now ≡ some_of list.now }
{
    match list {
        None => (&[], &[]),
        Some((first, rest)) => (slice::from_ref(first), rest.as_slice()),
    }
}
