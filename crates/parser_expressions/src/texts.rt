//! The bytes of a name.

ghost use Rattle.std.specs.Prelude.{◌≡◌, IfOk, slice_range};

use std::alloc::{AllocError, Global};
use unity_base::Seq;

/// The bytes from one place up to another, as far as there are any.
pub(crate) fn between(bytes: &[u8], start: usize, end: usize) -> &[u8]
    ensures { result.now ≡ slice_range bytes.now start end }
{
    let from = start.min(bytes.len());
    let to = end.min(bytes.len()).max(from);
    &bytes[from..to]
}

/// A list of the bytes.
pub(crate) fn copied(alloc: Global, bytes: &[u8]) -> Result<Seq<u8>, AllocError>
    ensures { IfOk result (λ text. text ≡ bytes.now) }
{
    let mut text = Seq::new(alloc);
    for byte in bytes {
        text.push(*byte)?;
    }
    Ok(text)
}
