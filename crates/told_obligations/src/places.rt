// Lines of a text, by the bytes that they hold.
ghost use Rattle.std.specs.Prelude.{◌≡◌, ◌≤◌, length, map, take, IfOk};
ghost use Rattle.told_obligations.specs.Places as place;

use std::alloc::{AllocError, Global};
use unity_base::Seq;

// How many of these bytes end a line.
fn line_ends(bytes: &[u8]) -> u64
    ensures count { result ≡ place.line_ends bytes.now }
    ensures few { result ≤ length bytes.now }
{
    let mut count = 0;
    for byte in bytes {
        if *byte == b'\n' {
            count += 1;
        }
    }
    count
}

// How many of the bytes before a place end a line, where it is known before another place.
fn ends_before(bytes: &[u8], at: usize, ends: u64, next: usize) -> u64
    requires at { at ≤ length bytes.now }
    requires next { next ≤ length bytes.now }
    requires ends { ends ≡ place.line_ends (take at bytes.now) }
    requires few { ends ≤ at }
    ensures ends { result ≡ place.line_ends (take next bytes.now) }
    ensures few { result ≤ next }
{
    if next < at {
        line_ends(&bytes[..next])
    } else {
        ends + line_ends(&bytes[at..next])
    }
}

/// The lines of the bytes at these places, from 1. Places that rise are found in one walk along the bytes.
///
/// The error is that memory was refused.
pub fn lines_of(alloc: Global, bytes: &[u8], places: &[u64]) -> Result<Seq<u64>, AllocError>
    ensures { IfOk result (λ lines. lines ≡ map (place.line_of bytes.now) places.now) }
{
    let mut lines = Seq::new(alloc);
    let mut at = 0;
    let mut ends = 0;
    for place in places {
        let next = bytes.len().min(*place as usize);
        ends = ends_before(bytes, at, ends, next);
        at = next;
        lines.push(ends + 1)?;
    }
    Ok(lines)
}
