// The bytes of the ring.
ghost use Rattle.std.specs.Prelude.{◌≡◌, ◌≤◌, ◌++◌, IfOk};
ghost use Rattle.cli_ring.specs.Rings.{program_text, proof_text, ring_bytes, with_number};

use std::alloc::{AllocError, Global};

/// The document, with `L` for the number of the last place.
const RING: &str = "unity 1
program Ring
declare
  at : 0..L
initially
  at = L
assign
  <[] i : 1..L :: pass: at := i - 1 if at = i |>
  [] wrap: at := L if at = 0
end
proof Ring
  safe: defined by text;
  step(m : 1..L): true and at = m ensures (true and at < m) or at = 0 by text with pass[m];
  goal: true leadsto at = 0 by induct(m : 1..L, at, true, at = 0, from step[m]);
  home: at = 0 ensures at = L by text with wrap;
  again: true leadsto at = L by trans(from goal, from home);
end
";

// The text with a number in the place of each `L`.
fn with_number(alloc: Global, number: &[u8], text: &[u8]) -> Result<Vec<u8>, AllocError>
    ensures { IfOk result (λ filled. filled.items ≡ with_number number.now text.now) }
{
    let mut filled = Vec::new(alloc);
    for byte in text {
        if *byte == b'L' {
            filled.extend_from_slice(number)?;
        } else {
            filled.push(*byte)?;
        }
    }
    Ok(filled)
}

/// The document of a ring of so many places, 2 to 64: a token begins at the last place, goes down to place 0 one place
/// at a step, and from there back to the last. Its proof has five steps: that no step is undefined, what each step of
/// the token does, that it comes to place 0, what its step back does, and that it comes to the last place.
///
/// The error is that memory was refused.
pub fn make_demo(alloc: Global, n: u32) -> Result<Vec<u8>, AllocError>
    requires { (2 ≤ n) × (n ≤ 64) }
    ensures { IfOk result (λ bytes. bytes.items ≡ ring_bytes n) }
{
    let last = format!(in alloc; "{}", n - 1)?;
    with_number(alloc, last.as_bytes(), RING.as_bytes())
}
