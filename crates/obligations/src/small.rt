//! Sums and products that stay within 2^126, the limit of a certificate's numbers.
ghost use Rattle.std.specs.Prelude.{◌≡◌, ◌+ℤ◌, ◌*ℤ◌, MatchOption, true, false};
ghost use Rattle.obligations.specs.Load.{in_limit};

/// Whether a number is at most 2^126 and at least -2^126.
fn is_within(z: i128) -> bool
    ensures { result ≡ in_limit z }
{
    z.unsigned_abs() <= 1 << 126
}

/// A product. `None` exactly where it is past 2^126.
pub fn small_product(m: i64, z: i128) -> Option<i128>
    ensures { MatchOption result (in_limit (m *ℤ z) ≡ false) (λ x. (x ≡ m *ℤ z) × (in_limit (m *ℤ z) ≡ true)) }
{
    match (m as i128).checked_mul(z) {
        Some(x) => { if is_within(x) { Some(x) } else { None } }
        None => None,
    }
}

/// A sum. `None` exactly where it is past 2^126.
pub fn small_sum(a: i128, b: i128) -> Option<i128>
    ensures { MatchOption result (in_limit (a +ℤ b) ≡ false) (λ x. (x ≡ a +ℤ b) × (in_limit (a +ℤ b) ≡ true)) }
{
    match a.checked_add(b) {
        Some(x) => { if is_within(x) { Some(x) } else { None } }
        None => None,
    }
}
