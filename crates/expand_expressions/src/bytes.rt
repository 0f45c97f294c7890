//! Where expressions begin.

ghost use Rattle.std.specs.Prelude.{◌≡◌};
ghost use Rattle.expand_rules.specs.Forming.{first_byte};

use names_rules::place;
use unity_syntax::Expr;

/// The first byte of an expression.
pub fn first_byte(e: &Expr) -> u64
    ensures { result ≡ first_byte e.now }
{
    place(e)
}
