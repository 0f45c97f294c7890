//! A sum or a difference, and a quotient or a remainder.
ghost use Rattle.std.specs.Prelude.{◌≡◌};
ghost use Rattle.core_terms.specs.Senses.{pair_node, divided_node};

use core_terms::from_unity_base::Shared;
use core_terms::{CTerm, Dividing, Pairing};

/// The sum or the difference of two terms.
pub fn pair_term(which: Pairing, a: Shared<CTerm>, b: Shared<CTerm>) -> CTerm
    ensures { result ≡ pair_node which a b }
{
    match which {
        Pairing::Sum => CTerm::Add(a, b),
        Pairing::Difference => CTerm::Sub(a, b),
    }
}

/// The quotient or the remainder of a term by a number.
pub fn divided_term(which: Dividing, a: Shared<CTerm>, k: i64) -> CTerm
    ensures { result ≡ divided_node which a k }
{
    match which {
        Dividing::Quotient => CTerm::Div(a, k),
        Dividing::Remainder => CTerm::Mod(a, k),
    }
}
