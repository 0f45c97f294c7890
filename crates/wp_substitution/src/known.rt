// What is known of a write without looking at the slots: the truth of its condition and the number of its value.
ghost use Rattle.std.specs.Prelude.{◌≡◌, ◌≤◌, ◌^◌, ◌-ℤ◌, ◌&&◌, IfOk, MatchOption, All, map};
ghost use Rattle.std.specs.Int.RustNames.{unsigned_abs};
ghost use Rattle.core_terms.specs.Folding.{joined};
ghost use Rattle.wp_substitution.specs.Joined.{IsLightWrite, known_write, IsSmallKnown, known_pair};

use core_terms::from_unity_base::Seq;
use core_terms::{CWrite, number_of, truth_of};
use std::alloc::{AllocError, Global};

/// The truth of a write's condition and the number of its value, where they name no slot and no parameter.
#[derive(Clone, Copy)]
pub struct Known {
    pub truth: Option<bool>,
    pub number: Option<i128>,
}

/// What is known of a write.
#[tactic(auto, using(crate::proofs::KnownLaws::number_laws))]
fn known_write(w: &CWrite) -> Known
    requires { IsLightWrite w.now }
    ensures known { result ≡ known_write w.now }
    ensures small { IsSmallKnown result }
{
    Known {
        truth: truth_of(&w.when),
        number: number_of(&w.value),
    }
}

/// What is known of each write.
pub fn known_writes(alloc: Global, writes: &[CWrite]) -> Result<Seq<Known>, AllocError>
    requires { All IsLightWrite writes.now }
    ensures known { IfOk result (λ knowns. knowns ≡ map known_write writes.now) }
    ensures small { IfOk result (All IsSmallKnown) }
{
    let mut knowns = Seq::new(alloc);
    for w in writes {
        knowns.push(known_write(w))?;
    }
    Ok(knowns)
}

/// The truth of what two writes to one slot need, where it is known: that both are not made, or that their
/// values are equal.
pub fn known_pair(a: Known, b: Known) -> Option<bool>
    requires first { IsSmallKnown a }
    requires second { IsSmallKnown b }
    ensures { result ≡ known_pair a b }
{
    let both = both_true(a.truth, b.truth)?;
    let apart = difference(a.number, b.number)?;
    Some(!both || apart == 0)
}

fn both_true(a: Option<bool>, b: Option<bool>) -> Option<bool>
    ensures { result ≡ joined (λ x y. x && y) a b }
{
    let second = b?;
    Some(a? && second)
}

fn difference(a: Option<i128>, b: Option<i128>) -> Option<i128>
    requires first { MatchOption a (Unit {0}) (λ z. unsigned_abs z ≤ 2 ^ 62) }
    requires second { MatchOption b (Unit {0}) (λ z. unsigned_abs z ≤ 2 ^ 62) }
    ensures { result ≡ joined (λ x y. x -ℤ y) a b }
{
    let second = b?;
    Some(a? - second)
}
