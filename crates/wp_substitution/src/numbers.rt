// What is known of a node without looking at the slots, from what is known of its parts.
ghost use Rattle.std.specs.Prelude.{◌≡◌, ◌*◌, ◌^◌, ◌≤◌, ◌+ℤ◌, ◌-ℤ◌, ◌*ℤ◌, not, MatchOption};
ghost use Rattle.std.specs.Int.RustNames.{unsigned_abs};
ghost use Rattle.std.specs.Option.{option_map};
ghost use Rattle.core_terms.specs.Folding.{joined};
ghost use Rattle.wp_substitution.specs.Numbers.{sense_truth, joined_truth, pair_number, divided_number, IsBounded};

use core_terms::{
    Dividing, Joining, Pairing, Sense, both_true, either_true, quotient, remainder, scaled,
};

/// Whether a number is at least 0, or is 0.
pub fn sense_truth(sense: Sense, number: Option<i128>) -> Option<bool>
    ensures { result ≡ sense_truth sense number }
{
    match sense {
        Sense::AtLeast => Some(number? >= 0),
        Sense::Zero => Some(number? == 0),
    }
}

/// The other truth.
pub fn other_truth(truth: Option<bool>) -> Option<bool>
    ensures { result ≡ option_map not truth }
{
    Some(!truth?)
}

/// Whether both of two truths hold, or one of them does.
pub fn joined_truth(joining: Joining, first: Option<bool>, second: Option<bool>) -> Option<bool>
    ensures { result ≡ joined_truth joining first second }
{
    match joining {
        Joining::Both => both_true(first, second),
        Joining::Either => either_true(first, second),
    }
}

/// The sum of two numbers, or their difference.
pub fn pair_number(which: Pairing, first: Option<i128>, second: Option<i128>) -> Option<i128>
    requires first { IsBounded first }
    requires second { IsBounded second }
    ensures { result ≡ pair_number which first second }
{
    match which {
        Pairing::Sum => sum_of(first, second),
        Pairing::Difference => difference_of(first, second),
    }
}

fn sum_of(first: Option<i128>, second: Option<i128>) -> Option<i128>
    requires first { IsBounded first }
    requires second { IsBounded second }
    ensures { result ≡ joined (λ x y. x +ℤ y) first second }
{
    let second = second?;
    Some(first? + second)
}

fn difference_of(first: Option<i128>, second: Option<i128>) -> Option<i128>
    requires first { IsBounded first }
    requires second { IsBounded second }
    ensures { result ≡ joined (λ x y. x -ℤ y) first second }
{
    let second = second?;
    Some(first? - second)
}

/// So many times a number.
pub fn multiple_number(k: i64, number: Option<i128>) -> Option<i128>
    requires { MatchOption number (Unit {0}) (λ z. unsigned_abs k * unsigned_abs z ≤ 2 ^ 126) }
    ensures { result ≡ option_map (λ x. k *ℤ x) number }
{
    Some(scaled(k, number?))
}

/// The quotient of two numbers, rounded down, or the remainder.
pub fn divided_number(which: Dividing, number: Option<i128>, k: i64) -> Option<i128>
    ensures { result ≡ divided_number which number k }
{
    match which {
        Dividing::Quotient => Some(quotient(number?, k)),
        Dividing::Remainder => Some(remainder(number?, k)),
    }
}
