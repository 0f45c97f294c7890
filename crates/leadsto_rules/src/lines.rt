// Numbers that change by the same from each number to the next, and how long they stay at or above 0.
ghost use Rattle.std.specs.Prelude.{◌≡◌, ℕ, ◌≤◌, min, true, pos, ◌+ℤ◌, ◌*ℤ◌, ◌≤ℤ◌, ◌<ℤ◌};
ghost use Rattle.meaning_states.specs.Division.{divisor, floored};
ghost use Rattle.std.specs.Bool.{OnTrue};
ghost use Rattle.std.specs.Int.RustNames.{int_le};
ghost use Rattle.meaning_states.specs.State.{int_eq};
ghost use Rattle.leadsto_rules.specs.Lines.{line_at, sum_line, difference_line, multiple_line, pair_line, holds_at};

use core_terms::{Pairing, Sense, quotient, remainder};

/// A parameter, a number that is put for it, and how many further numbers follow.
#[derive(Clone, Copy)]
pub struct Start {
    pub name: u32,
    pub number: i64,
    pub reach: u64,
}

/// Whether a formula holds at a number and at so many further numbers.
#[derive(Clone, Copy)]
pub struct Stretch {
    pub holds: bool,
    pub reach: u64,
}

// A number, and what is added from each step to the next.
#[derive(Clone, Copy)]
pub(crate) struct Line {
    pub value: i128,
    pub slope: i128,
}

// Puts a line there, and says that it is known.
#[inline(never)]
pub(crate) fn known_line(line: &mut Line, value: i64, slope: i128) -> bool
    ensures known { result ≡ true }
    ensures value { line.new.value ≡ value }
    ensures slope { line.new.slope ≡ slope }
{
    *line = Line {
        value: value as i128,
        slope,
    };
    true
}

// Adds a line. False where a number is too great.
#[inline(never)]
fn add(line: &mut Line, other: &Line) -> bool
    ensures { OnTrue result (line.new ≡ sum_line line.old other.now) }
{
    match (
        line.value.checked_add(other.value),
        line.slope.checked_add(other.slope),
    ) {
        (Some(value), Some(slope)) => {
            *line = Line { value, slope };
            true
        }
        _ => false,
    }
}

// Subtracts a line. False where a number is too great.
#[inline(never)]
fn subtract(line: &mut Line, other: &Line) -> bool
    ensures { OnTrue result (line.new ≡ difference_line line.old other.now) }
{
    match (
        line.value.checked_sub(other.value),
        line.slope.checked_sub(other.slope),
    ) {
        (Some(value), Some(slope)) => {
            *line = Line { value, slope };
            true
        }
        _ => false,
    }
}

// Adds a line, or subtracts it. False where a number is too great.
pub(crate) fn pair(which: Pairing, line: &mut Line, other: &Line) -> bool
    ensures { OnTrue result (line.new ≡ pair_line which line.old other.now) }
{
    match which {
        Pairing::Sum => add(line, other),
        Pairing::Difference => subtract(line, other),
    }
}

// Makes a multiple of a line. False where a number is too great.
#[inline(never)]
pub(crate) fn multiply(k: i64, line: &mut Line) -> bool
    ensures { OnTrue result (line.new ≡ multiple_line k line.old) }
{
    let factor = k as i128;
    match (
        factor.checked_mul(line.value),
        factor.checked_mul(line.slope),
    ) {
        (Some(value), Some(slope)) => {
            *line = Line { value, slope };
            true
        }
        _ => false,
    }
}

// Divides a line, rounded down, and says for how many of these steps the quotient is a line.
#[inline(never)]
pub(crate) fn divide(k: i64, line: &mut Line, reach: u64) -> u64
    ensures within { result ≤ reach }
    ensures quotient { (n : ℕ) → n ≤ result → floored (line_at line.old n) k ≡ line_at line.new n }
{
    let value = quotient(line.value, k);
    let rest = remainder(line.value, k);
    let slope = line.slope;
    if remainder(slope, k) == 0 {
        *line = Line {
            value,
            slope: quotient(slope, k),
        };
        reach
    } else {
        *line = Line { value, slope: 0 };
        steps_inside(rest, divisor_of(k), slope, reach)
    }
}

// Makes of a line what a division by a number leaves of it, where the quotient is the other line. False where a
// number is too great.
#[inline(never)]
pub(crate) fn take_rest(k: i64, line: &mut Line, mut quotient: Line) -> bool
    ensures { OnTrue result (line.new ≡ difference_line line.old (multiple_line (divisor k) quotient)) }
{
    multiply(divisor_of(k), &mut quotient) && subtract(line, &quotient)
}

// What is divided by, which is at least 1.
fn divisor_of(k: i64) -> i64
    ensures { result ≡ divisor k }
{
    k.max(1)
}

// So many steps, but no more than there are.
fn at_most(steps: u128, reach: u64) -> u64
    ensures { result ≡ min steps reach }
{
    if steps < reach as u128 {
        steps as u64
    } else {
        reach
    }
}

// For how many steps a line from so far above 0 is not below it.
fn steps_above(distance: u128, slope: i128, reach: u64) -> u64
    ensures within { result ≤ reach }
    ensures above { (k : ℕ) → k ≤ result → pos 0 ≤ℤ (pos distance +ℤ slope *ℤ pos k) }
{
    if slope >= 0 {
        reach
    } else {
        at_most(distance / slope.unsigned_abs(), reach)
    }
}

// For how many steps a line from so far below 0 is not above it.
fn steps_below(distance: u128, slope: i128, reach: u64) -> u64
    ensures within { result ≤ reach }
    ensures below { (k : ℕ) → k ≤ result → (slope *ℤ pos k) ≤ℤ pos distance }
{
    if slope <= 0 {
        reach
    } else {
        at_most(distance / slope.unsigned_abs(), reach)
    }
}

// For how many steps a line from a number at or above 0 and below an end stays there.
fn steps_inside(number: i128, end: i64, slope: i128, reach: u64) -> u64
    requires low { pos 0 ≤ℤ number }
    requires high { number <ℤ end }
    ensures within { result ≤ reach }
    ensures low { (k : ℕ) → k ≤ result → pos 0 ≤ℤ (number +ℤ slope *ℤ pos k) }
    ensures high { (k : ℕ) → k ≤ result → (number +ℤ slope *ℤ pos k) <ℤ end }
{
    let room = i128::from(end) - 1 - number;
    let below = steps_below(room.unsigned_abs(), slope, reach);
    steps_above(number.unsigned_abs(), slope, below)
}

// Whether a line is at least 0, and for how many of these steps.
fn at_least(l: Line, reach: u64) -> Stretch
    ensures within { result.reach ≤ reach }
    ensures truth { (k : ℕ) → k ≤ result.reach → int_le (pos 0) (line_at l k) ≡ result.holds }
{
    if l.value >= 0 {
        Stretch {
            holds: true,
            reach: steps_above(l.value.unsigned_abs(), l.slope, reach),
        }
    } else {
        Stretch {
            holds: false,
            reach: steps_below(l.value.unsigned_abs() - 1, l.slope, reach),
        }
    }
}

// Whether a line that starts at 0 stays there, and for how many of these steps.
fn level(l: Line, reach: u64) -> Stretch
    requires { l.value ≡ pos 0 }
    ensures within { result.reach ≤ reach }
    ensures truth { (k : ℕ) → k ≤ result.reach → int_eq (line_at l k) (pos 0) ≡ result.holds }
{
    Stretch {
        holds: true,
        reach: if l.slope == 0 { reach } else { 0 },
    }
}

// Whether a line is at least 0, or is 0, and for how many of these steps.
pub(crate) fn stretch_of(sense: Sense, l: Line, reach: u64) -> Stretch
    ensures within { result.reach ≤ reach }
    ensures truth { (k : ℕ) → k ≤ result.reach → holds_at sense (line_at l k) ≡ result.holds }
{
    match sense {
        Sense::AtLeast => at_least(l, reach),
        Sense::Zero => zero(l, reach),
    }
}

// Whether a line is 0, and for how many of these steps.
fn zero(l: Line, reach: u64) -> Stretch
    ensures within { result.reach ≤ reach }
    ensures truth { (k : ℕ) → k ≤ result.reach → int_eq (line_at l k) (pos 0) ≡ result.holds }
{
    if l.value == 0 {
        level(l, reach)
    } else if l.value > 0 {
        Stretch {
            holds: false,
            reach: steps_above(l.value.unsigned_abs() - 1, l.slope, reach),
        }
    } else {
        Stretch {
            holds: false,
            reach: steps_below(l.value.unsigned_abs() - 1, l.slope, reach),
        }
    }
}
