//! Two facts that clash: each factor of the one is the negative of the other's, and their constants,
//! rounded, add up to less than 0.
ghost use Rattle.std.specs.Prelude.{◌≡◌, ◌+◌, ◌≤◌, ◌<◌, ◌^◌, ◌∷◌, [], suc, ℕ, ℤ, pos, ◌+ℤ◌, ◌≤ℤ◌, not, Bool, true};
ghost use Rattle.std.specs.Prelude.{false, length, map, IfOk, IfSome, MatchOption};
ghost use Rattle.std.specs.List.{list_all, list_any};
ghost use Rattle.std.specs.Int.{IsGcd, int_div_euclid};
ghost use Rattle.std.specs.Int.RustNames.{int_le, unsigned_abs};
ghost use Rattle.meaning_states.specs.State.{int_eq};
ghost use Rattle.obligations.specs.Reach.{is_exact, are_opposite, gcd, divisor_of, is_moderate, is_moderate_fact};
ghost use Rattle.obligations.specs.Reach.{is_some_factor, clash};
ghost use Rattle.linear_prover.specs.Tables.{IsAt};
ghost use Rattle.linear_prover.specs.Clashes.{can_clash, Rounds, is_turned, fact_key, IsPartner, IsClash};

use crate::keys::{Key, is_same_key, key_of, keys_of};
use obligations::Fact;
use std::alloc::{AllocError, Global};

/// The greatest number that divides both.
#[tactic(auto, using(crate::proofs::GcdLaws::gcd_laws))]
fn greatest_divisor(a: u128, b: u128) -> u128
    ensures { result ≡ gcd a b }
{
    let mut one = a;
    let mut other = b;
    'steps: while other > 0 {
        let rest = one % other;
        one = other;
        other = rest;
    }
    one
}

/// The greatest number that divides all factors, and 0 where there is none.
pub fn divisor_in(factors: &[(u32, i128)]) -> u128
    ensures { result ≡ divisor_of factors.now }
{
    let mut common = 0;
    let mut left = factors.len();
    'factors: while left > 0 {
        left -= 1;
        common = with_factor(&factors[left], common);
    }
    common
}

/// The greatest number that divides a factor and another number.
fn with_factor(factor: &(u32, i128), common: u128) -> u128
    ensures { result ≡ gcd (unsigned_abs factor.now.1) common }
{
    greatest_divisor(factor.1.unsigned_abs(), common)
}

/// Whether a number is at most 2^124 and at least -2^124.
fn is_moderate_number(z: &i128) -> bool
    ensures { result ≡ is_moderate z.now }
{
    z.unsigned_abs() <= 1 << 124
}

/// Whether all factors are.
fn are_moderate(factors: &[(u32, i128)]) -> bool
    ensures { result ≡ list_all (λ f. is_moderate f.1) factors.now }
{
    factors.iter().all(|f| is_moderate_number(&f.1))
}

/// Whether all numbers of a fact are.
fn has_moderate_numbers(fact: &Fact) -> bool
    ensures { result ≡ is_moderate_fact fact.now }
{
    is_moderate_number(&fact.constant) && are_moderate(fact.factors.as_slice())
}

/// A fact's constant after a round: divided by the divisor of all factors, and rounded down.
#[derive(Clone, Copy)]
pub struct Rounding {
    pub divisor: i64,
    pub constant: i128,
}

/// A constant, divided and rounded down.
fn rounded_down(constant: &i128, divisor: i64) -> i128
    requires positive { pos 1 ≤ℤ divisor }
    requires moderate { is_moderate constant.now ≡ true }
    ensures value { result ≡ int_div_euclid constant.now divisor }
    ensures size { unsigned_abs result ≤ 2 ^ 124 }
{
    constant.div_euclid(divisor as i128)
}

/// A number of at most 2^62.
fn whole(number: u128) -> i64
    requires { number ≤ 2 ^ 62 }
    ensures { result ≡ pos number }
{
    number as i64
}

/// A fact's constant after a round by a divisor.
fn rounding_by(fact: &Fact, common: u128) -> Rounding
    requires positive { 0 < common }
    requires limit { common ≤ 2 ^ 62 }
    requires moderate { is_moderate fact.now.constant ≡ true }
    ensures divisor { result.divisor ≡ pos common }
    ensures constant { result.constant ≡ int_div_euclid fact.now.constant (pos common) }
    ensures size { unsigned_abs result.constant ≤ 2 ^ 124 }
{
    let divisor = whole(common);
    let constant = rounded_down(&fact.constant, divisor);
    Rounding { divisor, constant }
}

/// What a fact may clash by. `None` exactly where it can't clash with any fact.
fn rounding_of(fact: &Fact) -> Option<Rounding>
    requires { is_exact 0 fact.now.factors ≡ true }
    ensures { MatchOption result (can_clash fact.now ≡ false) (Rounds fact.now) }
{
    let common = divisor_in(fact.factors.as_slice());
    if fact.factors.is_empty() || common > 1 << 62 || !has_moderate_numbers(fact) {
        return None;
    }
    Some(rounding_by(fact, common))
}

/// Whether two factors are those of one variable, and add up to 0.
fn is_opposite(f: &(u32, i128), g: &(u32, i128)) -> bool
    ensures { result ≡ is_turned f.now g.now }
{
    f.0 == g.0 && f.1.checked_add(g.1) == Some(0)
}

/// Whether each factor is the negative of the other's.
#[tactic(auto, using(crate::proofs::OppositeLaws::opposite_laws))]
fn opposite(f: &[(u32, i128)], g: &[(u32, i128)]) -> bool
    ensures { result ≡ are_opposite f.now g.now }
{
    if f.len() != g.len() {
        return false;
    }
    for (place, factor) in f.iter().enumerate() {
        if !is_opposite(factor, &g[place]) {
            return false;
        }
    }
    true
}

/// Whether two numbers add up to less than 0.
fn is_below_zero(a: &i128, b: &i128) -> bool
    requires first { unsigned_abs a.now ≤ 2 ^ 124 }
    requires second { unsigned_abs b.now ≤ 2 ^ 124 }
    ensures { result ≡ not (int_le (pos 0) (a.now +ℤ b.now)) }
{
    *a + *b < 0
}

/// Whether a fact clashes with another, by what the one may clash by.
fn clashes(f: &Fact, r: &Rounding, g: &Fact) -> bool
    requires { Rounds f.now r.now }
    ensures { result ≡ clash f.now g.now }
{
    if !opposite(f.factors.as_slice(), g.factors.as_slice()) || !has_moderate_numbers(g) {
        return false;
    }
    is_below_zero(&r.constant, &rounded_down(&g.constant, r.divisor))
}

/// Whether a fact clashes with another, by their keys and by what the one may clash by.
#[tactic(auto, using(crate::proofs::KeyLaws::clash_key))]
fn clashes_by(f: &Fact, r: &Rounding, own: Key, key: Key, g: &Fact) -> bool
    requires rounds { Rounds f.now r.now }
    requires own { own ≡ fact_key f.now }
    requires key { key ≡ fact_key g.now }
    ensures { result ≡ clash f.now g.now }
{
    is_same_key(own, key) && clashes(f, r, g)
}

/// The first fact with which a fact clashes. `None` exactly where there is none.
#[tactic(auto, using(crate::proofs::KeyLaws::key_laws))]
fn first_partner(facts: &[Fact], keys: &[Key], f: &Fact, r: &Rounding) -> Option<usize>
    requires rounds { Rounds f.now r.now }
    requires keys { keys.now ≡ map fact_key facts.now }
    ensures { MatchOption result (list_any (clash f.now) facts.now ≡ false) (λ n. IsAt (clash f.now) facts.now n) }
{
    let own = key_of(f.factors.as_slice());
    for (place, g) in facts.iter().enumerate() {
        if clashes_by(f, r, own, keys[place], g) {
            return Some(place);
        }
    }
    None
}

/// The place of a fact with which another clashes, and the divisor of their factors.
#[derive(Clone, Copy)]
pub struct Partner {
    pub place: usize,
    pub divisor: i64,
}

/// The first fact with which a fact clashes. `None` exactly where there is none.
#[tactic(auto, using(crate::proofs::OppositeLaws::clash_nowhere))]
fn partner_of(facts: &[Fact], keys: &[Key], f: &Fact) -> Option<Partner>
    requires exact { is_exact 0 f.now.factors ≡ true }
    requires keys { keys.now ≡ map fact_key facts.now }
    ensures { MatchOption result (list_any (clash f.now) facts.now ≡ false) (IsPartner f.now facts.now) }
{
    let r = rounding_of(f)?;
    let place = first_partner(facts, keys, f, &r)?;
    Some(Partner {
        place,
        divisor: r.divisor,
    })
}

/// The place of a fact, and a fact with which it clashes.
#[derive(Clone, Copy)]
pub struct Pair {
    pub place: usize,
    pub partner: Partner,
}

/// The first two facts that clash, by the keys of all. `None` exactly where no two do.
fn first_pair(facts: &[Fact], keys: &[Key]) -> Option<Pair>
    requires exact { list_all (λ f. is_exact 0 f.factors) facts.now ≡ true }
    requires keys { keys.now ≡ map fact_key facts.now }
    ensures { MatchOption result
        (list_any (λ f. list_any (clash f) facts.now) facts.now ≡ false)
        (IsClash facts.now) }
{
    for (place, fact) in facts.iter().enumerate() {
        if let Some(partner) = partner_of(facts, keys, fact) {
            return Some(Pair { place, partner });
        }
    }
    None
}

/// The first two facts that clash. `None` exactly where no two do.
pub fn first_clash(alloc: Global, facts: &[Fact]) -> Result<Option<Pair>, AllocError>
    requires { list_all (λ f. is_exact 0 f.factors) facts.now ≡ true }
    ensures { IfOk result (λ o. MatchOption o
        (list_any (λ f. list_any (clash f) facts.now) facts.now ≡ false)
        (IsClash facts.now)) }
{
    let keys = keys_of(alloc, facts)?;
    Ok(first_pair(facts, keys.as_slice()))
}
