//! A sum that may name all variables, with numbers up to the limit.
ghost use Rattle.std.specs.Prelude.{◌≡◌, ℕ, ℤ, pos, ◌+ℤ◌, ◌*ℤ◌, ◌≤ℤ◌, ◌<◌, ◌≤◌, ◌+◌, ◌^◌, map, min, true};
ghost use Rattle.std.specs.Prelude.{Some, None, [], ◌∷◌, MatchBool, IfOk, OnOk, length, take, drop, slice_range};
ghost use Rattle.std.specs.Int.{int_div_euclid, int_rem_euclid};
ghost use Rattle.std.specs.List.{list_all};
ghost use Rattle.meaning_states.specs.State.{int_eq};
ghost use Rattle.core_terms.specs.Values.{number_at};
ghost use Rattle.obligations.specs.LinearForms.{add_at, line_of_const, sparse};
ghost use Rattle.certificate_rules.specs.Additions.{fits_added};
ghost use Rattle.certificate_rules.specs.Sums.{add_factors};
ghost use Rattle.certificate_machine.specs.Spans.{are_zero};
ghost use Rattle.certificate_machine.specs.Terms.{add_terms, lie_within, rises};

use certificate_rules::{add_multiple, added, all_divided, all_zero, parts};
use obligations::{Factors, Line, Variable, zero_line};
use std::alloc::{AllocError, Global};
use unity_base::Seq;

/// A line to which multiples of facts or variables are added. It is kept from one node to the next, so that no node
/// takes memory for its sum, and all its factors are 0 but those from `low` up to `high`, so that only these are
/// looked at.
#[derive(Drop)]
pub struct Wide {
    line: Line,
    low: usize,
    high: usize,
    ghost before: { are_zero (take low line.factors) ≡ true },
    ghost behind: { are_zero (drop high line.factors) ≡ true },
    ghost inside: { high ≤ length line.factors },
}

/// Makes the factors of a span 0, outside of which they are.
fn clear(low: usize, high: usize, factors: &mut Seq<i128>)
    requires before { are_zero (take low factors.old) ≡ true }
    requires behind { are_zero (drop high factors.old) ≡ true }
    requires inside { high ≤ length factors.old }
    ensures zero { are_zero factors.new ≡ true }
{
    for place in low..high {
        let _ = factors.replace(place, 0);
    }
}

/// Makes zeros as many as this.
#[inline(always)]
fn resize(places: usize, factors: &mut Seq<i128>) -> Result<(), AllocError>
    requires zero { are_zero factors.old ≡ true }
    ensures zero { are_zero factors.new ≡ true }
    ensures places { OnOk result (length factors.new ≡ places) }
{
    if factors.len() == places {
        return Ok(());
    }
    factors.truncate(places);
    for place in factors.len()..places {
        factors.push(0)?;
    }
    Ok(())
}

impl Wide {
    ghost use Rattle.certificate_machine.specs.Sums.{wide_line};

    /// The sum 0 over variables.
    pub fn new(alloc: Global, vs: &[Variable]) -> Result<Wide, AllocError>
        ensures { IfOk result (λ r. wide_line r ≡ line_of_const vs.now (pos 0)) }
    {
        let line = zero_line(alloc, vs)?;
        Ok(Wide {
            line,
            low: usize::MAX,
            high: 0,
        })
    }

    /// Begins again over variables, with 0.
    #[inline(always)]
    pub fn restart(&mut self, vs: &[Variable]) -> Result<(), AllocError>
        ensures zero { are_zero (wide_line self.new).factors ≡ true }
        ensures places { OnOk result (length (wide_line self.new).factors ≡ length vs.now) }
    {
        clear(self.low, self.high, &mut self.line.factors);
        self.low = usize::MAX;
        self.high = 0;
        resize(vs.len(), &mut self.line.factors)
    }

    /// Takes a place into the span, where there is one.
    #[inline(always)]
    fn widen(&mut self, place: usize)
        ensures line { wide_line self.new ≡ wide_line self.old }
        ensures inside { place < length (wide_line self.new).factors →
            (self.new.low ≤ place) × (place < self.new.high) }
    {
        if place < self.line.factors.len() {
            self.low = self.low.min(place);
            self.high = self.high.max(place + 1);
        }
    }

    /// Adds m times a factor at a place, unless the product or the sum is too big.
    pub fn add_at(&mut self, m: i64, place: usize, factor: i128) -> bool
        ensures added { MatchBool result
            (add_factors m ((place, factor) ∷ []) (wide_line self.old).factors ≡ Some (wide_line self.new).factors)
            (add_factors m ((place, factor) ∷ []) (wide_line self.old).factors ≡ None) }
        ensures constant { (wide_line self.new).constant ≡ (wide_line self.old).constant }
    {
        self.widen(place);
        add_multiple(m, place, factor, &mut self.line.factors)
    }

    /// Adds m times a number to that without a variable, unless the product or the sum is too big.
    pub fn add_constant(&mut self, m: i64, z: i128) -> bool
        ensures added { MatchBool result
            ((wide_line self.new).constant ≡ (wide_line self.old).constant +ℤ m *ℤ z) (self.new ≡ self.old) }
        ensures fits { result ≡ fits_added m z (wide_line self.old).constant }
        ensures factors { (wide_line self.new).factors ≡ (wide_line self.old).factors }
    {
        let Some(added) = added(m, z, self.line.constant) else {
            return false;
        };
        self.line.constant = added.total;
        true
    }

    /// Puts a term where its place has 0.
    #[tactic(auto, using(crate::proofs::TermLaws::there_laws))]
    fn put(&mut self, term: &(u32, i64))
        requires inside { term.now.0 < length (wide_line self.old).factors }
        requires none { number_at (wide_line self.old).factors term.now.0 ≡ pos 0 }
        ensures factors { (wide_line self.new).factors ≡ add_at (wide_line self.old).factors term.now.0 term.now.1 }
        ensures constant { (wide_line self.new).constant ≡ (wide_line self.old).constant }
    {
        let place = term.0 as usize;
        self.widen(place);
        let _ = self.line.factors.replace(place, term.1 as i128);
    }

    /// Puts terms and a number where all is 0.
    pub fn put_all(&mut self, terms: &[(u32, i64)], constant: i64)
        requires zero { are_zero (wide_line self.old).factors ≡ true }
        requires inside { lie_within (length (wide_line self.old).factors) terms.now ≡ true }
        requires rising { rises terms.now ≡ true }
        ensures factors { (wide_line self.new).factors ≡ add_terms terms.now (wide_line self.old).factors }
        ensures constant { (wide_line self.new).constant ≡ constant }
    {
        self.line.constant = constant as i128;
        for term in terms {
            self.put(term);
        }
    }

    /// How many variables there are.
    #[inline(always)]
    pub fn places(&self) -> usize
        ensures { result ≡ length (wide_line self.now).factors }
    {
        self.line.factors.len()
    }

    /// The first place of the span.
    fn first(&self) -> usize
        ensures { result ≡ min self.now.low self.now.high }
    {
        self.low.min(self.high)
    }

    /// The factors in the span.
    fn span(&self) -> &[i128]
        ensures { result.now ≡ slice_range (wide_line self.now).factors (min self.now.low self.now.high) self.now.high }
    {
        &self.line.factors.as_slice()[self.first()..self.high]
    }

    /// Whether all factors are 0.
    pub fn is_constant(&self) -> bool
        ensures { result ≡ list_all (λ z. int_eq z (pos 0)) (wide_line self.now).factors }
    {
        all_zero(self.span())
    }

    /// Whether a number of at least 1 divides all factors.
    pub fn is_multiple(&self, d: i64) -> bool
        requires { pos 1 ≤ℤ d }
        ensures { result ≡ list_all (λ z. int_eq (int_rem_euclid z d) (pos 0)) (wide_line self.now).factors }
    {
        all_divided(d, self.span())
    }

    /// The factors divided by a number of at least 1 and rounded down, each with its place, where it is not 0.
    pub fn divided_factors(&self, alloc: Global, d: i64) -> Result<Factors, AllocError>
        requires divisor { pos 1 ≤ℤ d }
        requires count { length (wide_line self.now).factors < 2 ^ 32 }
        ensures { IfOk result (λ f. f ≡ sparse 0 (map (λ z. int_div_euclid z d) (wide_line self.now).factors)) }
    {
        parts(alloc, d, self.first(), self.span())
    }

    /// The sum as a line.
    pub fn line(&self) -> &Line
        ensures { result.now ≡ wide_line self.now }
    {
        &self.line
    }
}
