//! A sum that names few variables.
ghost use Rattle.std.specs.Prelude.{◌≡◌, ℕ, ℤ, pos, ◌+ℤ◌, ◌*ℤ◌, ◌≤ℤ◌, ◌<◌, ◌≤◌, true, IfOk, IfSome, OnOk};
ghost use Rattle.std.specs.Prelude.{Some, cond, neg_ℤ, negsuc, [], ◌∷◌, ◌++◌, MatchBool, length, take, slice_get};
ghost use Rattle.std.specs.Prelude.{slice_set};
ghost use Rattle.std.specs.Int.{int_div_euclid, int_rem_euclid};
ghost use Rattle.std.specs.List.{list_all};
ghost use Rattle.meaning_states.specs.State.{int_eq};
ghost use Rattle.certificate_rules.specs.Additions.{fits_added};
ghost use Rattle.certificate_machine.specs.Terms.{lies_below, rises, number_in, with_term, made_terms, sign};
ghost use Rattle.certificate_machine.specs.Spots.{IsSpot};
ghost use Rattle.smallvec.specs.SmallVec.{HasRoomFor};

use obligations::Factors;
use smallvec::SmallVec;
use std::alloc::{AllocError, Global};

/// A sum of multiples of at most eight variables and a number, all of 64 bits. The places of the variables rise. It
/// takes no memory.
#[derive(Drop)]
pub struct Few {
    terms: SmallVec<(u32, i64), 8>,
    constant: i64,
    ghost rising: { rises terms.items ≡ true },
}

/// m times a number, where that has 32 bits.
#[inline(always)]
fn short_product(m: i32, z: i128) -> Option<i64>
    ensures { IfSome result (λ by. by ≡ m *ℤ z) }
{
    match i32::try_from(z) {
        Ok(short) => Some(m as i64 * short as i64),
        Err(_) => None,
    }
}

/// A number with m times another added, where that has 32 bits and the sum has 64.
#[inline(always)]
#[tactic(auto, using(certificate_rules::proofs::SumLaws::narrow_laws))]
fn short_sum(m: i32, z: i128, sum: i64) -> Option<i64>
    ensures sum { IfSome result (λ total. total ≡ sum +ℤ m *ℤ z) }
    ensures fits { IfSome result (λ total. fits_added m z sum ≡ true) }
{
    let Some(by) = short_product(m, z) else {
        return None;
    };
    sum.checked_add(by)
}

/// Where a place is among terms.
#[derive(Clone, Copy)]
enum Spot {
    /// It is that of this term, which has this number.
    There { at: usize, number: i64 },
    /// It is before that of this term, the first of which this is so.
    Before { at: usize },
    /// It is behind all.
    Last,
}

/// Where a place is among terms.
#[inline(always)]
#[tactic(auto, using(crate::proofs::TermLaws::spot_laws))]
fn find(terms: &[(u32, i64)], place: u32) -> Spot
    ensures { IsSpot terms.now place result }
{
    for at in 0..terms.len() {
        let (there, number) = terms[at];
        if place == there {
            return Spot::There { at, number };
        }
        if place < there {
            return Spot::Before { at };
        }
    }
    Spot::Last
}

/// Whether a number of at least 1 divides the number of a term.
#[inline(always)]
fn is_divided(d: i64, term: &(u32, i64)) -> bool
    requires { pos 1 ≤ℤ d }
    ensures { result ≡ int_eq (int_rem_euclid term.now.1 d) (pos 0) }
{
    term.1.rem_euclid(d) == 0
}

/// A number divided by one of at least 1, and rounded down.
#[inline(always)]
fn quotient(d: i64, z: i64) -> i128
    requires { pos 1 ≤ℤ d }
    ensures { result ≡ int_div_euclid z d }
{
    z.div_euclid(d) as i128
}

/// A number, or with its sign turned.
#[inline(always)]
fn signed(turned: bool, z: i64) -> i128
    ensures { result ≡ sign turned z }
{
    if turned { -(z as i128) } else { z as i128 }
}

/// Adds a factor at its place, where it is not 0.
#[inline(always)]
fn put_factor(place: u32, factor: i128, factors: &mut Factors) -> Result<(), AllocError>
    ensures { OnOk result (factors.new ≡ factors.old ++ made_terms (λ z. z) ((place, factor) ∷ [])) }
{
    if factor == 0 {
        Ok(())
    } else {
        factors.push((place, factor))
    }
}

/// Adds a divided number at its place, where it is not 0.
#[inline(always)]
fn put_part(d: i64, term: &(u32, i64), factors: &mut Factors) -> Result<(), AllocError>
    requires { pos 1 ≤ℤ d }
    ensures { OnOk result (factors.new ≡ factors.old ++ made_terms (λ z. int_div_euclid z d) (term.now ∷ [])) }
{
    put_factor(term.0, quotient(d, term.1), factors)
}

/// Adds a number at its place as it is or with its sign turned, where it is not 0.
#[inline(always)]
fn put_signed(turned: bool, term: &(u32, i64), factors: &mut Factors) -> Result<(), AllocError>
    ensures { OnOk result (factors.new ≡ factors.old ++ made_terms (sign turned) (term.now ∷ [])) }
{
    put_factor(term.0, signed(turned, term.1), factors)
}

impl Few {
    /// The sum 0.
    pub fn new(alloc: Global) -> Few
        ensures terms { result.terms.items ≡ [] }
        ensures constant { result.constant ≡ pos 0 }
    {
        Few {
            terms: SmallVec::new(alloc),
            constant: 0,
        }
    }

    /// Begins again with this number.
    #[inline(always)]
    pub fn restart(&mut self, constant: i64)
        ensures terms { self.new.terms.items ≡ [] }
        ensures constant { self.new.constant ≡ constant }
    {
        self.terms.clear();
        self.constant = constant;
    }

    /// Adds m times a number, where that fits.
    #[inline(always)]
    pub fn add_constant(&mut self, m: i32, z: i128) -> bool
        ensures terms { self.new.terms ≡ self.old.terms }
        ensures added { MatchBool result (self.new.constant ≡ self.old.constant +ℤ m *ℤ z) (self.new ≡ self.old) }
        ensures fits { result ≡ true → fits_added m z self.old.constant ≡ true }
    {
        match short_sum(m, z, self.constant) {
            Some(total) => {
                self.constant = total;
                true
            }
            None => false,
        }
    }

    /// Adds m times a factor at a place, where that fits and there is room.
    #[inline(always)]
    pub fn add_factor(&mut self, m: i32, place: u32, factor: i128) -> bool
        ensures added { MatchBool result
            (self.new.terms.items ≡ with_term self.old.terms.items place (m *ℤ factor)) (self.new ≡ self.old) }
        ensures fits { result ≡ true → fits_added m factor (number_in self.old.terms.items place) ≡ true }
        ensures constant { self.new.constant ≡ self.old.constant }
    {
        match find(self.terms(), place) {
            Spot::There { at, number } => self.change(at, (place, number), m, factor),
            Spot::Last => self.put_last(place, m, factor),
            Spot::Before { at } => self.put_before(at, place, m, factor),
        }
    }

    /// Sets the term there.
    #[inline(always)]
    fn set(&mut self, at: usize, term: (u32, i64))
        requires inside { at < length self.old.terms.items }
        requires rising { rises (slice_set self.old.terms.items at term) ≡ true }
        ensures terms { self.new.terms.items ≡ slice_set self.old.terms.items at term }
        ensures constant { self.new.constant ≡ self.old.constant }
    {
        self.terms.as_mut_slice()[at] = term;
    }

    /// Adds m times a factor to the term that stands there, where that fits.
    #[inline(always)]
    fn change(&mut self, at: usize, term: (u32, i64), m: i32, factor: i128) -> bool
        requires below { list_all (lies_below term.0) (take at self.old.terms.items) ≡ true }
        requires there { slice_get self.old.terms.items at ≡ Some term }
        ensures added { MatchBool result
            (self.new.terms.items ≡ with_term self.old.terms.items term.0 (m *ℤ factor)) (self.new ≡ self.old) }
        ensures fits { result ≡ true → fits_added m factor (number_in self.old.terms.items term.0) ≡ true }
        ensures constant { self.new.constant ≡ self.old.constant }
    {
        match short_sum(m, factor, term.1) {
            Some(total) => {
                self.set(at, (term.0, total));
                true
            }
            None => false,
        }
    }

    /// Puts a term with m times a factor behind the others, where that fits and there is room.
    #[inline(always)]
    fn put_last(&mut self, place: u32, m: i32, factor: i128) -> bool
        requires below { list_all (lies_below place) self.old.terms.items ≡ true }
        ensures added { MatchBool result
            (self.new.terms.items ≡ with_term self.old.terms.items place (m *ℤ factor)) (self.new ≡ self.old) }
        ensures fits { result ≡ true → fits_added m factor (number_in self.old.terms.items place) ≡ true }
        ensures constant { self.new.constant ≡ self.old.constant }
    {
        let Some(by) = short_sum(m, factor, 0) else {
            return false;
        };
        if !self.has_room() {
            return false;
        }
        self.terms.push_reserved((place, by));
        true
    }

    /// Puts a term with m times a factor before another, where that fits and there is room.
    #[cold]
    #[inline(never)]
    fn put_before(&mut self, at: usize, place: u32, m: i32, factor: i128) -> bool
        requires below { list_all (lies_below place) (take at self.old.terms.items) ≡ true }
        requires above { (t : ℕ × ℤ) → slice_get self.old.terms.items at ≡ Some t → place < t.0 }
        requires inside { at < length self.old.terms.items }
        ensures added { MatchBool result
            (self.new.terms.items ≡ with_term self.old.terms.items place (m *ℤ factor)) (self.new ≡ self.old) }
        ensures fits { result ≡ true → fits_added m factor (number_in self.old.terms.items place) ≡ true }
        ensures constant { self.new.constant ≡ self.old.constant }
    {
        let Some(by) = short_sum(m, factor, 0) else {
            return false;
        };
        if !self.has_room() {
            return false;
        }
        match self.terms.insert(at, (place, by)) {
            Ok(()) => true,
            Err(_) => false,
        }
    }

    /// Whether one more term fits into the sum itself.
    #[inline(always)]
    fn has_room(&self) -> bool
        ensures { result ≡ true → HasRoomFor self.now.terms 1 }
    {
        // As many fit as this, or more.
        let _room = self.terms.capacity();
        self.terms.len() < 8
    }

    /// The terms, whose places rise.
    #[inline(always)]
    pub fn terms(&self) -> &[(u32, i64)]
        ensures { result.now ≡ self.now.terms.items }
    {
        self.terms.as_slice()
    }

    /// The number without a variable.
    #[inline(always)]
    pub fn constant(&self) -> i64
        ensures { result ≡ self.now.constant }
    {
        self.constant
    }

    /// Whether all factors are 0.
    #[inline(always)]
    pub fn is_constant(&self) -> bool
        ensures { result ≡ list_all (λ t. int_eq t.1 (pos 0)) self.now.terms.items }
    {
        self.terms().iter().all(|t| t.1 == 0)
    }

    /// Whether a number of at least 1 divides all factors.
    #[inline(always)]
    pub fn is_multiple(&self, d: i64) -> bool
        requires { pos 1 ≤ℤ d }
        ensures { result ≡ list_all (λ t. int_eq (int_rem_euclid t.1 d) (pos 0)) self.now.terms.items }
    {
        self.terms().iter().all(|t| is_divided(d, t))
    }

    /// The factors divided by a number of at least 1 and rounded down, each with its place, where it is not 0.
    #[inline(always)]
    #[tactic(auto, using(crate::proofs::TermLaws::made_laws))]
    pub fn divided_factors(&self, alloc: Global, d: i64) -> Result<Factors, AllocError>
        requires { pos 1 ≤ℤ d }
        ensures { IfOk result (λ f. f ≡ made_terms (λ z. int_div_euclid z d) self.now.terms.items) }
    {
        let mut factors = Factors::new(alloc);
        for term in self.terms() {
            put_part(d, term, &mut factors)?;
        }
        Ok(factors)
    }

    /// The factors as they are or with their signs turned, each with its place, where it is not 0.
    #[tactic(auto, using(crate::proofs::TermLaws::made_laws))]
    pub fn signed_factors(&self, alloc: Global, turned: bool) -> Result<Factors, AllocError>
        ensures { IfOk result (λ f. f ≡ made_terms (sign turned) self.now.terms.items) }
    {
        let mut factors = Factors::new(alloc);
        for term in self.terms() {
            put_signed(turned, term, &mut factors)?;
        }
        Ok(factors)
    }

    /// The number without a variable, of the sum or of what says that the sum is below 0.
    pub fn signed_constant(&self, below: bool) -> i128
        ensures { result ≡ cond below (neg_ℤ self.now.constant +ℤ negsuc 0) self.now.constant }
    {
        if below {
            -(self.constant as i128) - 1
        } else {
            self.constant as i128
        }
    }
}
