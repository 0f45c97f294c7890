//! The running sum of a node's pairs.
ghost use Rattle.std.specs.Prelude.{◌≡◌, ℕ, ℤ, pos, ◌+ℤ◌, ◌*ℤ◌, ◌≤ℤ◌, ◌<◌, ◌^◌, map, cond, true, false};
ghost use Rattle.std.specs.Prelude.{Some, None, Ok, Err, [], ◌∷◌, MatchBool, MatchResult, IfOk, OnOk, length};
ghost use Rattle.std.specs.Int.{int_div_euclid, int_rem_euclid};
ghost use Rattle.std.specs.Option.{option_copied};
ghost use Rattle.std.specs.List.{list_all};
ghost use Rattle.meaning_states.specs.State.{int_eq};
ghost use Rattle.obligations.specs.LinearForms.{line_of_const, fact_of, sparse};
ghost use Rattle.certificate_rules.specs.Additions.{fits_added};
ghost use Rattle.certificate_rules.specs.Sums.{add_factors, add_times, numbered, add_pair, add_variable, is_false};
ghost use Rattle.certificate_rules.specs.Sums.{is_divisible, divided, below_0};
ghost use Rattle.obligations.specs.Load.{in_limit};
ghost use Rattle.certificate_machine.specs.Spans.{are_zero};
ghost use Rattle.certificate_machine.specs.Terms.{lie_within};

use crate::few::Few;
use crate::wide::Wide;
use case_tables::Code;
use certificate_rules::{below_0, quotient};
use obligations::{Fact, Factors, Variable, fact_from};
use std::alloc::{AllocError, Global};

/// A line to which multiples of facts or variables are added. While it names at most eight variables with numbers of
/// 64 bits, these stand in the sum itself; from then on they stand in a line that is kept from one node to the next. So
/// no node takes memory for its sum, and only variables that it names are looked at.
#[derive(Drop)]
pub struct Running {
    few: Few,
    wide: Wide,
    is_few: bool,
    ghost inside: { is_few ≡ true → lie_within (length wide.line.factors) few.terms.items ≡ true },
    ghost unused: { is_few ≡ true → are_zero wide.line.factors ≡ true },
}

/// The fact of this number, counted from 1.
#[inline(always)]
fn fact_at(facts: &[Fact], number: u64) -> Option<&Fact>
    ensures { option_copied result ≡ numbered facts.now number }
{
    if number == 0 {
        None
    } else {
        facts.get(number as usize - 1)
    }
}

impl Running {
    ghost use Rattle.certificate_machine.specs.Sums.{sum_line};

    /// The sum 0 over variables.
    pub fn new(alloc: Global, vs: &[Variable]) -> Result<Running, AllocError>
        ensures { IfOk result (λ r. sum_line r ≡ line_of_const vs.now (pos 0)) }
    {
        Ok(Running {
            few: Few::new(alloc),
            wide: Wide::new(alloc, vs)?,
            is_few: true,
        })
    }

    /// Begins again over variables with this number.
    #[inline(always)]
    pub fn restart(&mut self, vs: &[Variable], constant: i64) -> Result<(), AllocError>
        ensures { OnOk result (sum_line self.new ≡ line_of_const vs.now constant) }
    {
        self.few.restart(constant);
        self.is_few = true;
        self.wide.restart(vs)
    }

    /// Goes on with the line, where the sum stands in itself.
    #[cold]
    #[inline(never)]
    fn spread_out(&mut self)
        ensures line { sum_line self.new ≡ sum_line self.old }
        ensures wide { self.new.is_few ≡ false }
    {
        if self.is_few {
            self.wide.put_all(self.few.terms(), self.few.constant());
            self.is_few = false;
        }
    }

    /// How many variables there are.
    fn places(&self) -> usize
        ensures { result ≡ length (sum_line self.now).factors }
    {
        self.wide.places()
    }

    /// Adds m times a number to that without a variable, where that fits into the sum itself.
    #[inline(always)]
    fn add_few_constant(&mut self, m: i64, z: i128) -> bool
        requires few { self.old.is_few ≡ true }
        ensures added { MatchBool result
            ((sum_line self.new).constant ≡ (sum_line self.old).constant +ℤ m *ℤ z)
            (sum_line self.new ≡ sum_line self.old) }
        ensures fits { result ≡ true → fits_added m z (sum_line self.old).constant ≡ true }
        ensures factors { (sum_line self.new).factors ≡ (sum_line self.old).factors }
    {
        match i32::try_from(m) {
            Ok(short) => self.few.add_constant(short, z),
            Err(_) => false,
        }
    }

    /// Adds m times a factor at a place, where that fits into the sum itself.
    #[inline(always)]
    fn add_few(&mut self, m: i64, place: usize, factor: i128) -> bool
        requires few { self.old.is_few ≡ true }
        ensures added { MatchBool result
            (add_factors m ((place, factor) ∷ []) (sum_line self.old).factors ≡ Some (sum_line self.new).factors)
            (sum_line self.new ≡ sum_line self.old) }
        ensures constant { (sum_line self.new).constant ≡ (sum_line self.old).constant }
    {
        if place >= self.wide.places() {
            return false;
        }
        let Ok(place) = u32::try_from(place) else {
            return false;
        };
        match i32::try_from(m) {
            Ok(short) => self.few.add_factor(short, place, factor),
            Err(_) => false,
        }
    }

    /// Adds m times a number to that without a variable, from now on in the line, unless the product or the sum is too
    /// big.
    #[cold]
    #[inline(never)]
    fn add_wide_constant(&mut self, m: i64, z: i128) -> bool
        ensures added { MatchBool result
            ((sum_line self.new).constant ≡ (sum_line self.old).constant +ℤ m *ℤ z)
            (sum_line self.new ≡ sum_line self.old) }
        ensures fits { result ≡ fits_added m z (sum_line self.old).constant }
        ensures factors { (sum_line self.new).factors ≡ (sum_line self.old).factors }
    {
        self.spread_out();
        self.wide.add_constant(m, z)
    }

    /// Adds m times a factor at a place, from now on in the line, unless the product or the sum is too big.
    #[cold]
    #[inline(never)]
    fn add_wide(&mut self, m: i64, place: usize, factor: i128) -> bool
        ensures added { MatchBool result
            (add_factors m ((place, factor) ∷ []) (sum_line self.old).factors ≡ Some (sum_line self.new).factors)
            (add_factors m ((place, factor) ∷ []) (sum_line self.old).factors ≡ None) }
        ensures constant { (sum_line self.new).constant ≡ (sum_line self.old).constant }
    {
        self.spread_out();
        self.wide.add_at(m, place, factor)
    }

    /// Adds m times a number to that without a variable, unless the product or the sum is too big.
    #[inline(always)]
    fn add_constant(&mut self, m: i64, z: i128) -> bool
        ensures added { MatchBool result
            ((sum_line self.new).constant ≡ (sum_line self.old).constant +ℤ m *ℤ z)
            (sum_line self.new ≡ sum_line self.old) }
        ensures fits { result ≡ fits_added m z (sum_line self.old).constant }
        ensures factors { (sum_line self.new).factors ≡ (sum_line self.old).factors }
    {
        if self.is_few && self.add_few_constant(m, z) {
            return true;
        }
        self.add_wide_constant(m, z)
    }

    /// Adds m times a factor at a place, unless the product or the sum is too big.
    #[inline(always)]
    fn add_at(&mut self, m: i64, place: usize, factor: i128) -> bool
        ensures added { MatchBool result
            (add_factors m ((place, factor) ∷ []) (sum_line self.old).factors ≡ Some (sum_line self.new).factors)
            (add_factors m ((place, factor) ∷ []) (sum_line self.old).factors ≡ None) }
        ensures constant { (sum_line self.new).constant ≡ (sum_line self.old).constant }
    {
        if self.is_few && self.add_few(m, place, factor) {
            return true;
        }
        self.add_wide(m, place, factor)
    }

    /// Adds m times one factor, unless the product or the sum is too big.
    #[inline(always)]
    fn add_one(&mut self, m: i64, f: &(u32, i128)) -> bool
        ensures added { MatchBool result
            (add_factors m (f.now ∷ []) (sum_line self.old).factors ≡ Some (sum_line self.new).factors)
            (add_factors m (f.now ∷ []) (sum_line self.old).factors ≡ None) }
        ensures constant { (sum_line self.new).constant ≡ (sum_line self.old).constant }
    {
        self.add_at(m, f.0 as usize, f.1)
    }

    /// Adds m times each factor, unless a product or a sum is too big.
    #[inline(always)]
    fn add_all(&mut self, m: i64, factors: &[(u32, i128)]) -> bool
        ensures added { MatchBool result
            (add_factors m factors.now (sum_line self.old).factors ≡ Some (sum_line self.new).factors)
            (add_factors m factors.now (sum_line self.old).factors ≡ None) }
        ensures constant { (sum_line self.new).constant ≡ (sum_line self.old).constant }
    {
        for f in factors {
            if !self.add_one(m, f) {
                return false;
            }
        }
        true
    }

    /// Adds m times a fact, unless a number is too big.
    #[inline(always)]
    fn add_fact(&mut self, m: i64, fact: &Fact) -> bool
        ensures { MatchBool result
            (add_times m fact.now (sum_line self.old) ≡ Some (sum_line self.new))
            (add_times m fact.now (sum_line self.old) ≡ None) }
    {
        if !self.add_constant(m, fact.constant) {
            return false;
        }
        if self.add_all(m, fact.factors.as_slice()) {
            true
        } else {
            false
        }
    }

    /// Adds the multiple of a fact that a pair names, or answers the code with which the pair fails.
    #[inline(always)]
    pub fn add_pair(&mut self, facts: &[Fact], pair: (i64, u64)) -> Result<(), Code>
        ensures { MatchResult result
            (λ _. add_pair pair.0 (numbered facts.now pair.1) (sum_line self.old) ≡ Ok (sum_line self.new))
            (λ code. add_pair pair.0 (numbered facts.now pair.1) (sum_line self.old) ≡ Err code) }
    {
        let Some(fact) = fact_at(facts, pair.1) else {
            return Err(Code::NoSuchFact);
        };
        if pair.0 < 0 {
            return Err(Code::BadSum);
        }
        if self.add_fact(pair.0, fact) {
            Ok(())
        } else {
            Err(Code::TooBig)
        }
    }

    /// Adds the multiple of a variable that a pair names, or answers the code with which the pair fails.
    #[inline(never)]
    #[tactic(auto, using(certificate_rules::proofs::SumLaws::variable_laws))]
    pub fn add_variable(&mut self, pair: (i64, u64)) -> Result<(), Code>
        ensures { MatchResult result
            (λ _. add_variable pair.0 pair.1 (sum_line self.old) ≡ Ok (sum_line self.new))
            (λ code. add_variable pair.0 pair.1 (sum_line self.old) ≡ Err code) }
    {
        if pair.1 == 0 || pair.1 as usize > self.places() {
            return Err(Code::NoSuchVariable);
        }
        if self.add_at(pair.0, pair.1 as usize - 1, 1) {
            Ok(())
        } else {
            Err(Code::TooBig)
        }
    }

    /// Whether all factors are 0.
    #[inline(always)]
    fn is_constant(&self) -> bool
        ensures { result ≡ list_all (λ z. int_eq z (pos 0)) (sum_line self.now).factors }
    {
        if self.is_few {
            self.few.is_constant()
        } else {
            self.wide.is_constant()
        }
    }

    /// The number without a variable.
    #[inline(always)]
    fn constant(&self) -> i128
        ensures { result ≡ (sum_line self.now).constant }
    {
        if self.is_few {
            self.few.constant() as i128
        } else {
            self.wide.line().constant
        }
    }

    /// Whether the sum is at least 0 at no values.
    pub fn closes(&self) -> bool
        ensures { result ≡ is_false (sum_line self.now) }
    {
        self.is_constant() && !(0 <= self.constant())
    }

    /// Whether a number of at least 1 divides all factors.
    fn is_multiple(&self, d: i64) -> bool
        requires { pos 1 ≤ℤ d }
        ensures { result ≡ list_all (λ z. int_eq (int_rem_euclid z d) (pos 0)) (sum_line self.now).factors }
    {
        if self.is_few {
            self.few.is_multiple(d)
        } else {
            self.wide.is_multiple(d)
        }
    }

    /// Whether a number is at least 1 and divides all factors.
    pub fn is_divided(&self, d: i64) -> bool
        ensures { result ≡ is_divisible d (sum_line self.now) }
    {
        1 <= d && self.is_multiple(d)
    }

    /// The factors divided by a number of at least 1 and rounded down, each with its place, where it is not 0.
    fn divided_factors(&self, alloc: Global, d: i64) -> Result<Factors, AllocError>
        requires divisor { pos 1 ≤ℤ d }
        requires count { length (sum_line self.now).factors < 2 ^ 32 }
        ensures { IfOk result (λ f. f ≡ sparse 0 (map (λ z. int_div_euclid z d) (sum_line self.now).factors)) }
    {
        if self.is_few {
            self.few.divided_factors(alloc, d)
        } else {
            self.wide.divided_factors(alloc, d)
        }
    }

    /// The sum divided by a number of at least 1 and rounded down, as a fact.
    pub fn rounded(&self, alloc: Global, d: i64) -> Result<Fact, AllocError>
        requires divisor { pos 1 ≤ℤ d }
        requires count { length (sum_line self.now).factors < 2 ^ 32 }
        ensures { IfOk result (λ f. f ≡ fact_of (divided d (sum_line self.now))) }
    {
        Ok(Fact {
            factors: self.divided_factors(alloc, d)?,
            constant: quotient(d, self.constant()),
        })
    }

    /// That the sum is at least 0, or below it, as a fact.
    pub fn statement(&self, alloc: Global, below: bool) -> Result<Fact, AllocError>
        requires count { length (sum_line self.now).factors < 2 ^ 32 }
        requires factors { list_all in_limit (sum_line self.now).factors ≡ true }
        requires constant { in_limit (sum_line self.now).constant ≡ true }
        ensures { IfOk result (λ f. f ≡ fact_of (cond below (below_0 (sum_line self.now)) (sum_line self.now))) }
    {
        if self.is_few {
            Ok(Fact {
                factors: self.few.signed_factors(alloc, below)?,
                constant: self.few.signed_constant(below),
            })
        } else if below {
            fact_from(alloc, &below_0(alloc, self.wide.line())?)
        } else {
            fact_from(alloc, self.wide.line())
        }
    }
}
