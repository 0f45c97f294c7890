//! Numbers for formulas, facts and sums: equal ones get the same.
use crate::hashes::{Probe, mixed};
use crate::lists::{append, common_divisor, minus, put};
use crate::masks::{NONE, mask_of_factors};
use crate::stop::Stop;
use crate::sums::{Factor, Multiple, Sum, no_sum};
use crate::table::{Fact, Form, Line, Link, Part, Relation, Table, Term, way_of};
use std::alloc::Global;
use unity_base::Seq;

/// The hash of factors that follow others.
fn hash_of_factors(hash: u64, factors: &[Factor]) -> u64 {
    let mut mix = hash;
    for factor in factors {
        mix = mixed(
            mixed(mix, factor.variable as u64),
            factor.times.cast_unsigned(),
        );
    }
    mix
}

/// The hash of multiples of parts that follow others.
fn hash_of_multiples(hash: u64, multiples: &[Multiple]) -> u64 {
    let mut mix = hash;
    for multiple in multiples {
        mix = mixed(
            mixed(mix, multiple.part as u64),
            multiple.times.cast_unsigned(),
        );
    }
    mix
}

/// The hash of a kind and two numbers.
fn hash_of_three(kind: u64, one: usize, other: usize) -> u64 {
    mixed(mixed(mixed(1, kind), one as u64), other as u64)
}

/// The number by which a relation counts in a hash.
fn number_of(relation: Relation) -> u64 {
    match relation {
        Relation::AtLeast => 0,
        Relation::Zero => 1,
        Relation::Unequal => 2,
    }
}

/// The hash of a formula.
fn hash_of_form(form: Form) -> u64 {
    match form {
        Form::True => hash_of_three(0, 0, 0),
        Form::False => hash_of_three(1, 0, 0),
        Form::Both(a, b) => hash_of_three(2, a, b),
        Form::Fact(a) => hash_of_three(3, a, 0),
        Form::Equal(a, b) => hash_of_three(4, a, b),
        Form::Either(a, b) => hash_of_three(5, a, b),
        Form::Choice(relation, a) => mixed(hash_of_three(6, a, 0), number_of(relation)),
        Form::Quotient(relation, a) => mixed(hash_of_three(7, a, 0), number_of(relation)),
    }
}

/// The hash of a quotient, or of what the division leaves.
fn hash_of_quotient(of: usize, divisor: i64, rest: bool) -> u64 {
    mixed(
        hash_of_three(8, of, usize::from(rest)),
        divisor.cast_unsigned(),
    )
}

/// The greatest number that divides all factors.
fn divisor_of(factors: &[Factor]) -> u64 {
    let mut divisor = 0;
    for factor in factors {
        if divisor != 1 {
            divisor = common_divisor(factor.times.unsigned_abs(), divisor);
        }
    }
    divisor
}

/// The factors divided by a number.
fn divided(alloc: Global, factors: &[Factor], by: i64) -> Result<Seq<Factor>, Stop> {
    let mut quotients = Seq::new(alloc);
    for factor in factors {
        quotients.push(Factor {
            variable: factor.variable,
            times: factor.times.checked_div(by).ok_or(Stop::Odd)?,
        })?;
    }
    Ok(quotients)
}

/// A fact of a way, with a positive divisor.
fn bounded(way: usize, divisor: i64, constant: i64) -> Option<Fact> {
    let floor = constant.checked_div_euclid(divisor)?;
    Some(Fact {
        way: Some(way),
        divisor,
        constant,
        bound: floor.checked_neg()?,
        tight: constant.checked_rem_euclid(divisor)? == 0,
        mask: NONE,
    })
}

impl Table {
    /// The number of a formula, which is added where it is new. `Odd` where it names what there is not.
    pub fn number_form(&mut self, form: Form) -> Result<usize, Stop> {
        let hash = hash_of_form(form);
        for step in 0..self.form_hashes.len() {
            match self.form_hashes.probe(hash, step) {
                Probe::Empty => break,
                Probe::Other => {}
                Probe::Number(number) => {
                    if self.form(number)? == form {
                        return Ok(number);
                    }
                }
            }
        }
        let number = self.forms.len();
        let mask = self.mask_of_form(form)?;
        self.forms.push(form)?;
        self.masks.push(mask)?;
        self.sides.push(None)?;
        self.opened.push(None)?;
        self.form_hashes.add(self.alloc, hash, number)?;
        Ok(number)
    }

    /// The number of the fact that -1 is at least 0.
    pub fn false_fact(&mut self) -> Result<usize, Stop> {
        let mut sum = no_sum(self.alloc);
        sum.add_number(-1)?;
        self.number_fact(&sum)
    }

    /// The number of the fact that a variable is at least a number. `Odd` where that has no negative of 64 bits.
    pub fn low_bound(&mut self, variable: usize, bound: i64) -> Result<usize, Stop> {
        let mut sum = no_sum(self.alloc);
        sum.add_factor(variable, 1)?;
        sum.add_number(minus(bound)?)?;
        self.number_fact(&sum)
    }

    /// The number of the fact that a variable is at most a number.
    pub fn high_bound(&mut self, variable: usize, bound: i64) -> Result<usize, Stop> {
        let mut sum = no_sum(self.alloc);
        sum.add_factor(variable, -1)?;
        sum.add_number(bound)?;
        self.number_fact(&sum)
    }

    /// The variables of a part, with that which stands for a quotient.
    fn mask_of_part(&self, number: usize) -> Result<u64, Stop> {
        match self.part(number)? {
            Part::Quotient { of, divisor, .. } => {
                Ok(self.term(of)?.mask | self.mask_of_quotient(of, divisor))
            }
            Part::Choice {
                yes,
                no,
                first,
                second,
            } => {
                let terms = self.term(first)?.mask | self.term(second)?.mask;
                Ok(self.mask(yes) | self.mask(no) | terms)
            }
        }
    }

    /// The variables of a new formula.
    fn mask_of_form(&self, form: Form) -> Result<u64, Stop> {
        match form {
            Form::True => Ok(NONE),
            Form::False => Ok(NONE),
            Form::Both(a, b) => Ok(self.mask(a) | self.mask(b)),
            Form::Either(a, b) => Ok(self.mask(a) | self.mask(b)),
            Form::Fact(a) => Ok(self.fact(a)?.mask),
            Form::Equal(a, b) => Ok(self.fact(a)?.mask | self.fact(b)?.mask),
            Form::Choice(_, term) => Ok(self.term(term)?.mask),
            Form::Quotient(_, term) => Ok(self.term(term)?.mask),
        }
    }

    /// The number of a quotient, where it has one.
    fn known_part(&self, hash: u64, part: Part) -> Result<Option<usize>, Stop> {
        for step in 0..self.part_hashes.len() {
            match self.part_hashes.probe(hash, step) {
                Probe::Empty => break,
                Probe::Other => {}
                Probe::Number(number) => {
                    if self.part(number)? == part {
                        return Ok(Some(number));
                    }
                }
            }
        }
        Ok(None)
    }

    /// The number of a part, which is added where it is new. An `Ite` is new each time.
    pub fn number_part(&mut self, part: Part) -> Result<usize, Stop> {
        let number = self.parts.len();
        if let Part::Quotient { of, divisor, rest } = part {
            let hash = hash_of_quotient(of, divisor, rest);
            if let Some(known) = self.known_part(hash, part)? {
                return Ok(known);
            }
            self.part_hashes.add(self.alloc, hash, number)?;
            self.name_quotient(of, divisor)?;
        }
        self.parts.push(part)?;
        Ok(number)
    }

    /// Whether a part has an `Ite`, and whether it has a quotient outside of one.
    fn marks_of(&self, number: usize) -> Result<(bool, bool), Stop> {
        match self.part(number)? {
            Part::Choice { .. } => Ok((true, false)),
            Part::Quotient { of, .. } => Ok((self.term(of)?.has_choice, true)),
        }
    }

    /// Whether a sum has an `Ite`, and whether it has a quotient outside of one.
    pub fn marks(&self, parts: &[Multiple]) -> Result<(bool, bool), Stop> {
        let mut has_choice = false;
        let mut has_quotient = false;
        for multiple in parts {
            let marks = self.marks_of(multiple.part)?;
            has_choice = has_choice || marks.0;
            has_quotient = has_quotient || marks.1;
        }
        Ok((has_choice, has_quotient))
    }

    /// Whether this is the number of a sum.
    fn is_term(&self, number: usize, sum: &Sum) -> Result<bool, Stop> {
        let term = self.term(number)?;
        Ok(
            term.constant == sum.constant
                && self.term_factors(term) == sum.factors.as_slice()
                && self.term_parts(term) == sum.parts.as_slice(),
        )
    }

    /// The number of a sum, which is added where it is new. `Odd` where it names what there is not.
    pub fn number_term(&mut self, sum: &Sum) -> Result<usize, Stop> {
        let start = mixed(2, sum.constant.cast_unsigned());
        let hash = hash_of_multiples(
            hash_of_factors(start, sum.factors.as_slice()),
            sum.parts.as_slice(),
        );
        for step in 0..self.term_hashes.len() {
            match self.term_hashes.probe(hash, step) {
                Probe::Empty => break,
                Probe::Other => {}
                Probe::Number(number) => {
                    if self.is_term(number, sum)? {
                        return Ok(number);
                    }
                }
            }
        }
        let number = self.terms.len();
        self.add_term(sum)?;
        self.term_hashes.add(self.alloc, hash, number)?;
        Ok(number)
    }

    /// Adds a sum.
    fn add_term(&mut self, sum: &Sum) -> Result<(), Stop> {
        let (has_choice, has_quotient) = self.marks(sum.parts.as_slice())?;
        let mut mask = mask_of_factors(sum.factors.as_slice());
        for multiple in sum.parts.as_slice() {
            mask |= self.mask_of_part(multiple.part)?;
        }
        let factors = append(&mut self.factors, sum.factors.as_slice())?;
        let parts = append(&mut self.multiples, sum.parts.as_slice())?;
        self.terms.push(Term {
            factors,
            parts,
            constant: sum.constant,
            has_choice,
            has_quotient,
            mask,
        })?;
        Ok(())
    }

    /// The number of a line with these factors of several variables, where there is such a line.
    pub fn known_line(&self, factors: &[Factor]) -> Option<usize> {
        let hash = hash_of_factors(3, factors);
        for step in 0..self.line_hashes.len() {
            match self.line_hashes.probe(hash, step) {
                Probe::Empty => return None,
                Probe::Other => {}
                Probe::Number(number) => {
                    if self.line_factors(number) == factors {
                        return Some(number);
                    }
                }
            }
        }
        None
    }

    /// The number of a line with these factors.
    fn number_line(&mut self, factors: &[Factor]) -> Result<usize, Stop> {
        if let [factor] = factors {
            return Ok(factor.variable);
        }
        if let Some(number) = self.known_line(factors) {
            return Ok(number);
        }
        let number = self.lines.len();
        let span = append(&mut self.factors, factors)?;
        self.add_line(Line {
            factors: span,
            single: false,
        })?;
        self.add_links(number, factors)?;
        self.line_hashes
            .add(self.alloc, hash_of_factors(3, factors), number)?;
        self.add_triangles(number)?;
        Ok(number)
    }

    /// Says of each variable of a line that it occurs in it.
    fn add_links(&mut self, line: usize, factors: &[Factor]) -> Result<(), Stop> {
        for factor in factors {
            let number = self.links.len();
            let next = self.first_link(factor.variable);
            self.links.push(Link { line, next })?;
            put(&mut self.heads, factor.variable, Some(number));
        }
        Ok(())
    }

    /// The fact that a linear sum is at least 0.
    fn fact_of(&mut self, sum: &Sum) -> Result<Fact, Stop> {
        let factors = sum.factors.as_slice();
        match factors.first() {
            None => Ok(Fact {
                way: None,
                divisor: 1,
                constant: sum.constant,
                bound: 0,
                tight: true,
                mask: NONE,
            }),
            Some(first) => {
                let against = first.times < 0;
                let divisor = i64::try_from(divisor_of(factors)).map_err(|_| Stop::Odd)?;
                let by = if against {
                    divisor.wrapping_neg()
                } else {
                    divisor
                };
                let line = self.number_line(divided(self.alloc, factors, by)?.as_slice())?;
                let fact = bounded(way_of(line, against), divisor, sum.constant).ok_or(Stop::Odd)?;
                Ok(Fact {
                    mask: mask_of_factors(factors),
                    ..fact
                })
            }
        }
    }

    /// Whether two facts are the same.
    fn is_fact(&self, number: usize, fact: Fact) -> Result<bool, Stop> {
        let other = self.fact(number)?;
        Ok(
            other.way == fact.way
                && other.divisor == fact.divisor
                && other.constant == fact.constant,
        )
    }

    /// The number of the fact that a linear sum is at least 0, which is added where it is new. `Odd` where a number has
    /// more than 64 bits.
    pub fn number_fact(&mut self, sum: &Sum) -> Result<usize, Stop> {
        let fact = self.fact_of(sum)?;
        let way = fact.way.unwrap_or(usize::MAX);
        let hash = mixed(
            mixed(mixed(4, way as u64), fact.divisor.cast_unsigned()),
            fact.constant.cast_unsigned(),
        );
        for step in 0..self.fact_hashes.len() {
            match self.fact_hashes.probe(hash, step) {
                Probe::Empty => break,
                Probe::Other => {}
                Probe::Number(number) => {
                    if self.is_fact(number, fact)? {
                        return Ok(number);
                    }
                }
            }
        }
        let number = self.facts.len();
        self.facts.push(fact)?;
        self.fact_hashes.add(self.alloc, hash, number)?;
        Ok(number)
    }
}
