//! All formulas, facts and sums that a search speaks of, each with a number, and equal ones with the same.
use crate::hashes::{Hashes, no_hashes};
use crate::lists::{Span, append, at, items_in, put};
use crate::quotients::Divided;
use crate::stop::Stop;
use crate::sums::{Factor, Multiple};
use crate::triangles::Triangle;
use std::alloc::{AllocError, Global};
use unity_base::Seq;

/// What is said of a sum.
#[derive(Clone, Copy, PartialEq, Eq)]
pub enum Relation {
    /// It is at least 0.
    AtLeast,
    /// It is 0.
    Zero,
    /// It is not 0.
    Unequal,
}

/// A formula without negations, by what it adds where it is settled: the last three wait.
#[derive(Clone, Copy, PartialEq, Eq)]
pub enum Form {
    /// It adds nothing.
    True,
    /// It adds a fact that is false.
    False,
    /// It adds what two formulas add, the first before the second.
    Both(usize, usize),
    /// It adds a fact.
    Fact(usize),
    /// The facts that a sum is at least 0, and that its negative is.
    Equal(usize, usize),
    /// One of two formulas holds.
    Either(usize, usize),
    /// A relation of a sum with an `Ite`.
    Choice(Relation, usize),
    /// A relation of a sum with a quotient and no `Ite`.
    Quotient(Relation, usize),
}

/// A part of a sum that is not linear.
#[derive(Clone, Copy, PartialEq, Eq)]
pub enum Part {
    /// One of two sums: the first where the first formula holds, the second where the second does, its negation.
    Choice {
        /// The condition's number.
        yes: usize,
        /// The number of its negation.
        no: usize,
        /// The number of the sum where it holds.
        first: usize,
        /// The number of the sum where it does not.
        second: usize,
    },
    /// A sum divided by a number and rounded down, or what the division leaves.
    Quotient {
        /// The number of the sum that is divided.
        of: usize,
        /// The divisor, at least 1.
        divisor: i64,
        /// Whether it is what the division leaves.
        rest: bool,
    },
}

/// A sum that is kept.
#[derive(Clone, Copy)]
pub struct Term {
    /// Where its factors stand.
    pub factors: Span,
    /// Where the multiples of its parts stand.
    pub parts: Span,
    /// The number that stands alone.
    pub constant: i64,
    /// Whether it has an `Ite`, in its quotients too.
    pub has_choice: bool,
    /// Whether it has a quotient outside of one.
    pub has_quotient: bool,
    /// Its variables, with those of its parts.
    pub mask: u64,
}

/// Factors of more than one variable without a common divisor, the first of them positive; or one variable.
#[derive(Clone, Copy)]
pub struct Line {
    /// Where its factors stand.
    pub factors: Span,
    /// Whether it is one variable.
    pub single: bool,
}

/// That a multiple of a line and a constant are at least 0. A way is a line with a direction: of line n the number
/// 2n stands for itself, and 2n + 1 for its negative.
#[derive(Clone, Copy)]
pub struct Fact {
    /// None for a constant alone.
    pub way: Option<usize>,
    /// How often the way counts, at least 1.
    pub divisor: i64,
    /// The number that stands alone.
    pub constant: i64,
    /// The least whole number that the way can be.
    pub bound: i64,
    /// Whether nothing was rounded.
    pub tight: bool,
    /// Its variables.
    pub mask: u64,
}

/// A line in which a variable occurs, and the next one.
#[derive(Clone, Copy)]
pub struct Link {
    /// The line's number.
    pub line: usize,
    /// The number of the next link of the same variable.
    pub next: Option<usize>,
}

/// What a formula with a quotient becomes: the variable that stands for the quotient, the two facts that fix it, and
/// the formula without it.
#[derive(Clone, Copy)]
pub struct Opened {
    /// The divisor, at least 1.
    pub divisor: i64,
    /// The number of the variable that stands for the quotient.
    pub variable: usize,
    /// The number of the fact that the sum is at least the divisor times the variable.
    pub low: usize,
    /// The number of the fact that it is less than that and the divisor.
    pub high: usize,
    /// The number of the formula without the quotient.
    pub rest: usize,
}

/// All of them.
#[derive(Drop)]
pub struct Table {
    /// Where the lists lie.
    pub alloc: Global,
    /// The factors of all sums and lines.
    pub(crate) factors: Seq<Factor>,
    /// The multiples of parts of all sums.
    pub(crate) multiples: Seq<Multiple>,
    pub(crate) lines: Seq<Line>,
    pub(crate) facts: Seq<Fact>,
    pub(crate) terms: Seq<Term>,
    pub(crate) parts: Seq<Part>,
    pub(crate) forms: Seq<Form>,
    /// The variables of each formula.
    pub(crate) masks: Seq<u64>,
    /// What each formula with an `Ite` or a quotient became, where it was opened.
    pub(crate) sides: Seq<Option<(usize, usize)>>,
    pub(crate) opened: Seq<Option<Opened>>,
    pub(crate) line_hashes: Hashes,
    pub(crate) fact_hashes: Hashes,
    pub(crate) term_hashes: Hashes,
    pub(crate) form_hashes: Hashes,
    pub(crate) part_hashes: Hashes,
    /// The quotients that have a variable.
    pub(crate) divided: Seq<Divided>,
    pub(crate) divided_hashes: Hashes,
    /// The first link of each line that is a variable.
    pub(crate) heads: Seq<Option<usize>>,
    pub(crate) links: Seq<Link>,
    /// The first triangle of each line.
    pub(crate) corners: Seq<Option<usize>>,
    pub(crate) triangles: Seq<Triangle>,
    /// Variables that copy those of quotients, by how many quotients were taken before.
    pub(crate) added: Seq<usize>,
}

/// The way against this one.
pub fn opposite(way: usize) -> usize {
    way ^ 1
}

/// The way of a line, or against it.
pub fn way_of(line: usize, against: bool) -> usize {
    line.wrapping_mul(2) | usize::from(against)
}

/// The line of a way.
pub fn line_of(way: usize) -> usize {
    way / 2
}

/// Whether a way is against its line.
pub fn is_against(way: usize) -> bool {
    way % 2 == 1
}

/// A table over so many variables, whose numbers are those of their lines. An error where memory is refused.
pub fn new_table(alloc: Global, count: usize) -> Result<Table, Stop> {
    let mut table = Table {
        alloc,
        factors: Seq::new(alloc),
        multiples: Seq::new(alloc),
        lines: Seq::new(alloc),
        facts: Seq::new(alloc),
        terms: Seq::new(alloc),
        parts: Seq::new(alloc),
        forms: Seq::new(alloc),
        masks: Seq::new(alloc),
        sides: Seq::new(alloc),
        opened: Seq::new(alloc),
        line_hashes: no_hashes(alloc),
        fact_hashes: no_hashes(alloc),
        term_hashes: no_hashes(alloc),
        form_hashes: no_hashes(alloc),
        part_hashes: no_hashes(alloc),
        divided: Seq::new(alloc),
        divided_hashes: no_hashes(alloc),
        heads: Seq::new(alloc),
        links: Seq::new(alloc),
        corners: Seq::new(alloc),
        triangles: Seq::new(alloc),
        added: Seq::new(alloc),
    };
    for _ in 0..count {
        table.new_variable()?;
    }
    Ok(table)
}

impl Table {
    /// The number of a new variable. An error where memory is refused.
    pub fn new_variable(&mut self) -> Result<usize, Stop> {
        let number = self.lines.len();
        let itself = Factor {
            variable: number,
            times: 1,
        };
        let factors = append(&mut self.factors, &[itself])?;
        self.add_line(Line {
            factors,
            single: true,
        })?;
        Ok(number)
    }

    /// Adds a line, of which nothing else is known yet. An error where memory is refused.
    pub fn add_line(&mut self, line: Line) -> Result<(), AllocError> {
        self.lines.push(line)?;
        self.corners.push(None)?;
        self.heads.push(None)
    }

    /// The variable that copies that of a quotient before which so many were taken: the same each time. An error where
    /// memory is refused.
    pub fn added_variable(&mut self, taken: usize) -> Result<usize, Stop> {
        match self.added.get(taken) {
            Some(variable) => Ok(*variable),
            None => {
                let variable = self.new_variable()?;
                self.added.push(variable)?;
                Ok(variable)
            }
        }
    }

    /// How many lines there are.
    pub fn count_lines(&self) -> usize {
        self.lines.len()
    }

    /// How many triangles there are.
    pub fn count_triangles(&self) -> usize {
        self.triangles.len()
    }

    /// The variables of a formula, as a mask; all where there is no such formula.
    pub fn mask(&self, form: usize) -> u64 {
        match self.masks.get(form) {
            Some(mask) => *mask,
            None => u64::MAX,
        }
    }

    /// How many formulas there are.
    pub fn count_forms(&self) -> usize {
        self.forms.len()
    }

    /// The factors of a line; none where there is no such line.
    pub fn line_factors(&self, line: usize) -> &[Factor] {
        match self.lines.get(line) {
            Some(found) => items_in(&self.factors, found.factors),
            None => &[],
        }
    }

    /// Whether a line is one variable.
    pub fn is_single(&self, line: usize) -> bool {
        match self.lines.get(line) {
            Some(found) => found.single,
            None => false,
        }
    }

    /// The first link to a line of several variables in which a variable occurs.
    pub fn first_link(&self, variable: usize) -> Option<usize> {
        match self.heads.get(variable) {
            Some(head) => *head,
            None => None,
        }
    }

    /// The link of a number.
    pub fn link(&self, number: usize) -> Option<Link> {
        self.links.get(number).copied()
    }

    /// The fact of a number. `Odd` where there is none.
    pub fn fact(&self, number: usize) -> Result<Fact, Stop> {
        at(&self.facts, number)
    }

    /// The formula of a number. `Odd` where there is none.
    pub fn form(&self, number: usize) -> Result<Form, Stop> {
        at(&self.forms, number)
    }

    /// The sum of a number. `Odd` where there is none.
    pub fn term(&self, number: usize) -> Result<Term, Stop> {
        at(&self.terms, number)
    }

    /// The part of a number. `Odd` where there is none.
    pub fn part(&self, number: usize) -> Result<Part, Stop> {
        at(&self.parts, number)
    }

    /// The factors of a sum.
    pub fn term_factors(&self, term: Term) -> &[Factor] {
        items_in(&self.factors, term.factors)
    }

    /// The multiples of parts of a sum.
    pub fn term_parts(&self, term: Term) -> &[Multiple] {
        items_in(&self.multiples, term.parts)
    }

    /// The two sides that a formula with an `Ite` became, where it was opened.
    pub fn known_sides(&self, form: usize) -> Option<(usize, usize)> {
        match self.sides.get(form) {
            Some(sides) => *sides,
            None => None,
        }
    }

    /// The two sides of a formula that was opened. `Odd` where it was not.
    pub fn sides(&self, form: usize) -> Result<(usize, usize), Stop> {
        match self.form(form)? {
            Form::Either(a, b) => Ok((a, b)),
            _ => self.known_sides(form).ok_or(Stop::Odd),
        }
    }

    /// Keeps the two sides that a formula with an `Ite` became.
    pub fn keep_sides(&mut self, form: usize, sides: (usize, usize)) {
        put(&mut self.sides, form, Some(sides));
    }

    /// What a formula with a quotient became, where it was opened.
    pub fn known_opened(&self, form: usize) -> Option<Opened> {
        match self.opened.get(form) {
            Some(opened) => *opened,
            None => None,
        }
    }

    /// Keeps what a formula with a quotient became.
    pub fn keep_opened(&mut self, form: usize, opened: Opened) {
        put(&mut self.opened, form, Some(opened));
    }
}
