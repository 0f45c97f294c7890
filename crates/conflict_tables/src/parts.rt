//! What is known of the parts of a formula while it is gone down. It stands in lists, and not in the frames of the
//! calls that go down: so the deepest formula is within a small stack.
use crate::lists::times;
use crate::places::place_of;
use crate::relating::relate;
use crate::stop::Stop;
use crate::sums::{Sum, copy_of, no_sum};
use crate::table::{Form, Part, Relation, Table};
use core_terms::Joining;
use obligations::Variable;
use std::alloc::Global;
use std::mem;
use unity_base::Seq;

/// The numbers of a formula and of its negation.
#[derive(Clone, Copy)]
pub struct Pair {
    /// The formula's number.
    pub yes: usize,
    /// The number of its negation.
    pub no: usize,
}

/// What is known of the parts of a formula over some variables.
#[derive(Drop)]
pub struct Parts<'a> {
    variables: &'a [Variable],
    /// The sum that terms are added to.
    sum: Sum,
    /// The sums that are gone on with once that one is done, the next one last.
    waiting: Seq<Sum>,
    /// The numbers of terms that are done.
    terms: Seq<usize>,
    /// Formulas that are done.
    pairs: Seq<Pair>,
}

impl<'a> Parts<'a> {
    /// Nothing is known yet of the parts of a formula over these variables.
    pub fn new(alloc: Global, variables: &'a [Variable]) -> Parts<'a> {
        Parts {
            variables,
            sum: no_sum(alloc),
            waiting: Seq::new(alloc),
            terms: Seq::new(alloc),
            pairs: Seq::new(alloc),
        }
    }

    /// Begins a sum. An error where memory is refused.
    #[inline(never)]
    pub fn begin_sum(&mut self, alloc: Global) -> Result<(), Stop> {
        let sum = mem::replace(&mut self.sum, no_sum(alloc));
        self.waiting.push(sum)?;
        Ok(())
    }

    /// The sum that was begun last, which ends.
    fn end_sum(&mut self) -> Result<Sum, Stop> {
        match self.waiting.pop() {
            Some(before) => Ok(mem::replace(&mut self.sum, before)),
            None => Err(Stop::Odd),
        }
    }

    /// Adds a multiple of a number to the sum.
    #[inline(never)]
    pub fn add_number(&mut self, number: i64, by: i64) -> Result<(), Stop> {
        self.sum.add_number(times(by, number)?)
    }

    /// Adds a multiple of a slot or a parameter to the sum.
    #[inline(never)]
    pub fn add_variable(&mut self, param: bool, number: u32, by: i64) -> Result<(), Stop> {
        let place = place_of(self.variables, param, number)?;
        self.sum.add_factor(place, by)
    }

    /// Ends the sum, and adds to the one before a multiple of its quotient, or of what the division leaves.
    #[inline(never)]
    pub fn add_quotient(
        &mut self,
        divisor: i64,
        rest: bool,
        by: i64,
        table: &mut Table,
    ) -> Result<(), Stop> {
        let divided = self.end_sum()?;
        let of = table.number_term(&divided)?;
        let part = table.number_part(Part::Quotient {
            of,
            divisor: divisor.max(1),
            rest,
        })?;
        self.sum.add_part(part, by)
    }

    /// Ends the sum, which is a term that is done.
    #[inline(never)]
    pub fn end_term(&mut self, table: &mut Table) -> Result<(), Stop> {
        let sum = self.end_sum()?;
        self.terms.push(table.number_term(&sum)?)?;
        Ok(())
    }

    /// Ends the sum, and adds to the one before a multiple of the term done last or of this one, by the formula done
    /// last.
    #[inline(never)]
    pub fn add_choice(&mut self, by: i64, table: &mut Table) -> Result<(), Stop> {
        let sum = self.end_sum()?;
        let second = table.number_term(&sum)?;
        let first = self.terms.pop().ok_or(Stop::Odd)?;
        let when = self.last_pair()?;
        let part = table.number_part(Part::Choice {
            yes: when.yes,
            no: when.no,
            first,
            second,
        })?;
        self.sum.add_part(part, by)
    }

    /// The formula that was done last, taken out.
    pub fn last_pair(&mut self) -> Result<Pair, Stop> {
        self.pairs.pop().ok_or(Stop::Odd)
    }

    /// A formula is done.
    fn add_pair(&mut self, yes: usize, no: usize) -> Result<(), Stop> {
        self.pairs.push(Pair { yes, no })?;
        Ok(())
    }

    /// A formula that is true, or one that is false, is done.
    #[inline(never)]
    pub fn add_truth(&mut self, holds: bool, table: &mut Table) -> Result<(), Stop> {
        let yes = table.number_form(Form::True)?;
        let no = table.number_form(Form::False)?;
        if holds {
            self.add_pair(yes, no)
        } else {
            self.add_pair(no, yes)
        }
    }

    /// Ends the sum: that it is at least 0 is done.
    #[inline(never)]
    pub fn add_least(&mut self, table: &mut Table) -> Result<(), Stop> {
        let mut sum = self.end_sum()?;
        let mut below = copy_of(table.alloc, &sum)?;
        below.negate()?;
        below.add_number(-1)?;
        let yes = relate(table, Relation::AtLeast, &mut sum)?;
        let no = relate(table, Relation::AtLeast, &mut below)?;
        self.add_pair(yes, no)
    }

    /// Ends the sum: that it is 0 is done.
    #[inline(never)]
    pub fn add_zero(&mut self, table: &mut Table) -> Result<(), Stop> {
        let mut sum = self.end_sum()?;
        let mut other = copy_of(table.alloc, &sum)?;
        let yes = relate(table, Relation::Zero, &mut sum)?;
        let no = relate(table, Relation::Unequal, &mut other)?;
        self.add_pair(yes, no)
    }

    /// The negation of the formula done last is done in its place.
    #[inline(never)]
    pub fn turn_last(&mut self) -> Result<(), Stop> {
        let last = self.last_pair()?;
        self.add_pair(last.no, last.yes)
    }

    /// Both or either of the two formulas done last, in their place.
    #[inline(never)]
    pub fn join_last(&mut self, joining: Joining, table: &mut Table) -> Result<(), Stop> {
        let second = self.last_pair()?;
        let first = self.last_pair()?;
        let both = matches!(joining, Joining::Both);
        let yes = table.number_form(joined(both, first.yes, second.yes))?;
        let no = table.number_form(joined(!both, first.no, second.no))?;
        self.add_pair(yes, no)
    }
}

/// Both of two formulas, or one of them.
fn joined(both: bool, first: usize, second: usize) -> Form {
    if both {
        Form::Both(first, second)
    } else {
        Form::Either(first, second)
    }
}
