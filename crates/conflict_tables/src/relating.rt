//! Formulas that say of a sum how it stands to 0.
use crate::lists::append;
use crate::stop::Stop;
use crate::sums::{Sum, no_sum};
use crate::table::{Form, Relation, Table};

/// The formula that relates a sum to 0. The sum is used up.
pub fn relate(table: &mut Table, relation: Relation, sum: &mut Sum) -> Result<usize, Stop> {
    let (has_choice, has_quotient) = table.marks(sum.parts.as_slice())?;
    if has_choice {
        let term = table.number_term(sum)?;
        return table.number_form(Form::Choice(relation, term));
    }
    match relation {
        Relation::AtLeast => relate_least(table, has_quotient, sum),
        Relation::Zero => relate_zero(table, has_quotient, sum),
        Relation::Unequal => relate_unequal(table, has_quotient, sum),
    }
}

/// That a sum without an `Ite` is 0.
fn relate_zero(table: &mut Table, has_quotient: bool, sum: &mut Sum) -> Result<usize, Stop> {
    if has_quotient {
        let term = table.number_term(sum)?;
        return table.number_form(Form::Quotient(Relation::Zero, term));
    }
    let fact = table.number_fact(sum)?;
    sum.negate()?;
    let negative = table.number_fact(sum)?;
    table.number_form(Form::Equal(fact, negative))
}

/// That a sum without an `Ite` is at least 0.
fn relate_least(table: &mut Table, has_quotient: bool, sum: &Sum) -> Result<usize, Stop> {
    if has_quotient {
        let term = table.number_term(sum)?;
        table.number_form(Form::Quotient(Relation::AtLeast, term))
    } else {
        let fact = table.number_fact(sum)?;
        table.number_form(Form::Fact(fact))
    }
}

/// That a sum without an `Ite` is at least 1 or at most -1.
fn relate_unequal(table: &mut Table, has_quotient: bool, sum: &mut Sum) -> Result<usize, Stop> {
    sum.add_number(-1)?;
    let above = relate_least(table, has_quotient, sum)?;
    sum.negate()?;
    sum.add_number(-2)?;
    let below = relate_least(table, has_quotient, sum)?;
    table.number_form(Form::Either(above, below))
}

/// A sum that is kept, once more.
pub fn sum_of(table: &Table, number: usize) -> Result<Sum, Stop> {
    let term = table.term(number)?;
    let mut sum = no_sum(table.alloc);
    sum.constant = term.constant;
    append(&mut sum.factors, table.term_factors(term))?;
    append(&mut sum.parts, table.term_parts(term))?;
    Ok(sum)
}
