//! What formulas that wait become: the two sides of one, and a quotient taken.
use crate::lists::{append, minus, times};
use crate::relating::{relate, sum_of};
use crate::stop::Stop;
use crate::sums::{Multiple, Sum, no_sum};
use crate::table::{Form, Opened, Part, Relation, Table};

/// How deep quotients may stand within quotients.
const DEPTH: u32 = 64;

/// What a first quotient is of, its divisor, and the variable in its place.
#[derive(Clone, Copy)]
struct Taken {
    of: usize,
    divisor: i64,
    variable: usize,
}

/// What is put in the place of the first node of a kind in a sum.
#[derive(Clone, Copy)]
enum Replacement {
    /// Of the first `Ite` its first part, or else its second.
    Part { first: bool },
    /// Of the first quotient, operands before their operator, this variable, or else its own.
    Variable(Option<usize>),
}

/// The node that was replaced.
#[derive(Clone, Copy)]
enum Replaced {
    /// An `Ite`; its part is meant where a formula holds.
    Choice { when: usize },
    Quotient(Taken),
}

/// Adds a sum that is kept, so many times.
fn add_kept(table: &Table, number: usize, by: i64, sum: &mut Sum) -> Result<(), Stop> {
    let term = table.term(number)?;
    sum.add_number(times(term.constant, by)?)?;
    sum.add_factors(table.term_factors(term), by)?;
    sum.add_parts(table.term_parts(term), by)
}

/// The part at a place of a sum that is kept, with its multiplier.
fn multiple_at(table: &Table, number: usize, place: usize) -> Result<Multiple, Stop> {
    let term = table.term(number)?;
    match table.term_parts(term).get(place) {
        Some(multiple) => Ok(*multiple),
        None => Err(Stop::Odd),
    }
}

/// A sum with the linear part of one that is kept.
fn linear_part(table: &Table, number: usize) -> Result<Sum, Stop> {
    let term = table.term(number)?;
    let mut sum = no_sum(table.alloc);
    sum.constant = term.constant;
    append(&mut sum.factors, table.term_factors(term))?;
    Ok(sum)
}

/// How many parts a sum that is kept has.
fn count_parts(table: &Table, number: usize) -> Result<usize, Stop> {
    let term = table.term(number)?;
    Ok(table.term_parts(term).len())
}

/// A sum in which the first node of a kind is replaced, and that node where there is one.
#[cycle(replacing)]
fn replace_first(
    depth: u32,
    table: &mut Table,
    number: usize,
    by: Replacement,
) -> Result<(Sum, Option<Replaced>), Stop> {
    let mut sum = linear_part(table, number)?;
    let mut node = None;
    for place in 0..count_parts(table, number)? {
        let multiple = multiple_at(table, number, place)?;
        if node.is_some() {
            sum.add_part(multiple.part, multiple.times)?;
        } else {
            node = add_replaced(depth, table, multiple, by, &mut sum)?;
        }
    }
    Ok((sum, node))
}

/// Adds a multiple of a part in which the first node of a kind is replaced, where it has one.
#[cycle(replacing)]
fn add_replaced(
    depth: u32,
    table: &mut Table,
    multiple: Multiple,
    by: Replacement,
    sum: &mut Sum,
) -> Result<Option<Replaced>, Stop> {
    match by {
        Replacement::Part { first } => add_chosen(depth, table, multiple, first, sum),
        Replacement::Variable(variable) => add_opened(depth, table, multiple, variable, sum),
    }
}

/// Adds a multiple of a part, whose first `Ite` is replaced, where it has one.
#[cycle(replacing)]
fn add_chosen(
    depth: u32,
    table: &mut Table,
    multiple: Multiple,
    first_part: bool,
    sum: &mut Sum,
) -> Result<Option<Replaced>, Stop> {
    match table.part(multiple.part)? {
        Part::Choice {
            yes,
            no,
            first,
            second,
        } => {
            let kept = if first_part { first } else { second };
            add_kept(table, kept, multiple.times, sum)?;
            let when = if first_part { yes } else { no };
            Ok(Some(Replaced::Choice { when }))
        }
        Part::Quotient { of, divisor, rest } => {
            if depth == 0 {
                return Err(Stop::Odd);
            }
            let by = Replacement::Part { first: first_part };
            let (inner, node) = replace_first(depth - 1, table, of, by)?;
            let part = if node.is_some() {
                let of = table.number_term(&inner)?;
                table.number_part(Part::Quotient { of, divisor, rest })?
            } else {
                multiple.part
            };
            sum.add_part(part, multiple.times)?;
            Ok(node)
        }
    }
}

/// One side of a relation of a sum with an `Ite`: the condition, and the relation with that part.
fn choice_side(
    table: &mut Table,
    relation: Relation,
    term: usize,
    first: bool,
) -> Result<usize, Stop> {
    let (mut sum, node) = replace_first(DEPTH, table, term, Replacement::Part { first })?;
    let Some(Replaced::Choice { when }) = node else {
        return Err(Stop::Odd);
    };
    let related = relate(table, relation, &mut sum)?;
    table.number_form(Form::Both(when, related))
}

/// The numbers of the two sides of a formula that waits and has two. `Odd` where it is none, a number has more than
/// 64 bits, or quotients stand too deep.
pub fn sides_of(table: &mut Table, form: usize) -> Result<(usize, usize), Stop> {
    match table.form(form)? {
        Form::Either(a, b) => Ok((a, b)),
        Form::Choice(relation, term) => match table.known_sides(form) {
            Some(sides) => Ok(sides),
            None => {
                let first = choice_side(table, relation, term, true)?;
                let second = choice_side(table, relation, term, false)?;
                table.keep_sides(form, (first, second));
                Ok((first, second))
            }
        },
        _ => Err(Stop::Odd),
    }
}

/// Adds a multiple of a quotient, in which the first is replaced by a variable.
#[cycle(replacing)]
fn add_opened(
    depth: u32,
    table: &mut Table,
    multiple: Multiple,
    variable: Option<usize>,
    sum: &mut Sum,
) -> Result<Option<Replaced>, Stop> {
    let Part::Quotient { of, divisor, rest } = table.part(multiple.part)? else {
        return Err(Stop::Odd);
    };
    if !table.term(of)?.has_quotient {
        let taken = Taken {
            of,
            divisor,
            variable: match variable {
                Some(copy) => copy,
                None => table.quotient_variable(of, divisor)?,
            },
        };
        add_variable(table, taken, rest, multiple.times, sum)?;
        return Ok(Some(Replaced::Quotient(taken)));
    }
    if depth == 0 {
        return Err(Stop::Odd);
    }
    let (inner, node) = replace_first(depth - 1, table, of, Replacement::Variable(variable))?;
    let of = table.number_term(&inner)?;
    let part = table.number_part(Part::Quotient { of, divisor, rest })?;
    sum.add_part(part, multiple.times)?;
    Ok(node)
}

/// Adds a multiple of the variable of a quotient, or of what is divided less the divisor times the variable.
fn add_variable(
    table: &Table,
    taken: Taken,
    rest: bool,
    by: i64,
    sum: &mut Sum,
) -> Result<(), Stop> {
    if rest {
        add_kept(table, taken.of, by, sum)?;
        sum.add_factor(taken.variable, minus(times(taken.divisor, by)?)?)
    } else {
        sum.add_factor(taken.variable, by)
    }
}

/// The two facts that fix the variable of a quotient.
fn fixing_facts(table: &mut Table, taken: Taken) -> Result<(usize, usize), Stop> {
    let mut sum = sum_of(table, taken.of)?;
    sum.add_factor(taken.variable, minus(taken.divisor)?)?;
    let low = table.number_fact(&sum)?;
    sum.negate()?;
    sum.add_number(taken.divisor)?;
    sum.add_number(-1)?;
    let high = table.number_fact(&sum)?;
    Ok((low, high))
}

/// What a formula with a quotient and no `Ite` becomes with a variable for its first quotient: this one, or else its
/// own. `Odd` where it is none, a number has more than 64 bits, or quotients stand too deep.
pub fn without_quotient_by(
    table: &mut Table,
    form: usize,
    variable: Option<usize>,
) -> Result<Opened, Stop> {
    let Form::Quotient(relation, term) = table.form(form)? else {
        return Err(Stop::Odd);
    };
    let (mut sum, node) = replace_first(DEPTH, table, term, Replacement::Variable(variable))?;
    let Some(Replaced::Quotient(taken)) = node else {
        return Err(Stop::Odd);
    };
    let (low, high) = fixing_facts(table, taken)?;
    let rest = relate(table, relation, &mut sum)?;
    Ok(Opened {
        divisor: taken.divisor,
        variable: taken.variable,
        low,
        high,
        rest,
    })
}

/// What a formula with a quotient and no `Ite` becomes with the variable of its first quotient. `Odd` where it is none,
/// a number has more than 64 bits, or quotients stand too deep.
pub fn without_quotient(table: &mut Table, form: usize) -> Result<Opened, Stop> {
    if let Some(known) = table.known_opened(form) {
        return Ok(known);
    }
    let found = without_quotient_by(table, form, None)?;
    table.keep_opened(form, found);
    Ok(found)
}
