//! The facts that an elimination works on, as columns of a matrix: a column for each fact, divided by
//! the divisor of its factors, and a row for each variable.
use crate::bounds::{Bounds, bound_of};
use crate::clash::divisor_in;
use obligations::{Bound, Fact};
use std::alloc::{AllocError, Global};
use unity_base::Seq;

/// A fact as a column: its place, and the divisor of its factors.
#[derive(Clone, Copy)]
pub struct Column {
    pub place: usize,
    pub divisor: i64,
}

/// The columns, and the variables that they have, each with its row.
#[derive(Drop)]
pub struct Columns {
    pub columns: Seq<Column>,
    pub variables: Seq<u32>,
    rows: Seq<Option<u32>>,
}

/// No columns, over so many variables.
fn no_columns(alloc: Global, count: u32) -> Result<Columns, AllocError> {
    let mut rows = Seq::new(alloc);
    for _ in 0..count {
        rows.push(None)?;
    }
    Ok(Columns {
        columns: Seq::new(alloc),
        variables: Seq::new(alloc),
        rows,
    })
}

/// Whether a fact bounds one variable.
fn is_bound(factors: &[(u32, i128)]) -> bool {
    match factors {
        [f] => f.1 == 1 || f.1 == -1,
        _ => false,
    }
}

/// The row of a variable.
fn row_of(columns: &Columns, variable: u32) -> Option<u32> {
    match columns.rows.get(variable as usize) {
        Some(row) => *row,
        None => None,
    }
}

/// Gives a variable a row, where it has none.
fn add_variable(variable: u32, columns: &mut Columns) -> Result<(), AllocError> {
    let next = columns.variables.len();
    if (variable as usize) < columns.rows.len()
        && next < 1 << 16
        && row_of(columns, variable).is_none()
    {
        columns.variables.push(variable)?;
        let _ = columns.rows.replace(variable as usize, Some(next as u32));
    }
    Ok(())
}

/// The column of a fact. `None` where its factors have no divisor of at most 2^62.
fn column_of(place: usize, fact: &Fact) -> Option<Column> {
    let divisor = divisor_in(fact.factors.as_slice());
    if divisor == 0 || divisor > 1 << 62 {
        return None;
    }
    Some(Column {
        place,
        divisor: divisor as i64,
    })
}

/// Adds a fact, unless it bounds one variable.
fn add_fact(place: usize, fact: &Fact, columns: &mut Columns) -> Result<(), AllocError> {
    if is_bound(fact.factors.as_slice()) {
        return Ok(());
    }
    if let Some(column) = column_of(place, fact) {
        columns.columns.push(column)?;
        for (variable, _) in fact.factors.as_slice() {
            add_variable(*variable, columns)?;
        }
    }
    Ok(())
}

/// Adds a bound.
fn add_bound(bound: Option<Bound>, columns: &mut Columns) -> Result<(), AllocError> {
    if let Some(b) = bound {
        columns.columns.push(Column {
            place: b.place,
            divisor: 1,
        })?;
    }
    Ok(())
}

/// Adds the bounds of all variables that have a row.
fn add_bounds(bounds: &Bounds, columns: &mut Columns) -> Result<(), AllocError> {
    for row in 0..columns.variables.len() {
        if let Some(variable) = columns.variables.get(row) {
            let variable = *variable;
            add_bound(bound_of(bounds.lows.as_slice(), variable), columns)?;
            add_bound(bound_of(bounds.highs.as_slice(), variable), columns)?;
        }
    }
    Ok(())
}

/// Adds the facts that bound no variable alone.
fn add_facts(facts: &[Fact], columns: &mut Columns) -> Result<(), AllocError> {
    for (place, fact) in facts.iter().enumerate() {
        add_fact(place, fact, columns)?;
    }
    Ok(())
}

/// The columns of facts: those that bound no variable alone, and the tightest bounds of their
/// variables.
pub fn columns_of(
    alloc: Global,
    facts: &[Fact],
    count: u32,
    bounds: &Bounds,
) -> Result<Columns, AllocError> {
    let mut columns = no_columns(alloc, count)?;
    add_facts(facts, &mut columns)?;
    add_bounds(bounds, &mut columns)?;
    Ok(columns)
}

/// The factor of a variable, 0 where it isn't named.
fn factor_of(factors: &[(u32, i128)], variable: u32) -> i128 {
    match factors.iter().find(|f| f.0 == variable) {
        Some(f) => f.1,
        None => 0,
    }
}

/// A number divided and rounded down.
fn part(number: i128, divisor: i64) -> i128 {
    if divisor < 2 {
        number
    } else {
        number.div_euclid(divisor as i128)
    }
}

/// The factor of a variable in a column.
fn cell_of(facts: &[Fact], column: &Column, variable: u32) -> i128 {
    match facts.get(column.place) {
        Some(fact) => part(factor_of(fact.factors.as_slice(), variable), column.divisor),
        None => 0,
    }
}

/// The constant of a column.
fn constant_of(facts: &[Fact], column: &Column) -> i128 {
    match facts.get(column.place) {
        Some(fact) => part(fact.constant, column.divisor),
        None => 0,
    }
}

/// The row of a variable: the sum of all factors times multipliers is 0.
fn variable_row(
    alloc: Global,
    facts: &[Fact],
    columns: &[Column],
    variable: u32,
) -> Result<Seq<i128>, AllocError> {
    let mut cells = Seq::new(alloc);
    for column in columns {
        cells.push(cell_of(facts, column, variable))?;
    }
    cells.push(0)?;
    Ok(cells)
}

/// The row of the constants: their sum is -1.
fn constant_row(
    alloc: Global,
    facts: &[Fact],
    columns: &[Column],
) -> Result<Seq<i128>, AllocError> {
    let mut cells = Seq::new(alloc);
    for column in columns {
        cells.push(constant_of(facts, column).saturating_neg())?;
    }
    cells.push(1)?;
    Ok(cells)
}

/// The row of each variable, and then that of the constants.
pub fn rows_of(
    alloc: Global,
    facts: &[Fact],
    columns: &Columns,
) -> Result<Seq<Seq<i128>>, AllocError> {
    let mut rows = Seq::new(alloc);
    for variable in columns.variables.as_slice() {
        rows.push(variable_row(alloc, facts, columns.columns.as_slice(), *variable)?)?;
    }
    rows.push(constant_row(alloc, facts, columns.columns.as_slice())?)?;
    Ok(rows)
}
