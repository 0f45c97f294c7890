//! What equations about whole numbers tell of other limits: where all that is free in a sum is divisible by a number,
//! its limit is rounded by that.
use crate::columns::{Column, Columns, cells_of};
use crate::lattice::{Image, Lattice, all_numbers};
use conflict_limits::{Event, Limits};
use conflict_tables::{
    Stop, Sum, Table, at, is_against, line_of, minus, no_sum, opposite, plus, times,
};
use std::alloc::Global;
use unity_base::Seq;

/// How many variables there may be at most.
const VARIABLES: usize = 100;

/// The two limits by which a sum is one number.
#[derive(Clone, Copy)]
struct Equation {
    /// The sum is at least the number.
    least: Column,
    /// It is at most that.
    most: Column,
}

/// A sum of multiples of limits that is being made.
#[derive(Drop)]
struct Mixture {
    sum: Sum,
    start: usize,
}

impl Mixture {
    /// Adds a multiple of a limit.
    fn add(
        &mut self,
        table: &Table,
        limits: &mut Limits,
        column: Column,
        by: i64,
    ) -> Result<(), Stop> {
        let sign = if is_against(column.way) {
            minus(by)?
        } else {
            by
        };
        self.sum
            .add_factors(table.line_factors(line_of(column.way)), sign)?;
        self.sum.add_number(minus(times(column.bound, by)?)?)?;
        limits.push_reason(by, column.event)
    }

    /// The limit that it is, divided by what divides all its factors. `None` for a number alone.
    fn finish(&self, table: &mut Table, limits: &mut Limits) -> Result<Option<Column>, Stop> {
        let number = table.number_fact(&self.sum)?;
        let fact = table.fact(number)?;
        let Some(way) = fact.way else {
            return Ok(None);
        };
        let reason = limits.reason_from(self.start);
        let event = limits.add_aside(Event {
            way,
            bound: fact.bound,
            before: None,
            reason,
            divisor: fact.divisor,
            tight: fact.tight,
        })?;
        Ok(Some(Column {
            way,
            bound: fact.bound,
            event,
        }))
    }
}

/// The limit against another one of the same line, where the two leave one number.
fn partner_of(columns: &Columns, column: Column) -> Option<Column> {
    columns
        .columns
        .as_slice()
        .iter()
        .find(|other| {
            other.way == opposite(column.way) && column.bound.checked_add(other.bound) == Some(0)
        })
        .copied()
}

/// The equations among limits.
fn equations_of(alloc: Global, columns: &Columns) -> Result<Seq<Equation>, Stop> {
    let mut equations = Seq::new(alloc);
    for column in columns.columns.as_slice() {
        if !is_against(column.way) {
            if let Some(most) = partner_of(columns, *column) {
                equations.push(Equation {
                    least: *column,
                    most,
                })?;
            }
        }
    }
    Ok(equations)
}

/// Equations, and the whole numbers that solve those that were taken in.
#[derive(Drop)]
struct Solved {
    equations: Seq<Equation>,
    lattice: Lattice,
}

/// The limit of a column, rounded by what equations tell. `None` where that is no more than it is already.
fn cut(
    alloc: Global,
    table: &mut Table,
    limits: &mut Limits,
    solved: &Solved,
    column: Column,
    image: &Image,
) -> Result<Option<Column>, Stop> {
    let need = plus(column.bound, minus(image.value)?)?;
    if image.divisor < 2 || need.checked_rem_euclid(image.divisor) == Some(0) {
        return Ok(None);
    }
    let share = solved.lattice.share(image, solved.equations.len())?;
    let mut mixture = Mixture {
        sum: no_sum(alloc),
        start: limits.begin_reason(),
    };
    mixture.add(table, limits, column, share.divisor)?;
    for (place, by) in share.by.as_slice().iter().enumerate() {
        let equation = at(&solved.equations, place)?;
        if *by < 0 {
            mixture.add(table, limits, equation.least, minus(*by)?)?;
        }
        if *by > 0 {
            mixture.add(table, limits, equation.most, *by)?;
        }
    }
    mixture.finish(table, limits)
}

/// Adds the limit of a column that is rounded by what equations tell. Whether it is more than the column's own.
fn add_cut(
    alloc: Global,
    table: &mut Table,
    limits: &mut Limits,
    columns: &mut Columns,
    solved: &Solved,
    column: Column,
) -> Result<bool, Stop> {
    let image = solved
        .lattice
        .image(&cells_of(alloc, table, columns, column.way)?)?;
    match cut(alloc, table, limits, solved, column, &image)? {
        Some(more) => {
            columns.columns.push(more)?;
            Ok(true)
        }
        None => Ok(false),
    }
}

/// Takes in the equation at a place. Whether whole numbers can solve it is said; else two limits are added that show
/// that.
fn take_equation(
    alloc: Global,
    table: &mut Table,
    limits: &mut Limits,
    columns: &mut Columns,
    solved: &mut Solved,
    place: usize,
) -> Result<bool, Stop> {
    let equation = at(&solved.equations, place)?;
    if add_cut(alloc, table, limits, columns, solved, equation.least)? {
        let _ = add_cut(alloc, table, limits, columns, solved, equation.most)?;
        return Ok(false);
    }
    let image = solved
        .lattice
        .image(&cells_of(alloc, table, columns, equation.least.way)?)?;
    if image.divisor > 0 {
        let count = solved.equations.len();
        solved
            .lattice
            .fix(image, equation.least.bound, place, count)?;
    }
    Ok(true)
}

/// Adds the limits of all columns that are rounded by what equations tell.
fn cut_all(
    alloc: Global,
    table: &mut Table,
    limits: &mut Limits,
    columns: &mut Columns,
    solved: &Solved,
) -> Result<(), Stop> {
    for place in 0..columns.columns.len() {
        let column = at(&columns.columns, place)?;
        let _ = add_cut(alloc, table, limits, columns, solved, column)?;
    }
    Ok(())
}

/// Adds to columns what their equations tell of whole numbers.
pub fn add_cuts(
    alloc: Global,
    table: &mut Table,
    limits: &mut Limits,
    columns: &mut Columns,
) -> Result<(), Stop> {
    let equations = equations_of(alloc, columns)?;
    if equations.is_empty() || columns.variables.len() > VARIABLES {
        return Ok(());
    }
    let lattice = all_numbers(alloc, columns.variables.len())?;
    let mut solved = Solved { equations, lattice };
    for place in 0..solved.equations.len() {
        if !take_equation(alloc, table, limits, columns, &mut solved, place)? {
            return Ok(());
        }
    }
    cut_all(alloc, table, limits, columns, &solved)
}
