//! The simplex method in whole numbers: each row of the tableau has a positive scale of its own. What it
//! finds is judged by its callers.
#![tactic(auto)]

mod rows;

use rows::{
    Row, add_rows, cell, clear_cell, filled_places, greatest_divisor, put_row, rows_of, take_row,
    zero_row,
};
use std::alloc::{AllocError, Global};
use unity_base::Seq;

/// The rows, and the sum of those whose basis is no column.
#[derive(Drop)]
struct Tableau {
    rows: Seq<Row>,
    goal: Row,
    width: usize,
}

/// The tableau of rows that is solved for nothing yet. `None` where a number is too great.
fn first_tableau(
    alloc: Global,
    rows: Seq<Row>,
    width: usize,
) -> Result<Option<Tableau>, AllocError> {
    let mut goal = zero_row(alloc, width.saturating_add(1))?;
    if add_rows(rows.as_slice(), &mut goal) {
        Ok(Some(Tableau { rows, goal, width }))
    } else {
        Ok(None)
    }
}

/// The first column that lessens the goal.
fn entering(tableau: &Tableau) -> Option<usize> {
    (0..tableau.width).find(|place| cell(&tableau.goal, *place) > 0)
}

/// Whether one row limits a column before another does. `None` where a number is too great.
fn is_before(one: &Row, other: &Row, column: usize, width: usize) -> Option<bool> {
    let first = cell(one, width).checked_mul(cell(other, column))?;
    let second = cell(other, width).checked_mul(cell(one, column))?;
    if first == second {
        Some(rank(one) < rank(other))
    } else {
        Some(first < second)
    }
}

/// The order in which rows leave: those that are solved for a column by the column, before the others.
fn rank(row: &Row) -> u64 {
    match row.basis {
        Some(column) => column as u64,
        None => 1 << 32,
    }
}

/// The row that limits a column first. `None` where none does, or a number is too great.
fn leaving(tableau: &Tableau, column: usize) -> Option<usize> {
    let mut best: Option<usize> = None;
    for (place, row) in tableau.rows.as_slice().iter().enumerate() {
        if cell(row, column) > 0 {
            let better = match best {
                Some(other) => match tableau.rows.get(other) {
                    Some(found) => is_before(row, found, column, tableau.width)?,
                    None => true,
                },
                None => true,
            };
            if better {
                best = Some(place);
            }
        }
    }
    best
}

/// Clears a column in the row at a place. Whether no number was too great.
fn clear_at(
    alloc: Global,
    by: &Row,
    places: &[usize],
    column: usize,
    place: usize,
    rows: &mut Seq<Row>,
) -> bool {
    let mut row = take_row(alloc, place, rows);
    let fits = clear_cell(by, places, column, &mut row);
    put_row(place, row, rows);
    fits
}

/// Clears a column in all rows. Whether no number was too great.
fn clear_column(
    alloc: Global,
    by: &Row,
    places: &[usize],
    column: usize,
    rows: &mut Seq<Row>,
) -> bool {
    for place in 0..rows.len() {
        if !clear_at(alloc, by, places, column, place, rows) {
            return false;
        }
    }
    true
}

/// Solves a row for a column. Whether no number was too great.
fn pivot(
    alloc: Global,
    place: usize,
    column: usize,
    tableau: &mut Tableau,
) -> Result<bool, AllocError> {
    let mut row = take_row(alloc, place, &mut tableau.rows);
    let places = filled_places(alloc, &row)?;
    let fits = clear_column(alloc, &row, places.as_slice(), column, &mut tableau.rows)
        && clear_cell(&row, places.as_slice(), column, &mut tableau.goal);
    row.basis = u32::try_from(column).ok();
    put_row(place, row, &mut tableau.rows);
    Ok(fits)
}

/// Lessens the goal until no column does any more. Whether it became 0.
fn solve(alloc: Global, tableau: &mut Tableau) -> Result<bool, AllocError> {
    let steps = 4
        * tableau
            .width
            .saturating_add(tableau.rows.len())
            .min(1 << 16);
    for _ in 0..steps {
        let Some(column) = entering(tableau) else {
            return Ok(cell(&tableau.goal, tableau.width) == 0);
        };
        let Some(place) = leaving(tableau, column) else {
            return Ok(false);
        };
        if !pivot(alloc, place, column, tableau)? {
            return Ok(false);
        }
    }
    Ok(false)
}

/// A multiplier as a fraction in lowest terms.
#[derive(Clone, Copy)]
struct Fraction {
    above: u128,
    below: u128,
}

/// What a row is solved for, and its value. `None` where that is no column.
fn solution_of(row: &Row, width: usize) -> Option<(u32, Fraction)> {
    let column = row.basis?;
    let above = cell(row, width).unsigned_abs();
    let below = cell(row, column as usize).unsigned_abs();
    let common = greatest_divisor(above, below);
    if common == 0 || below == 0 {
        return None;
    }
    let value = Fraction {
        above: above / common,
        below: below / common,
    };
    Some((column, value))
}

/// The least number that both divide. `None` where it is past 2^62.
fn least_multiple(a: u128, b: u128) -> Option<u128> {
    let common = greatest_divisor(a, b);
    if common == 0 {
        return None;
    }
    let multiple = (a / common).checked_mul(b)?;
    if multiple <= 1 << 62 {
        Some(multiple)
    } else {
        None
    }
}

/// A number that makes all multipliers whole. `None` where it is past 2^62.
fn common_multiple(tableau: &Tableau) -> Option<u128> {
    let mut multiple = 1;
    for row in tableau.rows.as_slice() {
        if let Some((_, value)) = solution_of(row, tableau.width) {
            multiple = least_multiple(multiple, value.below)?;
        }
    }
    Some(multiple)
}

/// A multiple of a fraction, as a whole number from 1 to 2^62.
fn whole_multiplier(value: Fraction, multiple: u128) -> Option<i64> {
    if value.below == 0 {
        return None;
    }
    let number = value.above.checked_mul(multiple / value.below)?;
    if number > 0 && number <= 1 << 62 {
        Some(number as i64)
    } else {
        None
    }
}

/// A column, and its multiplier.
#[derive(Clone, Copy)]
pub struct Multiple {
    pub column: u32,
    pub times: i64,
}

/// The multipliers that are not 0. `None` where one is past 2^62.
fn multiples(alloc: Global, tableau: &Tableau) -> Result<Option<Seq<Multiple>>, AllocError> {
    let Some(multiple) = common_multiple(tableau) else {
        return Ok(None);
    };
    let mut found = Seq::new(alloc);
    for row in tableau.rows.as_slice() {
        if let Some((column, value)) = solution_of(row, tableau.width) {
            if value.above > 0 {
                match whole_multiplier(value, multiple) {
                    Some(times) => found.push(Multiple { column, times })?,
                    None => return Ok(None),
                }
            }
        }
    }
    Ok(Some(found))
}

/// Multipliers of so many columns, none below 0, of which each row's sum of cells times multipliers is its
/// right side: the cell after those of the columns, which is 0 or more. All may be multiplied by one number,
/// so that they are whole. `None` where there are none, or a number is too great.
pub fn multipliers(
    alloc: Global,
    rows: Seq<Seq<i128>>,
    width: usize,
) -> Result<Option<Seq<Multiple>>, AllocError> {
    let rows = rows_of(alloc, rows)?;
    let Some(mut tableau) = first_tableau(alloc, rows, width)? else {
        return Ok(None);
    };
    if solve(alloc, &mut tableau)? {
        multiples(alloc, &tableau)
    } else {
        Ok(None)
    }
}
