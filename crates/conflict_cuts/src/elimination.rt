//! A sum of limits that is false, found by the simplex method.
use crate::columns::{Column, Columns, columns_of, depths, rows_of};
use crate::cuts::add_cuts;
use conflict_limits::Limits;
use conflict_tables::{Stop, Table, at, plus, times};
use search_simplex::{Multiple, multipliers};
use std::alloc::Global;
use unity_base::Seq;

/// The most cells of a matrix.
const CELLS: usize = 1 << 16;

/// Whether a matrix of these columns is not too large.
fn fits(columns: &Columns) -> bool {
    let rows = columns.variables.len().saturating_add(2);
    rows.saturating_mul(columns.columns.len()) <= CELLS
}

/// Makes a conflict of multiples of limits.
fn clash(limits: &mut Limits, columns: &Seq<Column>, multiples: &[Multiple]) -> Result<(), Stop> {
    let mut sum = 0;
    limits.begin_sum();
    for multiple in multiples {
        let column = at(columns, multiple.column as usize)?;
        limits.add_clash(multiple.times, column.event)?;
        sum = plus(sum, times(multiple.times, column.bound)?)?;
    }
    if sum > 0 {
        limits.end_clash(sum - 1);
    }
    Ok(())
}

/// Looks for a conflict of limits for which at most so many roundings rest on each other. An error where memory is
/// refused, or a number has more than 64 bits.
pub fn eliminate(
    alloc: Global,
    table: &mut Table,
    limits: &mut Limits,
    most: u32,
) -> Result<(), Stop> {
    let depths = depths(alloc, limits)?;
    let mut columns = columns_of(alloc, table, limits, &depths, most)?;
    match add_cuts(alloc, table, limits, &mut columns) {
        Err(Stop::Memory) => return Err(Stop::Memory),
        _ => {}
    }
    if !fits(&columns) {
        return Ok(());
    }
    let rows = rows_of(alloc, table, &columns)?;
    match multipliers(alloc, rows, columns.columns.len())? {
        Some(multiples) => clash(limits, &columns.columns, multiples.as_slice()),
        None => Ok(()),
    }
}
