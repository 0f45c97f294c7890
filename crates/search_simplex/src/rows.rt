//! Rows of whole numbers: sums, multiples, and what divides all cells of one.

use std::alloc::{AllocError, Global};
use unity_base::Seq;

/// A row: a cell for each column, and the right side.
#[derive(Drop)]
pub struct Row {
    pub cells: Seq<i128>,
    /// The column that is solved for. `None` where it is none.
    pub basis: Option<u32>,
}

/// The cell at a place, 0 past the end.
pub fn cell(row: &Row, place: usize) -> i128 {
    match row.cells.get(place) {
        Some(z) => *z,
        None => 0,
    }
}

/// Puts a number into a cell, where there is one.
fn set_cell(row: &mut Row, place: usize, number: i128) {
    if place < row.cells.len() {
        let _ = row.cells.replace(place, number);
    }
}

/// Adds a row to a sum of rows. Whether no number was too great.
fn add_row(row: &Row, sum: &mut Row) -> bool {
    for place in 0..sum.cells.len() {
        match cell(sum, place).checked_add(cell(row, place)) {
            Some(z) => {
                set_cell(sum, place, z);
            }
            None => return false,
        }
    }
    true
}

/// A row of zeros.
pub fn zero_row(alloc: Global, width: usize) -> Result<Row, AllocError> {
    let mut cells = Seq::new(alloc);
    for _ in 0..width {
        cells.push(0)?;
    }
    Ok(Row { cells, basis: None })
}

/// The rows with these cells, of which none is solved.
pub fn rows_of(alloc: Global, mut cells: Seq<Seq<i128>>) -> Result<Seq<Row>, AllocError> {
    let mut rows = Seq::new(alloc);
    for _ in 0..cells.len() {
        if let Some(row) = cells.pop() {
            rows.push(Row {
                cells: row,
                basis: None,
            })?;
        }
    }
    Ok(rows)
}

/// Adds all rows to a sum of rows. Whether no number was too great.
pub fn add_rows(rows: &[Row], sum: &mut Row) -> bool {
    for row in rows {
        if !add_row(row, sum) {
            return false;
        }
    }
    true
}

/// The greatest number that divides both.
pub fn greatest_divisor(a: u128, b: u128) -> u128 {
    let mut one = a;
    let mut other = b;
    'steps: while other > 0 {
        let rest = one % other;
        one = other;
        other = rest;
    }
    one
}

/// The greatest number that divides all cells.
fn divisor_of_cells(cells: &[i128]) -> u128 {
    let mut common = 0;
    for z in cells {
        if common == 1 {
            return 1;
        }
        if *z != 0 {
            common = greatest_divisor(z.unsigned_abs(), common);
        }
    }
    common
}

/// A number divided by a positive one.
fn quotient(number: i128, divisor: i128) -> i128 {
    if divisor > 1 {
        number / divisor
    } else {
        number
    }
}

/// Divides all cells of a row.
fn divide_row(row: &mut Row, divisor: i128) {
    for place in 0..row.cells.len() {
        let z = quotient(cell(row, place), divisor);
        set_cell(row, place, z);
    }
}

/// Divides a row by the greatest number that divides all its cells.
fn lighten(row: &mut Row) {
    let common = divisor_of_cells(row.cells.as_slice());
    if common > 1 && common < 1 << 126 {
        divide_row(row, common as i128);
    }
}

/// The product of two numbers. `None` where it is too great.
fn product(a: i128, b: i128) -> Option<i128> {
    match (i64::try_from(a), i64::try_from(b)) {
        (Ok(small), Ok(other)) => i128::from(small).checked_mul(i128::from(other)),
        _ => a.checked_mul(b),
    }
}

/// Multiplies all cells of a row. Whether no number was too great.
fn multiply_row(row: &mut Row, times: i128) -> bool {
    for place in 0..row.cells.len() {
        match product(cell(row, place), times) {
            Some(z) => set_cell(row, place, z),
            None => return false,
        }
    }
    true
}

/// The places of the cells of a row that are not 0.
pub fn filled_places(alloc: Global, row: &Row) -> Result<Seq<usize>, AllocError> {
    let mut places = Seq::new(alloc);
    for (place, z) in row.cells.as_slice().iter().enumerate() {
        if *z != 0 {
            places.push(place)?;
        }
    }
    Ok(places)
}

/// Takes a multiple of a row, of which only the cells at these places are not 0, from another. Whether no number was
/// too great.
fn take_multiple(by: &Row, places: &[usize], times: i128, row: &mut Row) -> bool {
    for place in places {
        match less(cell(row, *place), cell(by, *place), times) {
            Some(rest) => set_cell(row, *place, rest),
            None => return false,
        }
    }
    true
}

/// a - b * c. `None` where a number is too great.
fn less(a: i128, b: i128, c: i128) -> Option<i128> {
    a.checked_sub(product(b, c)?)
}

/// Adds a multiple of a row, of which only the cells at these places are not 0, to a positive multiple of another,
/// so that the cell of a column becomes 0. Whether no number was too great.
pub fn clear_cell(by: &Row, places: &[usize], column: usize, row: &mut Row) -> bool {
    let one = cell(by, column);
    let other = cell(row, column);
    if other == 0 {
        return true;
    }
    if one != 1 && !multiply_row(row, one) {
        return false;
    }
    if !take_multiple(by, places, other, row) {
        return false;
    }
    lighten(row);
    true
}

/// A row without cells. It takes no memory.
fn no_row(alloc: Global) -> Row {
    Row {
        cells: Seq::new(alloc),
        basis: None,
    }
}

/// Takes a row out of its place.
pub fn take_row(alloc: Global, place: usize, rows: &mut Seq<Row>) -> Row {
    if place < rows.len() {
        rows.replace(place, no_row(alloc))
    } else {
        no_row(alloc)
    }
}

/// Puts a row back into its place.
pub fn put_row(place: usize, row: Row, rows: &mut Seq<Row>) {
    if place < rows.len() {
        let _ = rows.replace(place, row);
    }
}
