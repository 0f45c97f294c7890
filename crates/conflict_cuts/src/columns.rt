//! The limits of a path as columns of a matrix: a column for each limit, and a row for each variable.
use conflict_limits::{Event, Limits};
use conflict_tables::{Factor, Stop, Table, at, is_against, line_of, minus, put, repeated, way_of};
use std::alloc::Global;
use unity_base::Seq;

/// A limit as a column.
#[derive(Clone, Copy)]
pub struct Column {
    /// The way that has it.
    pub way: usize,
    /// What the way is at least.
    pub bound: i64,
    /// The number of the event.
    pub event: usize,
}

/// The columns, and the variables that they have, each with its row.
#[derive(Drop)]
pub struct Columns {
    pub columns: Seq<Column>,
    pub variables: Seq<usize>,
    rows: Seq<Option<usize>>,
}

/// The newest limit of a way for which at most so many roundings rest on each other.
fn column_of(limits: &Limits, depths: &Seq<u32>, most: u32, way: usize) -> Option<Column> {
    let mut next = limits.limit(way).map(|limit| limit.event);
    for _ in 0..limits.count_events() {
        let event = next?;
        let found = limits.event(event).ok()?;
        if depths.get(event).is_some_and(|depth| *depth <= most) {
            return Some(Column {
                way,
                bound: found.bound,
                event,
            });
        }
        next = found.before;
    }
    None
}

/// How many roundings rest on each other for an event, given that of those before.
fn depth_of(limits: &Limits, depths: &Seq<u32>, event: Event) -> u32 {
    let mut depth: u32 = 0;
    for weighted in limits.reason_of(event) {
        if let Some(other) = depths.get(weighted.event) {
            depth = depth.max(*other);
        }
    }
    if event.tight {
        depth
    } else {
        depth.saturating_add(1)
    }
}

/// How many roundings rest on each other for each event.
pub fn depths(alloc: Global, limits: &Limits) -> Result<Seq<u32>, Stop> {
    let mut depths = Seq::new(alloc);
    for number in 0..limits.count_events() {
        let event = limits.event(number)?;
        let depth = depth_of(limits, &depths, event);
        depths.push(depth)?;
    }
    Ok(depths)
}

impl Columns {
    /// Gives variables rows, where they have none.
    fn add_variables(&mut self, factors: &[Factor]) -> Result<(), Stop> {
        for factor in factors {
            if let Some(None) = self.rows.get(factor.variable) {
                let row = self.variables.len();
                put(&mut self.rows, factor.variable, Some(row));
                self.variables.push(factor.variable)?;
            }
        }
        Ok(())
    }

    /// Adds the limit that an event gave a line of several variables, where it is the one that counts.
    fn add_event(
        &mut self,
        table: &Table,
        limits: &Limits,
        depths: &Seq<u32>,
        most: u32,
        event: usize,
    ) -> Result<(), Stop> {
        let way = limits.event(event)?.way;
        if table.is_single(line_of(way)) {
            return Ok(());
        }
        match column_of(limits, depths, most, way) {
            Some(column) if column.event == event => {
                self.columns.push(column)?;
                self.add_variables(table.line_factors(line_of(way)))
            }
            _ => Ok(()),
        }
    }

    /// Adds the limits of all variables that have a row.
    fn add_singles(&mut self, limits: &Limits, depths: &Seq<u32>, most: u32) -> Result<(), Stop> {
        for variable in self.variables.as_slice() {
            for against in [false, true] {
                if let Some(column) = column_of(limits, depths, most, way_of(*variable, against)) {
                    self.columns.push(column)?;
                }
            }
        }
        Ok(())
    }
}

/// The limits for which at most so many roundings rest on each other.
pub fn columns_of(
    alloc: Global,
    table: &Table,
    limits: &Limits,
    depths: &Seq<u32>,
    most: u32,
) -> Result<Columns, Stop> {
    let mut columns = Columns {
        columns: Seq::new(alloc),
        variables: Seq::new(alloc),
        rows: repeated(alloc, None, table.count_lines())?,
    };
    for event in 0..limits.count_events() {
        columns.add_event(table, limits, depths, most, event)?;
    }
    columns.add_singles(limits, depths, most)?;
    Ok(columns)
}

/// How often each variable counts in a way, by its row.
pub fn cells_of(
    alloc: Global,
    table: &Table,
    columns: &Columns,
    way: usize,
) -> Result<Seq<i64>, Stop> {
    let mut cells = repeated(alloc, 0, columns.variables.len())?;
    for factor in table.line_factors(line_of(way)) {
        let row = at(&columns.rows, factor.variable)?.ok_or(Stop::Odd)?;
        let times = if is_against(way) {
            minus(factor.times)?
        } else {
            factor.times
        };
        put(&mut cells, row, times);
    }
    Ok(cells)
}

/// How often a variable counts in a way.
fn cell_of(table: &Table, way: usize, variable: usize) -> i128 {
    for factor in table.line_factors(line_of(way)) {
        if factor.variable == variable {
            let times = i128::from(factor.times);
            return if is_against(way) {
                times.saturating_neg()
            } else {
                times
            };
        }
    }
    0
}

/// The row of each variable, whose sum is 0, and then that of the limits, whose sum is 1.
pub fn rows_of(alloc: Global, table: &Table, columns: &Columns) -> Result<Seq<Seq<i128>>, Stop> {
    let mut rows = Seq::new(alloc);
    for variable in columns.variables.as_slice() {
        let mut cells = Seq::new(alloc);
        for column in columns.columns.as_slice() {
            cells.push(cell_of(table, column.way, *variable))?;
        }
        cells.push(0)?;
        rows.push(cells)?;
    }
    let mut cells = Seq::new(alloc);
    for column in columns.columns.as_slice() {
        cells.push(i128::from(column.bound))?;
    }
    cells.push(1)?;
    rows.push(cells)?;
    Ok(rows)
}
