//! The whole numbers that solve equations: sums of the columns of a basis, of which the first are told by the equations
//! and the others are free.
use conflict_tables::{Stop, at, common_divisor, minus, plus, put, repeated, times};
use std::alloc::Global;
use unity_base::Seq;

/// What the equations tell of one column: its number, and the multiples of equations that add up to a multiple of it.
#[derive(Drop)]
struct Told {
    value: i64,
    by: Seq<i64>,
    divisor: i64,
}

/// The basis, and what is told of its first columns.
#[derive(Drop)]
pub struct Lattice {
    alloc: Global,
    basis: Seq<Seq<i64>>,
    told: Seq<Told>,
}

/// A sum over the basis.
#[derive(Drop)]
pub struct Image {
    /// How often each column counts.
    pub cells: Seq<i64>,
    /// What the told columns add up to.
    pub value: i64,
    /// The greatest number that divides all free columns; 0 where there is none.
    pub divisor: i64,
}

/// Multiples of equations, and the number that divides their sum.
#[derive(Drop)]
pub struct Share {
    /// How often each equation counts.
    pub by: Seq<i64>,
    /// By what the sum is divided, at least 1.
    pub divisor: i64,
}

/// The absolute value. `Odd` where it has more than 63 bits.
fn size(number: i64) -> Result<i64, Stop> {
    number.checked_abs().ok_or(Stop::Odd)
}

/// The greatest number that divides both.
fn divisor_of_two(a: i64, b: i64) -> Result<i64, Stop> {
    i64::try_from(common_divisor(a.unsigned_abs(), b.unsigned_abs())).map_err(|_| Stop::Odd)
}

/// A number divided by another, towards 0. `Odd` where that is 0, or the quotient has more than 64 bits.
fn quotient(number: i64, divisor: i64) -> Result<i64, Stop> {
    number.checked_div(divisor).ok_or(Stop::Odd)
}

/// The sum of the products of two lists.
fn product(a: &Seq<i64>, b: &Seq<i64>) -> Result<i64, Stop> {
    let mut sum = 0;
    for (place, number) in a.as_slice().iter().enumerate() {
        if *number != 0 {
            sum = plus(sum, times(*number, at(b, place)?)?)?;
        }
    }
    Ok(sum)
}

/// Adds a multiple of a list to another.
fn add_times(from: &Seq<i64>, by: i64, to: &mut Seq<i64>) -> Result<(), Stop> {
    for (place, number) in from.as_slice().iter().enumerate() {
        if *number != 0 {
            let sum = plus(at(to, place)?, times(*number, by)?)?;
            put(to, place, sum);
        }
    }
    Ok(())
}

/// Multiplies a list.
fn multiply(list: &mut Seq<i64>, by: i64) -> Result<(), Stop> {
    for place in 0..list.len() {
        let product = times(at(list, place)?, by)?;
        put(list, place, product);
    }
    Ok(())
}

/// All numbers, of so many variables.
pub fn all_numbers(alloc: Global, count: usize) -> Result<Lattice, Stop> {
    let mut basis = Seq::new(alloc);
    for place in 0..count {
        let mut column = repeated(alloc, 0, count)?;
        put(&mut column, place, 1);
        basis.push(column)?;
    }
    Ok(Lattice {
        alloc,
        basis,
        told: Seq::new(alloc),
    })
}

impl Lattice {
    /// A sum of multiples of the variables, over the basis.
    pub fn image(&self, factors: &Seq<i64>) -> Result<Image, Stop> {
        let mut cells = Seq::new(self.alloc);
        let mut value = 0;
        let mut divisor = 0;
        for (place, column) in self.basis.as_slice().iter().enumerate() {
            let cell = product(factors, column)?;
            match self.told.get(place) {
                Some(told) => value = plus(value, times(cell, told.value)?)?,
                None => divisor = divisor_of_two(cell, divisor)?,
            }
            cells.push(cell)?;
        }
        Ok(Image {
            cells,
            value,
            divisor,
        })
    }

    /// What so many equations tell of a sum over the basis.
    pub fn share(&self, image: &Image, equations: usize) -> Result<Share, Stop> {
        let mut by = repeated(self.alloc, 0, equations)?;
        let mut divisor = 1;
        for (place, told) in self.told.as_slice().iter().enumerate() {
            let cell = at(&image.cells, place)?;
            if cell != 0 {
                let common = divisor_of_two(told.divisor, divisor)?;
                let factor = quotient(told.divisor, common)?;
                multiply(&mut by, factor)?;
                divisor = times(divisor, factor)?;
                let own = times(cell, quotient(divisor, told.divisor)?)?;
                add_times(&told.by, own, &mut by)?;
            }
        }
        Ok(Share { by, divisor })
    }

    /// Takes a multiple of one column from another.
    fn take(&mut self, from: usize, by: i64, column: usize) -> Result<(), Stop> {
        if column < self.basis.len() {
            let mut list = self.basis.replace(column, Seq::new(self.alloc));
            if let Some(other) = self.basis.get(from) {
                add_times(other, minus(by)?, &mut list)?;
            }
            put(&mut self.basis, column, list);
        }
        Ok(())
    }

    /// Exchanges two columns.
    fn exchange(&mut self, one: usize, other: usize) {
        if one < self.basis.len() && other < self.basis.len() {
            let list = self.basis.replace(one, Seq::new(self.alloc));
            let list = self.basis.replace(other, list);
            put(&mut self.basis, one, list);
        }
    }

    /// Clears a cell by a column whose own cell divides both at the end.
    fn clear(&mut self, cells: &mut Seq<i64>, pivot: usize, place: usize) -> Result<(), Stop> {
        for _ in 0..128 {
            let own = at(cells, pivot)?;
            let other = at(cells, place)?;
            if other == 0 {
                return Ok(());
            }
            if own != 0 {
                let by = quotient(other, own)?;
                self.take(pivot, by, place)?;
                put(cells, place, plus(other, minus(times(by, own)?)?)?);
            }
            let rest = at(cells, place)?;
            if rest != 0 {
                self.exchange(pivot, place);
                put(cells, place, own);
                put(cells, pivot, rest);
            }
        }
        Err(Stop::Odd)
    }

    /// Brings all free columns but the first of them to 0.
    fn gather(&mut self, cells: &mut Seq<i64>) -> Result<(), Stop> {
        let pivot = self.told.len();
        for place in pivot..cells.len() {
            if place != pivot {
                self.clear(cells, pivot, place)?;
            }
        }
        Ok(())
    }

    /// Takes in the equation of a number that so much is told of, by which a multiple of the first free column is the
    /// rest.
    pub fn fix(
        &mut self,
        mut image: Image,
        constant: i64,
        equation: usize,
        equations: usize,
    ) -> Result<(), Stop> {
        let mut share = self.share(&image, equations)?;
        multiply(&mut share.by, -1)?;
        let own = plus(at(&share.by, equation)?, share.divisor)?;
        put(&mut share.by, equation, own);
        self.gather(&mut image.cells)?;
        let cell = at(&image.cells, self.told.len())?;
        let rest = plus(constant, minus(image.value)?)?;
        if cell < 0 {
            multiply(&mut share.by, -1)?;
        }
        let divisor = times(share.divisor, size(cell)?)?;
        let value = quotient(rest, cell)?;
        self.told.push(Told {
            value,
            by: share.by,
            divisor,
        })?;
        Ok(())
    }
}
