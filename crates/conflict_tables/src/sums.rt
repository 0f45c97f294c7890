//! Sums that are being made: factors times variables, multiples of parts that are not linear, and a constant.
use crate::lists::{append, at, minus, plus, put, times};
use crate::stop::Stop;
use std::alloc::Global;
use unity_base::Seq;

/// A multiple of a variable.
#[derive(Clone, Copy, PartialEq, Eq)]
pub struct Factor {
    /// The variable's number, which is that of its line.
    pub variable: usize,
    /// How often it counts.
    pub times: i64,
}

/// A multiple of a part that is not linear.
#[derive(Clone, Copy, PartialEq, Eq)]
pub struct Multiple {
    /// How often the part counts.
    pub times: i64,
    /// The part's number in the table.
    pub part: usize,
}

/// A sum. Its variables rise, and no factor is 0. Its parts stand in the order in which they are read.
#[derive(Drop)]
pub struct Sum {
    /// The multiples of variables.
    pub factors: Seq<Factor>,
    /// The multiples of parts that are not linear.
    pub parts: Seq<Multiple>,
    /// The number that stands alone.
    pub constant: i64,
}

/// The sum of nothing.
pub fn no_sum(alloc: Global) -> Sum {
    Sum {
        factors: Seq::new(alloc),
        parts: Seq::new(alloc),
        constant: 0,
    }
}

/// A sum once more.
pub fn copy_of(alloc: Global, sum: &Sum) -> Result<Sum, Stop> {
    let mut copy = no_sum(alloc);
    append(&mut copy.factors, sum.factors.as_slice())?;
    append(&mut copy.parts, sum.parts.as_slice())?;
    copy.constant = sum.constant;
    Ok(copy)
}

/// How many factors of a sum are of variables before this one.
fn place_in(factors: &[Factor], variable: usize) -> usize {
    for back in 0..factors.len() {
        let place = factors.len() - 1 - back;
        if let Some(factor) = factors.get(place) {
            if factor.variable < variable {
                return place.saturating_add(1);
            }
        }
    }
    0
}

impl Sum {
    /// Adds a number. `Odd` where the constant has more than 64 bits.
    pub fn add_number(&mut self, number: i64) -> Result<(), Stop> {
        self.constant = plus(self.constant, number)?;
        Ok(())
    }

    /// Adds a multiple of a variable. `Odd` where its factor has more than 64 bits.
    pub fn add_factor(&mut self, variable: usize, by: i64) -> Result<(), Stop> {
        let place = place_in(self.factors.as_slice(), variable);
        match self.factors.get(place) {
            Some(factor) if factor.variable == variable => {
                let total = plus(factor.times, by)?;
                self.put_factor(place, variable, total);
                Ok(())
            }
            _ => self.insert_factor(place, variable, by),
        }
    }

    /// Puts a factor in the place of another of its variable, or takes that out where it is 0.
    fn put_factor(&mut self, place: usize, variable: usize, total: i64) {
        if total != 0 {
            put(
                &mut self.factors,
                place,
                Factor {
                    variable,
                    times: total,
                },
            );
        } else if place < self.factors.len() {
            let _ = self.factors.remove(place);
        }
    }

    /// Puts a factor before the one at a place, unless it is 0.
    fn insert_factor(&mut self, place: usize, variable: usize, by: i64) -> Result<(), Stop> {
        if by != 0 && place <= self.factors.len() {
            self.factors.insert(
                place,
                Factor {
                    variable,
                    times: by,
                },
            )?;
        }
        Ok(())
    }

    /// Adds factors, each so many times. `Odd` where one has more than 64 bits.
    pub fn add_factors(&mut self, factors: &[Factor], by: i64) -> Result<(), Stop> {
        for factor in factors {
            self.add_factor(factor.variable, times(factor.times, by)?)?;
        }
        Ok(())
    }

    /// Adds a multiple of a part, behind the others.
    pub fn add_part(&mut self, part: usize, by: i64) -> Result<(), Stop> {
        self.parts.push(Multiple { times: by, part })?;
        Ok(())
    }

    /// Adds multiples of parts, each so many times. `Odd` where one has more than 64 bits.
    pub fn add_parts(&mut self, parts: &[Multiple], by: i64) -> Result<(), Stop> {
        for multiple in parts {
            self.add_part(multiple.part, times(multiple.times, by)?)?;
        }
        Ok(())
    }

    /// Turns all signs. `Odd` where a number has more than 64 bits.
    pub fn negate(&mut self) -> Result<(), Stop> {
        for place in 0..self.factors.len() {
            let factor = at(&self.factors, place)?;
            let turned = Factor {
                variable: factor.variable,
                times: minus(factor.times)?,
            };
            put(&mut self.factors, place, turned);
        }
        for place in 0..self.parts.len() {
            let multiple = at(&self.parts, place)?;
            let turned = Multiple {
                times: minus(multiple.times)?,
                part: multiple.part,
            };
            put(&mut self.parts, place, turned);
        }
        self.constant = minus(self.constant)?;
        Ok(())
    }
}
