//! Quotients: each that has neither an `Ite` nor another quotient in it has one variable, wherever it stands.
use crate::hashes::{Probe, mixed};
use crate::masks::{NONE, mask_of};
use crate::stop::Stop;
use crate::table::Table;

/// A sum that is divided, by what, and the variable that stands for the quotient.
#[derive(Clone, Copy)]
pub struct Divided {
    /// The number of the sum.
    pub of: usize,
    /// The divisor, at least 1.
    pub divisor: i64,
    /// The number of the variable.
    pub variable: usize,
}

/// The hash of a quotient.
fn hash_of_quotient(of: usize, divisor: i64) -> u64 {
    mixed(mixed(5, of as u64), divisor.cast_unsigned())
}

impl Table {
    /// The variable of a quotient, where it has one.
    pub fn known_quotient(&self, of: usize, divisor: i64) -> Option<usize> {
        let hash = hash_of_quotient(of, divisor);
        for step in 0..self.divided_hashes.len() {
            match self.divided_hashes.probe(hash, step) {
                Probe::Empty => return None,
                Probe::Other => {}
                Probe::Number(number) => {
                    if let Some(known) = self.divided.get(number) {
                        if known.of == of && known.divisor == divisor {
                            return Some(known.variable);
                        }
                    }
                }
            }
        }
        None
    }

    /// The variable of a quotient, which is a new one where it has none. An error where memory is refused.
    pub fn quotient_variable(&mut self, of: usize, divisor: i64) -> Result<usize, Stop> {
        if let Some(variable) = self.known_quotient(of, divisor) {
            return Ok(variable);
        }
        let variable = self.new_variable()?;
        let number = self.divided.len();
        self.divided.push(Divided {
            of,
            divisor,
            variable,
        })?;
        self.divided_hashes
            .add(self.alloc, hash_of_quotient(of, divisor), number)?;
        Ok(variable)
    }

    /// Gives a quotient a variable, where what is divided is linear.
    pub fn name_quotient(&mut self, of: usize, divisor: i64) -> Result<(), Stop> {
        let term = self.term(of)?;
        if !term.has_choice && !term.has_quotient {
            let _ = self.quotient_variable(of, divisor)?;
        }
        Ok(())
    }

    /// The variable of a quotient as a mask.
    pub fn mask_of_quotient(&self, of: usize, divisor: i64) -> u64 {
        match self.known_quotient(of, divisor) {
            Some(variable) => mask_of(variable),
            None => NONE,
        }
    }
}
