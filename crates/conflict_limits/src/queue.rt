//! Lines that are to be looked at, each once.
use conflict_tables::{Stop, put};
use std::alloc::{AllocError, Global};
use unity_base::Seq;

/// The lines, and of each whether it is among them.
#[derive(Drop)]
pub struct Queue {
    lines: Seq<usize>,
    is_in: Seq<bool>,
}

/// No lines.
pub fn no_queue(alloc: Global) -> Queue {
    Queue {
        lines: Seq::new(alloc),
        is_in: Seq::new(alloc),
    }
}

impl Queue {
    /// How many lines there are that can be in it.
    pub fn room(&self) -> usize {
        self.is_in.len()
    }

    /// Takes in one line more.
    pub fn grow(&mut self) -> Result<(), AllocError> {
        self.is_in.push(false)
    }

    /// Adds a line.
    pub fn add(&mut self, line: usize) -> Result<(), Stop> {
        if let Some(false) = self.is_in.get(line) {
            put(&mut self.is_in, line, true);
            self.lines.push(line)?;
        }
        Ok(())
    }

    /// Takes the line out that was added last.
    pub fn next(&mut self) -> Option<usize> {
        let line = self.lines.pop()?;
        put(&mut self.is_in, line, false);
        Some(line)
    }

    /// Takes all lines out.
    pub fn clear(&mut self) {
        for _ in 0..self.lines.len() {
            let _ = self.next();
        }
    }
}
