//! Numbers by the hash of what they stand for.
use crate::lists::{put, repeated};
use std::alloc::{AllocError, Global};
use unity_base::Seq;

/// The number that has this hash, in its place or the next free one.
#[derive(Clone, Copy)]
struct Slot {
    hash: u64,
    number: usize,
}

/// What stands so many steps after a hash's own place.
#[derive(Clone, Copy)]
pub enum Probe {
    /// Nothing: nothing else has this hash.
    Empty,
    /// A number of another hash.
    Other,
    /// A number that may be meant.
    Number(usize),
}

/// The numbers, in twice as many places or more.
#[derive(Drop)]
pub struct Hashes {
    slots: Seq<Option<Slot>>,
    used: usize,
}

/// No numbers.
pub fn no_hashes(alloc: Global) -> Hashes {
    Hashes {
        slots: Seq::new(alloc),
        used: 0,
    }
}

/// The hash of a number that follows others of this hash.
pub fn mixed(hash: u64, number: u64) -> u64 {
    let mix = (hash ^ number).wrapping_mul(0x9E37_79B9_7F4A_7C15);
    mix ^ (mix >> 29)
}

impl Hashes {
    /// How many places there are.
    pub fn len(&self) -> usize {
        self.slots.len()
    }

    /// The place so many steps after a hash's own. The number of places is a power of 2.
    fn place(&self, hash: u64, step: usize) -> usize {
        (hash as usize).wrapping_add(step) & self.slots.len().saturating_sub(1)
    }

    /// What stands so many steps after a hash's own place.
    pub fn probe(&self, hash: u64, step: usize) -> Probe {
        match self.slots.get(self.place(hash, step)) {
            Some(Some(slot)) => {
                if slot.hash == hash {
                    Probe::Number(slot.number)
                } else {
                    Probe::Other
                }
            }
            _ => Probe::Empty,
        }
    }

    /// Puts a number in the first free place.
    fn fill(&mut self, slot: Slot) {
        for step in 0..self.slots.len() {
            let place = self.place(slot.hash, step);
            if let Some(None) = self.slots.get(place) {
                put(&mut self.slots, place, Some(slot));
                return;
            }
        }
    }

    /// Takes twice as many places.
    fn grow(&mut self, alloc: Global) -> Result<(), AllocError> {
        let size = self.slots.len().saturating_mul(2).max(64);
        let mut old = repeated(alloc, None, size)?;
        std::mem::swap(&mut old, &mut self.slots);
        for _ in 0..old.len() {
            if let Some(Some(slot)) = old.pop() {
                self.fill(slot);
            }
        }
        Ok(())
    }

    /// Adds a number.
    pub fn add(&mut self, alloc: Global, hash: u64, number: usize) -> Result<(), AllocError> {
        if self.used.saturating_mul(2) >= self.slots.len() {
            self.grow(alloc)?;
        }
        self.used = self.used.saturating_add(1);
        self.fill(Slot { hash, number });
        Ok(())
    }
}
