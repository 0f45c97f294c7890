//! The factors of a fact.
ghost use Rattle.std.specs.Prelude.{◌≡◌, ℕ, ℤ, [], ◌∷◌, ◌++◌, ◌↔◌, IsTrue, OnOk, OnErr};

use smallvec::SmallVec;
use std::alloc::{AllocError, Global};
use std::marker::Model;

/// Places of variables, each with a factor, which contracts see as the list of these. Up to two take no memory
/// beside the fact: those of a bound, and of most facts that compare two variables.
#[derive(Drop)]
pub struct Factors {
    items: SmallVec<(u32, i128), 2>,
}

impl Model for Factors {
    ghost use Rattle.std.specs.Prelude.{List, ℕ, ℤ};
    ghost use Rattle.std.specs.Coded.{coded_list, coded×, coded_ℕ, coded_ℤ};

    ghost Value = { List (ℕ × ℤ) };

    ghost coded = { coded_list (coded× coded_ℕ coded_ℤ) };

    ghost view = { λ list. list.items.items };
}

impl Factors {
    /// No factors.
    #[inline(always)]
    pub fn new(alloc: Global) -> Factors
        ensures { result ≡ [] }
    {
        Factors {
            items: SmallVec::new(alloc),
        }
    }

    /// One factor.
    #[inline(always)]
    pub fn one(alloc: Global, place: u32, factor: i128) -> Factors
        ensures { result ≡ (place, factor) ∷ [] }
    {
        let mut items = SmallVec::new(alloc);
        items.push_reserved((place, factor));
        Factors { items }
    }

    /// The factors, in order.
    #[inline(always)]
    pub fn as_slice(&self) -> &[(u32, i128)]
        ensures { result.now ≡ self.now }
    {
        self.items.as_slice()
    }

    /// Whether there is no factor.
    pub fn is_empty(&self) -> bool
        ensures { IsTrue result ↔ (self.now ≡ []) }
    {
        self.items.is_empty()
    }

    /// Puts a factor at the end. Where memory is refused, which it may be from the third on, the list stays.
    #[inline(always)]
    pub fn push(&mut self, factor: (u32, i128)) -> Result<(), AllocError>
        ensures ok { OnOk result (self.new ≡ self.old ++ factor ∷ []) }
        ensures err { OnErr result (self.new ≡ self.old) }
    {
        if self.items.len() < self.items.capacity() {
            self.items.push_reserved(factor);
            return Ok(());
        }
        self.items.push(factor)?;
        Ok(())
    }
}
