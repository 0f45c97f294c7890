// Nodes of trees whose parts are given by their numbers in a pool.
ghost use Rattle.std.specs.Prelude.{◌≡◌};

/// The number of a formula in a pool.
#[derive(Clone, Copy, Debug, PartialEq, Eq, Hash)]
pub struct FormId {
    pub(crate) place: usize,
}

impl FormId {
    /// The place of the formula among the formulas of its pool, from 0.
    pub fn index(self) -> usize
        ensures { result ≡ self.place }
    {
        self.place
    }
}

/// The number of a term in a pool.
#[derive(Clone, Copy, Debug, PartialEq, Eq, Hash)]
pub struct TermId {
    pub(crate) place: usize,
}

impl TermId {
    /// The place of the term among the terms of its pool, from 0.
    pub fn index(self) -> usize
        ensures { result ≡ self.place }
    {
        self.place
    }
}

/// A formula's node: its parts are given by their numbers.
#[derive(Clone, Copy, Debug, PartialEq, Eq, Hash)]
pub enum FormNode {
    Top,
    Bottom,
    AtLeast(TermId),
    Zero(TermId),
    Not(FormId),
    And(FormId, FormId),
    Or(FormId, FormId),
}

/// A term's node: its parts are given by their numbers.
#[derive(Clone, Copy, Debug, PartialEq, Eq, Hash)]
pub enum TermNode {
    Const(i64),
    Slot(u32),
    Param(u32),
    Add(TermId, TermId),
    Sub(TermId, TermId),
    Scale(i64, TermId),
    Div(TermId, i64),
    Mod(TermId, i64),
    Ite(FormId, TermId, TermId),
}
