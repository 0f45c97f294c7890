// Obligations, and branches: facts that are linear in the variables, and formulas that wait to be taken
// apart.
use crate::factors::Factors;
use core_terms::from_unity_base::{Seq, Shared};
use core_terms::{CForm, CTerm, Range};

/// A slot or a parameter that occurs in an obligation, with the values that it may have.
#[derive(Clone, Copy, Debug, PartialEq, Eq)]
pub struct Variable {
    /// Whether it is a parameter. Else it is a slot.
    pub param: bool,
    /// The slot's place or the parameter's number.
    pub number: u32,
    pub range: Range,
}

/// A formula that is to hold at all values of its variables in their ranges.
#[derive(Drop)]
pub struct Obligation {
    pub form: CForm,
    /// Slots by number, and then parameters by number.
    pub variables: Seq<Variable>,
}

/// That a sum of factors times variables, and a constant, is at least 0.
#[derive(Drop)]
pub struct Fact {
    /// Each variable's place, from 0 and rising, with a factor that is not 0.
    pub factors: Factors,
    pub constant: i128,
}

/// A linear form: a factor for each variable, in order, and a constant.
#[derive(Drop)]
pub struct Line {
    pub factors: Seq<i128>,
    pub constant: i128,
}

/// What is taken to hold: all its facts, and all formulas that wait.
#[derive(Drop)]
pub struct Branch {
    pub facts: Seq<Fact>,
    pub waiting: Seq<Shared<CForm>>,
    /// How many variables it has after the obligation's: one for each quotient that was taken.
    pub added: u32,
}

/// A term's first `Ite`: its condition, and the term with either part in the place of the `Ite`.
#[derive(Drop)]
pub struct Choice {
    pub when: Shared<CForm>,
    pub yes: Shared<CTerm>,
    pub no: Shared<CTerm>,
}

/// A term's first quotient: what is divided, by what, and the term with a variable in the quotient's place.
#[derive(Drop)]
pub struct Taken {
    pub of: Shared<CTerm>,
    pub divisor: i64,
    pub rest: Shared<CTerm>,
}

/// A formula's first quotient, and the formula with a variable in its place.
#[derive(Drop)]
pub struct Replaced {
    pub taken: Taken,
    pub form: CForm,
}

/// A one-variable fact that bounds its variable: the fact's place in a list, and its constant. Of two
/// bounds from one side the one with the lesser constant is tighter.
#[derive(Clone, Copy, Debug, PartialEq, Eq)]
pub struct Bound {
    pub place: usize,
    pub constant: i128,
}
