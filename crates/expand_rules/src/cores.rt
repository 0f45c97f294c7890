use core_terms::from_unity_base::Shared;
use core_terms::{CForm, CTerm};

/// The core of an expression: a term where it is a number, and a formula where it is a truth. Beside
/// it stands what it is worth where it names no slot and no parameter.
#[derive(Drop)]
pub enum Core {
    Number {
        term: Shared<CTerm>,
        known: Option<i128>,
    },
    Truth {
        form: Shared<CForm>,
        known: Option<bool>,
    },
}

/// What a bound name or a parameter stands for.
#[derive(Clone, Copy)]
pub enum Bound {
    /// One number.
    Number(i64),
    /// The parameter of this number, whose values have this weight: the greatest of 1 and of the
    /// distances of its range's ends from 0.
    Param { number: u32, weight: u64 },
}

/// What fails in expansion, in any instance.
#[derive(Clone, Copy)]
pub struct Flaws {
    /// The first byte at which an end of a range is too large.
    pub range: Option<u64>,
    /// The first byte of a divisor below 1.
    pub divisor: Option<u64>,
}

/// How large an expression is before it is folded, with its quantifiers unfolded.
#[derive(Clone, Copy)]
pub struct Measure {
    /// The nodes, and one more for each quantifier: 0 to 65,537, which stands for all greater sizes.
    pub size: u64,
    /// What the quantifiers in it count, likewise. A read with a constant index counts this of its
    /// index, and one.
    pub quantified: u64,
    /// How far from 0 the number can lie; 0 for a truth.
    pub own: u64,
    /// The greatest such distance among it and its parts.
    pub most: u64,
    pub flaws: Flaws,
}

/// What an expression becomes.
#[derive(Drop)]
pub struct Formed {
    pub core: Core,
    /// Whether it names no variable and no parameter, also not through always names.
    pub constant: bool,
    /// Whether the core is worth what the expression is, where nothing fails: each product has at most one
    /// factor that is not constant, each divisor is constant, and each word in a range end stands for one
    /// number. So it is where names have no fault.
    pub exact: bool,
    pub measure: Measure,
}
