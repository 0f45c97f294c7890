// Which part of its step's rule an obligation is.
use core_terms::CStmt;
use unity_base::Shared;

/// What is asked of one instance of a statement.
#[derive(Clone, Copy, Debug, PartialEq, Eq)]
pub enum Asked {
    /// That it is defined.
    Defined,
    /// That what holds before it holds after it.
    Keeps,
    /// That after it the left or the right side holds.
    Goes,
    /// That after it the right side holds.
    Helps,
    /// That it leaves the state as it is.
    Rests,
}

/// Which part of its step's rule an obligation is.
#[derive(Drop)]
pub enum Origin {
    /// What an instance does.
    Of(Asked, Shared<CStmt>),
    /// That the claim holds at the start.
    Start,
    /// That the indices of the statement that helps are some statement's.
    Meant,
    /// That the left side gives the right side.
    Given,
    /// That the left side gives that of the part.
    LeftSide,
    /// That the right side of the part gives the right side.
    RightSide,
    /// That the metric of an induction lies in its range.
    Measure,
    /// That what a part of a union was proved under holds in the union: the name of the first invariant that claims
    /// it, by its word's number.
    Shown(Option<u32>),
    /// That the program of the first name, a layer, begins where that of the second name may.
    Begins(u32, u32),
}
