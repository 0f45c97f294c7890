/// What a section of certificates tells, one after the other in the order of the text. Facts, waiting formulas and
/// variables are numbered from 1.
#[derive(Clone, Copy, Debug, PartialEq, Eq)]
pub enum CertEvent {
    /// A certificate begins.
    Begin,
    /// A node takes apart the waiting formula of this number.
    Case(u64),
    /// A node goes on with the variable of this number at most the number that follows, and then above it.
    Split(u64, i64),
    /// A node takes a quotient out of the waiting formula of this number.
    Quot(u64),
    /// A node adds multiples of facts, told by the pairs that follow, to a fact that is false.
    Sum,
    /// A node adds multiples of facts, told by the pairs that follow, divides by this number and rounds down.
    Round(i64),
    /// A node states that this number and multiples of variables, told by the pairs that follow, add up to at least 0.
    Share(i64),
    /// A pair of the node before: a multiplier, and the number of a fact or variable.
    Pair(i64, u64),
    /// A certificate ends.
    End,
    /// The section ends.
    Last,
}
