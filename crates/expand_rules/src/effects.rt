use crate::cores::Flaws;
use core_terms::from_unity_base::Seq;
use core_terms::{CForm, CWrite};

/// How large an assignment is before it is folded, with its quantifiers unfolded.
#[derive(Clone, Copy)]
pub struct Count {
    /// The nodes of its conditions and values, one more for each quantifier, each instance of a component
    /// and each alternative: 0 to 65,537, which stands for all greater sizes.
    pub size: u64,
    /// The greatest weight of a part of it.
    pub most: u64,
    pub flaws: Flaws,
}

/// What an assignment becomes.
#[derive(Drop)]
pub struct Effect {
    /// Where one of these holds, the assignment writes outside an array.
    pub outside: Seq<CForm>,
    /// All writes, which are made at once.
    pub writes: Seq<CWrite>,
    /// Whether the core does what the assignment does. So it is where names have no fault.
    pub exact: bool,
    pub count: Count,
}
