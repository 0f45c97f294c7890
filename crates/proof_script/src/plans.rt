// What a search for certificates finds.
use obligations::{Cert, Variable};
use proof_plans::Plan;
use unity_base::Seq;

/// What a search for certificates finds of a document. Programs and steps are told by their words' numbers,
/// and obligations by their numbers, from 1 through the document.
#[derive(Drop)]
pub enum Proof {
    /// The document is accepted with these certificates, one for each obligation, in order.
    Proved {
        plan: Plan,
        certs: Seq<Cert>,
    },
    /// The first obligation that is not valid: it is false at these values of its variables, in order.
    Refuted {
        program: u32,
        step: u32,
        obligation: u64,
        variables: Seq<Variable>,
        values: Seq<i64>,
    },
    /// The budget ended at this obligation.
    Budget {
        program: u32,
        step: u32,
        obligation: u64,
    },
}
