// What is kept of a plan.
use fair_rounds::Record;
use unity_base::Seq;

/// What is kept of what the steps of a document's proofs leave.
#[derive(Drop)]
pub struct Summary {
    /// The property of each step, in order.
    pub records: Seq<Record>,
    /// How many obligations the steps left.
    pub obligations: u64,
}
