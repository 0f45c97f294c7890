// What a proof term gives.
use core_terms::CForm;
use unity_base::{Seq, Shared};

/// That p leads to q within a bound, in the executions whose states all meet the formulas of `under`,
/// where the formulas of `forms` hold at all states.
#[derive(Drop)]
pub struct Led {
    pub p: Shared<CForm>,
    pub q: Shared<CForm>,
    pub bound: u64,
    pub under: Seq<CForm>,
    pub forms: Seq<CForm>,
}
