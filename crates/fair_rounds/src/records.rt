// What a step of a proof left.
use executor::from_case_tables::Kind;
use executor::from_core_terms::{CForm, Helper, Range};
use executor::from_unity_base::Seq;

/// A property that a step of a proof gave. Names are words' numbers.
#[derive(Drop)]
pub struct Record {
    /// The step, and the program whose property it is.
    pub name: u32,
    pub program: u32,
    pub kind: Kind,
    /// `Top` for `defined`.
    pub p: CForm,
    /// `Top` for `defined`, and `Bottom` for `invariant`, `stable`, `constant` and `fixed`.
    pub q: CForm,
    /// What is assumed to hold at every state; these formulas name no parameter.
    pub under: Seq<CForm>,
    /// The range of each parameter, by number.
    pub params: Seq<Range>,
    /// The rounds of a kind that leads to something, and 0 for the others.
    pub bound: u64,
    /// The statement that helps, of an ensures alone.
    pub helper: Option<Helper>,
}
