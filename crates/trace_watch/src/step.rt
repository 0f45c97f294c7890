// A step that is watched.
use crate::case::Case;
use fair_rounds::Record;

#[derive(Drop)]
pub(crate) struct Step<'a> {
    /// The place of its record.
    pub(crate) place: u32,
    pub(crate) record: &'a Record,
    /// Room for the numbers of a case.
    pub(crate) values: Vec<i64>,
    /// A case for each choice of numbers for its parameters.
    pub(crate) cases: Vec<Case>,
}
