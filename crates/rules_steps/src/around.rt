// What a step sees of its document.
use core_terms::{CProgram, CSlot};

/// What a step sees of its document: the version of its text, its variables and its programs.
#[derive(Clone, Copy)]
pub struct Around<'a> {
    pub version: u64,
    pub slots: &'a [CSlot],
    pub programs: &'a [CProgram],
}
