// What is tried.
use core_terms::{CForm, CProgram, CSlot};

/// A leads-to with a bound, at some numbers of its parameters, of a program in which every state is a start.
#[derive(Clone, Copy)]
pub struct Claim<'a> {
    pub slots: &'a [CSlot],
    pub program: &'a CProgram,
    pub p: &'a CForm,
    pub q: &'a CForm,
    pub params: &'a [i64],
    pub bound: u64,
}
