// The tables of a pool: each node once, with the tree that it is at the same place.
use crate::entries::{FormEntry, TermEntry};
use crate::nodes::{FormNode, TermNode};
use indexmap::IndexSet;
use std::alloc::Global;
use unity_base::Seq;

/// The tables of a pool.
#[derive(Drop)]
pub struct Tables {
    pub alloc: Global,
    pub form_nodes: IndexSet<FormNode>,
    pub forms: Seq<FormEntry>,
    pub term_nodes: IndexSet<TermNode>,
    pub terms: Seq<TermEntry>,
}
