// Trees of a pool, each with the number of its nodes.
ghost use Rattle.std.specs.Prelude.{◌≡◌, ◌^◌, min};
ghost use Rattle.core_terms.specs.Sizes.{form_nodes, term_nodes};

use crate::trees::{CForm, CTerm};
use unity_base::Shared;

/// A formula of a pool.
#[derive(Drop)]
pub struct FormEntry {
    pub tree: Shared<CForm>,
    /// The number of nodes, or 2^63 where there are more.
    pub size: u64,
    ghost sized: { size ≡ min (form_nodes tree) (2 ^ 63) },
}

/// A term of a pool.
#[derive(Drop)]
pub struct TermEntry {
    pub tree: Shared<CTerm>,
    /// The number of nodes, or 2^63 where there are more.
    pub size: u64,
    ghost sized: { size ≡ min (term_nodes tree) (2 ^ 63) },
}
