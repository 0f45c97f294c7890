//! The core form of a document means what the document means: its programs have the same first states and the
//! same steps, its claims the same truth.
//!
//! These functions do nothing: each states laws.
#![tactic(auto)]

mod declarations;
mod documents;
mod exactness;
mod expressions;

pub use declarations::{agreement_laws, name_laws, slot_laws, word_laws};
pub use documents::{
    claim_laws, exact_laws, fault_laws, program_laws, proof_laws, reference_laws, sight_laws,
    term_laws,
};
pub use exactness::{exact_program_laws, exact_proof_laws, part_laws, seen_laws};
pub use expressions::{
    core_program_laws, exact_expression_laws, lookup_laws, scope_laws, step_laws, value_laws,
    weight_laws,
};
