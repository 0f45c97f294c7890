//! The core form on which rules work: terms, formulas, programs, proofs and documents.
#![tactic(auto)]

mod arguments;
mod building;
mod closed;
mod copies;
mod documents;
mod entries;
mod equality;
mod evaluation;
mod folding;
mod interning;
mod joining;
mod known;
mod laws;
mod marks;
mod measures;
mod merging;
mod nodes;
mod placing;
mod pool;
mod programs;
mod replacing;
mod tables;
mod trees;
mod weights;

pub use case_tables as from_case_tables;
pub use closed::{number_of, quotient, remainder, scaled, truth_of};
pub use copies::{copy_form, copy_term, held_form, held_term, owned_form, owned_term};
pub use documents::{Arg, CDocument, CProof, CRule, CSchedule, CStep, Choice, Helper, PTerm, Ref};
pub use equality::{same, same_term};
pub use evaluation::{holds, value};
pub use folding::{
    and_form, at_least_form, choice_term, difference_term, folded_form, folded_term, not_form,
    or_form, placed_choice, placed_form, placed_term, quotient_term, remainder_term, scaled_term,
    sum_term, zero_form,
};
pub use joining::{copy_forms, join_programs};
pub use known::{
    Dividing, Joining, Pairing, Sense, both_true, choice_known, constant_known, divided_known,
    either_true, joined_known, not_known, paired_known, scaled_known, sense_known, truth_known,
    variable_known,
};
pub use laws::{folding_laws, frame_laws, replacing_laws, same_is_equal};
pub use marks::Mark;
pub use measures::{size_of, size_of_term, size_within, term_within};
pub use nodes::{FormId, FormNode, TermId, TermNode};
pub use pool::Pool;
pub use programs::{CProgram, CSlot, CStmt, CWrite, Print};
pub use replacing::with_params;
pub use trees::{CForm, CTerm, Range};
pub use unity_base as from_unity_base;
pub use weights::weight_of;
