//! The parts of the core form that need no expression: words with their numbers, slots, start values, ranges,
//! parameters, references and schedules.
#![tactic(auto)]

mod elements;
mod enumerations;
mod laws;
mod layout;
mod lists;
mod numbers;
mod params;
mod proof_texts;
mod references;
mod schedules;
mod shown;
mod start;
mod texts;
mod words;

pub use enumerations::enumeration_words;
pub use laws::parts_before;
pub use layout::{Laying, Layout, lay_out};
pub use lists::first_and_rest;
pub use numbers::{fixed_end, fixed_range, literal, offset};
pub use params::{param_names, param_ranges, step_params};
pub use references::{
    claim_kind, core_arg, core_helper, core_ref, core_refs, pair_rule, text_rule,
};
pub use schedules::core_schedule;
pub use shown::shown_slots;
pub use start::start_values;
pub use texts::document_words;
pub use words::WordTable;
