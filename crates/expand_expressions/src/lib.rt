//! Expressions in core form: terms and formulas, folded, with always names put in place and quantifiers unfolded.
#![tactic(auto)]

mod arrays;
mod bytes;
mod comparisons;
mod forming;
mod joining;
mod measures;
mod operations;
mod places;
mod products;
mod quotients;
mod ranges;
mod refusal;
mod words;

pub use bytes::first_byte;
pub use forming::form;
pub use operations::{NumberCore, TruthCore, number, truth};
pub use places::{
    AlwaysTable, Env, Known, ParamBounds, ValueTable, VariableSlots, VariableTable, among_params,
    find_bound, find_variable, outside, with_bound,
};
pub use quotients::bad_divisor;
pub use ranges::{Numbers, is_fixed_range, range_misfit, range_numbers};
pub use refusal::Refusal;
