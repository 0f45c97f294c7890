//! What the words of a document mean where they stand, and which documents are well named: the
//! definitions, and the tables in which words are looked up.
#![tactic(auto)]

mod known;
mod named;
mod places;

pub use known::{
    Env, Known, NameTable, ParamTable, ProgramTable, bound, bound_named, find, find_program,
    is_param, is_value, is_variable, meaning, missing, outside, param, with_name,
};
pub use named::{Composed, Indices, Meaning, NameFault, Named, Sort, Span, Typed};
pub use places::place;
pub use unity_syntax as from_unity_syntax;
