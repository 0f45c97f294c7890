//! The reading of programs: their declarations, their statements, and programs whole.
#![tactic(auto)]

mod declarations;
mod nodes;
mod programs;
mod statements;

pub use parser_expressions as from_parser_expressions;
pub use programs::program;
