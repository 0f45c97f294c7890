//! The table of a search by conflicts: all formulas, facts, lines and sums that it speaks of, each with a number, and
//! equal ones with the same; the formulas of an obligation in such a table; and what a formula that waits becomes.
#![tactic(auto)]

mod choices;
mod compiling;
mod hashes;
mod lists;
mod masks;
mod numbering;
mod parts;
mod places;
mod quotients;
mod relating;
mod stop;
mod sums;
mod table;
mod triangles;

pub use choices::{sides_of, without_quotient, without_quotient_by};
pub use compiling::compile;
pub use lists::{Span, append, at, common_divisor, items_in, minus, plus, put, repeated, times};
pub use parts::Pair;
pub use quotients::Divided;
pub use stop::Stop;
pub use sums::{Factor, Multiple, Sum, no_sum};
pub use table::{
    Fact, Form, Link, Opened, Part, Relation, Table, Term, is_against, line_of, new_table,
    opposite, way_of,
};
pub use triangles::Triangle;
