//! Programs.

use crate::declaration::{Def, Init, Var};
use crate::expression::Expr;
use crate::name::Name;
use crate::statement::Items;
use unity_base::Seq;

/// An initially section: `"initially" pred`.
#[derive(Drop)]
pub struct Initially {
    /// The byte at which the word `initially` begins.
    pub at: u64,
    pub of: Expr,
}

/// A program:
/// `program = "program" word "=" word "[]" word "end"
///          | "program" word [ "declare" { var } ] [ "always" { def } ] [ "initially" pred ]
///            [ "start" init { "," init } ] "assign" items "end"`.
#[derive(Drop)]
pub enum Program {
    /// The union of two programs.
    Union {
        at: u64,
        name: Name,
        left: Name,
        right: Name,
    },
    Plain {
        at: u64,
        name: Name,
        declare: Option<Seq<Var>>,
        always: Option<Seq<Def>>,
        initially: Option<Initially>,
        start: Option<(Init, Seq<Init>)>,
        items: Items,
    },
}
