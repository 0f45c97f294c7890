//! The nodes of expressions, each made of its parts.

ghost use Rattle.std.specs.Prelude.{◌≡◌, IfOk};
ghost use Rattle.grammar_theory.specs.Ebnf.{unit, choice, pair, none, some, node};
ghost use Rattle.unity_syntax.specs.Classes.{reserved, symbol};
ghost use Rattle.unity_syntax.specs.Kinds.{Kind, kind};
ghost use Rattle.unity_syntax.specs.Grammar.{make_product, make_sum};
ghost use Rattle.unity_syntax.specs.View.{view_flag, view_list, view_signed, view_factor, view_name, view_number};
ghost use Rattle.unity_syntax.specs.View.{view_expr};
ghost use Rattle.parser_expressions.specs.Bounds.{view_bound_over};
ghost use Rattle.parser_expressions.specs.Joints.{joint_kind};

use crate::joints::Joint;
use crate::ranges::BoundName;
use case_tables::{Symbol, Word};
use std::alloc::{AllocError, Global};
use unity_base::{Held, Seq};
use unity_syntax::{Expr, Name, Operator};

/// `left "=>" right`
pub fn implies(
    alloc: Global,
    at: u64,
    left: Held<Expr>,
    right: Held<Expr>,
) -> Result<Held<Expr>, AllocError>
    ensures { IfOk result (λ x.
        view_expr x ≡ node (kind Kind.expr_implies) at (pair (view_expr left) (view_expr right))) }
{
    Held::new(alloc, Expr::Implies { at, left, right })
}

/// `first "and" ..` or `first "or" ..`, with the further parts
pub fn joined(
    alloc: Global,
    at: u64,
    by: Joint,
    first: Held<Expr>,
    rest: Seq<Expr>,
) -> Result<Held<Expr>, AllocError>
    ensures { IfOk result (λ x.
        view_expr x ≡ node (joint_kind by) at (pair (view_expr first) (view_list view_expr rest))) }
{
    match by {
        Joint::And => Held::new(alloc, Expr::And { at, first, rest }),
        Joint::Or => Held::new(alloc, Expr::Or { at, first, rest }),
    }
}

/// `"not" of`
pub fn not(alloc: Global, at: u64, of: Held<Expr>) -> Result<Held<Expr>, AllocError>
    ensures { IfOk result (λ x. view_expr x ≡ node (kind Kind.expr_not) at (view_expr of)) }
{
    Held::new(alloc, Expr::Not { at, of })
}

/// `left relation right`
pub fn compare(
    alloc: Global,
    at: u64,
    left: Held<Expr>,
    relation: Symbol,
    right: Held<Expr>,
) -> Result<Held<Expr>, AllocError>
    ensures { IfOk result (λ x.
        view_expr x
        ≡ node (kind Kind.expr_compare) at
        (pair (view_expr left) (pair (choice (symbol relation)) (view_expr right)))) }
{
    let whole = Expr::Compare {
        at,
        left,
        relation,
        right,
    };
    Held::new(alloc, whole)
}

/// A sum of products, with a sign in front or more than one product
fn long_sum(
    alloc: Global,
    at: u64,
    minus: bool,
    first: Held<Expr>,
    rest: Seq<(Symbol, Expr)>,
) -> Result<Held<Expr>, AllocError>
    ensures { IfOk result (λ x.
        view_expr x
        ≡ node (kind Kind.expr_sum) at
        (pair (view_flag minus) (pair (view_expr first) (view_list (view_signed view_expr) rest)))) }
{
    let whole = Expr::Sum {
        at,
        minus,
        first,
        rest,
    };
    Held::new(alloc, whole)
}

/// A sum of products. One product with no sign is that product.
pub fn sum(
    alloc: Global,
    at: u64,
    minus: bool,
    first: Held<Expr>,
    rest: Seq<(Symbol, Expr)>,
) -> Result<Held<Expr>, AllocError>
    ensures { IfOk result (λ x.
        view_expr x
        ≡ make_sum at (pair (view_flag minus) (pair (view_expr first) (view_list (view_signed view_expr) rest)))) }
{
    if minus {
        return long_sum(alloc, at, minus, first, rest);
    }
    match rest.as_slice() {
        [] => Ok(first),
        [_, ..] => long_sum(alloc, at, minus, first, rest),
    }
}

/// A product of several atoms
fn long_product(
    alloc: Global,
    at: u64,
    first: Held<Expr>,
    rest: Seq<(Operator, Expr)>,
) -> Result<Held<Expr>, AllocError>
    ensures { IfOk result (λ x. view_expr x
        ≡ node (kind Kind.expr_product) at (pair (view_expr first) (view_list (view_factor view_expr) rest))) }
{
    Held::new(alloc, Expr::Product { at, first, rest })
}

/// A product of atoms. One atom is that atom.
pub fn product(
    alloc: Global,
    at: u64,
    first: Held<Expr>,
    rest: Seq<(Operator, Expr)>,
) -> Result<Held<Expr>, AllocError>
    ensures { IfOk result (λ x.
        view_expr x ≡ make_product at (pair (view_expr first) (view_list (view_factor view_expr) rest))) }
{
    match rest.as_slice() {
        [] => Ok(first),
        [_, ..] => long_product(alloc, at, first, rest),
    }
}

/// `number`
pub fn number(alloc: Global, at: u64, number: u64) -> Result<Held<Expr>, AllocError>
    ensures { IfOk result (λ x. view_expr x ≡ node (kind Kind.expr_number) at (view_number number)) }
{
    Held::new(alloc, Expr::Number { at, number })
}

/// `"true"`
pub fn truth(alloc: Global, at: u64) -> Result<Held<Expr>, AllocError>
    ensures { IfOk result (λ x. view_expr x ≡ node (kind Kind.expr_true) at unit) }
{
    Held::new(alloc, Expr::True { at })
}

/// `"false"`
pub fn falsehood(alloc: Global, at: u64) -> Result<Held<Expr>, AllocError>
    ensures { IfOk result (λ x. view_expr x ≡ node (kind Kind.expr_false) at unit) }
{
    Held::new(alloc, Expr::False { at })
}

/// `word`
pub fn word(alloc: Global, at: u64, name: Name) -> Result<Held<Expr>, AllocError>
    ensures { IfOk result (λ x. view_expr x ≡ node (kind Kind.expr_word) at (pair (view_name name) none)) }
{
    let whole = Expr::Word {
        at,
        name,
        index: None,
    };
    Held::new(alloc, whole)
}

/// `word "[" index "]"`
pub fn indexed(
    alloc: Global,
    at: u64,
    name: Name,
    index: Held<Expr>,
) -> Result<Held<Expr>, AllocError>
    ensures { IfOk result (λ x. view_expr x ≡
        node (kind Kind.expr_word) at (pair (view_name name) (some (view_expr index)))) }
{
    let whole = Expr::Word {
        at,
        name,
        index: Some(index),
    };
    Held::new(alloc, whole)
}

/// `"(" of ")"`
pub fn brackets(alloc: Global, at: u64, of: Held<Expr>) -> Result<Held<Expr>, AllocError>
    ensures { IfOk result (λ x. view_expr x ≡ node (kind Kind.expr_brackets) at (view_expr of)) }
{
    Held::new(alloc, Expr::Brackets { at, of })
}

/// `"(" which name ":" range "::" of ")"`
pub fn quantified(
    alloc: Global,
    at: u64,
    which: Word,
    bound: Held<BoundName>,
    of: Held<Expr>,
) -> Result<Held<Expr>, AllocError>
    ensures { IfOk result (λ x.
        view_expr x
        ≡ node (kind Kind.expr_quantified) at
        (pair (choice (reserved which)) (view_bound_over bound (view_expr of)))) }
{
    let BoundName { name, range } = bound.into_inner();
    let whole = Expr::Quantified {
        at,
        which,
        name,
        range,
        of,
    };
    Held::new(alloc, whole)
}
