//! The terms, each made of its parts.

ghost use Rattle.std.specs.Prelude.{◌≡◌, IfOk};
ghost use Rattle.grammar_theory.specs.Ebnf.{choice, node, pair};
ghost use Rattle.unity_syntax.specs.Classes.{reserved};
ghost use Rattle.unity_syntax.specs.Kinds.{Kind, kind};
ghost use Rattle.unity_syntax.specs.View.{view_expr, view_ref, view_term};
ghost use Rattle.parser_expressions.specs.Bounds.{view_bound_over};
ghost use Rattle.parser_proofs.specs.TermParts.{view_descent, view_weakening};

use case_tables::Word;
use parser_expressions::BoundName;
use std::alloc::{AllocError, Global};
use unity_base::Held;
use unity_syntax::{Expr, Ref, Term};

/// What stands in the parentheses of `weaken`: `pred "," pred "," term`.
#[derive(Drop)]
pub struct Weakening {
    pub p: Held<Expr>,
    pub q: Held<Expr>,
    pub of: Held<Term>,
}

/// What stands in those of `induct` after the bound name: `pred "," pred "," pred "," term`.
#[derive(Drop)]
pub struct Descent {
    pub measure: Held<Expr>,
    pub p: Held<Expr>,
    pub q: Held<Expr>,
    pub of: Held<Term>,
}

/// `"imply" "(" p "," q ")"`
pub fn imply(alloc: Global, at: u64, p: Held<Expr>, q: Held<Expr>) -> Result<Held<Term>, AllocError>
    ensures { IfOk result (λ x. view_term x ≡ node (kind Kind.term_imply) at (pair (view_expr p) (view_expr q))) }
{
    let whole = Term::Imply {
        at,
        p: p.into_inner(),
        q: q.into_inner(),
    };
    Held::new(alloc, whole)
}

/// `"from" of`
pub fn from(alloc: Global, at: u64, of: Ref) -> Result<Held<Term>, AllocError>
    ensures { IfOk result (λ x. view_term x ≡ node (kind Kind.term_from) at (view_ref of)) }
{
    Held::new(alloc, Term::From { at, of })
}

/// `which "(" first "," second ")"`
pub fn pair(
    alloc: Global,
    at: u64,
    which: Word,
    first: Held<Term>,
    second: Held<Term>,
) -> Result<Held<Term>, AllocError>
    ensures { IfOk result (λ x.
        view_term x
        ≡ node (kind Kind.term_pair) at
        (pair (choice (reserved which)) (pair (view_term first) (view_term second)))) }
{
    let whole = Term::Pair {
        at,
        which,
        first,
        second,
    };
    Held::new(alloc, whole)
}

/// `"exists" "(" name ":" range "," of ")"`
pub fn exists(
    alloc: Global,
    at: u64,
    bound: Held<BoundName>,
    of: Held<Term>,
) -> Result<Held<Term>, AllocError>
    ensures { IfOk result (λ x. view_term x ≡ node (kind Kind.term_exists) at (view_bound_over bound (view_term of))) }
{
    let BoundName { name, range } = bound.into_inner();
    let whole = Term::Exists {
        at,
        name,
        range,
        of,
    };
    Held::new(alloc, whole)
}

/// `"induct" "(" name ":" range "," .. ")"`
pub fn induct(
    alloc: Global,
    at: u64,
    bound: Held<BoundName>,
    parts: Descent,
) -> Result<Held<Term>, AllocError>
    ensures { IfOk result (λ x. view_term x ≡
        node (kind Kind.term_induct) at (view_bound_over bound (view_descent parts))) }
{
    let BoundName { name, range } = bound.into_inner();
    let whole = Term::Induct {
        at,
        name,
        range,
        measure: parts.measure.into_inner(),
        p: parts.p.into_inner(),
        q: parts.q.into_inner(),
        of: parts.of,
    };
    Held::new(alloc, whole)
}

/// `"psp" "(" of "," by ")"`
pub fn psp(alloc: Global, at: u64, of: Held<Term>, by: Ref) -> Result<Held<Term>, AllocError>
    ensures { IfOk result (λ x. view_term x ≡ node (kind Kind.term_psp) at (pair (view_term of) (view_ref by))) }
{
    Held::new(alloc, Term::Psp { at, of, by })
}

/// `"weaken" "(" .. ")"`
pub fn weaken(alloc: Global, at: u64, parts: Weakening) -> Result<Held<Term>, AllocError>
    ensures { IfOk result (λ x. view_term x ≡ node (kind Kind.term_weaken) at (view_weakening parts)) }
{
    let whole = Term::Weaken {
        at,
        p: parts.p.into_inner(),
        q: parts.q.into_inner(),
        of: parts.of,
    };
    Held::new(alloc, whole)
}
