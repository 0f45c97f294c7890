//! The formulas of an obligation, and their negations, in a table. Trees are gone down by one small function for each
//! kind of node, so that the deepest formula is within a small stack.
use crate::lists::times;
use crate::parts::{Pair, Parts};
use crate::stop::Stop;
use crate::table::Table;
use core_terms::{CForm, CTerm, Joining, Pairing};
use obligations::Variable;
use unity_base::Shared;

/// Adds a multiple of a term to the sum.
#[cycle(compiling)]
fn add_term(parts: &mut Parts<'_>, t: &CTerm, by: i64, table: &mut Table) -> Result<(), Stop> {
    match t {
        CTerm::Const(c) => parts.add_number(*c, by),
        CTerm::Slot(n) => parts.add_variable(false, *n, by),
        CTerm::Param(n) => parts.add_variable(true, *n, by),
        CTerm::Add(a, b) => add_pair(parts, Pairing::Sum, a, b, by, table),
        CTerm::Sub(a, b) => add_pair(parts, Pairing::Difference, a, b, by, table),
        CTerm::Scale(k, a) => add_multiple(parts, *k, a, by, table),
        CTerm::Div(a, k) => add_quotient(parts, a, *k, by, table),
        CTerm::Mod(a, k) => add_remainder(parts, a, *k, by, table),
        CTerm::Ite(c, a, b) => add_choice(parts, c, a, b, by, table),
    }
}

/// Adds a multiple of the sum or the difference of two terms.
#[cycle(compiling)]
#[inline(never)]
fn add_pair(
    parts: &mut Parts<'_>,
    which: Pairing,
    a: &Shared<CTerm>,
    b: &Shared<CTerm>,
    by: i64,
    table: &mut Table,
) -> Result<(), Stop> {
    add_term(parts, a.get(), by, table)?;
    match which {
        Pairing::Sum => add_term(parts, b.get(), by, table),
        Pairing::Difference => add_term(parts, b.get(), times(by, -1)?, table),
    }
}

/// Adds a multiple of a multiple of a term.
#[cycle(compiling)]
#[inline(never)]
fn add_multiple(
    parts: &mut Parts<'_>,
    k: i64,
    a: &Shared<CTerm>,
    by: i64,
    table: &mut Table,
) -> Result<(), Stop> {
    let product = times(by, k)?;
    add_term(parts, a.get(), product, table)
}

/// Adds a multiple of a quotient.
#[cycle(compiling)]
#[inline(never)]
fn add_quotient(
    parts: &mut Parts<'_>,
    a: &Shared<CTerm>,
    k: i64,
    by: i64,
    table: &mut Table,
) -> Result<(), Stop> {
    parts.begin_sum(table.alloc)?;
    add_term(parts, a.get(), 1, table)?;
    parts.add_quotient(k, false, by, table)
}

/// Adds a multiple of what a division leaves.
#[cycle(compiling)]
#[inline(never)]
fn add_remainder(
    parts: &mut Parts<'_>,
    a: &Shared<CTerm>,
    k: i64,
    by: i64,
    table: &mut Table,
) -> Result<(), Stop> {
    parts.begin_sum(table.alloc)?;
    add_term(parts, a.get(), 1, table)?;
    parts.add_quotient(k, true, by, table)
}

/// Adds a multiple of one of two terms.
#[cycle(compiling)]
#[inline(never)]
fn add_choice(
    parts: &mut Parts<'_>,
    c: &Shared<CForm>,
    a: &Shared<CTerm>,
    b: &Shared<CTerm>,
    by: i64,
    table: &mut Table,
) -> Result<(), Stop> {
    add_form(parts, c.get(), table)?;
    begin_term(parts, a, table)?;
    parts.end_term(table)?;
    begin_term(parts, b, table)?;
    parts.add_choice(by, table)
}

/// Begins a sum with a term.
#[cycle(compiling)]
#[inline(never)]
fn begin_term(parts: &mut Parts<'_>, t: &Shared<CTerm>, table: &mut Table) -> Result<(), Stop> {
    parts.begin_sum(table.alloc)?;
    add_term(parts, t.get(), 1, table)
}

/// A formula over these variables and its negation, in the table. `Odd` where a number has more than 64 bits, or a
/// variable is not among them.
pub fn compile(vs: &[Variable], f: &CForm, table: &mut Table) -> Result<Pair, Stop> {
    let mut parts = Parts::new(table.alloc, vs);
    add_form(&mut parts, f, table)?;
    parts.last_pair()
}

/// Does a formula and its negation.
#[cycle(compiling)]
fn add_form(parts: &mut Parts<'_>, f: &CForm, table: &mut Table) -> Result<(), Stop> {
    match f {
        CForm::Top => parts.add_truth(true, table),
        CForm::Bottom => parts.add_truth(false, table),
        CForm::AtLeast(t) => add_least(parts, t, table),
        CForm::Zero(t) => add_zero(parts, t, table),
        CForm::Not(g) => add_not(parts, g, table),
        CForm::And(g, h) => add_joined(parts, Joining::Both, g, h, table),
        CForm::Or(g, h) => add_joined(parts, Joining::Either, g, h, table),
    }
}

/// Does that a term is at least 0.
#[cycle(compiling)]
#[inline(never)]
fn add_least(parts: &mut Parts<'_>, t: &CTerm, table: &mut Table) -> Result<(), Stop> {
    parts.begin_sum(table.alloc)?;
    add_term(parts, t, 1, table)?;
    parts.add_least(table)
}

/// Does that a term is 0.
#[cycle(compiling)]
#[inline(never)]
fn add_zero(parts: &mut Parts<'_>, t: &CTerm, table: &mut Table) -> Result<(), Stop> {
    parts.begin_sum(table.alloc)?;
    add_term(parts, t, 1, table)?;
    parts.add_zero(table)
}

/// Does a negation.
#[cycle(compiling)]
#[inline(never)]
fn add_not(parts: &mut Parts<'_>, g: &Shared<CForm>, table: &mut Table) -> Result<(), Stop> {
    add_form(parts, g.get(), table)?;
    parts.turn_last()
}

/// Does both or either of two formulas.
#[cycle(compiling)]
#[inline(never)]
fn add_joined(
    parts: &mut Parts<'_>,
    joining: Joining,
    g: &Shared<CForm>,
    h: &Shared<CForm>,
    table: &mut Table,
) -> Result<(), Stop> {
    add_form(parts, g.get(), table)?;
    add_form(parts, h.get(), table)?;
    parts.join_last(joining, table)
}
