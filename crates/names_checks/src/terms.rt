//! Proof terms.

ghost use Rattle.std.specs.Prelude.{◌≡◌, [], ◌∷◌, ◌+◌, map, Some, None};
ghost use Rattle.names_rules.specs.declared.named.Meaning.{Meaning};
ghost use Rattle.names_rules.specs.Scope.{bounds, entries, scope};
ghost use Rattle.names_rules.specs.Reading.{beside, binding, filled};
ghost use Rattle.names_rules.specs.Proofs.{boolean, number, term_part};
ghost use Rattle.names_rules.specs.Answers.{Leaves, Notes};
ghost use Rattle.names_checks.specs.Counts.{CountsOn, BindsInside};

use crate::ranges::filled_range;
use crate::refs::reference;
use crate::walk::value;
use crate::words::{Table, bind};
use names_rules::{Env, Known, Meaning, NameFault, ProgramTable, Sort, outside, with_name};
use unity_syntax::{Expr, Name, Range, Term};

/// The next number.
fn fresh(next: &mut u64) -> Result<u64, NameFault>
    ensures { CountsOn result next.old next.new }
{
    let number = *next;
    match number.checked_add(1) {
        None => Err(NameFault::Memory),
        Some(more) => {
            *next = more;
            Ok(number)
        }
    }
}

/// A name is bound that is a parameter, and then comes its range, in which no word stands.
pub fn bind_param(
    name: &Name,
    number: u64,
    range: &Range,
    known: &Known,
    env: &Env,
    table: &mut Table,
) -> Result<(), NameFault>
    ensures { Notes result table.old table.new
        (beside (binding (scope known.now env.now) name.now (Meaning.Param number)) (filled [] range.now)) }
{
    bind(name, Meaning::Param(number), known, env, table)?;
    filled_range(range, &outside(), table)
}

/// The bound names inside a term that binds one: it is the parameter of the next number.
fn inside<'a>(
    name: &'a Name,
    range: &Range,
    known: &Known,
    env: &'a Env<'a>,
    next: &mut u64,
    table: &mut Table,
) -> Result<Env<'a>, NameFault>
    ensures { BindsInside result table.old table.new next.old next.new name.now (bounds env.now)
        (beside (binding (scope known.now env.now) name.now (Meaning.Param next.old)) (filled [] range.now)) }
{
    let number = fresh(next)?;
    bind_param(name, number, range, known, env, table)?;
    Ok(with_name(name, Meaning::Param(number), env))
}

/// Two formulas.
pub fn formulas(
    p: &Expr,
    q: &Expr,
    known: &Known,
    env: &Env,
    table: &mut Table,
) -> Result<(), NameFault>
    ensures { Notes result table.old table.new
        (beside (boolean p.now (scope known.now env.now)) (boolean q.now (scope known.now env.now))) }
{
    value(p, Sort::Boolean, known, env, table)?;
    value(q, Sort::Boolean, known, env, table)
}

fn measured(
    measure: &Expr,
    p: &Expr,
    q: &Expr,
    known: &Known,
    env: &Env,
    table: &mut Table,
) -> Result<(), NameFault>
    ensures { Notes result table.old table.new
        (beside (number measure.now (scope known.now env.now))
        (beside (boolean p.now (scope known.now env.now)) (boolean q.now (scope known.now env.now)))) }
{
    value(measure, Sort::Number, known, env, table)?;
    formulas(p, q, known, env, table)
}

/// A term, whose bound names are numbered from `next` on.
#[cycle(term)]
pub fn term(
    t: &Term,
    programs: &ProgramTable,
    known: &Known,
    env: &Env,
    next: &mut u64,
    table: &mut Table,
) -> Result<(), NameFault>
    ensures { Leaves result table.old table.new next.new
        (term_part (entries programs.now) t.now (scope known.now env.now) next.old) }
{
    match t {
        Term::Imply { at: _, p, q } => formulas(p, q, known, env, table),
        Term::From { at: _, of } => reference(of, programs, known, env, table),
        Term::Pair { first, second, .. } => {
            term(first.get(), programs, known, env, next, table)?;
            term(second.get(), programs, known, env, next, table)
        }
        Term::Exists {
            at: _,
            name,
            range,
            of,
        } => {
            let inner = inside(&*name, range, known, &*env, next, table)?;
            term(of.get(), programs, known, &inner, next, table)
        }
        Term::Induct {
            at: _,
            name,
            range,
            measure,
            p,
            q,
            of,
        } => {
            let inner = inside(&*name, range, known, &*env, next, table)?;
            measured(measure, p, q, known, env, table)?;
            term(of.get(), programs, known, &inner, next, table)
        }
        Term::Psp { at: _, of, by } => {
            term(of.get(), programs, known, env, next, table)?;
            reference(by, programs, known, env, table)
        }
        Term::Weaken { at: _, p, q, of } => {
            formulas(p, q, known, env, table)?;
            term(of.get(), programs, known, env, next, table)
        }
    }
}
