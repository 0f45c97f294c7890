//! The walk over an expression, operands before their operator and from left to right.

ghost use Rattle.std.specs.Prelude.{◌≡◌, ◌∷◌, [], map, Option, Some, None, true};
ghost use Rattle.names_rules.specs.declared.named.Meaning.{Meaning};
ghost use Rattle.names_rules.specs.Scope.{scope, with_bound};
ghost use Rattle.names_rules.specs.Reading.{beside, binding, factors, gathers, joined, left_side, needs};
ghost use Rattle.names_rules.specs.Reading.{operands, range_reading, read, then, typed, word_reading};
ghost use Rattle.names_rules.specs.Answers.{GivesReading, Notes};
ghost use Rattle.names_checks.specs.Factors.{further_factors};

use crate::checks::{after, demand, has_type, may_join};
use crate::ranges::bind_in;
use crate::words::{Table, word};
use case_tables::{Code, Symbol, Word};
use names_rules::{Env, Known, Meaning, NameFault, Sort, Typed, place, with_name};
use unity_base::{Held, Seq};
use unity_syntax::{Expr, Name, Operator, Range};

/// The type of an expression; what its words mean is added to the table.
#[cycle(walk)]
pub fn expression(e: &Expr, known: &Known, env: &Env, table: &mut Table) -> Result<Typed, NameFault>
    ensures { GivesReading result table.old table.new (read e.now (scope known.now env.now)) }
{
    match e {
        Expr::Implies { left, right, .. } => implication(left, right, known, env, table),
        Expr::And { first, rest, .. } | Expr::Or { first, rest, .. } => {
            let first = operand(first, Sort::Boolean, known, env, table)?;
            after(first, Sort::Boolean, truths(rest, known, env, table))
        }
        Expr::Not { of, .. } => operand(of, Sort::Boolean, known, env, table),
        Expr::Compare {
            left,
            relation,
            right,
            ..
        } => comparison(left, *relation, right, known, env, table),
        Expr::Sum { first, rest, .. } => {
            let first = operand(first, Sort::Number, known, env, table)?;
            after(first, Sort::Number, parts(rest, known, env, table))
        }
        Expr::Product { at, first, rest } => {
            let first = operand(first, Sort::Number, known, env, table)?;
            factors(*at, first, rest, known, env, table)
        }
        Expr::Number { .. } => Ok(constant(Sort::Number)),
        Expr::True { .. } => Ok(constant(Sort::Boolean)),
        Expr::False { .. } => Ok(constant(Sort::Boolean)),
        Expr::Word { name, index, .. } => match index {
            None => word(name, false, known, env, table),
            Some(index) => element(name, index, known, env, table),
        },
        Expr::Brackets { of, .. } => expression(of.get(), known, env, table),
        Expr::Quantified {
            which,
            name,
            range,
            of,
            ..
        } => quantified(*which, name, range, of, known, env, table),
    }
}

/// The type of what names nothing.
fn constant(sort: Sort) -> Typed
    ensures sort { result.sort ≡ sort }
    ensures constant { result.constant ≡ true }
{
    Typed {
        sort,
        constant: true,
    }
}

/// The two sides of an implication.
#[cycle(walk)]
fn implication(
    left: &Held<Expr>,
    right: &Held<Expr>,
    known: &Known,
    env: &Env,
    table: &mut Table,
) -> Result<Typed, NameFault>
    ensures { GivesReading result table.old table.new
        (joined Sort.Boolean (operands Sort.Boolean (scope known.now env.now) (read left.now ∷ read right.now ∷ []))) }
{
    let first = operand(left, Sort::Boolean, known, env, table)?;
    after(
        first,
        Sort::Boolean,
        operand(right, Sort::Boolean, known, env, table),
    )
}

/// The two sides of a comparison.
#[cycle(walk)]
fn comparison(
    left: &Held<Expr>,
    relation: Symbol,
    right: &Held<Expr>,
    known: &Known,
    env: &Env,
    table: &mut Table,
) -> Result<Typed, NameFault>
    ensures { GivesReading result table.old table.new
        (typed Sort.Boolean (then (left_side relation (read left.now (scope known.now env.now)))
        (needs (left_side relation (read left.now (scope known.now env.now))).sort
        (read right.now (scope known.now env.now))))) }
{
    let first = left_side(left, relation, known, env, table)?;
    after(
        first,
        Sort::Boolean,
        operand(right, first.sort, known, env, table),
    )
}

/// An element of an array.
#[cycle(walk)]
fn element(
    name: &Name,
    index: &Held<Expr>,
    known: &Known,
    env: &Env,
    table: &mut Table,
) -> Result<Typed, NameFault>
    ensures { GivesReading result table.old table.new
        (word_reading (scope known.now env.now) name.now (Some (read index.now (scope known.now env.now)))) }
{
    let first = word(name, true, known, env, table)?;
    after(
        first,
        first.sort,
        operand(index, Sort::Number, known, env, table),
    )
}

/// A quantifier: its name, its range, and what it gathers.
#[cycle(walk)]
fn quantified(
    which: Word,
    name: &Name,
    range: &Range,
    of: &Held<Expr>,
    known: &Known,
    env: &Env,
    table: &mut Table,
) -> Result<Typed, NameFault>
    ensures { GivesReading result table.old table.new
        (beside (beside (binding (scope known.now env.now) name.now (Meaning.Bound name.now.at))
        (range_reading (scope known.now env.now).bounds range.now)) (needs (gathers which)
        (read of.now (with_bound (scope known.now env.now) name.now.text (Meaning.Bound name.now.at))))) }
{
    bind_in(name, range, known, env, table)?;
    let inner = with_name(&*name, Meaning::Bound(name.at), &*env);
    operand(of, gathered(which), known, &inner, table)
}

/// The type of an operand that is to have a type.
#[cycle(walk)]
fn operand(
    e: &Held<Expr>,
    wanted: Sort,
    known: &Known,
    env: &Env,
    table: &mut Table,
) -> Result<Typed, NameFault>
    ensures { GivesReading result table.old table.new (needs wanted (read e.now (scope known.now env.now))) }
{
    let typed = expression(e.get(), known, env, table)?;
    has_type(typed, wanted, place(e.get()))
}

/// The left side of a comparison: that of an equation has any type.
#[cycle(walk)]
fn left_side(
    e: &Held<Expr>,
    relation: Symbol,
    known: &Known,
    env: &Env,
    table: &mut Table,
) -> Result<Typed, NameFault>
    ensures { GivesReading result table.old table.new (left_side relation (read e.now (scope known.now env.now))) }
{
    match relation {
        Symbol::Equal => expression(e.get(), known, env, table),
        Symbol::NotEqual => expression(e.get(), known, env, table),
        _ => operand(e, Sort::Number, known, env, table),
    }
}

/// The further operands of a conjunction or a disjunction.
#[cycle(walk)]
fn truths(es: &Seq<Expr>, known: &Known, env: &Env, table: &mut Table) -> Result<Typed, NameFault>
    ensures { GivesReading result table.old table.new
        (joined Sort.Boolean (operands Sort.Boolean (scope known.now env.now) (map read es.now))) }
{
    let mut constant = true;
    for e in es.as_slice() {
        let found = expression(e, known, env, table)?;
        let typed = has_type(found, Sort::Boolean, place(e))?;
        constant = constant & typed.constant;
    }
    Ok(Typed {
        sort: Sort::Boolean,
        constant,
    })
}

/// The further parts of a sum.
#[cycle(walk)]
fn parts(
    es: &Seq<(Symbol, Expr)>,
    known: &Known,
    env: &Env,
    table: &mut Table,
) -> Result<Typed, NameFault>
    ensures { GivesReading result table.old table.new
        (joined Sort.Number (operands Sort.Number (scope known.now env.now) (map (λ p. read p.1) es.now))) }
{
    let mut constant = true;
    for (_, e) in es.as_slice() {
        let found = expression(e, known, env, table)?;
        let typed = has_type(found, Sort::Number, place(e))?;
        constant = constant & typed.constant;
    }
    Ok(Typed {
        sort: Sort::Number,
        constant,
    })
}

/// The further operands of a product, each after its operator.
#[cycle(walk)]
fn factors(
    at: u64,
    first: Typed,
    es: &Seq<(Operator, Expr)>,
    known: &Known,
    env: &Env,
    table: &mut Table,
) -> Result<Typed, NameFault>
    ensures { GivesReading result table.old table.new (further_factors at first.constant
        (factors (scope known.now env.now) (map (λ f. (f.0, read f.1)) es.now))) }
{
    let mut constant = first.constant;
    let mut linear = true;
    for (operator, e) in es.as_slice() {
        let found = expression(e, known, env, table)?;
        let typed = has_type(found, Sort::Number, place(e))?;
        linear = linear & may_join(*operator, constant, typed.constant);
        constant = constant & typed.constant;
    }
    demand(linear, Code::NotLinear, at)?;
    Ok(Typed {
        sort: Sort::Number,
        constant,
    })
}

/// The type of what a quantifier gathers.
fn gathered(which: Word) -> Sort
    ensures { result ≡ gathers which }
{
    match which {
        Word::Sum => Sort::Number,
        _ => Sort::Boolean,
    }
}

/// An expression that is to have a type.
pub fn value(
    e: &Expr,
    wanted: Sort,
    known: &Known,
    env: &Env,
    table: &mut Table,
) -> Result<(), NameFault>
    ensures { Notes result table.old table.new (needs wanted (read e.now (scope known.now env.now))) }
{
    let found = expression(e, known, env, table)?;
    has_type(found, wanted, place(e))?;
    Ok(())
}
