//! What expressions become.

ghost use Rattle.std.specs.Prelude.{◌≡◌, ◌^◌, ◌≤◌, IfOk, map, fold};
ghost use Rattle.std.specs.Int.RustNames.{unsigned_abs};
ghost use Rattle.case_tables.specs.declared.symbol_table.Symbol.{Symbol};
ghost use Rattle.unity_syntax.specs.declared.expression.Expr.{Expr};
ghost use Rattle.meaning_executions.specs.Counting.{count_up};
ghost use Rattle.expand_rules.specs.Forming as spec;
ghost use Rattle.expand_rules.specs.Forming.{formed};
ghost use Rattle.expand_expressions.specs.Sound.{IsSound, GivesCore, GivesWhole};
ghost use Rattle.expand_expressions.specs.Joints.{joint_of, begin_of};
ghost use Rattle.expand_expressions.specs.Places.{IsReady, scope, bound_names};

use crate::arrays::element;
use crate::bytes::first_byte;
use crate::comparisons::{bottom, top};
use crate::joining::{
    Joint, begun, bound_at, compared, denied, factored, implied, joined, joint_of_word, literal,
    none, plus, signed,
};
use crate::measures::quantifier_measure;
use crate::places::{Env, Known, with_bound};
use crate::products::limited;
use crate::ranges::{Numbers, is_fixed_range, range_misfit, range_numbers};
use crate::refusal::Refusal;
use crate::words::word;
use case_tables::{Symbol, Word};
use expand_rules::Formed;
use std::alloc::Global;
use unity_base::{Held, Seq};
use unity_syntax::{Expr, Name, Operator, Range};

/// What an expression becomes: a term or a formula, folded, with always names put in place and quantifiers
/// unfolded.
///
/// `TooLarge` says that whatever has it as a part weighs more than 2^62 or counts more than 65,536 nodes;
/// then no more than that was unfolded. `Memory` says that memory was refused.
#[cycle(form)]
pub fn form(alloc: Global, e: &Expr, env: &Env, known: &Known) -> Result<Formed, Refusal>
    requires ready { IsReady known.now }
    ensures formed { GivesCore result (formed e.now (scope known.now env.now)) }
    ensures sound { IfOk result IsSound }
    ensures light { IfOk result (λ f. f.measure.most ≤ 2 ^ 62) }
{
    match e {
        Expr::Implies { at: _, left, right } => implying(alloc, left, right, env, known),
        Expr::And { at: _, first, rest } => all(alloc, Joint::And, rest, first, env, known),
        Expr::Or { at: _, first, rest } => all(alloc, Joint::Or, rest, first, env, known),
        Expr::Not { at: _, of } => denying(alloc, of, env, known),
        Expr::Compare {
            at: _,
            left,
            relation,
            right,
        } => comparing(alloc, left, *relation, right, env, known),
        Expr::Sum {
            at: _,
            minus,
            first,
            rest,
        } => added(alloc, *minus, rest, first, env, known),
        Expr::Product { at: _, first, rest } => multiplied(alloc, rest, first, env, known),
        Expr::Number { at: _, number } => literal(alloc, *number),
        Expr::True { at: _ } => limited(top(alloc)?),
        Expr::False { at: _ } => limited(bottom(alloc)?),
        Expr::Word { at: _, name, index } => match index {
            None => word(alloc, name, env, known),
            Some(index) => {
                let index = form(alloc, index.get(), env, known)?;
                element(alloc, name, index, env, known)
            }
        },
        Expr::Brackets { at: _, of } => form(alloc, of.get(), env, known),
        Expr::Quantified {
            at: _,
            which,
            name,
            range,
            of,
        } => quantified(alloc, *which, name, range, of.get(), env, known),
    }
}

// An implication.
#[cycle(form)]
fn implying(
    alloc: Global,
    left: &Held<Expr>,
    right: &Held<Expr>,
    env: &Env,
    known: &Known,
) -> Result<Formed, Refusal>
    requires ready { IsReady known.now }
    ensures formed { GivesCore result (spec.implication (formed left.now (scope known.now env.now))
        (formed right.now (scope known.now env.now))) }
    ensures sound { IfOk result IsSound }
    ensures light { IfOk result (λ f. f.measure.most ≤ 2 ^ 62) }
{
    let left = form(alloc, left.get(), env, known)?;
    let right = form(alloc, right.get(), env, known)?;
    implied(alloc, left, right)
}

// A denial.
#[cycle(form)]
fn denying(alloc: Global, of: &Held<Expr>, env: &Env, known: &Known) -> Result<Formed, Refusal>
    requires ready { IsReady known.now }
    ensures formed { GivesCore result (spec.denial (formed of.now (scope known.now env.now))) }
    ensures sound { IfOk result IsSound }
    ensures light { IfOk result (λ f. f.measure.most ≤ 2 ^ 62) }
{
    let of = form(alloc, of.get(), env, known)?;
    denied(alloc, of)
}

// A comparison.
#[cycle(form)]
fn comparing(
    alloc: Global,
    left: &Held<Expr>,
    relation: Symbol,
    right: &Held<Expr>,
    env: &Env,
    known: &Known,
) -> Result<Formed, Refusal>
    requires ready { IsReady known.now }
    ensures formed { GivesCore result (spec.comparison relation (formed left.now (scope known.now env.now))
        (formed right.now (scope known.now env.now))) }
    ensures sound { IfOk result IsSound }
    ensures light { IfOk result (λ f. f.measure.most ≤ 2 ^ 62) }
{
    let left = form(alloc, left.get(), env, known)?;
    let right = form(alloc, right.get(), env, known)?;
    compared(alloc, relation, left, right)
}

// A part, with those that follow it.
#[cycle(form)]
fn all(
    alloc: Global,
    joint: Joint,
    rest: &Seq<Expr>,
    first: &Held<Expr>,
    env: &Env,
    known: &Known,
) -> Result<Formed, Refusal>
    requires ready { IsReady known.now }
    ensures formed { GivesCore result (fold (joint_of joint)
        (begin_of joint (formed first.now (scope known.now env.now)))
        (map (λ (x : Expr). formed x (scope known.now env.now)) rest.now)) }
    ensures sound { IfOk result IsSound }
    ensures light { IfOk result (λ f. f.measure.most ≤ 2 ^ 62) }
{
    let first = form(alloc, first.get(), env, known)?;
    let mut whole = begun(alloc, joint, first)?;
    for e in rest.as_slice() {
        let next = form(alloc, e, env, known)?;
        whole = joined(alloc, joint, whole, next)?;
    }
    Ok(whole)
}

// The first part of a sum, with its sign.
#[cycle(form)]
fn first_part(
    alloc: Global,
    minus: bool,
    first: &Held<Expr>,
    env: &Env,
    known: &Known,
) -> Result<Formed, Refusal>
    requires ready { IsReady known.now }
    ensures formed { GivesCore result (spec.signed minus (formed first.now (scope known.now env.now))) }
    ensures sound { IfOk result IsSound }
    ensures light { IfOk result (λ f. f.measure.most ≤ 2 ^ 62) }
{
    let first = form(alloc, first.get(), env, known)?;
    signed(alloc, minus, first)
}

// The parts of a sum.
#[cycle(form)]
fn added(
    alloc: Global,
    minus: bool,
    rest: &Seq<(Symbol, Expr)>,
    first: &Held<Expr>,
    env: &Env,
    known: &Known,
) -> Result<Formed, Refusal>
    requires ready { IsReady known.now }
    ensures formed { GivesCore result (fold spec.plus (spec.signed minus (formed first.now (scope known.now env.now)))
        (map (λ (p : Symbol × Expr). (p.0, formed p.1 (scope known.now env.now))) rest.now)) }
    ensures sound { IfOk result IsSound }
    ensures light { IfOk result (λ f. f.measure.most ≤ 2 ^ 62) }
{
    let mut whole = first_part(alloc, minus, first, env, known)?;
    for part in rest.as_slice() {
        let next = form(alloc, &part.1, env, known)?;
        whole = plus(alloc, part.0, whole, next)?;
    }
    Ok(whole)
}

// The operands of a product.
#[cycle(form)]
fn multiplied(
    alloc: Global,
    rest: &Seq<(Operator, Expr)>,
    first: &Held<Expr>,
    env: &Env,
    known: &Known,
) -> Result<Formed, Refusal>
    requires ready { IsReady known.now }
    ensures formed { GivesCore result (fold spec.factored (formed first.now (scope known.now env.now))
        (map (spec.factor_in (scope known.now env.now)) rest.now)) }
    ensures sound { IfOk result IsSound }
    ensures light { IfOk result (λ f. f.measure.most ≤ 2 ^ 62) }
{
    let mut whole = form(alloc, first.get(), env, known)?;
    for part in rest.as_slice() {
        let next = form(alloc, &part.1, env, known)?;
        whole = factored(alloc, part.0, first_byte(&part.1), whole, next)?;
    }
    Ok(whole)
}

// A quantifier over a range.
#[cycle(form)]
fn quantified(
    alloc: Global,
    which: Word,
    name: &Name,
    range: &Range,
    of: &Expr,
    env: &Env,
    known: &Known,
) -> Result<Formed, Refusal>
    requires ready { IsReady known.now }
    ensures formed { GivesCore result (spec.quantified (bound_names env.now) range.now (spec.gathered which
        (map (λ z. formed of.now (spec.with_number (scope known.now env.now) name.now.text z))
        (spec.fit_values (spec.numbers (bound_names env.now)) range.now)))) }
    ensures sound { IfOk result IsSound }
    ensures light { IfOk result (λ f. f.measure.most ≤ 2 ^ 62) }
{
    let numbers = range_numbers(range, env);
    let whole = instances(alloc, which, name, numbers, of, env, known)?;
    let exact = is_fixed_range(range, env) & whole.exact;
    let measure = quantifier_measure(range_misfit(range, env), whole.measure);
    limited(Formed {
        core: whole.core,
        constant: whole.constant,
        exact,
        measure,
    })
}

// The instances of a quantifier, joined.
#[cycle(form)]
fn instances(
    alloc: Global,
    which: Word,
    name: &Name,
    numbers: Numbers,
    of: &Expr,
    env: &Env,
    known: &Known,
) -> Result<Formed, Refusal>
    requires ready { IsReady known.now }
    requires first { unsigned_abs numbers.first ≤ 1000000000 }
    requires count { numbers.count ≤ 2000000001 }
    ensures formed { GivesWhole result (spec.gathered which
        (map (λ z. formed of.now (spec.with_number (scope known.now env.now) name.now.text z))
        (count_up numbers.first numbers.count))) }
    ensures sound { IfOk result IsSound }
    ensures light { IfOk result (λ f. f.measure.most ≤ 2 ^ 62) }
{
    if numbers.count == 0 {
        return Ok(none(alloc, which)?);
    }
    let joint = joint_of_word(which);
    let first = form(
        alloc,
        of,
        &with_bound(name, bound_at(numbers, 0), env),
        known,
    )?;
    let mut whole = begun(alloc, joint, first)?;
    for k in 1..numbers.count {
        if whole.measure.size > 65_536 {
            return Err(Refusal::TooLarge);
        }
        let next = form(
            alloc,
            of,
            &with_bound(name, bound_at(numbers, k), env),
            known,
        )?;
        whole = joined(alloc, joint, whole, next)?;
    }
    Ok(whole)
}
