//! The writes of values to targets.

ghost use Rattle.std.specs.Prelude.{◌≡◌, ◌∷◌, ◌≤◌, ◌+◌, ◌^◌, ℕ, List, Some, None, MatchOption};
ghost use Rattle.std.specs.Option.{option_map};
ghost use Rattle.meaning_documents.specs.Setting.{slots_for};
ghost use Rattle.meaning_documents.specs.Names.{variable_named};
ghost use Rattle.expand_rules.specs.Forming.{as_number, formed, unwritten_count};
ghost use Rattle.expand_rules.specs.Assigning as spec;
ghost use Rattle.expand_expressions.specs.Places.{IsReady, ends_of, scope, variable_of};
ghost use Rattle.expand_expressions.specs.Sound.{IsSound, of_number, of_truth};
ghost use Rattle.expand_assignments.specs.Adding.{Adds, written_effect};

use crate::parts::number_part;
use crate::unwritten::unwritten;
use crate::writes::{is_outside, mark, write_indexed, write_outside, write_plain};
use expand_expressions::{
    Env, Known, NumberCore, Refusal, TruthCore, VariableSlots, find_variable,
};
use expand_rules::Effect;
use std::alloc::Global;
use unity_syntax::{Expr, Name, Target};

fn plain_target(
    alloc: Global,
    name: &Name,
    e: &Expr,
    c: &TruthCore,
    env: &Env,
    known: &Known,
    effect: &mut Effect,
) -> Result<(), Refusal>
    requires { IsReady known.now }
    ensures { Adds result effect.old effect.new (spec.target_effect
        (variable_named name.now.text (scope known.now env.now).variables) None (of_truth c.now)
        (as_number (formed e.now (scope known.now env.now)))
        (unwritten_count e.now (scope known.now env.now))) }
{
    let v = number_part(alloc, e, env, known)?;
    let exact = v.exact;
    write_plain(alloc, find_variable(known.variables, name), c, v, effect)?;
    mark(exact, effect);
    Ok(())
}

// The value of a target whose index lies outside the array is no part of the core.
fn outside_target(
    alloc: Global,
    i: &NumberCore,
    e: &Expr,
    c: &TruthCore,
    env: &Env,
    known: &Known,
    effect: &mut Effect,
) -> Result<(), Refusal>
    requires { IsReady known.now }
    ensures { Adds result effect.old effect.new (spec.outside_effect (of_number i.now) (of_truth c.now)
        (unwritten_count e.now (scope known.now env.now))) }
{
    let left = unwritten(alloc, e, env, known)?;
    write_outside(alloc, i, c, left, effect)
}

fn written_target(
    alloc: Global,
    variable: Option<VariableSlots>,
    i: &NumberCore,
    e: &Expr,
    c: &TruthCore,
    env: &Env,
    known: &Known,
    effect: &mut Effect,
) -> Result<(), Refusal>
    requires ready { IsReady known.now }
    requires within { MatchOption variable (Unit {0})
        (λ x. x.first + slots_for (option_map ends_of x.indices) ≤ 2 ^ 32) }
    requires index { IsSound (of_number i.now) }
    requires condition { IsSound (of_truth c.now) }
    ensures { (name : List ℕ) → Adds result effect.old effect.new (written_effect (of_number i.now)
        (option_map (variable_of name) variable) (of_truth c.now)
        (as_number (formed e.now (scope known.now env.now)))) }
{
    let v = number_part(alloc, e, env, known)?;
    let exact = v.exact & i.exact;
    write_indexed(alloc, variable, i, c, v, effect)?;
    mark(exact, effect);
    Ok(())
}

fn indexed_target(
    alloc: Global,
    name: &Name,
    index: &Expr,
    e: &Expr,
    c: &TruthCore,
    env: &Env,
    known: &Known,
    effect: &mut Effect,
) -> Result<(), Refusal>
    requires ready { IsReady known.now }
    requires condition { IsSound (of_truth c.now) }
    ensures { Adds result effect.old effect.new (spec.target_effect
        (variable_named name.now.text (scope known.now env.now).variables)
        (Some (as_number (formed index.now (scope known.now env.now)))) (of_truth c.now)
        (as_number (formed e.now (scope known.now env.now)))
        (unwritten_count e.now (scope known.now env.now))) }
{
    let i = number_part(alloc, index, env, known)?;
    let variable = find_variable(known.variables, name);
    if is_outside(&i, variable) {
        outside_target(alloc, &i, e, c, env, known, effect)
    } else {
        written_target(alloc, variable, &i, e, c, env, known, effect)
    }
}

/// The write of a value to a target.
pub fn target(
    alloc: Global,
    t: &Target,
    e: &Expr,
    c: &TruthCore,
    env: &Env,
    known: &Known,
    effect: &mut Effect,
) -> Result<(), Refusal>
    requires ready { IsReady known.now }
    requires condition { IsSound (of_truth c.now) }
    ensures { Adds result effect.old effect.new (spec.target_effect
        (variable_named t.now.name.text (scope known.now env.now).variables)
        (spec.index_formed (scope known.now env.now) t.now.index) (of_truth c.now)
        (as_number (formed e.now (scope known.now env.now)))
        (unwritten_count e.now (scope known.now env.now))) }
{
    match &t.index {
        None => plain_target(alloc, &t.name, e, c, env, known, effect),
        Some(index) => indexed_target(alloc, &t.name, index, e, c, env, known, effect),
    }
}
