//! Assignments and their components.

ghost use Rattle.std.specs.Prelude.{◌≡◌, ◌∷◌, ◌≤◌, ◌^◌, ◌&&◌, ◌+ℤ◌, ◌<◌, pos, map};
ghost use Rattle.std.specs.Int.RustNames.{unsigned_abs};
ghost use Rattle.meaning_executions.specs.Counting.{count_up};
ghost use Rattle.expand_rules.specs.Forming.{numbers};
ghost use Rattle.expand_rules.specs.Assigning as spec;
ghost use Rattle.expand_expressions.specs.Places.{IsReady, bound_names, scope};
ghost use Rattle.expand_rules.specs.declared.cores.Bound.TheVariants.{Number};
ghost use Rattle.expand_assignments.specs.Adding.{Adds, AddsAll, each_effect, set_effect, with_range};

use crate::alternatives::all_alternatives;
use crate::counts::{count_one, flawed_count};
use crate::places::bound_at;
use expand_expressions::{
    Env, Known, Refusal, is_fixed_range, range_misfit, range_numbers, with_bound,
};
use expand_rules::{Bound, Effect, Flaws};
use std::alloc::Global;
use unity_base::Seq;
use unity_syntax::{Alts, Assign, Component, Name, Range, Target};

fn set(
    alloc: Global,
    first: &Target,
    rest: &[Target],
    alts: &Alts,
    env: &Env,
    known: &Known,
    effect: &mut Effect,
) -> Result<(), Refusal>
    requires ready { IsReady known.now }
    requires counted { effect.old.count.size ≤ 65537 }
    ensures { Adds result effect.old effect.new (set_effect (scope known.now env.now) first.now rest.now alts.now) }
{
    all_alternatives(alloc, first, rest, alts, env, known, effect)?;
    count_one(effect)
}

// Notes whether a range is fixed, and the place of an end that is too large.
fn mark_range(fixed: bool, misfit: Option<u64>, effect: &mut Effect)
    ensures { effect.new ≡ with_range fixed misfit effect.old }
{
    effect.exact &= fixed;
    effect.count = flawed_count(Flaws::of_range(misfit), effect.count);
}

#[cycle(assign)]
fn component(
    alloc: Global,
    c: &Component,
    env: &Env,
    known: &Known,
    effect: &mut Effect,
) -> Result<(), Refusal>
    requires ready { IsReady known.now }
    requires counted { effect.old.count.size ≤ 65537 }
    ensures { Adds result effect.old effect.new (spec.component_effect c.now (scope known.now env.now)) }
{
    match c {
        Component::Set {
            at: _,
            first,
            rest,
            alts,
        } => set(alloc, first, rest.as_slice(), alts, env, known, effect),
        Component::Quantified {
            at: _,
            name,
            range,
            of,
        } => quantified(alloc, name, range, of.get(), env, known, effect),
    }
}

#[cycle(assign)]
fn quantified(
    alloc: Global,
    name: &Name,
    range: &Range,
    of: &Assign,
    env: &Env,
    known: &Known,
    effect: &mut Effect,
) -> Result<(), Refusal>
    requires ready { IsReady known.now }
    requires counted { effect.old.count.size ≤ 65537 }
    ensures { Adds result effect.old effect.new
        (each_effect (scope known.now env.now) name.now range.now of.now) }
{
    let numbers = range_numbers(range, env);
    for i in 0..numbers.count {
        instance(alloc, name, bound_at(&numbers, i), of, env, known, effect)?;
    }
    mark_range(is_fixed_range(range, env), range_misfit(range, env), effect);
    count_one(effect)
}

#[cycle(assign)]
fn instance(
    alloc: Global,
    name: &Name,
    bound: Bound,
    of: &Assign,
    env: &Env,
    known: &Known,
    effect: &mut Effect,
) -> Result<(), Refusal>
    requires ready { IsReady known.now }
    requires counted { effect.old.count.size ≤ 65537 }
    ensures { Adds result effect.old effect.new
        (spec.effect_of of.now (record (scope known.now env.now) {
          bound = (name.now.text, bound) ∷ (scope known.now env.now).bound;
        })) }
{
    let inner = with_bound(&*name, bound, &*env);
    effect_in(alloc, of, &inner, known, effect)
}

/// Puts what an assignment becomes beside what there is. `TooLarge` where both together are too large. Where it fails
/// the effect is of no more use.
#[cycle(assign)]
pub fn effect_in(
    alloc: Global,
    a: &Assign,
    env: &Env,
    known: &Known,
    effect: &mut Effect,
) -> Result<(), Refusal>
    requires ready { IsReady known.now }
    requires counted { effect.old.count.size ≤ 65537 }
    ensures { Adds result effect.old effect.new (spec.effect_of a.now (scope known.now env.now)) }
{
    component(alloc, &a.first, env, known, effect)?;
    further(alloc, &a.rest, env, known, effect)
}

#[cycle(assign)]
fn further(
    alloc: Global,
    cs: &Seq<Component>,
    env: &Env,
    known: &Known,
    effect: &mut Effect,
) -> Result<(), Refusal>
    requires ready { IsReady known.now }
    requires counted { effect.old.count.size ≤ 65537 }
    ensures { AddsAll result effect.old effect.new (map
        (λ c. spec.component_effect c (scope known.now env.now)) cs.now) }
{
    for c in cs.as_slice() {
        component(alloc, c, env, known, effect)?;
    }
    Ok(())
}
