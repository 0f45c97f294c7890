//! What a statement becomes in one of its instances.

ghost use Rattle.std.specs.Prelude.{◌≡◌, ◌∷◌, [], ◌≤◌, map};
ghost use Rattle.expand_rules.specs.Assigning as spec;
ghost use Rattle.expand_rules.specs.Assigning.{among, effect_of};
ghost use Rattle.expand_expressions.specs.Places.{IsReady, bound_names};
ghost use Rattle.expand_assignments.specs.Adding.{Adds};
ghost use Rattle.expand_statements.specs.Chains.{bound_inside};
ghost use Rattle.expand_statements.specs.Visiting.{GivesFlaws, bounds_inside, scope_among};

use expand_assignments::{effect_in, is_large};
use expand_expressions::{Env, Known, Refusal, outside, with_bound};
use expand_rules::{Bound, Count, Effect, Flaws};
use std::alloc::Global;
use unity_base::Seq;
use unity_syntax::{Assign, Name};

/// No effect.
pub fn nothing(alloc: Global) -> Effect
    ensures { result ≡ spec.nothing }
{
    Effect {
        outside: Seq::new(alloc),
        writes: Seq::new(alloc),
        exact: true,
        count: Count {
            size: 0,
            most: 0,
            flaws: Flaws::none(),
        },
    }
}

// The effect of an assignment among these names, the outermost first, with their numbers.
#[tactic(auto, using(crate::proofs::VisitLaws::bounds_first))]
fn effect_at(
    alloc: Global,
    names: &[&Name],
    values: &[i64],
    a: &Assign,
    env: &Env,
    known: &Known,
    effect: &mut Effect,
) -> Result<(), Refusal>
    requires ready { IsReady known.now }
    requires counted { effect.old.count.size ≤ 65537 }
    ensures { Adds result effect.old effect.new (effect_of a.now (scope_among known.now
        (bounds_inside (bound_names env.now) (map (λ n. n.now.text) names.now) values.now))) }
{
    match names {
        [] => effect_in(alloc, a, env, known, effect),
        [name, inner @ ..] => match values {
            [] => {
                let next = with_bound(&**name, Bound::Number(0), &*env);
                effect_at(alloc, inner, values, a, &next, known, effect)
            }
            [number, rest @ ..] => {
                let next = with_bound(&**name, Bound::Number(*number), &*env);
                effect_at(alloc, inner, rest, a, &next, known, effect)
            }
        },
    }
}

/// What fails in an instance of an assignment. `TooLarge` exactly where the instance is too large.
pub fn instance_flaws(
    alloc: Global,
    names: &[&Name],
    values: &[i64],
    a: &Assign,
    known: &Known,
) -> Result<Flaws, Refusal>
    requires { IsReady known.now }
    ensures { GivesFlaws result (effect_of a.now (among (scope_among known.now [])
        (bound_inside [] (map (λ n. n.now.text) names.now) values.now))) }
{
    let mut effect = nothing(alloc);
    effect_at(alloc, names, values, a, &outside(), known, &mut effect)?;
    if is_large(&effect.count) {
        Err(Refusal::TooLarge)
    } else {
        Ok(effect.count.flaws)
    }
}
