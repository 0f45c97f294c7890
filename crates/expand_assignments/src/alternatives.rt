//! The alternatives of an assignment to some targets.

ghost use Rattle.std.specs.Prelude.{◌≡◌, ◌∷◌, ◌≤◌, Some, map};
ghost use Rattle.std.specs.Option.{option_copied};
ghost use Rattle.meaning_documents.specs.Writes.{alternatives, conditional};
ghost use Rattle.expand_rules.specs.Assigning as spec;
ghost use Rattle.expand_expressions.specs.Places.{IsReady, scope};
ghost use Rattle.expand_expressions.specs.Sound.{IsSound, of_truth};
ghost use Rattle.expand_assignments.specs.Adding.{Adds, AddsAll};

use crate::counts::count_one;
use crate::parts::condition;
use crate::targets::target;
use crate::writes::mark;
use expand_expressions::{Env, Known, Refusal, TruthCore};
use expand_rules::Effect;
use std::alloc::Global;
use unity_syntax::{Alts, Expr, Target, Values};

fn further_pairs(
    alloc: Global,
    ts: &[Target],
    es: &[Expr],
    c: &TruthCore,
    env: &Env,
    known: &Known,
    effect: &mut Effect,
) -> Result<(), Refusal>
    requires ready { IsReady known.now }
    requires condition { IsSound (of_truth c.now) }
    requires counted { effect.old.count.size ≤ 65537 }
    ensures { Adds result effect.old effect.new
        (spec.paired_effect (scope known.now env.now) ts.now es.now (of_truth c.now)) }
{
    for i in 0..ts.len().min(es.len()) {
        target(alloc, &ts[i], &es[i], c, env, known, effect)?;
    }
    Ok(())
}

// An alternative under a condition that is made already: each value to the target at its place.
fn guarded(
    alloc: Global,
    first: &Target,
    rest: &[Target],
    values: &Values,
    c: &TruthCore,
    env: &Env,
    known: &Known,
    effect: &mut Effect,
) -> Result<(), Refusal>
    requires ready { IsReady known.now }
    requires condition { IsSound (of_truth c.now) }
    ensures { Adds result effect.old effect.new (spec.one_more (spec.exactly c.now.exact
        (spec.paired_effect (scope known.now env.now) (first.now ∷ rest.now)
        (values.now.first ∷ values.now.rest) (of_truth c.now)))) }
{
    target(alloc, first, &values.first, c, env, known, effect)?;
    further_pairs(alloc, rest, values.rest.as_slice(), c, env, known, effect)?;
    mark(c.exact, effect);
    count_one(effect)
}

fn alternative(
    alloc: Global,
    first: &Target,
    rest: &[Target],
    values: &Values,
    e: Option<&Expr>,
    env: &Env,
    known: &Known,
    effect: &mut Effect,
) -> Result<(), Refusal>
    requires { IsReady known.now }
    ensures { Adds result effect.old effect.new (spec.alternative_effect (scope known.now env.now)
        (first.now ∷ rest.now) (record { 0 = values.now; 1 = option_copied e.entry })) }
{
    let c = condition(alloc, e, env, known)?;
    guarded(alloc, first, rest, values, &c, env, known, effect)
}

fn further(
    alloc: Global,
    first: &Target,
    rest: &[Target],
    more: &[(Values, Expr)],
    env: &Env,
    known: &Known,
    effect: &mut Effect,
) -> Result<(), Refusal>
    requires { IsReady known.now }
    ensures { AddsAll result effect.old effect.new (map
        (λ a. spec.alternative_effect (scope known.now env.now) (first.now ∷ rest.now) (conditional a)) more.now) }
{
    for (values, e) in more {
        alternative(alloc, first, rest, values, Some(e), env, known, effect)?;
    }
    Ok(())
}

/// The alternatives of an assignment to these targets.
pub fn all_alternatives(
    alloc: Global,
    first: &Target,
    rest: &[Target],
    alts: &Alts,
    env: &Env,
    known: &Known,
    effect: &mut Effect,
) -> Result<(), Refusal>
    requires ready { IsReady known.now }
    requires counted { effect.old.count.size ≤ 65537 }
    ensures { AddsAll result effect.old effect.new (map
        (spec.alternative_effect (scope known.now env.now) (first.now ∷ rest.now))
        (alternatives alts.now.values alts.now.condition)) }
{
    match &alts.condition {
        None => alternative(alloc, first, rest, &alts.values, None, env, known, effect),
        Some((e, more)) => {
            alternative(
                alloc,
                first,
                rest,
                &alts.values,
                Some(e),
                env,
                known,
                effect,
            )?;
            further(alloc, first, rest, more.as_slice(), env, known, effect)
        }
    }
}
