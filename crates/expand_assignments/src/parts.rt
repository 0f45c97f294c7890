//! The parts of an assignment: numbers and conditions.

ghost use Rattle.std.specs.Prelude.{◌≡◌, IfOk};
ghost use Rattle.core_terms.specs.declared.trees.CForm.TheVariants.{Top};
ghost use Rattle.std.specs.Option.{option_copied};
ghost use Rattle.expand_rules.specs.Forming.{as_number, as_truth, formed, truth_constant};
ghost use Rattle.expand_rules.specs.Assigning as spec;
ghost use Rattle.expand_expressions.specs.Places.{IsReady, scope};
ghost use Rattle.expand_expressions.specs.Sound.{IsSound, of_truth};
ghost use Rattle.expand_assignments.specs.Adding.{GivesNumber, GivesTruth};

use core_terms::CForm;
use expand_expressions::{Env, Known, NumberCore, Refusal, TruthCore, form, number, truth};
use expand_rules::{Flaws, Measure};
use std::alloc::{AllocError, Global};
use unity_base::Shared;
use unity_syntax::Expr;

/// A value or an index.
#[tactic(auto, using(crate::proofs::PartLaws::past_number))]
pub fn number_part(alloc: Global, e: &Expr, env: &Env, known: &Known) -> Result<NumberCore, Refusal>
    requires { IsReady known.now }
    ensures { GivesNumber result (as_number (formed e.now (scope known.now env.now))) }
{
    let part = form(alloc, e, env, known)?;
    Ok(number(alloc, part)?)
}

// What always holds.
fn always(alloc: Global) -> Result<TruthCore, AllocError>
    ensures truth { IfOk result (λ c. of_truth c ≡ truth_constant Top) }
    ensures sound { IfOk result (λ c. IsSound (of_truth c)) }
{
    Ok(TruthCore {
        form: Shared::new(alloc, CForm::Top)?,
        known: Some(true),
        constant: true,
        exact: true,
        measure: Measure {
            size: 1,
            quantified: 0,
            own: 0,
            most: 0,
            flaws: Flaws::none(),
        },
    })
}

#[tactic(auto, using(crate::proofs::PartLaws::past_truth))]
fn stated(alloc: Global, e: &Expr, env: &Env, known: &Known) -> Result<TruthCore, Refusal>
    requires { IsReady known.now }
    ensures { GivesTruth result (as_truth (formed e.now (scope known.now env.now))) }
{
    let part = form(alloc, e, env, known)?;
    Ok(truth(alloc, part)?)
}

/// The condition of an alternative, which holds where there is none.
pub fn condition(
    alloc: Global,
    e: Option<&Expr>,
    env: &Env,
    known: &Known,
) -> Result<TruthCore, Refusal>
    requires { IsReady known.now }
    ensures { GivesTruth result (spec.condition (scope known.now env.now) (option_copied e.entry)) }
{
    match e {
        None => Ok(always(alloc)?),
        Some(e) => stated(alloc, e, env, known),
    }
}
