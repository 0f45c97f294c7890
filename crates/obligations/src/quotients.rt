//! A quotient of a formula is taken: a variable stands for it, and two facts say what it is.
ghost use Rattle.std.specs.Prelude.{◌≡◌, ◌<◌, ◌≤◌, ◌^◌, ◌≤ℤ◌, pos, ◌+ℤ◌, ◌-ℤ◌, length, IfOk, OnOk};
ghost use Rattle.std.specs.Int.RustNames.{unsigned_abs};
ghost use Rattle.core_terms.specs.declared.trees.CForm.TheVariants.{AtLeast, Zero};
ghost use Rattle.obligations.specs.Load.{term_load, need};
ghost use Rattle.obligations.specs.Obligations.{AreVariables, HasRoom};
ghost use Rattle.obligations.specs.Quotients as quotients;
ghost use Rattle.obligations.specs.Scopes.{with_next};
ghost use Rattle.obligations.specs.declared.branches.Taken.{Taken};

use crate::branches::{Branch, Fact, Line, Replaced, Taken, Variable};
use crate::first_quotient::find_quotient;
use crate::linear::{fact_from, line_of, negative_of};
use crate::scopes::next_variable;
use crate::settling::{add_fact, settle_onto};
use core_terms::from_unity_base::{Held, Seq};
use core_terms::{CForm, owned_term};
use std::alloc::{AllocError, Global};

/// Whether a formula is an `Or`.
pub fn is_either(form: &CForm) -> bool
    ensures { result ≡ quotients.is_either form.now }
{
    match form {
        CForm::Or(..) => true,
        _ => false,
    }
}

/// That a term with the parameter in the quotient's place is at least 0.
fn least_without(alloc: Global, taken: Held<Taken>) -> Result<Replaced, AllocError>
    ensures { IfOk result (λ r. r ≡ record { taken = taken; form = AtLeast taken.rest }) }
{
    let taken = taken.into_inner();
    let form = CForm::AtLeast(owned_term(alloc, taken.rest.share()?)?);
    Ok(Replaced { taken, form })
}

/// That it is 0.
fn zero_without(alloc: Global, taken: Held<Taken>) -> Result<Replaced, AllocError>
    ensures { IfOk result (λ r. r ≡ record { taken = taken; form = Zero taken.rest }) }
{
    let taken = taken.into_inner();
    let form = CForm::Zero(owned_term(alloc, taken.rest.share()?)?);
    Ok(Replaced { taken, form })
}

/// The first quotient of a formula that waits, and the formula with the parameter of this number in its place.
/// `None` where it has none, being an `Or`.
pub fn without_quotient(alloc: Global, v: u32, form: &CForm) -> Result<Option<Replaced>, AllocError>
    ensures { IfOk result (λ r. r ≡ quotients.without_quotient v form.now) }
{
    match form {
        CForm::AtLeast(t) => match find_quotient(alloc, v, t)? {
            Some(taken) => Ok(Some(least_without(alloc, taken)?)),
            None => Ok(None),
        },
        CForm::Zero(t) => match find_quotient(alloc, v, t)? {
            Some(taken) => Ok(Some(zero_without(alloc, taken)?)),
            None => Ok(None),
        },
        _ => Ok(None),
    }
}

/// That a linear form and a multiple of the variable after its own are at least 0.
fn fact_with(alloc: Global, line: &Line, k: i128) -> Result<Fact, AllocError>
    requires { length line.now.factors < 2 ^ 32 }
    ensures { IfOk result (λ f. f ≡ quotients.fact_with line.now k) }
{
    let mut fact = fact_from(alloc, line)?;
    fact.factors.push((line.factors.len() as u32, k))?;
    Ok(fact)
}

/// That a quotient times its divisor is at most what is divided.
fn low_fact(alloc: Global, vs: &[Variable], taken: &Taken) -> Result<Fact, AllocError>
    requires variables { AreVariables vs.now }
    requires load { (term_load taken.now.of).own ≤ 2 ^ 66 }
    ensures { IfOk result (λ f. f ≡ quotients.low_fact vs.now taken.now) }
{
    let line = line_of(alloc, vs, taken.of.get())?;
    fact_with(alloc, &line, -(taken.divisor as i128))
}

/// A linear form with one less than a divisor more.
fn raised(line: Line, divisor: &i64) -> Line
    requires { unsigned_abs line.constant ≤ 2 ^ 66 }
    ensures { result ≡ quotients.raised line (divisor.now -ℤ pos 1) }
{
    Line {
        factors: line.factors,
        constant: line.constant + (*divisor as i128 - 1),
    }
}

/// That less than the divisor is left.
#[tactic(auto, using(crate::proofs::QuotientLaws::constant_laws))]
fn high_fact(alloc: Global, vs: &[Variable], taken: &Taken) -> Result<Fact, AllocError>
    requires variables { AreVariables vs.now }
    requires load { (term_load taken.now.of).own ≤ 2 ^ 66 }
    ensures { IfOk result (λ f. f ≡ quotients.high_fact vs.now taken.now) }
{
    let line = raised(negative_of(alloc, vs, taken.of.get())?, &taken.divisor);
    fact_with(alloc, &line, taken.divisor as i128)
}

/// Takes a quotient: adds a variable, the two facts that fix it, and the formula with the variable in its place.
pub fn add_quotient(
    alloc: Global,
    variables: &mut Seq<Variable>,
    replaced: &Replaced,
    branch: &mut Branch,
) -> Result<(), AllocError>
    requires room { HasRoom variables.old }
    requires added { branch.old.added < 2 ^ 31 }
    requires load { (term_load replaced.now.taken.of).own ≤ 2 ^ 66 }
    requires light { (need replaced.now.form).yes ≤ 2 ^ 66 }
    ensures branch { OnOk result (branch.new ≡ quotients.with_quotient variables.old replaced.now branch.old) }
    ensures variables { OnOk result (variables.new ≡ with_next variables.old) }
{
    let low = low_fact(alloc, variables.as_slice(), &replaced.taken)?;
    let high = high_fact(alloc, variables.as_slice(), &replaced.taken)?;
    let next = next_variable(variables.as_slice());
    variables.push(next)?;
    branch.added += 1;
    add_fact(low, branch)?;
    add_fact(high, branch)?;
    settle_onto(alloc, variables.as_slice(), &replaced.form, branch)
}
