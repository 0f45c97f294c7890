//! The variables of a branch: those of an obligation, and a parameter for each quotient that was taken.
ghost use Rattle.std.specs.Prelude.{◌≡◌, ◌<◌, ◌≤◌, ◌^◌, IfOk};
ghost use Rattle.std.specs.Bool.{OnTrue};
ghost use Rattle.obligations.specs.Scopes as scopes;
ghost use Rattle.obligations.specs.Obligations.{AreOwn, AreVariables, IsObligation};

use crate::branches::{Obligation, Variable};
use core_terms::Range;
use core_terms::from_unity_base::Seq;
use std::alloc::{AllocError, Global};

/// One more than a parameter's number, and 0 for a slot.
fn past(v: &Variable) -> u64
    ensures { result ≡ scopes.past v.now }
{
    if v.param { v.number as u64 + 1 } else { 0 }
}

/// One more than the greatest number of a parameter, and 0 where there is none.
#[tactic(auto, using(crate::proofs::ScopeLaws::param_laws))]
pub fn next_param(vs: &[Variable]) -> u64
    ensures { result ≡ scopes.next_param vs.now }
{
    let mut next = 0;
    for v in vs {
        next = next.max(past(v));
    }
    next
}

/// Whether 4,096 variables can be added to those of an obligation: each of its parameters has a number below 2^31.
pub fn has_room(o: &Obligation) -> bool
    requires { IsObligation o.now }
    ensures { OnTrue result (AreOwn o.now.variables) }
{
    next_param(o.variables.as_slice()) <= 1 << 31
}

/// The parameter that a quotient gets.
pub fn next_variable(vs: &[Variable]) -> Variable
    requires { scopes.next_param vs.now < 2 ^ 32 }
    ensures { result ≡ scopes.next_variable vs.now }
{
    Variable {
        param: true,
        number: next_param(vs) as u32,
        range: Range { lo: 0, hi: 0 },
    }
}

/// The variables once more.
fn copy_variables(alloc: Global, vs: &[Variable]) -> Result<Seq<Variable>, AllocError>
    ensures { IfOk result (λ copy. copy ≡ vs.now) }
{
    let mut copy = Seq::new(alloc);
    for v in vs {
        copy.push(*v)?;
    }
    Ok(copy)
}

/// An obligation's variables with so many added ones.
#[tactic(auto, using(crate::proofs::ScopeLaws::scope_laws))]
pub fn scope_of(alloc: Global, vs: &[Variable], added: u32) -> Result<Seq<Variable>, AllocError>
    requires own { AreOwn vs.now }
    requires added { added ≤ 4096 }
    ensures scope { IfOk result (λ all. all ≡ scopes.scope vs.now added) }
    ensures variables { IfOk result AreVariables }
{
    let mut all = copy_variables(alloc, vs)?;
    let mut count = 0;
    'more: while count < added {
        let next = next_variable(all.as_slice());
        all.push(next)?;
        count += 1;
    }
    Ok(all)
}
