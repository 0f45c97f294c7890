//! A quotient of a formula that waits, taken on a branch.
ghost use Rattle.std.specs.Prelude.{◌≡◌, ◌≤◌, ◌<◌, ◌^◌, IfOk, OnOk};
ghost use Rattle.obligations.specs.Load.{need, term_load};
ghost use Rattle.obligations.specs.Obligations.{AreOwn};
ghost use Rattle.obligations.specs.Quotients.{with_quotient};
ghost use Rattle.obligations.specs.Scopes as scopes;

use obligations::{Branch, Replaced, Variable, add_quotient, scope_of};
use std::alloc::{AllocError, Global};
use unity_base::Seq;

/// Takes one quotient more: its variable is the last of the scope that it gives.
#[tactic(auto, using(crate::proofs::QuotLaws::taking_laws))]
pub fn take_quotient(
    alloc: Global,
    vs: &[Variable],
    replaced: &Replaced,
    branch: &mut Branch,
) -> Result<Seq<Variable>, AllocError>
    requires own { AreOwn vs.now }
    requires added { branch.old.added < 960 }
    requires load { (term_load replaced.now.taken.of).own ≤ 2 ^ 66 }
    requires light { (need replaced.now.form).yes ≤ 2 ^ 66 }
    ensures scope { IfOk result (λ all. all ≡ scopes.scope_of vs.now branch.new) }
    ensures branch { OnOk result
        (branch.new ≡ with_quotient (scopes.scope_of vs.now branch.old) replaced.now branch.old) }
{
    let mut scope = scope_of(alloc, vs, branch.added)?;
    add_quotient(alloc, &mut scope, replaced, branch)?;
    Ok(scope)
}
