//! The search along the plain tree: cases in order, and then the halves of the ranges in order.
ghost use Rattle.std.specs.Prelude.{◌≡◌, ◌-◌, ◌≤◌, ◌<◌, ◌^◌, ◌∷◌, [], pos};
ghost use Rattle.std.specs.Prelude.{◌<ℤ◌, false, IfOk};
ghost use Rattle.obligations.specs.Load.{need, term_load};
ghost use Rattle.obligations.specs.Settling.{settled, added};
ghost use Rattle.obligations.specs.Reach.{some_out_of_reach};
ghost use Rattle.obligations.specs.Scopes as scopes;
ghost use Rattle.obligations.specs.Plain.{first_cut, waiting_only, plain_leaves};
ghost use Rattle.obligations.specs.Quotients.{is_either, with_quotient};
ghost use Rattle.search_tree.specs.Halves.{half_ranges, half_fact};
ghost use Rattle.search_tree.specs.Searching.{Ready, Ends, EndsClosed};
ghost use Rattle.obligations.specs.Sides.{side_of};
ghost use Rattle.search_tree.specs.Views.{IsView, ViewIsReady, IsReadyAbove, ViewEndsAt, EndsAbove, leaves_above};
ghost use Rattle.search_tree.specs.Views.{leaves_by_quotient, leaves_by_halves};

use crate::closing::try_close;
use crate::halves::{Half, Halves, first_halves, split_node, take_half};
use crate::leaf::refute_leaf;
use crate::marks::{cut_back, mark_of};
use crate::taking::take_quotient;
use crate::trail::{Ended, Trail, put_node};
use crate::views::View;
use core_terms::CForm;
use obligations::{
    Branch, Node, Replaced, Side, is_either, next_param, settle_side, without_quotient,
};
use std::alloc::{AllocError, Global};

/// Refutes a branch by its first waiting formula, which was taken out: by the two sides of an `Or`, or by taking a
/// quotient.
#[cycle(search)]
fn refute_form(
    alloc: Global,
    view: View,
    form: &CForm,
    branch: &mut Branch,
    trail: &mut Trail,
) -> Result<Ended, AllocError>
    requires view { IsView view branch.old }
    requires rest { view.rest < 960 }
    requires ready { IsReadyAbove view (waiting_only branch.old (form.now ∷ branch.old.waiting)) }
    requires reach { some_out_of_reach branch.old.facts ≡ false }
    ensures ends { IfOk result (EndsAbove view.entry
        (leaves_above view.entry (waiting_only branch.old (form.now ∷ branch.old.waiting)))
        (waiting_only branch.old (form.now ∷ branch.old.waiting)) trail.old trail.new) }
    ensures branch { IfOk result (λ e. EndsClosed e → branch.new ≡ branch.old) }
{
    if !is_either(form) {
        let ended = refute_quot(alloc, view, form, branch, trail)?;
        return Ok(ended);
    }
    if !put_node(trail, Node::Case(1))? {
        return Ok(Ended::Stopped);
    }
    match refute_side(alloc, view, form, Side::First, branch, trail)? {
        Ended::Closed => {
            let ended = refute_side(alloc, view, form, Side::Second, branch, trail)?;
            Ok(ended)
        }
        Ended::Stopped => Ok(Ended::Stopped),
        Ended::Refuted(values) => Ok(Ended::Refuted(values)),
    }
}

/// Refutes a branch by taking a quotient of its first waiting formula, which was taken out.
#[cycle(search)]
fn refute_quot(
    alloc: Global,
    view: View,
    form: &CForm,
    branch: &mut Branch,
    trail: &mut Trail,
) -> Result<Ended, AllocError>
    requires view { IsView view branch.old }
    requires rest { view.rest < 960 }
    requires either { is_either form.now ≡ false }
    requires ready { IsReadyAbove view (waiting_only branch.old (form.now ∷ branch.old.waiting)) }
    ensures ends { IfOk result (EndsAbove view.entry
        (leaves_by_quotient view.entry branch.old form.now)
        (waiting_only branch.old (form.now ∷ branch.old.waiting)) trail.old trail.new) }
    ensures branch { IfOk result (λ e. EndsClosed e → branch.new ≡ branch.old) }
{
    let next = next_param(view.scope) as u32;
    let Some(replaced) = without_quotient(alloc, next, form)? else {
        unreachable!()
    };
    if !put_node(trail, Node::Quot(1))? {
        return Ok(Ended::Stopped);
    }
    let ended = refute_without(alloc, view, &replaced, branch, trail)?;
    Ok(ended)
}

/// Refutes a branch with one quotient more taken.
#[cycle(search)]
#[tactic(auto, using(crate::proofs::MarkLaws::cut_laws))]
fn refute_without(
    alloc: Global,
    view: View,
    replaced: &Replaced,
    branch: &mut Branch,
    trail: &mut Trail,
) -> Result<Ended, AllocError>
    requires view { IsView view branch.old }
    requires added { branch.old.added < 960 }
    requires load { (term_load replaced.now.taken.of).own ≤ 2 ^ 66 }
    requires light { (need replaced.now.form).yes ≤ 2 ^ 66 }
    requires ready { ViewIsReady view
        (with_quotient (scopes.scope_of view.vs.now branch.old) replaced.now branch.old) }
    ensures ends { IfOk result (ViewEndsAt view.entry
        (with_quotient (scopes.scope_of view.entry.vs.now branch.old) replaced.now branch.old) trail.old trail.new) }
    ensures branch { IfOk result (λ e. EndsClosed e → branch.new ≡ branch.old) }
{
    let mark = mark_of(branch);
    let scope = take_quotient(alloc, view.vs, replaced, branch)?;
    let ended = refute(alloc, view.within(scope.as_slice()), branch, trail)?;
    cut_back(branch, mark);
    Ok(ended)
}

/// Refutes a branch with a side of a formula.
#[cycle(search)]
#[tactic(auto, using(crate::proofs::MarkLaws::cut_laws))]
fn refute_side(
    alloc: Global,
    view: View,
    form: &CForm,
    side: Side,
    branch: &mut Branch,
    trail: &mut Trail,
) -> Result<Ended, AllocError>
    requires view { IsView view branch.old }
    requires form { (need form.now).yes ≤ 2 ^ 63 }
    requires ready { ViewIsReady view (settled view.scope.now (side_of side form.now) branch.old) }
    ensures ends { IfOk result
        (ViewEndsAt view.entry (settled view.entry.scope.now (side_of side form.now) branch.old) trail.old trail.new) }
    ensures branch { IfOk result (λ e. EndsClosed e → branch.new ≡ branch.old) }
{
    let mark = mark_of(branch);
    settle_side(alloc, view.scope, form, side, branch)?;
    let ended = refute(alloc, view, branch, trail)?;
    cut_back(branch, mark);
    Ok(ended)
}

/// Refutes a branch by the two halves of a variable's range.
#[cycle(search)]
fn refute_halves(
    alloc: Global,
    view: View,
    halves: Halves,
    branch: &mut Branch,
    trail: &mut Trail,
) -> Result<Ended, AllocError>
    requires view { IsView view branch.old }
    requires rest { view.rest < 960 }
    requires ready { IsReadyAbove view branch.old }
    requires halves { first_cut 0 view.ranges.now ≡ Some (record { place = halves.place; at = halves.at }) }
    requires none { branch.old.waiting ≡ [] }
    ensures ends { IfOk result
        (EndsAbove view.entry (leaves_by_halves view.entry branch.old halves) branch.old trail.old trail.new) }
    ensures branch { IfOk result (λ e. EndsClosed e → branch.new ≡ branch.old) }
{
    if !put_node(trail, split_node(halves))? {
        return Ok(Ended::Stopped);
    }
    match refute_half(alloc, view, halves, Half::Low, branch, trail)? {
        Ended::Closed => {
            let ended = refute_half(alloc, view, halves, Half::High, branch, trail)?;
            Ok(ended)
        }
        Ended::Stopped => Ok(Ended::Stopped),
        Ended::Refuted(values) => Ok(Ended::Refuted(values)),
    }
}

/// Refutes a branch with a variable in a half of its range.
#[cycle(search)]
#[tactic(auto, using(crate::proofs::MarkLaws::cut_laws))]
fn refute_half(
    alloc: Global,
    view: View,
    halves: Halves,
    half: Half,
    branch: &mut Branch,
    trail: &mut Trail,
) -> Result<Ended, AllocError>
    requires view { IsView view branch.old }
    requires room { halves.at <ℤ pos (2 ^ 63 - 1) }
    requires ready { Ready view.vs.now view.rest (half_ranges half halves view.ranges.now)
        (added branch.old (half_fact half halves)) }
    ensures ends { IfOk result (Ends view.entry.vs.now view.entry.rest
        (plain_leaves view.entry.vs.now view.entry.rest (half_ranges half halves view.entry.ranges.now)
        (added branch.old (half_fact half halves)))
        (added branch.old (half_fact half halves)) trail.old trail.new) }
    ensures branch { IfOk result (λ e. EndsClosed e → branch.new ≡ branch.old) }
{
    let mark = mark_of(branch);
    let ranges = take_half(alloc, view.ranges, halves, half, branch)?;
    let ended = refute(alloc, view.over(ranges.as_slice()), branch, trail)?;
    cut_back(branch, mark);
    Ok(ended)
}

/// Refutes a branch without a fact out of reach.
#[cycle(search)]
fn refute_open(
    alloc: Global,
    view: View,
    branch: &mut Branch,
    trail: &mut Trail,
) -> Result<Ended, AllocError>
    requires view { IsView view branch.old }
    requires ready { ViewIsReady view branch.old }
    requires reach { some_out_of_reach branch.old.facts ≡ false }
    ensures ends { IfOk result (ViewEndsAt view.entry branch.old trail.old trail.new) }
    ensures branch { IfOk result (λ e. EndsClosed e → branch.new ≡ branch.old) }
{
    if branch.waiting.len() > 0 {
        let form = branch.waiting.remove(0);
        let ended = refute_form(alloc, view.below(), form.get(), branch, trail)?;
        branch.waiting.insert(0, form)?;
        Ok(ended)
    } else {
        match first_halves(view.ranges) {
            Some(halves) => {
                let ended = refute_halves(alloc, view.below(), halves, branch, trail)?;
                Ok(ended)
            }
            None => refute_leaf(alloc, view, branch, trail),
        }
    }
}

/// Refutes a branch, or finds values that make it hold.
#[cycle(search)]
pub fn refute(
    alloc: Global,
    view: View,
    branch: &mut Branch,
    trail: &mut Trail,
) -> Result<Ended, AllocError>
    requires view { IsView view branch.old }
    requires ready { ViewIsReady view branch.old }
    ensures ends { IfOk result (ViewEndsAt view.entry branch.old trail.old trail.new) }
    ensures branch { IfOk result (λ e. EndsClosed e → branch.new ≡ branch.old) }
{
    match try_close(alloc, view.scope, branch, trail)? {
        Some(ended) => Ok(ended),
        None => {
            let ended = refute_open(alloc, view, branch, trail)?;
            Ok(ended)
        }
    }
}
