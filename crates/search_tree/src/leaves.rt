//! A count of the plain tree's leaves that goes no further than is asked: it tells that a certificate has no
//! more units than `enough` without a search for another.
ghost use Rattle.std.specs.Prelude.{◌≡◌, ◌-◌, ◌≤◌, ◌<◌, ◌^◌, ◌∷◌, [], pos, ◌<ℤ◌, min};
ghost use Rattle.std.specs.Prelude.{false, Some, IfOk, OnOk};
ghost use Rattle.obligations.specs.Load.{need, term_load};
ghost use Rattle.obligations.specs.Obligations.{IsObligation};
ghost use Rattle.obligations.specs.Scopes as scopes;
ghost use Rattle.obligations.specs.Opening.{first_branch};
ghost use Rattle.obligations.specs.Plain.{ranges_of, first_cut, waiting_only, plain_leaves};
ghost use Rattle.obligations.specs.Quotients.{is_either, with_quotient};
ghost use Rattle.obligations.specs.Reach.{some_out_of_reach};
ghost use Rattle.obligations.specs.Settling.{settled, added};
ghost use Rattle.search_tree.specs.Halves.{half_ranges, half_fact};
ghost use Rattle.search_tree.specs.Searching.{Ready};
ghost use Rattle.obligations.specs.Sides.{side_of};
ghost use Rattle.search_tree.specs.Views.{IsView, ViewIsReady, IsReadyAbove, leaves_at, leaves_above};
ghost use Rattle.search_tree.specs.Views.{leaves_by_quotient, leaves_by_halves};

use crate::closing::some_out_of_reach;
use crate::halves::{Half, Halves, first_halves, ranges_in, take_half};
use crate::marks::{cut_back, mark_of};
use crate::taking::take_quotient;
use crate::views::View;
use core_terms::CForm;
use obligations::{
    Branch, Obligation, Replaced, Side, has_room, is_either, next_param, open_branch, settle_side,
    without_quotient,
};
use std::alloc::{AllocError, Global};

/// Counts the leaves of a branch's first waiting formula, which was taken out: of both sides of an `Or`, or with a
/// quotient taken.
#[cycle(leaves)]
fn leaves_of_form(
    alloc: Global,
    view: View,
    wanted: u64,
    form: &CForm,
    branch: &mut Branch,
) -> Result<u64, AllocError>
    requires view { IsView view branch.old }
    requires rest { view.rest < 960 }
    requires ready { IsReadyAbove view (waiting_only branch.old (form.now ∷ branch.old.waiting)) }
    requires reach { some_out_of_reach branch.old.facts ≡ false }
    ensures leaves { IfOk result (λ n. n ≡ min wanted
        (leaves_above view.entry (waiting_only branch.old (form.now ∷ branch.old.waiting)))) }
    ensures branch { OnOk result (branch.new ≡ branch.old) }
{
    if !is_either(form) {
        let leaves = leaves_of_quot(alloc, view, wanted, form, branch)?;
        return Ok(leaves);
    }
    let first = leaves_of_side(alloc, view, wanted, form, Side::First, branch)?;
    if first >= wanted {
        return Ok(first);
    }
    let second = leaves_of_side(alloc, view, wanted - first, form, Side::Second, branch)?;
    Ok(first + second)
}

/// Counts the leaves of a branch's first waiting formula, which was taken out, with a quotient taken.
#[cycle(leaves)]
fn leaves_of_quot(
    alloc: Global,
    view: View,
    wanted: u64,
    form: &CForm,
    branch: &mut Branch,
) -> Result<u64, AllocError>
    requires view { IsView view branch.old }
    requires rest { view.rest < 960 }
    requires either { is_either form.now ≡ false }
    requires ready { IsReadyAbove view (waiting_only branch.old (form.now ∷ branch.old.waiting)) }
    ensures leaves { IfOk result (λ n. n ≡ min wanted (leaves_by_quotient view.entry branch.old form.now)) }
    ensures branch { OnOk result (branch.new ≡ branch.old) }
{
    let next = next_param(view.scope) as u32;
    let Some(replaced) = without_quotient(alloc, next, form)? else {
        unreachable!()
    };
    let leaves = leaves_without(alloc, view, wanted, &replaced, branch)?;
    Ok(leaves)
}

/// Counts leaves with one quotient more taken.
#[cycle(leaves)]
#[tactic(auto, using(crate::proofs::MarkLaws::cut_laws))]
fn leaves_without(
    alloc: Global,
    view: View,
    wanted: u64,
    replaced: &Replaced,
    branch: &mut Branch,
) -> Result<u64, AllocError>
    requires view { IsView view branch.old }
    requires added { branch.old.added < 960 }
    requires load { (term_load replaced.now.taken.of).own ≤ 2 ^ 66 }
    requires light { (need replaced.now.form).yes ≤ 2 ^ 66 }
    requires ready { ViewIsReady view
        (with_quotient (scopes.scope_of view.vs.now branch.old) replaced.now branch.old) }
    ensures leaves { IfOk result (λ n. n ≡ min wanted
        (leaves_at view.entry (with_quotient (scopes.scope_of view.entry.vs.now branch.old) replaced.now branch.old))) }
    ensures branch { OnOk result (branch.new ≡ branch.old) }
{
    let mark = mark_of(branch);
    let scope = take_quotient(alloc, view.vs, replaced, branch)?;
    let leaves = some_leaves(alloc, view.within(scope.as_slice()), wanted, branch)?;
    cut_back(branch, mark);
    Ok(leaves)
}

/// Counts leaves with a side of a formula.
#[cycle(leaves)]
#[tactic(auto, using(crate::proofs::MarkLaws::cut_laws))]
fn leaves_of_side(
    alloc: Global,
    view: View,
    wanted: u64,
    form: &CForm,
    side: Side,
    branch: &mut Branch,
) -> Result<u64, AllocError>
    requires view { IsView view branch.old }
    requires form { (need form.now).yes ≤ 2 ^ 63 }
    requires ready { ViewIsReady view (settled view.scope.now (side_of side form.now) branch.old) }
    ensures leaves { IfOk result (λ n. n ≡ min wanted
        (leaves_at view.entry (settled view.entry.scope.now (side_of side form.now) branch.old))) }
    ensures branch { OnOk result (branch.new ≡ branch.old) }
{
    let mark = mark_of(branch);
    settle_side(alloc, view.scope, form, side, branch)?;
    let leaves = some_leaves(alloc, view, wanted, branch)?;
    cut_back(branch, mark);
    Ok(leaves)
}

/// Counts the leaves of both halves of a variable's range.
#[cycle(leaves)]
fn leaves_of_halves(
    alloc: Global,
    view: View,
    wanted: u64,
    halves: Halves,
    branch: &mut Branch,
) -> Result<u64, AllocError>
    requires view { IsView view branch.old }
    requires rest { view.rest < 960 }
    requires ready { IsReadyAbove view branch.old }
    requires halves { first_cut 0 view.ranges.now ≡ Some (record { place = halves.place; at = halves.at }) }
    requires none { branch.old.waiting ≡ [] }
    ensures leaves { IfOk result (λ n. n ≡ min wanted (leaves_by_halves view.entry branch.old halves)) }
    ensures branch { OnOk result (branch.new ≡ branch.old) }
{
    let low = leaves_of_half(alloc, view, wanted, halves, Half::Low, branch)?;
    if low >= wanted {
        return Ok(low);
    }
    let high = leaves_of_half(alloc, view, wanted - low, halves, Half::High, branch)?;
    Ok(low + high)
}

/// Counts leaves with a variable in a half of its range.
#[cycle(leaves)]
#[tactic(auto, using(crate::proofs::MarkLaws::cut_laws))]
fn leaves_of_half(
    alloc: Global,
    view: View,
    wanted: u64,
    halves: Halves,
    half: Half,
    branch: &mut Branch,
) -> Result<u64, AllocError>
    requires view { IsView view branch.old }
    requires room { halves.at <ℤ pos (2 ^ 63 - 1) }
    requires ready { Ready view.vs.now view.rest (half_ranges half halves view.ranges.now)
        (added branch.old (half_fact half halves)) }
    ensures leaves { IfOk result (λ n. n ≡ min wanted (plain_leaves view.entry.vs.now view.entry.rest
        (half_ranges half halves view.entry.ranges.now) (added branch.old (half_fact half halves)))) }
    ensures branch { OnOk result (branch.new ≡ branch.old) }
{
    let mark = mark_of(branch);
    let ranges = take_half(alloc, view.ranges, halves, half, branch)?;
    let leaves = some_leaves(alloc, view.over(ranges.as_slice()), wanted, branch)?;
    cut_back(branch, mark);
    Ok(leaves)
}

/// Counts the leaves of a branch without a fact out of reach.
#[cycle(leaves)]
fn open_some_leaves(
    alloc: Global,
    view: View,
    wanted: u64,
    branch: &mut Branch,
) -> Result<u64, AllocError>
    requires view { IsView view branch.old }
    requires wanted { 1 ≤ wanted }
    requires ready { ViewIsReady view branch.old }
    requires reach { some_out_of_reach branch.old.facts ≡ false }
    ensures leaves { IfOk result (λ n. n ≡ min wanted (leaves_at view.entry branch.old)) }
    ensures branch { OnOk result (branch.new ≡ branch.old) }
{
    if branch.waiting.len() > 0 {
        let form = branch.waiting.remove(0);
        let leaves = leaves_of_form(alloc, view.below(), wanted, form.get(), branch)?;
        branch.waiting.insert(0, form)?;
        Ok(leaves)
    } else {
        match first_halves(view.ranges) {
            Some(halves) => {
                let leaves = leaves_of_halves(alloc, view.below(), wanted, halves, branch)?;
                Ok(leaves)
            }
            None => Ok(1),
        }
    }
}

/// Counts the leaves of a branch, up to the number that is wanted.
#[cycle(leaves)]
fn some_leaves(
    alloc: Global,
    view: View,
    wanted: u64,
    branch: &mut Branch,
) -> Result<u64, AllocError>
    requires view { IsView view branch.old }
    requires ready { ViewIsReady view branch.old }
    ensures leaves { IfOk result (λ n. n ≡ min wanted (leaves_at view.entry branch.old)) }
    ensures branch { OnOk result (branch.new ≡ branch.old) }
{
    if wanted <= 1 {
        return Ok(wanted);
    }
    if some_out_of_reach(alloc, view.scope, branch.facts.as_slice())? {
        return Ok(1);
    }
    let leaves = open_some_leaves(alloc, view, wanted, branch)?;
    Ok(leaves)
}

/// How many leaves an obligation's plain tree has, and the number that is wanted where it has more. The leaves
/// that are not wanted are not visited. An obligation with a parameter of a number of 2^31 or more is refused as
/// for want of memory.
#[tactic(auto, using(crate::proofs::RootLaws::obligation_laws))]
pub fn count_leaves(alloc: Global, o: &Obligation, wanted: u64) -> Result<u64, AllocError>
    requires { IsObligation o.now }
    ensures { IfOk result (λ n. n ≡ min wanted (plain_leaves o.now.variables 960 (ranges_of o.now.variables)
        (first_branch o.now))) }
{
    if !has_room(o) {
        return Err(AllocError);
    }
    let mut branch = open_branch(alloc, o)?;
    let vs = o.variables.as_slice();
    let ranges = ranges_in(alloc, vs)?;
    let view = View {
        vs,
        scope: vs,
        rest: 960,
        ranges: ranges.as_slice(),
    };
    let leaves = some_leaves(alloc, view, wanted, &mut branch)?;
    Ok(leaves)
}
