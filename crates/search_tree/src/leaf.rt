//! The leaves of the plain tree: each variable of the obligation has one value, and two rounds for each
//! quotient that was taken give its variable one.
ghost use Rattle.std.specs.Prelude.{◌≡◌, ◌≤◌, ◌++◌, [], false, None, map, take, IfOk};
ghost use Rattle.obligations.specs.Obligations.{AreOwn};
ghost use Rattle.obligations.specs.Plain.{first_cut};
ghost use Rattle.obligations.specs.Reach.{some_out_of_reach};
ghost use Rattle.obligations.specs.Scopes as scopes;
ghost use Rattle.search_tree.specs.Points.{values_in, IsFixing};
ghost use Rattle.search_tree.specs.Searching.{Ends, EndsLeaf, Finishes};
ghost use Rattle.search_tree.specs.Views.{IsView, ViewIsReady};

use crate::closing::{count_of, numbered};
use crate::fixing::{Fixing, fixing_of};
use crate::halves::low_ends;
use crate::points::Point;
use crate::trail::{Ended, Trail, append_nodes, finish};
use crate::views::View;
use linear_prover::reach_chain;
use obligations::{Branch, Node, Variable};
use std::alloc::{AllocError, Global};
use unity_base::Seq;

/// The values of all variables.
fn values_of(alloc: Global, points: &[Point]) -> Result<Seq<i64>, AllocError>
    ensures { IfOk result (λ values. values ≡ map (λ p. p.value) points.now) }
{
    let mut values = Seq::new(alloc);
    for point in points {
        values.push(point.value)?;
    }
    Ok(values)
}

/// The values of the first variables.
fn first_values(alloc: Global, count: usize, points: &[Point]) -> Result<Seq<i64>, AllocError>
    ensures { IfOk result (λ values. values ≡ take count (values_in points.now)) }
{
    let mut values = values_of(alloc, points)?;
    values.truncate(count);
    Ok(values)
}

/// Closes a branch by rounds and a chain after them.
fn finish_after(trail: &mut Trail, rounds: Seq<Node>, chain: Seq<Node>) -> Result<Ended, AllocError>
    ensures { IfOk result (Finishes (rounds ++ chain) trail.old trail.new) }
{
    let mut nodes = rounds;
    append_nodes(&mut nodes, chain)?;
    let ended = finish(trail, nodes)?;
    Ok(ended)
}

/// Refutes a leaf all variables of which are fixed, or finds values at which it holds.
#[tactic(auto, using(crate::proofs::FixingLaws::end_laws))]
fn end_leaf(
    alloc: Global,
    vs: &[Variable],
    scope: &[Variable],
    branch: &Branch,
    fixing: Fixing,
    trail: &mut Trail,
) -> Result<Ended, AllocError>
    requires own { AreOwn vs.now }
    requires scope { scope.now ≡ scopes.scope_of vs.now branch.now }
    requires added { branch.now.added ≤ 480 }
    requires none { branch.now.waiting ≡ [] }
    requires fixing { IsFixing vs.now branch.now branch.now.added fixing }
    ensures { IfOk result (EndsLeaf vs.now branch.now trail.old trail.new) }
{
    let Fixing {
        facts,
        rounds,
        points,
    } = fixing;
    let known = facts.as_slice();
    numbered(known)?;
    match reach_chain(alloc, known, count_of(scope))? {
        Some(chain) => {
            let ended = finish_after(trail, rounds, chain)?;
            Ok(ended)
        }
        None => {
            let values = first_values(alloc, vs.len(), points.as_slice())?;
            Ok(Ended::Refuted(values))
        }
    }
}

/// Refutes a branch where nothing waits and each variable of the obligation has one value, or finds values of the added
/// variables with which it holds.
#[tactic(auto, using(crate::proofs::FixedLaws::leaf_laws))]
pub fn refute_leaf(
    alloc: Global,
    view: View,
    branch: &Branch,
    trail: &mut Trail,
) -> Result<Ended, AllocError>
    requires view { IsView view branch.now }
    requires ready { ViewIsReady view branch.now }
    requires reach { some_out_of_reach branch.now.facts ≡ false }
    requires none { branch.now.waiting ≡ [] }
    requires fixed { first_cut 0 view.ranges.now ≡ None }
    ensures { IfOk result (Ends view.entry.vs.now view.entry.rest 1 branch.now trail.old trail.new) }
{
    if branch.added == 0 {
        Ok(Ended::Refuted(low_ends(alloc, view.ranges)?))
    } else {
        let fixing = fixing_of(alloc, view.vs, view.rest, view.ranges, branch)?;
        let ended = end_leaf(alloc, view.vs, view.scope, branch, fixing, trail)?;
        Ok(ended)
    }
}
