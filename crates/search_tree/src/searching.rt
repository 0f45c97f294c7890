//! The search of an obligation: its branch is opened, and the plain tree walked from its root.
ghost use Rattle.std.specs.Prelude.{◌≡◌, IfOk};
ghost use Rattle.obligations.specs.Obligations.{IsObligation};
ghost use Rattle.search_tree.specs.Searching.{SearchAnswers, found_of};

use crate::halves::ranges_in;
use crate::plain_tree::refute;
use crate::trail::{Ended, Trail};
use crate::views::View;
use obligations::{Cert, Node, Obligation, has_room, open_branch};
use std::alloc::{AllocError, Global};
use unity_base::Seq;

/// What a search found.
#[derive(Drop)]
pub enum Found {
    /// A certificate.
    Proved(Cert),
    /// Values in range that make the form false, in the order of the variables.
    Refuted { values: Seq<i64> },
    /// The budget ended first: nodes that begin a certificate.
    Budget { partial: Cert },
}

fn found_by(ended: Ended, nodes: Seq<Node>) -> Found
    ensures { result ≡ found_of ended nodes }
{
    match ended {
        Ended::Closed => Found::Proved(Cert { nodes }),
        Ended::Stopped => Found::Budget {
            partial: Cert { nodes },
        },
        Ended::Refuted(values) => Found::Refuted { values },
    }
}

/// A certificate of an obligation, values that make it false, or that the budget is too small. An obligation with a
/// parameter of a number of 2^31 or more is refused as for want of memory.
#[tactic(auto, using(crate::proofs::RootLaws::obligation_laws))]
pub fn search_tree(alloc: Global, o: &Obligation, budget: u64) -> Result<Found, AllocError>
    requires { IsObligation o.now }
    ensures { IfOk result (SearchAnswers o.now budget) }
{
    if !has_room(o) {
        return Err(AllocError);
    }
    let mut branch = open_branch(alloc, o)?;
    let vs = o.variables.as_slice();
    let ranges = ranges_in(alloc, vs)?;
    let mut trail = Trail {
        nodes: Seq::new(alloc),
        spare: budget,
    };
    let view = View {
        vs,
        scope: vs,
        rest: 960,
        ranges: ranges.as_slice(),
    };
    let ended = refute(alloc, view, &mut branch, &mut trail)?;
    Ok(found_by(ended, trail.nodes))
}
