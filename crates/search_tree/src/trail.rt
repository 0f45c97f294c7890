//! The nodes of a certificate that is being found, and the units that are left.
ghost use Rattle.std.specs.Prelude.{◌≡◌, ◌+◌, ◌-◌, ◌≤◌, ◌<◌, ◌^◌, ◌++◌, ◌∷◌, []};
ghost use Rattle.std.specs.Prelude.{false, IfOk, OnOk, MatchBool, MatchOption};
ghost use Rattle.std.specs.Prelude.{IsTrue, ◌↔◌, length, true};
ghost use Rattle.obligations.specs.Certificates.{node_units, units};
ghost use Rattle.search_tree.specs.Searching.{Finishes};

use obligations::Node;
use std::alloc::AllocError;
use unity_base::Seq;

/// The nodes so far, and the units that are still to spend.
#[derive(Drop)]
pub struct Trail {
    pub nodes: Seq<Node>,
    pub spare: u64,
}

/// How the search of a branch ended.
#[derive(Drop)]
pub enum Ended {
    Closed,
    Stopped,
    Refuted(Seq<i64>),
}

/// What is left of some units after a node. `None` exactly where they are too few.
fn after_node(node: &Node, spare: u64) -> Option<u64>
    ensures { MatchOption result (spare < node_units node.now) (λ rest. rest + node_units node.now ≡ spare) }
{
    let pairs = match node {
        Node::Case(_) => 0,
        Node::Split(_, _) => 0,
        Node::Sum(pairs) => pairs.len(),
        Node::Round(_, pairs) => pairs.len(),
        Node::Quot(_) => 0,
        Node::Share(_, pairs) => pairs.len(),
    };
    if spare <= pairs as u64 {
        None
    } else {
        Some(spare - pairs as u64 - 1)
    }
}

/// Adds a node, where there are the units for it.
pub fn put_node(trail: &mut Trail, node: Node) -> Result<bool, AllocError>
    ensures { IfOk result (λ b. MatchBool b ((trail.new.nodes ≡ trail.old.nodes ++ node ∷ []) ×
        (trail.new.spare + node_units node ≡ trail.old.spare))
        ((trail.old.spare < node_units node) × (trail.new ≡ trail.old))) }
{
    match after_node(&node, trail.spare) {
        Some(rest) => {
            trail.nodes.push(node)?;
            trail.spare = rest;
            Ok(true)
        }
        None => Ok(false),
    }
}

/// What is left of some units after nodes. `None` exactly where they are too few.
pub fn after_nodes(nodes: &[Node], spare: u64) -> Option<u64>
    ensures { MatchOption result (spare < units nodes.now) (λ rest. rest + units nodes.now ≡ spare) }
{
    let mut rest = spare;
    for node in nodes {
        match after_node(node, rest) {
            Some(less) => rest = less,
            None => return None,
        }
    }
    Some(rest)
}

/// Adds nodes at the end.
pub fn append_nodes(nodes: &mut Seq<Node>, mut more: Seq<Node>) -> Result<(), AllocError>
    ensures { OnOk result (nodes.new ≡ nodes.old ++ more) }
{
    while more.len() > 0 {
        nodes.push(more.remove(0))?;
    }
    Ok(())
}

/// Adds a chain, where there are the units for it.
fn put_chain(trail: &mut Trail, chain: Seq<Node>) -> Result<bool, AllocError>
    ensures { IfOk result (λ b. MatchBool b ((trail.new.nodes ≡ trail.old.nodes ++ chain) ×
        (trail.new.spare + units chain ≡ trail.old.spare))
        ((trail.old.spare < units chain) × (trail.new ≡ trail.old))) }
{
    match after_nodes(chain.as_slice(), trail.spare) {
        Some(rest) => {
            append_nodes(&mut trail.nodes, chain)?;
            trail.spare = rest;
            Ok(true)
        }
        None => Ok(false),
    }
}

/// Whether a chain is short enough to be used in place of the plain tree's branches.
pub fn is_allowed(count: usize, chain: &[Node]) -> bool
    requires { count < 2 ^ 32 }
    ensures { IsTrue result ↔ ((length chain.now ≤ 64) × (units chain.now < count + 256)) }
{
    chain.len() <= 64 && after_nodes(chain, count as u64 + 255).is_some()
}

/// Closes a branch by a chain.
pub fn finish(trail: &mut Trail, chain: Seq<Node>) -> Result<Ended, AllocError>
    ensures { IfOk result (Finishes chain trail.old trail.new) }
{
    if put_chain(trail, chain)? {
        Ok(Ended::Closed)
    } else {
        Ok(Ended::Stopped)
    }
}
