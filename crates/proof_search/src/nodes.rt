//! What is asked of nodes before they are judged: that they are one tree, and that their numbers are limited.
ghost use Rattle.std.specs.Prelude.{◌≡◌, true};
ghost use Rattle.std.specs.List.{list_all};
ghost use Rattle.obligations.specs.Certificates.{arity};
ghost use Rattle.certificate_rules.specs.Trees.{is_whole};
ghost use Rattle.search_tree.specs.Searching.{is_found_node};

use linear_prover::{are_plain_pairs, is_plain_number};
use obligations::Node;

/// How many subtrees a node has.
fn arity(node: &Node) -> u64
    ensures { result ≡ arity node.now }
{
    match node {
        Node::Case(_) => 2,
        Node::Split(_, _) => 2,
        Node::Sum(_) => 0,
        Node::Round(_, _) => 1,
        Node::Quot(_) => 1,
        Node::Share(_, _) => 2,
    }
}

/// Whether nodes are seen to be one tree.
pub fn is_tree(nodes: &[Node]) -> bool
    ensures { result ≡ true → is_whole nodes.now 1 ≡ true }
{
    let mut open: u64 = 1;
    for node in nodes {
        if open == 0 {
            return false;
        }
        match arity(node).checked_add(open - 1) {
            Some(more) => open = more,
            None => return false,
        }
    }
    open == 0
}

/// Whether a node is one that a search can write.
fn is_found(node: &Node) -> bool
    ensures { result ≡ is_found_node node.now }
{
    match node {
        Node::Case(_) => true,
        Node::Split(_, at) => is_plain_number(at),
        Node::Sum(pairs) => are_plain_pairs(pairs.as_slice()),
        Node::Round(divisor, pairs) => is_plain_number(divisor)
            && are_plain_pairs(pairs.as_slice()),
        Node::Quot(number) => *number <= 1 << 62,
        Node::Share(_, _) => false,
    }
}

/// Whether all nodes are ones that a search can write.
pub fn are_found(nodes: &[Node]) -> bool
    ensures { result ≡ list_all is_found_node nodes.now }
{
    nodes.iter().all(|node| is_found(node))
}
