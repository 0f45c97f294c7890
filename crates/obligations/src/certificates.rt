// Certificates, and how large they are.
ghost use Rattle.std.specs.Prelude.{◌≡◌, ◌+◌, ◌-◌, ◌^◌, min, length};
ghost use Rattle.obligations.specs.Certificates.{node_units, units};

use core_terms::from_unity_base::Seq;

/// A step of a certificate. Facts, waiting formulas and variables are numbered from 1.
#[derive(Drop)]
pub enum Node {
    /// Takes apart the waiting formula of this number.
    Case(u64),
    /// Goes on with the variable of this number at most the number that follows, and then above it.
    Split(u64, i64),
    /// Adds multiples of facts, each a multiplier and the fact's number, to a fact that is false.
    Sum(Seq<(i64, u64)>),
    /// Adds multiples of facts, divides by a number and rounds the constant down.
    Round(i64, Seq<(i64, u64)>),
    /// Takes a quotient out of the waiting formula of this number.
    Quot(u64),
    /// States that a number and multiples of variables, each a multiplier and the variable's number, add up to at
    /// least 0; goes on where they don't, and then with that fact.
    Share(i64, Seq<(i64, u64)>),
}

/// A tree of nodes, each before its subtrees.
#[derive(Drop)]
pub struct Cert {
    pub nodes: Seq<Node>,
}

fn units_of_pairs(pairs: &Seq<(i64, u64)>) -> u64
    ensures { result ≡ min (1 + length pairs.now) (2 ^ 64 - 1) }
{
    (pairs.len() as u64).saturating_add(1)
}

fn units_of_node(node: &Node) -> u64
    ensures { result ≡ min (node_units node.now) (2 ^ 64 - 1) }
{
    match node {
        Node::Case(_) => 1,
        Node::Split(_, _) => 1,
        Node::Sum(pairs) => units_of_pairs(pairs),
        Node::Round(_, pairs) => units_of_pairs(pairs),
        Node::Quot(_) => 1,
        Node::Share(_, pairs) => units_of_pairs(pairs),
    }
}

/// The size of a certificate: one for each node, and one for each pair of a sum, a round or a share; or
/// 2^64 - 1 where that is more.
#[tactic(auto, using(crate::proofs::CertificateLaws::units_laws))]
pub fn units(c: &Cert) -> u64
    ensures { result ≡ min (units c.now.nodes) (2 ^ 64 - 1) }
{
    let nodes = c.nodes.as_slice();
    let mut total: u64 = 0;
    for node in nodes {
        total = total.saturating_add(units_of_node(node));
    }
    total
}
