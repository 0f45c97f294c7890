//! The certificates of a document that was read whole.
ghost use Rattle.std.specs.Prelude.{◌≡◌, ◌∷◌, map, reverse, IfOk, OnOk, ◌++◌};
ghost use Rattle.certificate_reading.specs.Certificates as written;

use obligations::{Cert, Node};
use std::alloc::{AllocError, Global};
use unity_base::Seq;
use unity_syntax::{self as text, CertText, Document, Pair};

/// The greatest number of a text.
const GREATEST_LITERAL: u64 = 4_611_686_018_427_387_904;

// A number with its sign.
fn signed(minus: bool, number: u64) -> i64
    ensures { result ≡ written.number_of minus number }
{
    let number = number.min(GREATEST_LITERAL) as i64;
    if minus { -number } else { number }
}

fn pair_of(pair: &Pair) -> (i64, u64)
    ensures { result ≡ written.pair_of pair.now }
{
    (signed(pair.minus, pair.multiplier), pair.fact)
}

fn pairs_of(alloc: Global, pairs: &[Pair]) -> Result<Seq<(i64, u64)>, AllocError>
    ensures { IfOk result (λ found. found ≡ map written.pair_of pairs.now) }
{
    let mut found = Seq::new(alloc);
    for pair in pairs {
        found.push(pair_of(pair))?;
    }
    Ok(found)
}

// A node, with its numbers as integers.
fn node_of(alloc: Global, node: &text::Node) -> Result<Node, AllocError>
    ensures { IfOk result (λ found. found ≡ written.node_of node.now) }
{
    match node {
        text::Node::Case { number, .. } => Ok(Node::Case(*number)),
        text::Node::Split {
            variable,
            minus,
            bound,
            ..
        } => Ok(Node::Split(*variable, signed(*minus, *bound))),
        text::Node::Sum { pairs, .. } => {
            let pairs = pairs_of(alloc, pairs.as_slice())?;
            Ok(Node::Sum(pairs))
        }
        text::Node::Round {
            minus,
            divisor,
            pairs,
            ..
        } => {
            let pairs = pairs_of(alloc, pairs.as_slice())?;
            Ok(Node::Round(signed(*minus, *divisor), pairs))
        }
        text::Node::Quot { number, .. } => Ok(Node::Quot(*number)),
        text::Node::Share {
            minus,
            constant,
            pairs,
            ..
        } => {
            let pairs = pairs_of(alloc, pairs.as_slice())?;
            Ok(Node::Share(signed(*minus, *constant), pairs))
        }
    }
}

// Adds nodes, one after the other.
fn push_nodes(alloc: Global, nodes: &[text::Node], found: &mut Seq<Node>) -> Result<(), AllocError>
    ensures { OnOk result (found.new ≡ found.old ++ map written.node_of nodes.now) }
{
    for node in nodes {
        let node = node_of(alloc, node)?;
        found.push(node)?;
    }
    Ok(())
}

fn certificate_of(alloc: Global, certificate: &CertText) -> Result<Cert, AllocError>
    ensures { IfOk result (λ found. found ≡ written.certificate_of certificate.now) }
{
    let mut nodes = Seq::new(alloc);
    let first = node_of(alloc, &certificate.first)?;
    nodes.push(first)?;
    push_nodes(alloc, certificate.rest.as_slice(), &mut nodes)?;
    Ok(Cert { nodes })
}

// The certificates the other way round.
fn turned(alloc: Global, certificates: Seq<Cert>) -> Result<Seq<Cert>, AllocError>
    ensures { IfOk result (λ found. found ≡ reverse certificates) }
{
    let mut left = certificates;
    let mut found = Seq::new(alloc);
    'certificates: while let Some(certificate) = left.pop() {
        found.push(certificate)?;
    }
    Ok(found)
}

// Each certificate, from the last one on, and lets it go as it is written.
fn all_from(alloc: Global, items: Seq<CertText>) -> Result<Seq<Cert>, AllocError>
    ensures { IfOk result (λ found. found ≡ map written.certificate_of items) }
{
    let mut left = items;
    let mut found = Seq::new(alloc);
    'certificates: while let Some(certificate) = left.pop() {
        let certificate = certificate_of(alloc, &certificate)?;
        found.push(certificate)?;
    }
    turned(alloc, found)
}

/// The certificates of a document, in order, taken out of it; none where it has no section of certificates. Each is let
/// go as it is written before the next one is read, so that the two forms of them do not stand beside each other. No
/// number of a text is past 2^62, so one that is would be taken as that.
///
/// The error is that memory was refused.
pub fn certificates_from(alloc: Global, document: Document) -> Result<Seq<Cert>, AllocError>
    ensures { IfOk result (λ found. found ≡ written.certificates_of document) }
{
    let Document { certificates, .. } = document;
    match certificates {
        Some(section) => all_from(alloc, section.items),
        None => Ok(Seq::new(alloc)),
    }
}
