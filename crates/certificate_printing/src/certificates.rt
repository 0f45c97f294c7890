// The certificates section of a document.
ghost use Rattle.std.specs.Prelude.{◌≡◌, ◌++◌, OnOk};
ghost use Rattle.std.specs.List.{flat_map};
ghost use Rattle.certificate_printing.specs.Certificates as section;

use obligations::{Cert, Node};
use std::alloc::{AllocError, Global};

// ` MULTIPLIER*FACT`.
fn push_pair(
    alloc: Global,
    multiplier: i64,
    fact: u64,
    text: &mut Vec<u8>,
) -> Result<(), AllocError>
    ensures { OnOk result (text.new.items ≡ text.old.items ++ section.pair_text (multiplier, fact)) }
{
    let part = format!(in alloc; " {multiplier}*{fact}")?;
    text.extend_from_slice(part.as_bytes())
}

// The pairs of a node.
fn push_pairs(alloc: Global, pairs: &[(i64, u64)], text: &mut Vec<u8>) -> Result<(), AllocError>
    ensures { OnOk result (text.new.items ≡ text.old.items ++ flat_map section.pair_text pairs.now) }
{
    for pair in pairs {
        push_pair(alloc, pair.0, pair.1, text)?;
    }
    Ok(())
}

// ` round DIVISOR`.
fn push_round(alloc: Global, divisor: i64, text: &mut Vec<u8>) -> Result<(), AllocError>
    ensures { OnOk result (text.new.items ≡ text.old.items ++ section.round_text divisor) }
{
    let part = format!(in alloc; " round {divisor}")?;
    text.extend_from_slice(part.as_bytes())
}

// ` share CONSTANT`.
fn push_share(alloc: Global, constant: i64, text: &mut Vec<u8>) -> Result<(), AllocError>
    ensures { OnOk result (text.new.items ≡ text.old.items ++ section.share_text constant) }
{
    let part = format!(in alloc; " share {constant}")?;
    text.extend_from_slice(part.as_bytes())
}

// A blank, and the node.
fn push_node(alloc: Global, node: &Node, text: &mut Vec<u8>) -> Result<(), AllocError>
    ensures { OnOk result (text.new.items ≡ text.old.items ++ section.node_text node.now) }
{
    match node {
        Node::Case(waiting) => {
            let part = format!(in alloc; " case {waiting}")?;
            text.extend_from_slice(part.as_bytes())
        }
        Node::Split(variable, at) => {
            let part = format!(in alloc; " split {variable} {at}")?;
            text.extend_from_slice(part.as_bytes())
        }
        Node::Sum(pairs) => {
            text.extend_from_slice(b" sum")?;
            push_pairs(alloc, pairs.as_slice(), text)
        }
        Node::Round(divisor, pairs) => {
            push_round(alloc, *divisor, text)?;
            push_pairs(alloc, pairs.as_slice(), text)
        }
        Node::Quot(waiting) => {
            let part = format!(in alloc; " quot {waiting}")?;
            text.extend_from_slice(part.as_bytes())
        }
        Node::Share(constant, pairs) => {
            push_share(alloc, *constant, text)?;
            push_pairs(alloc, pairs.as_slice(), text)
        }
    }
}

// The nodes of a certificate.
fn push_nodes(alloc: Global, nodes: &[Node], text: &mut Vec<u8>) -> Result<(), AllocError>
    ensures { OnOk result (text.new.items ≡ text.old.items ++ flat_map section.node_text nodes.now) }
{
    for node in nodes {
        push_node(alloc, node, text)?;
    }
    Ok(())
}

// The line of a certificate.
fn push_line(alloc: Global, number: u64, cert: &Cert, text: &mut Vec<u8>) -> Result<(), AllocError>
    ensures { OnOk result (text.new.items ≡ text.old.items ++ section.certificate_line number cert.now) }
{
    let part = format!(in alloc; "{number}:")?;
    text.extend_from_slice(part.as_bytes())?;
    push_nodes(alloc, cert.nodes.as_slice(), text)?;
    text.extend_from_slice(b";\n")
}

// The lines of certificates, numbered from 1.
fn push_lines(alloc: Global, certs: &[Cert], text: &mut Vec<u8>) -> Result<(), AllocError>
    ensures { OnOk result (text.new.items ≡ text.old.items ++ section.certificate_lines 1 certs.now) }
{
    for place in 0..certs.len() {
        push_line(alloc, place as u64 + 1, &certs[place], text)?;
    }
    Ok(())
}

/// Adds the certificates section of a document: `certificates`, a line for each certificate, numbered from 1, and
/// `end`, each on a line of its own (this profile's form).
///
/// The error is that memory was refused.
pub fn push_certificates(
    alloc: Global,
    certs: &[Cert],
    text: &mut Vec<u8>,
) -> Result<(), AllocError>
    ensures { OnOk result (text.new.items ≡ text.old.items ++ section.certificates_text certs.now) }
{
    text.extend_from_slice(b"certificates\n")?;
    push_lines(alloc, certs, text)?;
    text.extend_from_slice(b"end\n")
}
