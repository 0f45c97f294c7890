//! The check of a certificate that is held whole. Its nodes are read one after the other, as a `Checker` reads those
//! that events tell.
ghost use Rattle.std.specs.Prelude.{◌≡◌, ◌≢◌, ◌≤◌, List, ◌∷◌, map, true, Ok, [], IfErr, IfOk, OnOk};
ghost use Rattle.obligations.specs.declared.branches.Variable.{Variable};
ghost use Rattle.obligations.specs.declared.certificates.Node.{Node};
ghost use Rattle.obligations.specs.Certificates.{node_pairs};
ghost use Rattle.obligations.specs.Obligations.{AreOwn, IsObligation};
ghost use Rattle.obligations.specs.Opening.{Valid, first_branch};
ghost use Rattle.certificate_rules.specs.Refutation.{OpenBranch, allowing, walk_from_root};
ghost use Rattle.certificate_rules.specs.Trees.{is_whole, Refuted};
ghost use Rattle.event_checker.specs.Checkers.{FailsReading};
ghost use Rattle.event_checker.specs.Events.{pair_event, node_events, events_of, beginning, nodes_from, paired};
ghost use Rattle.event_checker.specs.Readings.{ReadingIsReady, ReadingStands};

use event_checker::{CertError, Reading, open_reading, take_node, take_pair, verdict};
use obligations::{Cert, Node, Obligation, Variable};
use std::alloc::{AllocError, Global};
use unity_base::CertEvent;

/// The event that begins a node.
pub fn beginning(node: &Node) -> CertEvent
    ensures { result ≡ beginning node.now }
{
    match node {
        Node::Case(k) => CertEvent::Case(*k),
        Node::Split(variable, k) => CertEvent::Split(*variable, *k),
        Node::Sum(_) => CertEvent::Sum,
        Node::Round(d, _) => CertEvent::Round(*d),
        Node::Quot(k) => CertEvent::Quot(*k),
        Node::Share(constant, _) => CertEvent::Share(*constant),
    }
}

/// Reads a pair of the node that is open.
fn read_pair(reading: &mut Reading, pair: &(i64, u64))
    ensures { (vs : List Variable) (root : List OpenBranch) (ns : List Node) → ReadingStands vs root reading.old ns →
        ReadingStands vs root reading.new (paired ns pair.now) }
{
    take_pair(reading, *pair);
}

/// Reads pairs of the node that is open.
fn read_pairs(reading: &mut Reading, pairs: &[(i64, u64)])
    ensures { (vs : List Variable) (root : List OpenBranch) (ns : List Node) → ReadingStands vs root reading.old ns →
        ReadingStands vs root reading.new (nodes_from ns (map pair_event pairs.now)) }
{
    for pair in pairs {
        read_pair(reading, pair);
    }
}

/// Reads the pairs of a node.
fn read_rest(reading: &mut Reading, node: &Node)
    ensures { (vs : List Variable) (root : List OpenBranch) (ns : List Node) → ReadingStands vs root reading.old ns →
        ReadingStands vs root reading.new (nodes_from ns (map pair_event (node_pairs node.now))) }
{
    match node {
        Node::Sum(pairs) => read_pairs(reading, pairs.as_slice()),
        Node::Round(_, pairs) => read_pairs(reading, pairs.as_slice()),
        Node::Share(_, pairs) => read_pairs(reading, pairs.as_slice()),
        _ => (),
    }
}

/// Reads a node.
fn read_node(
    alloc: Global,
    vs: &[Variable],
    reading: &mut Reading,
    node: &Node,
) -> Result<(), AllocError>
    requires own { AreOwn vs.now }
    requires ready { ReadingIsReady vs.now reading.old }
    ensures { OnOk result ((root : List OpenBranch) (ns : List Node) → ReadingStands vs.now root reading.old ns →
        ReadingStands vs.now root reading.new (nodes_from ns (node_events node.now))) }
{
    take_node(alloc, vs, reading, beginning(node))?;
    read_rest(reading, node);
    Ok(())
}

/// Reads nodes.
fn read_nodes(
    alloc: Global,
    vs: &[Variable],
    reading: &mut Reading,
    nodes: &[Node],
) -> Result<(), AllocError>
    requires own { AreOwn vs.now }
    requires ready { ReadingIsReady vs.now reading.old }
    ensures { OnOk result ((root : List OpenBranch) (ns : List Node) → ReadingStands vs.now root reading.old ns →
        ReadingStands vs.now root reading.new (nodes_from ns (events_of nodes.now))) }
{
    for node in nodes {
        read_node(alloc, vs, reading, node)?;
    }
    Ok(())
}

/// Reads a whole certificate.
fn read(alloc: Global, o: &Obligation, c: &Cert, levels: u32) -> Result<Reading, AllocError>
    requires obligation { IsObligation o.now }
    requires levels { levels ≤ 4096 }
    ensures { IfOk result
        (λ r. ReadingStands o.now.variables (allowing levels (first_branch o.now) ∷ []) r c.now.nodes) }
{
    let mut reading = open_reading(alloc, o, levels)?;
    read_nodes(
        alloc,
        o.variables.as_slice(),
        &mut reading,
        c.nodes.as_slice(),
    )?;
    Ok(reading)
}

/// Whether a certificate of at most so many levels refutes an obligation. Where it does, the
/// obligation is valid. Else the error is `Fault` with the first node that fails, from 0, and how;
/// or `Memory`, where memory was refused, or where a parameter of the obligation has a number of 2^31
/// or more. No number that is met is past 2^126, since the form's load is limited.
pub fn check_cert(alloc: Global, o: &Obligation, c: &Cert, levels: u32) -> Result<(), CertError>
    requires obligation { IsObligation o.now }
    requires levels { levels ≤ 4096 }
    requires whole { is_whole c.now.nodes 1 ≡ true }

    // It is taken exactly where a walk along its nodes leaves no branch, so where its tree refutes.
    ensures walked { OnOk result (walk_from_root levels o.now c.now.nodes ≡ Ok []) }
    ensures refuted { OnOk result (Refuted levels o.now c.now.nodes) }
    ensures not_refuted { IfErr result (λ e. e ≢ CertError.Memory → Refuted levels o.now c.now.nodes → ⊥) }
    ensures fault { IfErr result (FailsReading (walk_from_root levels o.now c.now.nodes)) }
    ensures valid { OnOk result (Valid o.now) }
{
    match read(alloc, o, c, levels) {
        Ok(reading) => verdict(&reading),
        Err(_) => Err(CertError::Memory),
    }
}
