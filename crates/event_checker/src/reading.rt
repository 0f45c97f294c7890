//! The reading of a certificate's nodes, event by event. A node with pairs is done when the next node begins.
ghost use Rattle.std.specs.Prelude.{◌≡◌, true, false, List, MatchResult, IfErr, IfOk, OnOk, Ok, Err, length};
ghost use Rattle.std.specs.List.{list_all};
ghost use Rattle.obligations.specs.declared.certificates.Node.{Node};
ghost use Rattle.obligations.specs.Obligations.{AreOwn};
ghost use Rattle.obligations.specs.Load.{in_limit};
ghost use Rattle.obligations.specs.LinearForms.{line_of_const};
ghost use Rattle.certificate_rules.specs.Refutation.{OpenBranch};
ghost use Rattle.certificate_machine.specs.Sums.{sum_line};
ghost use Rattle.certificate_machine.specs.Machines.{IsFit, IsLightMachine, IsScoped};
ghost use Rattle.event_checker.specs.Events.{is_node_event, paired, with_event};
ghost use Rattle.event_checker.specs.Readings.{pair_makes, has_pairs, next_node, after, CanFinish, NodeFinishes};
ghost use Rattle.event_checker.specs.Readings.{FinishFails};
ghost use Rattle.event_checker.specs.Readings.{ReadingStops, IsOpened, At, IsAtNode, ReadingStands, ReadingIsReady};
ghost use Rattle.event_checker.specs.Readings.{Passed};

use case_tables::Code;
use certificate_machine::{
    Machine, Running, Stop, close, open_case, open_quot, open_share, open_split, round,
};
use obligations::{Fact, Variable};
use std::alloc::{AllocError, Global};
use unity_base::CertEvent;

/// Which node's pairs are being read, or why no node is read any more.
#[derive(Clone, Copy)]
pub enum Open {
    /// None's.
    Nothing,
    /// Those of a `sum`.
    Sum,
    /// Those of a `round` that divides by this number.
    Round(i64),
    /// Those of a `share`.
    Share,
    /// This node failed, and how.
    Failed { code: Code, node: u64 },
    /// No branch is left.
    Closed,
}

/// A certificate that is being read: the branches that are left, the node that is open and the sum of its pairs, and
/// how many nodes are done.
#[derive(Drop)]
pub struct Reading {
    pub machine: Machine,
    pub state: Open,
    pub sum: Running,
    pub node: u64,
}

/// Adds a pair to the sum of the node that is open.
#[inline(always)]
fn add_pair(state: Open, facts: &[Fact], pair: (i64, u64), sum: &mut Running) -> Result<(), Code>
    ensures { MatchResult result
        (λ _. pair_makes state facts.now pair (sum_line sum.old) ≡ Ok (sum_line sum.new))
        (λ code. pair_makes state facts.now pair (sum_line sum.old) ≡ Err code) }
{
    match state {
        Open::Sum | Open::Round(_) => sum.add_pair(facts, pair),
        Open::Share => sum.add_variable(pair),
        _ => Ok(()),
    }
}

/// The node that is read now failed so.
fn fail(reading: &mut Reading, code: Code)
    ensures { reading.new.state ≡ Open.Failed code reading.old.node }
{
    let node = reading.node;
    reading.state = Open::Failed { code, node };
}

/// Reads a pair of the node that is open.
#[inline(always)]
pub fn take_pair(reading: &mut Reading, pair: (i64, u64))
    ensures { (vs : List Variable) (root : List OpenBranch) (ns : List Node) → ReadingStands vs root reading.old ns →
        ReadingStands vs root reading.new (paired ns pair) }
{
    let added = add_pair(
        reading.state,
        reading.machine.branch.facts.as_slice(),
        pair,
        &mut reading.sum,
    );
    match added {
        Ok(()) => (),
        Err(code) => fail(reading, code),
    }
}

/// What the node that is open makes of the branch.
fn finish_open(
    alloc: Global,
    vs: &[Variable],
    machine: &mut Machine,
    state: Open,
    sum: &Running,
) -> Result<(), Stop>
    requires own { AreOwn vs.now }
    requires scoped { IsScoped vs.now machine.old }
    requires fits { IsFit machine.old }
    requires going { machine.old.done ≡ false }
    requires light { IsLightMachine machine.old }
    requires finishes { CanFinish state machine.old (sum_line sum.now) }
    ensures ok { OnOk result (NodeFinishes vs.now state (sum_line sum.now) machine.old machine.new) }
    ensures light { OnOk result (IsLightMachine machine.new) }
    ensures scoped { OnOk result (IsScoped vs.now machine.new) }
    ensures err { IfErr result (FinishFails vs.now state (sum_line sum.now) machine.old) }
{
    match state {
        Open::Sum => close(alloc, vs, machine, sum),
        Open::Round(d) => round(alloc, vs, machine, d, sum),
        Open::Share => open_share(alloc, vs, machine, sum),
        _ => Ok(()),
    }
}

/// Whether a node with pairs is open.
fn has_pairs(state: Open) -> bool
    ensures { result ≡ has_pairs state }
{
    matches!(state, Open::Sum | Open::Round(_) | Open::Share)
}

/// How many nodes are done, with one more where a node with pairs was open.
fn next_node(state: Open, node: u64) -> Result<u64, AllocError>
    ensures { IfOk result (λ next. next ≡ next_node state node) }
{
    if has_pairs(state) {
        match node.checked_add(1) {
            Some(next) => Ok(next),
            None => Err(AllocError),
        }
    } else {
        Ok(node)
    }
}

/// The node that is read now failed so, or memory was refused.
fn stopped(reading: &mut Reading, stop: Stop) -> Result<(), AllocError>
    ensures { OnOk result (ReadingStops stop reading.old reading.new) }
{
    match stop {
        Stop::Fault(code) => {
            fail(reading, code);
            Ok(())
        }
        Stop::Memory => Err(AllocError),
    }
}

/// Counts the node that was open, and says whether a branch is left.
fn count(reading: &mut Reading) -> Result<(), AllocError>
    ensures machine { OnOk result (reading.new.machine ≡ reading.old.machine) }
    ensures node { OnOk result (reading.new.node ≡ next_node reading.old.state reading.old.node) }
    ensures state { OnOk result (reading.new.state ≡ after reading.old.machine.done) }
{
    reading.node = next_node(reading.state, reading.node)?;
    reading.state = if reading.machine.done {
        Open::Closed
    } else {
        Open::Nothing
    };
    Ok(())
}

/// Lets the node with pairs that is open do its work, where one is.
fn step_over(alloc: Global, vs: &[Variable], reading: &mut Reading) -> Result<(), AllocError>
    requires own { AreOwn vs.now }
    requires ready { ReadingIsReady vs.now reading.old }
    ensures { OnOk result ((root : List OpenBranch) (ns : List Node) (e : CertEvent) → is_node_event e ≡ true →
        ReadingStands vs.now root reading.old ns → Passed vs.now root reading.new ns e) }
{
    if !has_pairs(reading.state) {
        return Ok(());
    }
    let finished = finish_open(alloc, vs, &mut reading.machine, reading.state, &reading.sum);
    match finished {
        Ok(()) => count(reading),
        Err(stop) => stopped(reading, stop),
    }
}

/// Counts a node that was read, or says how it failed.
fn opened(reading: &mut Reading, read: Result<(), Stop>) -> Result<(), AllocError>
    ensures { OnOk result (IsOpened read reading.old reading.new) }
{
    match read {
        Ok(()) => {
            reading.node = next_node(Open::Sum, reading.node)?;
            Ok(())
        }
        Err(stop) => stopped(reading, stop),
    }
}

/// Begins a node with pairs, whose sum begins with this number.
#[inline(always)]
#[tactic(auto, using(certificate_machine::proofs::MachineLaws::trips))]
fn start(reading: &mut Reading, state: Open, constant: i64) -> Result<(), AllocError>
    ensures line { OnOk result (sum_line reading.new.sum ≡ line_of_const reading.old.machine.variables constant) }
    ensures size { OnOk result (length (sum_line reading.new.sum).factors ≡ length reading.old.machine.variables) }
    ensures factors { OnOk result (list_all in_limit (sum_line reading.new.sum).factors ≡ true) }
    ensures constant { OnOk result (in_limit (sum_line reading.new.sum).constant ≡ true) }
    ensures state { OnOk result (reading.new.state ≡ state) }
    ensures machine { OnOk result (reading.new.machine ≡ reading.old.machine) }
    ensures node { OnOk result (reading.new.node ≡ reading.old.node) }
{
    reading
        .sum
        .restart(reading.machine.variables.as_slice(), constant)?;
    reading.state = state;
    Ok(())
}

/// Begins the next node, where none is open.
fn begin(
    alloc: Global,
    vs: &[Variable],
    reading: &mut Reading,
    event: CertEvent,
) -> Result<(), AllocError>
    requires own { AreOwn vs.now }
    requires node { is_node_event event ≡ true }
    requires none { reading.old.state ≡ Open.Nothing }
    requires ready { IsAtNode vs.now reading.old.machine reading.old.node }
    ensures { OnOk result ((root : List OpenBranch) (ns : List Node) →
        At vs.now root reading.old.machine reading.old.node ns →
        ReadingStands vs.now root reading.new (with_event ns event)) }
{
    if reading.machine.levels == 0 {
        return opened(reading, Err(Stop::Fault(Code::CertTooDeep)));
    }
    match event {
        CertEvent::Case(k) => {
            let read = open_case(alloc, vs, &mut reading.machine, k);
            opened(reading, read)
        }
        CertEvent::Split(variable, k) => {
            let read = open_split(alloc, vs, &mut reading.machine, variable, k);
            opened(reading, read)
        }
        CertEvent::Quot(k) => {
            let read = open_quot(alloc, vs, &mut reading.machine, k);
            opened(reading, read)
        }
        CertEvent::Sum => start(reading, Open::Sum, 0),
        CertEvent::Round(d) => start(reading, Open::Round(d), 0),
        CertEvent::Share(constant) => start(reading, Open::Share, constant),
        _ => Ok(()),
    }
}

/// Reads the beginning of a node.
pub fn take_node(
    alloc: Global,
    vs: &[Variable],
    reading: &mut Reading,
    event: CertEvent,
) -> Result<(), AllocError>
    requires own { AreOwn vs.now }
    requires node { is_node_event event ≡ true }
    requires ready { ReadingIsReady vs.now reading.old }
    ensures { OnOk result ((root : List OpenBranch) (ns : List Node) → ReadingStands vs.now root reading.old ns →
        ReadingStands vs.now root reading.new (with_event ns event)) }
{
    step_over(alloc, vs, reading)?;
    match reading.state {
        Open::Nothing => begin(alloc, vs, reading, event),
        _ => Ok(()),
    }
}
