//! A checker of one certificate.
ghost use Rattle.std.specs.Prelude.{◌≡◌, ◌≤◌, ℕ, true, List, [], ◌∷◌, ◌++◌, IfOk, IsOk, OnOk};
ghost use Rattle.unity_base.specs.declared.events.CertEvent.{CertEvent};
ghost use Rattle.obligations.specs.declared.certificates.Node.{Node};
ghost use Rattle.obligations.specs.declared.branches.Obligation.{Obligation};
ghost use Rattle.obligations.specs.Obligations.{IsObligation};
ghost use Rattle.certificate_rules.specs.Trees.{is_whole};
ghost use Rattle.event_checker.specs.Events.{is_node_event};

use crate::ends::{open_reading, verdict};
use crate::errors::CertError;
use crate::reading::{Reading, take_node, take_pair};
use obligations::Obligation;
use std::alloc::{AllocError, Global};
use unity_base::CertEvent;

/// A certificate of an obligation that is being checked, event by event. After a first node that fails nothing more is
/// looked at.
#[derive(Drop)]
pub struct Checker {
    obligation: Obligation,
    reading: Reading,
    alloc: Global,
}

/// Whether an event begins a node.
#[inline(always)]
fn begins_node(e: CertEvent) -> bool
    ensures { result ≡ is_node_event e }
{
    match e {
        CertEvent::Pair(_, _) => false,
        CertEvent::Begin => false,
        CertEvent::End => false,
        CertEvent::Last => false,
        _ => true,
    }
}

impl Checker {
    ghost use Rattle.event_checker.specs.Checkers.{CheckerIsReady, Judges, CheckerStandsFor, checker_obligation};
    ghost use Rattle.event_checker.specs.Events.{events_of, is_pair};

    /// A checker of a certificate of at most so many levels. It takes the obligation over. The error is that memory was
    /// refused, or that a parameter of the obligation has a number of 2^31 or more; the obligation is then gone.
    pub fn new(alloc: Global, o: Obligation, levels: u32) -> Result<Checker, AllocError>
        requires obligation { IsObligation o }
        requires levels { levels ≤ 4096 }
        ensures stands { IfOk result (λ c. CheckerStandsFor levels c o []) }
        ensures ready { IfOk result CheckerIsReady }
    {
        let reading = open_reading(alloc, &o, levels)?;
        Ok(Checker {
            obligation: o,
            reading,
            alloc,
        })
    }

    /// Reads what is told next. A pair takes no memory. After want of memory the checker may only be dropped.
    #[inline(always)]
    pub fn take(&mut self, e: CertEvent) -> Result<(), AllocError>
        requires ready { CheckerIsReady self.old }
        ensures stands { OnOk result ((levels : ℕ) (o : Obligation) (es : List CertEvent) →
            CheckerStandsFor levels self.old o es → CheckerStandsFor levels self.new o (es ++ e ∷ [])) }
        ensures ready { OnOk result (CheckerIsReady self.new) }
        ensures room { is_pair e ≡ true → IsOk result }
    {
        if let CertEvent::Pair(by, number) = e {
            take_pair(&mut self.reading, (by, number));
            return Ok(());
        }
        if !begins_node(e) {
            return Ok(());
        }
        take_node(
            self.alloc,
            self.obligation.variables.as_slice(),
            &mut self.reading,
            e,
        )
    }

    /// The obligation back, and whether the certificate that was told refutes it: as `check_cert` answers, which never
    /// is that memory was refused. It takes no memory.
    pub fn finish(self) -> (Obligation, Result<(), CertError>)
        ensures back { result.0 ≡ checker_obligation self }
        ensures judges { (levels : ℕ) (o : Obligation) (nodes : List Node) → IsObligation o →
            CheckerStandsFor levels self o (events_of nodes) → is_whole nodes 1 ≡ true →
            Judges levels o nodes result.1 }
    {
        let verdict = verdict(&self.reading);
        (self.obligation, verdict)
    }
}
