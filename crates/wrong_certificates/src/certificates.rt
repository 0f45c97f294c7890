// What checks a certificate that is held whole or told event by event.
ghost use Rattle.std.specs.Prelude.{◌≡◌, ◌≢◌, ◌≤◌, ℕ, true, List, [], ◌∷◌, ◌++◌, Ok, IfErr, IfOk, IsOk, OnOk};
ghost use Rattle.unity_base.specs.declared.events.CertEvent.{CertEvent};
ghost use Rattle.obligations.specs.declared.branches.Obligation.{Obligation};
ghost use Rattle.obligations.specs.declared.certificates.Cert.{Cert};
ghost use Rattle.obligations.specs.declared.certificates.Node.{Node};
ghost use Rattle.obligations.specs.Obligations.{IsObligation};
ghost use Rattle.obligations.specs.Opening.{Valid};
ghost use Rattle.certificate_rules.specs.Refutation.{walk_from_root};
ghost use Rattle.certificate_rules.specs.Trees.{Refuted, is_whole};
ghost use Rattle.event_checker.specs.Checkers.{CheckerIsReady, CheckerStandsFor, FailsReading, Judges};
ghost use Rattle.event_checker.specs.Checkers.{checker_obligation};
ghost use Rattle.event_checker.specs.Events.{events_of, is_pair};

use event_checker::{CertError, Checker};
use obligations::{Cert, Obligation};
use std::alloc::{AllocError, Global};
use unity_base::CertEvent;

/// The call `check_cert` of `certificate_check`, with its clauses.
pub fn check_cert(alloc: Global, o: &Obligation, c: &Cert, levels: u32) -> Result<(), CertError>
    requires obligation { IsObligation o.now }
    requires levels { levels ≤ 4096 }
    requires whole { is_whole c.now.nodes 1 ≡ true }
    ensures walked { OnOk result (walk_from_root levels o.now c.now.nodes ≡ Ok []) }
    ensures refuted { OnOk result (Refuted levels o.now c.now.nodes) }
    ensures not_refuted { IfErr result (λ e. e ≢ CertError.Memory → Refuted levels o.now c.now.nodes → ⊥) }
    ensures fault { IfErr result (FailsReading (walk_from_root levels o.now c.now.nodes)) }
    ensures valid { OnOk result (Valid o.now) }
{
    certificate_check::check_cert(alloc, o, c, levels)
}

/// The call `new` of a checker, with its clauses.
pub fn new_checker(alloc: Global, o: Obligation, levels: u32) -> Result<Checker, AllocError>
    requires obligation { IsObligation o }
    requires levels { levels ≤ 4096 }
    ensures stands { IfOk result (λ c. CheckerStandsFor levels c o []) }
    ensures ready { IfOk result CheckerIsReady }
{
    Checker::new(alloc, o, levels)
}

/// The call `take` of a checker, with its clauses.
pub fn checker_take(checker: &mut Checker, e: CertEvent) -> Result<(), AllocError>
    requires ready { CheckerIsReady checker.old }
    ensures stands { OnOk result ((levels : ℕ) (o : Obligation) (es : List CertEvent) →
        CheckerStandsFor levels checker.old o es → CheckerStandsFor levels checker.new o (es ++ e ∷ [])) }
    ensures ready { OnOk result (CheckerIsReady checker.new) }
    ensures room { is_pair e ≡ true → IsOk result }
{
    checker.take(e)
}

/// The call `finish` of a checker, with its clauses.
pub fn checker_finish(checker: Checker) -> (Obligation, Result<(), CertError>)
    ensures back { result.0 ≡ checker_obligation checker }
    ensures judges { (levels : ℕ) (o : Obligation) (nodes : List Node) → IsObligation o →
        CheckerStandsFor levels checker o (events_of nodes) → is_whole nodes 1 ≡ true →
        Judges levels o nodes result.1 }
{
    checker.finish()
}
