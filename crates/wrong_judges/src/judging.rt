// What judges the certificates of a document, told event by event.
ghost use Rattle.std.specs.Prelude.{◌≡◌, ◌≢◌, true, List, [], ◌∷◌, ◌++◌, IfErr, IfOk, IsOk, OnOk};
ghost use Rattle.unity_base.specs.declared.events.CertEvent.{CertEvent};
ghost use Rattle.core_terms.specs.Conditions.{IsCoreDocument};
ghost use Rattle.core_terms.specs.declared.documents.CDocument.{CDocument};
ghost use Rattle.obligations.specs.declared.certificates.Cert.{Cert};
ghost use Rattle.event_checker.specs.Events.{is_pair};
ghost use Rattle.proof_plans.specs.Giving.{AreWhole};
ghost use Rattle.proof_plans.specs.Verdicts.{verdict_of};
ghost use Rattle.step_plans.specs.Summaries.{SummaryAnswers, SummaryHolds};
ghost use Rattle.event_judge.specs.Judges.{JudgeIsReady, JudgeStandsFor};
ghost use Rattle.event_judge.specs.Told.{certs_events};

use core_terms::CDocument;
use event_judge::Judge;
use obligations::Cert;
use proof_plans::ScriptError;
use std::alloc::AllocError;
use step_plans::Summary;
use unity_base::CertEvent;

/// The call `take` of a judge, with its clauses.
pub fn judge_take(judge: &mut Judge, doc: &CDocument, e: CertEvent) -> Result<(), AllocError>
    requires ready { JudgeIsReady doc.now judge.old }
    ensures stands { OnOk result ((es : List CertEvent) → JudgeStandsFor doc.now judge.old es →
        JudgeStandsFor doc.now judge.new (es ++ e ∷ [])) }
    ensures ready { OnOk result (JudgeIsReady doc.now judge.new) }
    ensures room { is_pair e ≡ true → IsOk result }
{
    judge.take(doc, e)
}

/// The call `finish` of a judge, with its clauses.
pub fn judge_finish(judge: Judge) -> Result<Summary, ScriptError>
    requires { (d : CDocument) × JudgeIsReady d judge }
    ensures verdict { (d : CDocument) (certs : List Cert) → AreWhole certs →
        JudgeStandsFor d judge (certs_events certs) → SummaryAnswers result (verdict_of d certs) }
    ensures holds { (d : CDocument) (certs : List Cert) → IsCoreDocument d → AreWhole certs →
        JudgeStandsFor d judge (certs_events certs) → IfOk result (SummaryHolds d) }
    ensures never { IfErr result (λ e. e ≢ ScriptError.Memory) }
{
    judge.finish()
}
