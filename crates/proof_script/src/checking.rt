// A whole document against its certificates.
ghost use Rattle.std.specs.Prelude.{IfOk};
ghost use Rattle.core_terms.specs.Conditions.{IsCoreDocument};
ghost use Rattle.proof_plans.specs.Giving.{AreWhole};
ghost use Rattle.proof_plans.specs.Verdicts.{verdict_of};
ghost use Rattle.step_plans.specs.Summaries.{SummaryAnswers, SummaryHolds};

use crate::telling::tell_certs;
use core_terms::CDocument;
use event_judge::Judge;
use obligations::Cert;
use proof_plans::ScriptError;
use std::alloc::Global;
use step_plans::Summary;

/// Checks the proofs of a document against its certificates, of which there is to be one for each
/// obligation, in order (this profile's rule). What is kept is that of all steps: each step's property holds in
/// all executions of its program.
///
/// The certificates are told to a judge, one after the other; a step is planned when those of the steps before it were
/// told. The error is the first failure, where the steps
/// come in order, each step's rule first and then its obligations in order: a code from 30 to 42 for the first
/// condition of a step's rule that fails, 36 with no step for a proof without a `defined` step, 50 for an
/// obligation without a certificate, 52 to 59 for the first node of a certificate that fails, and 51 at the end
/// for the first certificate past the last obligation; or `Memory`, where memory was refused.
pub fn check(alloc: Global, doc: &CDocument, certs: &[Cert]) -> Result<Summary, ScriptError>
    requires document { IsCoreDocument doc.now }
    requires whole { AreWhole certs.now }
    ensures verdict { SummaryAnswers result (verdict_of doc.now certs.now) }
    ensures holds { IfOk result (SummaryHolds doc.now) }
{
    let mut judge = Judge::new(alloc, doc)?;
    tell_certs(doc, &mut judge, certs)?;
    judge.finish()
}
