//! The answers for a text that was read to its end.
ghost use Rattle.std.specs.Prelude.{ℕ, List, IfOk};
ghost use Rattle.core_terms.specs.declared.documents.CDocument.{CDocument};
ghost use Rattle.event_judge.specs.Judges.{JudgeIsReady};
ghost use Rattle.streamed_documents.specs.declared.fronts.Listener.TheVariants as listener;
ghost use Rattle.streamed_documents.specs.Found.{IsReading};
ghost use Rattle.streamed_documents.specs.Fronts.{IsPassed, IsSettled, IsVerdict, IsVerdictBy};
ghost use Rattle.streamed_documents.specs.Hearing.{IsReadyFor};

use crate::behind::Pending;
use crate::found::{Finding, Flaw, JudgedDocument, Reading};
use core_terms::CDocument;
use event_judge::Judge;
use proof_plans::{ScriptError, StepFault};
use std::alloc::{AllocError, Global};
use step_plans::Summary;
use unity_base::Held;

/// A judge's verdict. A judge never answers that memory was refused.
fn verdict_by(judge: Judge) -> Result<Result<Summary, StepFault>, AllocError>
    requires { (d : CDocument) × JudgeIsReady d judge }
    ensures { IfOk result (IsVerdict judge) }
{
    match judge.finish() {
        Ok(summary) => Ok(Ok(summary)),
        Err(ScriptError::Step(fault)) => Ok(Err(fault)),
        Err(ScriptError::Memory) => Err(AllocError),
    }
}

/// A document with a judge's verdict on it.
fn judged(alloc: Global, core: CDocument, judge: Judge) -> Result<Finding, AllocError>
    requires { JudgeIsReady core judge }
    ensures { IfOk result (IsVerdictBy core judge) }
{
    let verdict = verdict_by(judge)?;
    Ok(Finding::Judged(Held::new(alloc, JudgedDocument { core, verdict })?))
}

/// What is found where nothing behind the front is at fault, and a judge heard the certificates.
pub(crate) fn settled(alloc: Global, pending: Pending) -> Result<Finding, AllocError>
    requires { IsReadyFor listener.Judge pending }
    ensures { IfOk result (IsSettled pending) }
{
    match pending {
        Pending::Fault { code, at } => Ok(Finding::Refused(Flaw::Fault { code, at })),
        Pending::Document(_) => unreachable!(),
        Pending::Judge { core, judge } => judged(alloc, core.into_inner(), judge),
    }
}

/// What is read where nothing behind the front is at fault, and nobody heard the certificates.
pub(crate) fn read_as(pending: Pending) -> Reading
    requires { IsReadyFor listener.Nobody pending }
    ensures { (most : ℕ) (bytes : List ℕ) → IsPassed most bytes pending → IsReading most bytes result }
{
    match pending {
        Pending::Fault { code, at } => Reading::Refused(Flaw::Fault { code, at }),
        Pending::Document(read) => Reading::Document(read),
        Pending::Judge { .. } => unreachable!(),
    }
}
