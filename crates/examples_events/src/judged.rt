//! What is found of a text that is judged as it is read.
use crate::refusal::{GREATEST_SIZE, Refusal};
use case_tables::Code;
use proof_plans::StepFault;
use proof_script::Summary;
use std::alloc::Global;
use streamed_documents::{Finding, Flaw, SourceStop, judge_source};
use unity_base::Source;

/// The code of a verdict, none where it is accepted.
fn code_of(verdict: &Result<Summary, StepFault>) -> Option<Code> {
    match verdict {
        Ok(_) => None,
        Err(fault) => Some(fault.code),
    }
}

/// The code that is found of a text, none where it is accepted.
pub fn judged_code<S: Source>(alloc: Global, src: &mut S) -> Result<Option<Code>, Refusal> {
    match judge_source(alloc, src, GREATEST_SIZE) {
        Ok(Finding::Judged(found)) => Ok(code_of(&found.get().verdict)),
        Ok(Finding::Refused(Flaw::Fault { code, .. })) => Ok(Some(code)),
        Ok(Finding::Refused(Flaw::TooLong)) => Err(Refusal::TooLong),
        Err(SourceStop::Failed) => Err(Refusal::Failed),
        Err(SourceStop::Memory) => Err(Refusal::Memory),
    }
}
