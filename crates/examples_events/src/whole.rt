//! What the calls answer that read a text whole.
ghost use Rattle.std.specs.Prelude.{IfOk};
ghost use Rattle.core_terms.specs.Conditions.{IsCoreDocument};
ghost use Rattle.proof_plans.specs.Giving.{AreWhole};

use crate::certificates::certificates_from;
use crate::refusal::{GREATEST_SIZE, Refusal};
use core_terms::CDocument;
use obligations::Cert;
use proof_plans::ScriptError;
use proof_script::{Summary, check};
use std::alloc::Global;
use streamed_documents::core_of;
use unity_base::{Held, Seq};
use unity_parser::read_document;

/// A text that was read whole: its core form and its certificates.
#[derive(Drop)]
pub struct Whole {
    pub core: Held<CDocument>,
    pub certificates: Seq<Cert>,
}

/// Reads a text whole.
#[tactic(auto, using(crate::proofs::TextLaws::whole_laws))]
pub fn read_whole(alloc: Global, bytes: &[u8]) -> Result<Whole, Refusal>
    ensures document { IfOk result (λ text. IsCoreDocument text.core) }
    ensures whole { IfOk result (λ text. AreWhole text.certificates) }
{
    if bytes.len() > GREATEST_SIZE {
        return Err(Refusal::TooLong);
    }
    let document = read_document(alloc, bytes)?;
    let core = core_of(alloc, &document)?;
    let certificates = certificates_from(alloc, document)?;
    Ok(Whole { core, certificates })
}

/// The verdict on it.
pub fn verdict_on(alloc: Global, text: &Whole) -> Result<Summary, ScriptError>
    requires document { IsCoreDocument text.now.core }
    requires whole { AreWhole text.now.certificates }
{
    check(alloc, text.core.get(), text.certificates.as_slice())
}
