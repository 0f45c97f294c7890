//! The core form of a document, or the first fault of its names or its expansion.
ghost use Rattle.std.specs.Prelude.{◌≡◌, None, IfOk, IfErr, OnOk};
ghost use Rattle.names_rules.specs.WellNamed.{IsWellNamed};
ghost use Rattle.names_rules.specs.Answers.{Stops};
ghost use Rattle.names_rules.specs.declared.named.NameFault.{NameFault};
ghost use Rattle.quantified_assign.specs.from_expand_documents.Cores.{core_document};
ghost use Rattle.quantified_assign.specs.from_expand_documents.Faults.{expansion_fault};
ghost use Rattle.streamed_documents.specs.WellFormed.{document_fault};

use core_terms::CDocument;
use names_rules::NameFault;
use quantified_assign::expand;
use ranges_types::{Names, check_names};
use std::alloc::Global;
use unity_base::Held;
use unity_syntax::Document;

/// The core form of a well-named document, or the first fault of its expansion.
fn expanded(alloc: Global, document: &Document, names: &Names) -> Result<Held<CDocument>, NameFault>
    requires { IsWellNamed document.now }
    ensures core { IfOk result (λ core. core ≡ core_document document.now) }
    ensures expands { OnOk result (expansion_fault document.now ≡ None) }
    ensures fault { IfErr result (λ fault. Stops fault (expansion_fault document.now)) }
{
    match expand(alloc, document, names) {
        Ok(core) => hold(alloc, core),
        Err(fault) => Err(fault),
    }
}

/// The value in a box.
fn hold(alloc: Global, core: CDocument) -> Result<Held<CDocument>, NameFault>
    ensures core { IfOk result (λ held. held ≡ core) }
    ensures fault { IfErr result (λ fault. fault ≡ NameFault.Memory) }
{
    match Held::new(alloc, core) {
        Ok(held) => Ok(held),
        Err(_) => Err(NameFault::Memory),
    }
}

/// The core form of a document, or the first fault of its names, or else of its expansion. The certificates of the
/// document are not looked at.
#[tactic(auto, using(names_rules::proofs::Steps::stops_first, names_rules::proofs::Steps::stops_later))]
pub fn core_of(alloc: Global, document: &Document) -> Result<Held<CDocument>, NameFault>
    ensures core { IfOk result (λ core. core ≡ core_document document.now) }
    ensures named { OnOk result (IsWellNamed document.now) }
    ensures expands { OnOk result (expansion_fault document.now ≡ None) }
    ensures fault { IfErr result (λ fault. Stops fault (document_fault document.now)) }
{
    match check_names(alloc, document) {
        Ok(names) => expanded(alloc, document, &names),
        Err(fault) => Err(fault),
    }
}
