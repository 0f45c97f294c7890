//! Documents.

ghost use Rattle.std.specs.Prelude.{◌≡◌, option_map, IfOk};
ghost use Rattle.names_rules.specs.WellNamed.{IsWellNamed};
ghost use Rattle.expand_declarations.specs.References.{core_schedule};
ghost use Rattle.expand_declarations.specs.Slots.{DeclaredNear};
ghost use Rattle.quantified_assign.specs.Expanding as spec;

use crate::contents::{Contents, contents_of};
use core_terms::{CDocument, CSchedule};
use expand_declarations::{WordTable, core_schedule, document_words};
use names_rules::NameFault;
use ranges_types::Names;
use std::alloc::{AllocError, Global};
use unity_syntax::{Document, Schedule};

fn schedule_of(
    alloc: Global,
    schedule: &Option<Schedule>,
    words: &WordTable,
) -> Result<Option<CSchedule>, AllocError>
    ensures { IfOk result (λ s. s ≡ option_map (core_schedule words.now) schedule.now) }
{
    match schedule {
        None => Ok(None),
        Some(schedule) => Ok(Some(core_schedule(alloc, schedule, words)?)),
    }
}

// A document that holds this.
fn document_with(
    alloc: Global,
    doc: &Document,
    words: &WordTable,
    contents: Contents,
) -> Result<CDocument, AllocError>
    ensures { IfOk result (λ c. c ≡ spec.document_of doc.now words.now contents) }
{
    let schedule = schedule_of(alloc, &doc.schedule, words)?;
    let texts = words.texts(alloc)?;
    let Contents {
        slots,
        programs,
        proofs,
    } = contents;
    Ok(CDocument {
        version: doc.number,
        words: texts,
        slots,
        programs,
        proofs,
        schedule,
    })
}

/// The core form of a well-named document. `Fault` exactly at the first fault of its expansion: what is too
/// large in it, an end of a range, or a divisor below 1. An error `Memory` says that memory was refused.
///
/// The caller hands in what the words of the document mean, which it has from finding the document well named.
/// It is not read: under a quantifier or an always name that is put in place one word means another thing in
/// each instance, so words are looked up in the scope that stands there.
pub fn expand(alloc: Global, doc: &Document, _names: &Names) -> Result<CDocument, NameFault>
    requires { IsWellNamed doc.now }
    ensures { spec.Expands result doc.now }
{
    let words = document_words(alloc, doc)?;
    let contents = contents_of(alloc, doc.parts.as_slice(), &words)?;
    Ok(document_with(alloc, doc, &words, contents)?)
}
