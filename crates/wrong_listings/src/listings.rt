// What lists the obligations of a document.
ghost use Rattle.std.specs.Prelude.{◌≡◌, map, IfOk, OnErr, OnOk};
ghost use Rattle.std.specs.Io.KnownBytes.{Appends};
ghost use Rattle.unity_base.specs.Streams.{AppendsPart, HasCause};
ghost use Rattle.told_obligations.specs.Listing as list;
ghost use Rattle.told_obligations.specs.Origins as origin;
ghost use Rattle.told_obligations.specs.Places as place;

use core_terms::CDocument;
use fair_rounds::Record;
use std::alloc::{AllocError, Global};
use told_obligations::{Listing, Origin};
use unity_base::{Failed, Seq, Sink};

/// The call `origins_of` of `told_obligations`, with its clause.
pub fn origins_of(
    alloc: Global,
    doc: &CDocument,
    records: &[Record],
) -> Result<Seq<Origin>, AllocError>
    ensures { IfOk result (λ origins. origins ≡ origin.document_origins doc.now records.now) }
{
    told_obligations::origins_of(alloc, doc, records)
}

/// The call `lines_of` of `told_obligations`, with its clause.
pub fn lines_of(alloc: Global, bytes: &[u8], places: &[u64]) -> Result<Seq<u64>, AllocError>
    ensures { IfOk result (λ lines. lines ≡ map (place.line_of bytes.now) places.now) }
{
    told_obligations::lines_of(alloc, bytes, places)
}

/// The call `write_obligations` of `told_obligations`, with its clauses.
pub fn write_obligations<K: Sink>(listing: &Listing, out: &mut K) -> Result<(), Failed>
    ensures whole { OnOk result (Appends (K.written out.old) (K.written out.new)
        (list.obligations_text (list.told_in listing.now))) }
    ensures part { OnErr result (AppendsPart (K.written out.old) (K.written out.new)
        (list.obligations_text (list.told_in listing.now))) }
    ensures cause { HasCause (K.faults out.old) (K.faults out.new) result }
{
    told_obligations::write_obligations(listing, out)
}
