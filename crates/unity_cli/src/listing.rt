// The command `obligations`: what is left to be shown for the proofs of a document.
ghost use Rattle.std.specs.Prelude.{◌≡◌, ◌⊎◌, List, ℕ, None, Some, map, IfOk};
ghost use Rattle.unity_base.specs.Streams.{IsTold};
ghost use Rattle.cli_texts.specs.from_proof_plans.Planning.{reach_from};
ghost use Rattle.cli_texts.specs.from_proof_plans.Reaching.{reach_of};
ghost use Rattle.cli_words.specs.Requests as requests;
ghost use Rattle.told_obligations.specs.Origins.{document_origins};
ghost use Rattle.told_obligations.specs.Places.{line_of};
ghost use Rattle.unity_cli.specs.Admitted.{greatest_bare_size};
ghost use Rattle.unity_cli.specs.Answering.{Telling};
ghost use Rattle.unity_cli.specs.Input.{AreKept, IsInput, IsAdmittedAs};

use crate::input::Input;
use crate::output::{Answer, write_answer, write_bad};
use crate::status::Status;
use case_tables::Code;
use cli_texts::{document_fault, input_refusal, rejected};
use proof_plans::{Plan, Planned, StepFault, plan_by_rules};
use std::alloc::{AllocError, Global};
use streamed_documents::ReadDocument;
use told_obligations::{Listing, Origin, lines_of, origins_of, write_obligations};
use unity_base::{Seq, Sink};

/// Writes what `obligations` answers for the input, with its bytes where it is a document.
pub fn write_listing<K: Sink>(alloc: Global, kept: &[u8], input: &Input, out: &mut K) -> Status
    requires { (bytes : List ℕ) × IsInput greatest_bare_size bytes input.now × AreKept input.now kept.now bytes }
    ensures told { (bytes : List ℕ) → IsInput greatest_bare_size bytes input.now →
        AreKept input.now kept.now bytes →
        Telling requests.obligations bytes (K.written out.old) (K.written out.new) result }
    ensures nothing { result ≡ Status.WantOfMemory → out.new ≡ out.old }
    ensures never { result ≡ Status.ReadFault → ⊥ }
    ensures cause { IsTold (K.faults out.old) (K.faults out.new) (result ≡ Status.WriteFault) }
{
    match input {
        Input::TooLong => write_bad(input_refusal(alloc, Code::TooLong), out),
        Input::Fault { code, at } => write_bad(document_fault(alloc, *code, *at), out),
        Input::Document(reading) => list_document(alloc, kept, reading.get(), out),
    }
}

// Writes what `obligations` answers for a document.
fn list_document<K: Sink>(
    alloc: Global,
    bytes: &[u8],
    reading: &ReadDocument,
    out: &mut K,
) -> Status
    requires { IsAdmittedAs greatest_bare_size bytes.now reading.now }
    ensures told { Telling requests.obligations bytes.now (K.written out.old) (K.written out.new) result }
    ensures nothing { result ≡ Status.WantOfMemory → out.new ≡ out.old }
    ensures never { result ≡ Status.ReadFault → ⊥ }
    ensures cause { IsTold (K.faults out.old) (K.faults out.new) (result ≡ Status.WriteFault) }
{
    match plan_by_rules(alloc, &reading.core) {
        Ok(planned) => list_planned(alloc, bytes, reading, &planned, out),
        Err(_) => Status::WantOfMemory,
    }
}

// Writes what the steps of a document leave to be shown, or the first failure.
fn list_planned<K: Sink>(
    alloc: Global,
    bytes: &[u8],
    reading: &ReadDocument,
    planned: &Planned,
    out: &mut K,
) -> Status
    requires reading { IsAdmittedAs greatest_bare_size bytes.now reading.now }
    requires planned { reach_of reading.now.core ≡ reach_from planned.now.plan planned.now.stopped }
    ensures told { Telling requests.obligations bytes.now (K.written out.old) (K.written out.new) result }
    ensures nothing { result ≡ Status.WantOfMemory → out.new ≡ out.old }
    ensures never { result ≡ Status.ReadFault → ⊥ }
    ensures cause { IsTold (K.faults out.old) (K.faults out.new) (result ≡ Status.WriteFault) }
{
    match &planned.stopped {
        None => list_plan(alloc, bytes, reading, &planned.plan, out),
        Some(fault) => list_fault(alloc, bytes, reading, &planned.plan, fault, out),
    }
}

// Writes the first failure.
fn list_fault<K: Sink>(
    alloc: Global,
    bytes: &[u8],
    reading: &ReadDocument,
    plan: &Plan,
    fault: &StepFault,
    out: &mut K,
) -> Status
    requires reading { IsAdmittedAs greatest_bare_size bytes.now reading.now }
    requires planned { reach_of reading.now.core ≡ reach_from plan.now (Some fault.now) }
    ensures told { Telling requests.obligations bytes.now (K.written out.old) (K.written out.new) result }
    ensures nothing { result ≡ Status.WantOfMemory → out.new ≡ out.old }
    ensures never { result ≡ Status.ReadFault → ⊥ }
    ensures cause { IsTold (K.faults out.old) (K.faults out.new) (result ≡ Status.WriteFault) }
{
    match rejected(alloc, reading.core.words.as_slice(), fault) {
        Ok(text) => {
            let answer = Answer {
                status: Status::Rejected,
                text,
            };
            write_answer(&answer, out)
        }
        Err(_) => Status::WantOfMemory,
    }
}

// The origin of each obligation of a plan, and the line of each step.
fn places_of(
    alloc: Global,
    bytes: &[u8],
    reading: &ReadDocument,
    plan: &Plan,
) -> Result<(Seq<Origin>, Seq<u64>), AllocError>
    ensures { IfOk result (λ found. (found.0 ≡ document_origins reading.now.core plan.now.records)
        × (found.1 ≡ map (line_of bytes.now) reading.now.places)) }
{
    let origins = origins_of(alloc, &reading.core, plan.records.as_slice())?;
    let lines = lines_of(alloc, bytes, reading.places.as_slice())?;
    Ok((origins, lines))
}

// Writes what is left to be shown.
fn list_plan<K: Sink>(
    alloc: Global,
    bytes: &[u8],
    reading: &ReadDocument,
    plan: &Plan,
    out: &mut K,
) -> Status
    requires reading { IsAdmittedAs greatest_bare_size bytes.now reading.now }
    requires planned { reach_of reading.now.core ≡ reach_from plan.now None }
    ensures told { Telling requests.obligations bytes.now (K.written out.old) (K.written out.new) result }
    ensures nothing { result ≡ Status.WantOfMemory → out.new ≡ out.old }
    ensures never { result ≡ Status.ReadFault → ⊥ }
    ensures cause { IsTold (K.faults out.old) (K.faults out.new) (result ≡ Status.WriteFault) }
{
    match places_of(alloc, bytes, reading, plan) {
        Ok((origins, lines)) => {
            let (origins, lines) = (origins.as_slice(), lines.as_slice());
            list_found(bytes, reading, plan, origins, lines, out)
        }
        Err(_) => Status::WantOfMemory,
    }
}

// Writes what is left to be shown, where it is known which part of its rule each obligation is.
fn list_found<K: Sink>(
    bytes: &[u8],
    reading: &ReadDocument,
    plan: &Plan,
    origins: &[Origin],
    lines: &[u64],
    out: &mut K,
) -> Status
    requires reading { IsAdmittedAs greatest_bare_size bytes.now reading.now }
    requires planned { reach_of reading.now.core ≡ reach_from plan.now None }
    requires origins { origins.now ≡ document_origins reading.now.core plan.now.records }
    requires lines { lines.now ≡ map (line_of bytes.now) reading.now.places }
    ensures told { Telling requests.obligations bytes.now (K.written out.old) (K.written out.new) result }
    ensures never { (result ≡ Status.ReadFault) ⊎ (result ≡ Status.WantOfMemory) → ⊥ }
    ensures cause { IsTold (K.faults out.old) (K.faults out.new) (result ≡ Status.WriteFault) }
{
    let places = reading.places.as_slice();
    let listing = Listing::new(&reading.core, plan, origins, places, lines);
    match write_obligations(&listing, out) {
        Ok(()) => Status::Done,
        Err(_) => Status::WriteFault,
    }
}
