// What is told of a schedule that was watched.
ghost use Rattle.std.specs.Prelude.{◌≡◌, ◌<◌, ◌≤◌, ◌++◌, All, IfOk, OnOk, length, slice_get, unwrap_or};
ghost use Rattle.std.specs.Prelude.{[]};
ghost use Rattle.std.specs.Fmt.{signed_decimal};
ghost use Rattle.std.specs.List.{flat_map};
ghost use Rattle.schedule_replay.specs.Lines as line;
ghost use Rattle.soundness.specs.from_cli_texts.Verdicts as verdict;
ghost use Rattle.certificate_printing.specs.Findings as finding;
ghost use Rattle.trace_watch.specs.Cases.{case_count, environments};
ghost use Rattle.core_terms.specs.Conditions.{IsCoreDocument};
ghost use Rattle.watch_schedules.specs.Schedules.{IsWatchedSchedule};
ghost use Rattle.watch_schedules.specs.Telling as told;

use crate::text_sink::TextSink;
use crate::watching::WatchedSchedule;
use case_tables::Kind;
use certificate_printing::names_of;
use core_terms::{CDocument, CProgram};
use fair_rounds::{Record, rounds};
use schedule_replay::write_line;
use std::alloc::{AllocError, Global};
use trace_watch::{Ending, Violation, case_values};
use unity_base::Seq;

// The word of this number.
fn word(words: &[Seq<u8>], number: u32) -> &[u8]
    ensures { result.now ≡ line.word_text words.now number }
{
    match words.get(number as usize) {
        Some(found) => found.as_slice(),
        None => &[],
    }
}

// `PROGRAM.STEP`.
fn push_name(words: &[Seq<u8>], claim: &Record, text: &mut Vec<u8>) -> Result<(), AllocError>
    ensures { OnOk result (text.new.items ≡ text.old.items ++ told.name_text words.now claim.now) }
{
    text.extend_from_slice(word(words, claim.program))?;
    text.extend_from_slice(b".")?;
    text.extend_from_slice(word(words, claim.name))
}

// ` KIND`, and its bound too where it leads to something.
fn push_kind(alloc: Global, kind: Kind, bound: u64, text: &mut Vec<u8>) -> Result<(), AllocError>
    ensures { OnOk result (text.new.items ≡ text.old.items ++ verdict.kind_text kind bound) }
{
    let line = match kind {
        Kind::Leadsto | Kind::Until | Kind::Detects => format!(in alloc;
            " {} {bound}\n",
            kind.name()
        )?,
        _ => format!(in alloc; " {}\n", kind.name())?,
    };
    text.extend_from_slice(line.as_bytes())
}

// `PROGRAM.STEP KIND`, on a line, of a step of the program.
fn push_own(
    alloc: Global,
    words: &[Seq<u8>],
    program: u32,
    claim: &Record,
    text: &mut Vec<u8>,
) -> Result<(), AllocError>
    ensures { OnOk result (text.new.items ≡ text.old.items ++ told.own_line words.now program claim.now) }
{
    if claim.program != program {
        return Ok(());
    }
    text.extend_from_slice(word(words, claim.program))?;
    text.extend_from_slice(b".")?;
    text.extend_from_slice(word(words, claim.name))?;
    push_kind(alloc, claim.kind, claim.bound, text)
}

// The lines of the program's steps.
fn push_steps(
    alloc: Global,
    words: &[Seq<u8>],
    program: u32,
    records: &[Record],
    text: &mut Vec<u8>,
) -> Result<(), AllocError>
    ensures { OnOk result (text.new.items
        ≡ text.old.items ++ flat_map (told.own_line words.now program) records.now) }
{
    for record in records {
        push_own(alloc, words, program, record, text)?;
    }
    Ok(())
}

// `watched PROGRAM N states R rounds`, on a line, and then the lines of the program's steps.
fn watched_text(
    alloc: Global,
    words: &[Seq<u8>],
    p: &CProgram,
    choices: &[u32],
    records: &[Record],
) -> Result<Vec<u8>, AllocError>
    requires some { 1 ≤ length p.now.statements }
    requires few { length p.now.statements ≤ 4096 }
    requires instances { All (λ choice. choice < length p.now.statements) choices.now }
    ensures { IfOk result (λ text. text.items ≡ told.watched_text words.now p.now choices.now records.now) }
{
    let mut text = Vec::new(alloc);
    text.extend_from_slice(b"watched ")?;
    text.extend_from_slice(word(words, p.name))?;
    let states = choices.len() as u64 + 1;
    let count = rounds(choices, p.statements.len() as u32);
    let rest = format!(in alloc; " {states} states {count} rounds\n")?;
    text.extend_from_slice(rest.as_bytes())?;
    push_steps(alloc, words, p.name, records, &mut text)?;
    Ok(text)
}

// The line of a parameter.
fn push_param(
    alloc: Global,
    words: &[Seq<u8>],
    name: u32,
    value: i64,
    text: &mut Vec<u8>,
) -> Result<(), AllocError>
    ensures { OnOk result (text.new.items ≡ text.old.items ++ finding.param_line words.now name value) }
{
    text.extend_from_slice(word(words, name))?;
    text.extend_from_slice(b" = ")?;
    let number = format!(in alloc; "{value}")?;
    text.extend_from_slice(number.as_bytes())?;
    text.extend_from_slice(b"\n")
}

// The line of the parameter at a place, where it has a name and a value.
fn push_at(
    alloc: Global,
    words: &[Seq<u8>],
    names: &[u32],
    values: &[i64],
    place: usize,
    text: &mut Vec<u8>,
) -> Result<(), AllocError>
    ensures { OnOk result (text.new.items ≡ text.old.items
        ++ told.line_of words.now (slice_get names.now place) (slice_get values.now place)) }
{
    match names.get(place) {
        Some(name) => match values.get(place) {
            Some(value) => push_param(alloc, words, *name, *value, text),
            None => Ok(()),
        },
        None => Ok(()),
    }
}

// The lines of parameters, as far as there are values.
fn push_params(
    alloc: Global,
    words: &[Seq<u8>],
    names: &[u32],
    values: &[i64],
    text: &mut Vec<u8>,
) -> Result<(), AllocError>
    ensures { OnOk result (text.new.items ≡ text.old.items
        ++ told.param_lines words.now names.now values.now) }
{
    for place in 0..names.len() {
        push_at(alloc, words, names, values, place, text)?;
    }
    Ok(())
}

// The choice that led to a place.
fn choice_to(choices: &[u32], place: u64) -> Option<u32>
    ensures { result ≡ told.choice_to choices.now place }
{
    if place == 0 {
        return None;
    }
    choices.get(place as usize - 1).copied()
}

// `violated PROGRAM.STEP place J`, on a line, and then the lines of the step's parameters.
fn case_text(
    alloc: Global,
    doc: &CDocument,
    claim: &Record,
    case: u64,
    place: u64,
) -> Result<Vec<u8>, AllocError>
    requires { case < case_count claim.now.params }
    ensures { IfOk result (λ text. text.items ≡ told.case_text doc.now claim.now case place) }
{
    let words = doc.words.as_slice();
    let mut values = vec![in alloc; 0; claim.params.len()]?;
    case_values(claim.params.as_slice(), case, &mut values);
    let mut text = Vec::new(alloc);
    text.extend_from_slice(b"violated ")?;
    push_name(words, claim, &mut text)?;
    let rest = format!(in alloc; " place {place}\n")?;
    text.extend_from_slice(rest.as_bytes())?;
    let names = names_of(doc, claim.program, claim.name);
    push_params(alloc, words, names, &values, &mut text)?;
    Ok(text)
}

// The text with the line of a state after it.
fn with_state(
    doc: &CDocument,
    p: &CProgram,
    number: u64,
    choice: Option<u32>,
    state: &[i64],
    text: Vec<u8>,
) -> Result<Vec<u8>, AllocError>
    ensures { IfOk result (λ all. all.items ≡ text.items ++ line.state_line doc.now p.now number choice state.now) }
{
    let mut out = TextSink::new(text);
    match write_line(doc, p, number, choice, state, &mut out) {
        Ok(()) => Ok(out.into_text()),
        Err(_) => Err(AllocError),
    }
}

// What is told of a violation.
fn violated_text(
    alloc: Global,
    doc: &CDocument,
    watched: &WatchedSchedule,
    place: u64,
    violation: Violation,
) -> Result<Vec<u8>, AllocError>
    requires { told.IsCase watched.now violation }
    ensures { IfOk result (λ text. text.items ≡ told.violated_text doc.now watched.now.program.now watched.now.choices
        watched.now.records watched.now.state.items place violation) }
{
    match watched.records.get(violation.step as usize) {
        Some(record) => {
            let text = case_text(alloc, doc, record, violation.case, place)?;
            let choice = choice_to(watched.choices.as_slice(), place);
            with_state(doc, watched.program, place, choice, &watched.state, text)
        }
        None => Ok(Vec::new(alloc)),
    }
}

/// What is told of a schedule that was watched. Where a step is violated: `violated PROGRAM.STEP place J`, a line
/// `NAME = VALUE` for each of its parameters, and the trace's line of that place. Else
/// `watched PROGRAM N states R rounds`, and a line `PROGRAM.STEP KIND` for each step of the program's proof, of a
/// leads-to with its bound.
///
/// The error is that memory was refused.
pub fn ending_text(
    alloc: Global,
    doc: &CDocument,
    watched: &WatchedSchedule,
) -> Result<Vec<u8>, AllocError>
    requires document { IsCoreDocument doc.now }
    requires watched { IsWatchedSchedule doc.now watched.now }
    ensures { IfOk result (λ text. text.items ≡ told.schedule_text doc.now watched.now) }
{
    match watched.ending {
        Ending::Violated { place, violation } => {
            violated_text(alloc, doc, watched, place, violation)
        }
        Ending::Unviolated => watched_text(
            alloc,
            doc.words.as_slice(),
            watched.program,
            watched.choices.as_slice(),
            watched.records.as_slice(),
        ),
    }
}
