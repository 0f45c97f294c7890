// Programs by their names.
ghost use Rattle.std.specs.Prelude.{◌≡◌, option_copied};
ghost use Rattle.schedule_replay.specs.Lines.{word_text};
ghost use Rattle.run_traces.specs.Programs as named;

use core_terms::{CDocument, CProgram, CSchedule};
use unity_base::Seq;

/// The first program of this name.
pub fn program_called<'a>(doc: &'a CDocument, name: &[u8]) -> Option<&'a CProgram>
    ensures { option_copied result ≡ named.program_called doc.now name.now }
{
    for p in doc.programs.as_slice() {
        if is_called(doc, name, p) {
            return Some(p);
        }
    }
    None
}

fn is_called(doc: &CDocument, name: &[u8], p: &CProgram) -> bool
    ensures { result ≡ named.is_called doc.now name.now p.now }
{
    word(doc.words.as_slice(), p.name) == name
}

// The word of this number.
fn word(words: &[Seq<u8>], number: u32) -> &[u8]
    ensures { result.now ≡ word_text words.now number }
{
    match words.get(number as usize) {
        Some(found) => found.as_slice(),
        None => &[],
    }
}

/// The program of the document's schedule.
pub fn scheduled_program(doc: &CDocument) -> Option<&CProgram>
    ensures { option_copied result ≡ named.scheduled_program doc.now }
{
    match &doc.schedule {
        Some(schedule) => program_of(doc, schedule),
        None => None,
    }
}

// The program that a schedule names.
fn program_of<'a>(doc: &'a CDocument, schedule: &CSchedule) -> Option<&'a CProgram>
    ensures { option_copied result ≡ named.program_of doc.now schedule.now }
{
    for p in doc.programs.as_slice() {
        if p.name == schedule.program {
            return Some(p);
        }
    }
    None
}
