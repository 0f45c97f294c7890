// The records of earlier steps that a term refers to.
ghost use Rattle.std.specs.Prelude.{◌≡◌, nat_eq, option_copied, All, IfOk, Result};
ghost use Rattle.case_tables.specs.declared.code_table.Code.{Code as TheCode};
ghost use Rattle.core_terms.specs.Conditions.{IsRange};
ghost use Rattle.fair_rounds.specs.declared.records.Record.{Record as TheRecord};
ghost use Rattle.rules_table.specs.Table as table;
ghost use Rattle.rules_table.specs.Table.{needs};
ghost use Rattle.rules_table.specs.Terms as terms;
ghost use Rattle.safety_rules.specs.Answers.{site_of};
ghost use Rattle.safety_rules.specs.Instances.{RecordFits, AnswersRecord};
ghost use Rattle.leadsto_rules.specs.References.{names_step, serves, FitsIn};

use case_tables::{Code, Kind};
use core_terms::{Arg, Range, Ref};
use fair_rounds::Record;
use safety_rules::{Place, RuleError, instance_in};
use std::alloc::Global;
use unity_base::Held;

// What a reference is for: what leads, or what is safe.
#[derive(Clone, Copy)]
pub(crate) enum Purpose {
    // An ensures or a leads-to.
    Lead,
    // An unless.
    Safe,
}

// Whether a record of this kind serves.
fn serves(purpose: Purpose, kind: Kind) -> bool
    ensures { result ≡ serves purpose kind }
{
    match purpose {
        Purpose::Lead => matches!(kind, Kind::Ensures | Kind::Leadsto),
        Purpose::Safe => matches!(kind, Kind::Unless),
    }
}

// Whether the reference names the step of this record.
fn names_step(a: &Record, r: &Ref) -> bool
    ensures { result ≡ names_step r.now a.now }
{
    a.program == r.program && a.name == r.step
}

// The record of the step that a reference names.
fn found<'a>(book: &'a [Record], r: &Ref) -> Option<&'a Record>
    ensures { terms.known (option_copied result) ≡ terms.found book.now r.now }
{
    for a in book {
        if names_step(a, r) {
            return Some(a);
        }
    }
    None
}

// The record, in a place of its own.
fn held_record(alloc: Global, answer: Result<Record, RuleError>) -> Result<Held<Record>, RuleError>
    ensures { (row : Result TheRecord TheCode) → AnswersRecord answer row → AnswersRecord result row }
{
    match answer {
        Ok(record) => Ok(Held::new(alloc, record)?),
        Err(error) => Err(error),
    }
}

// The instance of a record, if it is one of the program, and of a kind that serves.
fn instance_for(
    alloc: Global,
    pl: &Place,
    ranges: &[Range],
    purpose: Purpose,
    a: &Record,
    args: &[Arg],
) -> Result<Held<Record>, RuleError>
    requires ranges { All IsRange ranges.now }
    requires record { RecordFits pl.now.slots.now a.now }
    ensures { AnswersRecord result (needs (nat_eq a.now.program pl.now.program.now.name) TheCode.OtherProgram
        (needs (serves purpose a.now.kind) TheCode.WrongKind
        (table.instance_of (site_of pl.now) ranges.now a.now args.now))) }
{
    if a.program != pl.program.name {
        return Err(RuleError::Fault(Code::OtherProgram));
    }
    if !serves(purpose, a.kind) {
        return Err(RuleError::Fault(Code::WrongKind));
    }
    held_record(alloc, instance_in(alloc, pl, ranges, a, args))
}

// The instance of the record that a reference names.
pub(crate) fn referred(
    alloc: Global,
    pl: &Place,
    ranges: &[Range],
    book: &[Record],
    purpose: Purpose,
    r: &Ref,
) -> Result<Held<Record>, RuleError>
    requires ranges { All IsRange ranges.now }
    requires book { All (RecordFits pl.now.slots.now) book.now }
    ensures answer { AnswersRecord result
        (terms.referred (site_of pl.now) ranges.now book.now (serves purpose) r.now) }
    ensures fits { IfOk result (FitsIn pl.now.slots.now ranges.now) }
{
    match found(book, r) {
        None => Err(RuleError::Fault(Code::NoSuchStep)),
        Some(a) => instance_for(alloc, pl, ranges, purpose, a, r.args.as_slice()),
    }
}
