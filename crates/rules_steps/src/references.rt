// The records of earlier steps, with arguments for their parameters.
ghost use Rattle.std.specs.Prelude.{◌≡◌, nat_eq, IfOk, Result};
ghost use Rattle.safety_rules.specs.from_rules_table.Table as table;
ghost use Rattle.safety_rules.specs.from_rules_table.Table.{needs};
ghost use Rattle.safety_rules.specs.from_rules_table.Terms as terms;
ghost use Rattle.safety_rules.specs.from_rules_table.Walk as walk;
ghost use Rattle.fair_rounds.specs.declared.records.Record.{Record};
ghost use Rattle.safety_rules.specs.Answers.{IsPlace, IsPremiseAt, site_of};
ghost use Rattle.safety_rules.specs.Instances.{AnswersRecord, RecordFits};
ghost use Rattle.rules_steps.specs.Using.{BookFits};

use crate::kinds::is_kind;
use crate::using::find_record;
use case_tables::{Code, Kind};
use core_terms::{Arg, Ref};
use fair_rounds::Record;
use safety_rules::{Place, RuleError, instance};
use std::alloc::Global;
use unity_base::Held;

// The record, in a place of its own.
pub(crate) fn held_record(
    alloc: Global,
    answer: Result<Record, RuleError>,
) -> Result<Held<Record>, RuleError>
    ensures { (row : Result Record Code) → AnswersRecord answer row → AnswersRecord result row }
{
    match answer {
        Ok(record) => Ok(Held::new(alloc, record)?),
        Err(error) => Err(error),
    }
}

// The instance of a record, if it is one of the program, and of a kind that serves.
fn instance_for(
    alloc: Global,
    pl: &Place,
    serves: Kind,
    found: &Record,
    args: &[Arg],
) -> Result<Held<Record>, RuleError>
    requires place { IsPlace pl.now }
    requires found { RecordFits pl.now.slots.now found.now }
    ensures { AnswersRecord result (needs (nat_eq found.now.program pl.now.program.now.name) Code.OtherProgram
        (needs (walk.is_kind serves found.now.kind) Code.WrongKind
        (table.instance_of (site_of pl.now) pl.now.params.now found.now args.now))) }
{
    if found.program != pl.program.name {
        return Err(RuleError::Fault(Code::OtherProgram));
    }
    if !is_kind(serves, found.kind) {
        return Err(RuleError::Fault(Code::WrongKind));
    }
    held_record(alloc, instance(alloc, pl, found, args))
}

// The instance of the step's record that a reference names.
pub(crate) fn referred(
    alloc: Global,
    pl: &Place,
    book: &[Record],
    serves: Kind,
    r: &Ref,
) -> Result<Held<Record>, RuleError>
    requires place { IsPlace pl.now }
    requires book { BookFits pl.now.slots.now book.now }
    ensures answer { AnswersRecord result
        (terms.referred (site_of pl.now) pl.now.params.now book.now (walk.is_kind serves) r.now) }
    ensures premise { IfOk result (IsPremiseAt pl.now) }
{
    match find_record(r.program, r.step, book) {
        None => Err(RuleError::Fault(Code::NoSuchStep)),
        Some(record) => instance_for(alloc, pl, serves, record, r.args.as_slice()),
    }
}
