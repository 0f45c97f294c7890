// Steps of unions, from steps of their parts.
ghost use Rattle.std.specs.Prelude.{◌≡◌, nat_eq, IfOk, Option, Result, Some};
ghost use Rattle.core_terms.specs.declared.programs.CProgram.{CProgram};
ghost use Rattle.fair_rounds.specs.declared.records.Record.{Record};
ghost use Rattle.safety_rules.specs.from_rules_table.Table as table;
ghost use Rattle.safety_rules.specs.from_rules_table.Table.{go_on, needs};
ghost use Rattle.safety_rules.specs.from_rules_table.Walk as walk;
ghost use Rattle.safety_rules.specs.Answers.{RuleAnswers, IsPlace, IsPremiseAt, site_of};
ghost use Rattle.safety_rules.specs.Instances.{AnswersRecord, RecordFits};
ghost use Rattle.rules_steps.specs.Rows.{serves_claim, union_row};
ghost use Rattle.rules_steps.specs.Using.{BookFits};
ghost use Rattle.rules_steps.specs.Starts.{starts_in};

use crate::kinds::{is_invariant, is_kind};
use crate::references::held_record;
use crate::ruling::held;
use crate::using::find_record;
use case_tables::{Code, Kind};
use core_terms::{Arg, CProgram, Ref};
use executor::start_of;
use fair_rounds::Record;
use safety_rules::{Derived, Place, RuleError, instance, is_ensures, is_unless};
use std::alloc::Global;
use union_theorem::{union_defined, union_ensures, union_invariant, union_unless};
use unity_base::Held;

// Whether a record of this kind serves as the first of the two.
fn serves_first(claimed: Kind, kind: Kind) -> bool
    ensures { result ≡ walk.serves_union claimed kind }
{
    match claimed {
        Kind::Ensures => is_unless(kind) || is_ensures(kind),
        Kind::Invariant => is_unless(kind) || is_invariant(kind),
        _ => is_kind(claimed, kind),
    }
}

// Whether a record of this kind serves as the second, after a first of another.
fn serves_after(claimed: Kind, first: Kind, kind: Kind) -> bool
    ensures { result ≡ walk.serves_after claimed first kind }
{
    match claimed {
        Kind::Ensures => {
            if is_ensures(first) {
                is_unless(kind)
            } else {
                is_ensures(kind)
            }
        }
        Kind::Invariant => {
            if is_unless(first) {
                is_invariant(kind)
            } else {
                is_unless(kind)
            }
        }
        _ => is_kind(claimed, kind),
    }
}

fn serves(claimed: Kind, first: Option<Kind>, kind: Kind) -> bool
    ensures { result ≡ serves_claim claimed first kind }
{
    match first {
        None => serves_first(claimed, kind),
        Some(first) => serves_after(claimed, first, kind),
    }
}

// The instance of a record, if it is one of this part, and of a kind that serves.
fn part_instance(
    alloc: Global,
    pl: &Place,
    part: u32,
    claimed: Kind,
    first: Option<Kind>,
    found: &Record,
    args: &[Arg],
) -> Result<Held<Record>, RuleError>
    requires place { IsPlace pl.now }
    requires found { RecordFits pl.now.slots.now found.now }
    ensures { AnswersRecord result (needs (nat_eq found.now.program part) Code.OtherProgram
        (needs (serves_claim claimed first found.now.kind) Code.WrongKind
        (table.instance_of (site_of pl.now) pl.now.params.now found.now args.now))) }
{
    if found.program != part {
        return Err(RuleError::Fault(Code::OtherProgram));
    }
    if !serves(claimed, first, found.kind) {
        return Err(RuleError::Fault(Code::WrongKind));
    }
    held_record(alloc, instance(alloc, pl, found, args))
}

// The instance of the record of a part's step that a reference names.
fn part_record(
    alloc: Global,
    pl: &Place,
    book: &[Record],
    part: Option<u32>,
    claimed: Kind,
    first: Option<Kind>,
    r: &Ref,
) -> Result<Held<Record>, RuleError>
    requires place { IsPlace pl.now }
    requires book { BookFits pl.now.slots.now book.now }
    ensures answer { AnswersRecord result
        (walk.part_record (site_of pl.now) book.now part (serves_claim claimed first) r.now) }
    ensures premise { IfOk result (IsPremiseAt pl.now) }
{
    match find_record(r.program, r.step, book) {
        None => Err(RuleError::Fault(Code::NoSuchStep)),
        Some(record) => match part {
            None => Err(RuleError::Fault(Code::OtherProgram)),
            Some(part) => part_instance(alloc, pl, part, claimed, first, record, r.args.as_slice()),
        },
    }
}

fn first_part(program: &CProgram) -> Option<u32>
    ensures { result ≡ walk.first_part program.now.parts }
{
    match program.parts {
        None => None,
        Some((first, _)) => Some(first),
    }
}

fn second_part(program: &CProgram) -> Option<u32>
    ensures { result ≡ walk.second_part program.now.parts }
{
    match program.parts {
        None => None,
        Some((_, second)) => Some(second),
    }
}

// That no step of the union is undefined, from its start state.
fn defined_union(alloc: Global, pl: &Place, a: &Record, b: &Record) -> Result<Derived, RuleError>
    requires place { IsPlace pl.now }
    requires a { IsPremiseAt pl.now a.now }
    requires b { IsPremiseAt pl.now b.now }
    ensures { RuleAnswers result pl.now.slots.now (table.union_defined_of (site_of pl.now)
        (starts_in pl.now.slots.now pl.now.program.now) a.now b.now) }
{
    let start = start_of(alloc, pl.program, pl.slots)?;
    union_defined(alloc, pl, a, b, start.as_slice())
}

// From the records of both parts.
fn united(
    alloc: Global,
    pl: &Place,
    kind: Kind,
    a: &Record,
    b: &Record,
) -> Result<Held<Derived>, RuleError>
    requires place { IsPlace pl.now }
    requires a { IsPremiseAt pl.now a.now }
    requires b { IsPremiseAt pl.now b.now }
    ensures { RuleAnswers result pl.now.slots.now
        (walk.united (starts_in pl.now.slots.now) (site_of pl.now) kind a.now b.now) }
{
    match kind {
        Kind::Defined => held(alloc, defined_union(alloc, pl, a, b)),
        Kind::Invariant => held(alloc, union_invariant(alloc, pl, a, b)),
        Kind::Unless => held(alloc, union_unless(alloc, pl, a, b)),
        Kind::Ensures => held(alloc, union_ensures(alloc, pl, a, b)),
        _ => Err(RuleError::Fault(Code::WrongKind)),
    }
}

// From the record of the first part, and the answer for the second.
fn with_other(
    alloc: Global,
    pl: &Place,
    kind: Kind,
    first: Held<Record>,
    second: Result<Held<Record>, RuleError>,
) -> Result<Held<Derived>, RuleError>
    requires place { IsPlace pl.now }
    requires first { IsPremiseAt pl.now first }
    requires second { IfOk second (IsPremiseAt pl.now) }
    ensures { (row : Result Record Code) → AnswersRecord second row → RuleAnswers result pl.now.slots.now
        (go_on row (walk.united (starts_in pl.now.slots.now) (site_of pl.now) kind first)) }
{
    match second {
        Ok(second) => united(alloc, pl, kind, first.get(), second.get()),
        Err(error) => Err(error),
    }
}

// By `union`, from a step of each part.
pub(crate) fn by_union(
    alloc: Global,
    pl: &Place,
    kind: Kind,
    book: &[Record],
    r: &Ref,
    s: &Ref,
) -> Result<Held<Derived>, RuleError>
    requires place { IsPlace pl.now }
    requires book { BookFits pl.now.slots.now book.now }
    ensures { RuleAnswers result pl.now.slots.now
        (union_row (starts_in pl.now.slots.now) (site_of pl.now) kind book.now r.now s.now) }
{
    let part = first_part(pl.program);
    match part_record(alloc, pl, book, part, kind, None, r) {
        Ok(first) => {
            let other = second_part(pl.program);
            let before = Some(first.get().kind);
            let second = part_record(alloc, pl, book, other, kind, before, s);
            with_other(alloc, pl, kind, first, second)
        }
        Err(error) => Err(error),
    }
}
