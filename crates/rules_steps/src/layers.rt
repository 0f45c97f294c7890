// Steps of layers, from steps of the programs under them.
ghost use Rattle.std.specs.Prelude.{◌≡◌, nat_eq, not, All, IfOk, IfSome, List, Option, Result};
ghost use Rattle.std.specs.Option.{option_copied};
ghost use Rattle.core_terms.specs.Conditions.{IsProgram};
ghost use Rattle.core_terms.specs.declared.programs.CSlot.{CSlot};
ghost use Rattle.safety_rules.specs.from_rules_table.Layers as layer;
ghost use Rattle.safety_rules.specs.from_rules_table.Table as table;
ghost use Rattle.safety_rules.specs.from_rules_table.Table.{go_on, needs};
ghost use Rattle.safety_rules.specs.from_rules_table.Walk as walk;
ghost use Rattle.safety_rules.specs.Answers.{RuleAnswers, IsPlace, IsPremiseAt, site_of};
ghost use Rattle.safety_rules.specs.Instances.{AnswersRecord, RecordFits};
ghost use Rattle.rules_steps.specs.Starts.{seen_with};
ghost use Rattle.rules_steps.specs.Using.{BookFits};

use crate::around::Around;
use crate::kinds::is_kind;
use crate::references::held_record;
use crate::ruling::held;
use crate::using::find_record;
use case_tables::{Code, Kind};
use core_terms::{Arg, CProgram, CStep, Ref};
use fair_rounds::Record;
use safety_rules::{Derived, Place, RuleError, instance};
use std::alloc::Global;
use superposition::superpose_rule;
use unity_base::Held;

// The instance of a record, if it is one of another program, and of a kind that serves.
fn other_instance(
    alloc: Global,
    pl: &Place,
    serves: Kind,
    found: &Record,
    args: &[Arg],
) -> Result<Held<Record>, RuleError>
    requires place { IsPlace pl.now }
    requires found { RecordFits pl.now.slots.now found.now }
    ensures { AnswersRecord result (needs (not (nat_eq found.now.program pl.now.program.now.name)) Code.OtherProgram
        (needs (walk.is_kind serves found.now.kind) Code.WrongKind
        (table.instance_of (site_of pl.now) pl.now.params.now found.now args.now))) }
{
    if found.program == pl.program.name {
        return Err(RuleError::Fault(Code::OtherProgram));
    }
    if !is_kind(serves, found.kind) {
        return Err(RuleError::Fault(Code::WrongKind));
    }
    held_record(alloc, instance(alloc, pl, found, args))
}

// The instance of the other program's record that a reference names.
fn other_record(
    alloc: Global,
    pl: &Place,
    book: &[Record],
    serves: Kind,
    r: &Ref,
) -> Result<Held<Record>, RuleError>
    requires place { IsPlace pl.now }
    requires book { BookFits pl.now.slots.now book.now }
    ensures answer { AnswersRecord result (walk.other_record (site_of pl.now) book.now (walk.is_kind serves) r.now) }
    ensures premise { IfOk result (IsPremiseAt pl.now) }
{
    match find_record(r.program, r.step, book) {
        None => Err(RuleError::Fault(Code::NoSuchStep)),
        Some(record) => other_instance(alloc, pl, serves, record, r.args.as_slice()),
    }
}

// The program of a name.
fn program_of(programs: &[CProgram], name: u32) -> Option<&CProgram>
    ensures answer { option_copied result ≡ walk.program_of programs.now name }
    ensures fits { (slots : List CSlot) → All (IsProgram slots) programs.now →
        IfSome result (λ f. IsProgram slots f.now) }
{
    for program in programs {
        if program.name == name {
            return Some(program);
        }
    }
    None
}

// From a record of the program of its name.
fn from_below(
    alloc: Global,
    pl: &Place,
    programs: &[CProgram],
    below: &Record,
) -> Result<Held<Derived>, RuleError>
    requires place { IsPlace pl.now }
    requires programs { All (IsProgram pl.now.slots.now) programs.now }
    requires below { IsPremiseAt pl.now below.now }
    ensures { RuleAnswers result pl.now.slots.now
        (go_on (walk.some_program (walk.program_of programs.now below.now.program)) (λ f.
        layer.superpose_of (site_of pl.now) f below.now)) }
{
    match program_of(programs, below.program) {
        None => Err(RuleError::Fault(Code::NoSuchStep)),
        Some(f) => held(alloc, superpose_rule(alloc, pl, f, below)),
    }
}

// By `superpose`, from a step of the program under this one.
pub(crate) fn by_superpose(
    alloc: Global,
    around: &Around,
    pl: &Place,
    step: &CStep,
    book: &[Record],
    r: &Ref,
) -> Result<Held<Derived>, RuleError>
    requires place { IsPlace pl.now }
    requires programs { All (IsProgram pl.now.slots.now) around.now.programs.now }
    requires book { BookFits pl.now.slots.now book.now }
    ensures { RuleAnswers result pl.now.slots.now (walk.superposed
        (seen_with around.now.version pl.now.slots.now around.now.programs.now) (site_of pl.now) step.now book.now
        r.now) }
{
    match other_record(alloc, pl, book, step.kind, r) {
        Ok(record) => from_below(alloc, pl, around.programs, record.get()),
        Err(error) => Err(error),
    }
}
