//! Schedules.

ghost use Rattle.std.specs.Prelude.{◌≡◌, [], ◌++◌, map, IfOk, OnOk};
ghost use Rattle.expand_expressions.specs.from_meaning_documents.Value.{end_value};
ghost use Rattle.names_rules.specs.Declarations.{some_of};
ghost use Rattle.expand_declarations.specs.References as spec;

use crate::numbers::fixed_end;
use crate::words::WordTable;
use core_terms::{CSchedule, Choice};
use std::alloc::{AllocError, Global};
use unity_base::Seq;
use unity_syntax::{End, Inst, Schedule};

fn add_indices(ends: &[End], indices: &mut Seq<i64>) -> Result<(), AllocError>
    ensures { OnOk result (indices.new ≡ indices.old ++ map (end_value []) ends.now) }
{
    for end in ends {
        indices.push(fixed_end(end)?)?;
    }
    Ok(())
}

fn indices_of(alloc: Global, ends: &Option<(End, Seq<End>)>) -> Result<Seq<i64>, AllocError>
    ensures { IfOk result (λ indices. indices ≡ map (end_value []) (some_of ends.now)) }
{
    let mut indices = Seq::new(alloc);
    match ends {
        None => {}
        Some((first, rest)) => {
            indices.push(fixed_end(first)?)?;
            add_indices(rest.as_slice(), &mut indices)?;
        }
    }
    Ok(indices)
}

fn core_choice(alloc: Global, choice: &Inst, words: &WordTable) -> Result<Choice, AllocError>
    ensures { IfOk result (λ c. c ≡ spec.core_choice words.now choice.now) }
{
    let indices = indices_of(alloc, &choice.indices)?;
    Ok(Choice {
        label: words.number(&choice.label),
        indices,
        at: choice.at,
    })
}

fn add_choices(
    alloc: Global,
    list: &[Inst],
    words: &WordTable,
    choices: &mut Seq<Choice>,
) -> Result<(), AllocError>
    ensures { OnOk result (choices.new ≡ choices.old ++ map (spec.core_choice words.now) list.now) }
{
    for choice in list {
        choices.push(core_choice(alloc, choice, words)?)?;
    }
    Ok(())
}

fn choices_of(
    alloc: Global,
    list: &Option<(Inst, Seq<Inst>)>,
    words: &WordTable,
) -> Result<Seq<Choice>, AllocError>
    ensures { IfOk result (λ choices. choices ≡ map (spec.core_choice words.now) (some_of list.now)) }
{
    let mut choices = Seq::new(alloc);
    match list {
        None => {}
        Some((first, rest)) => {
            choices.push(core_choice(alloc, first, words)?)?;
            add_choices(alloc, rest.as_slice(), words, &mut choices)?;
        }
    }
    Ok(choices)
}

/// A schedule: its program, and the statements that it chooses, each with the byte at which it stands.
///
/// An error says that memory was refused, also where a number is past 2^62: no text has one.
pub fn core_schedule(
    alloc: Global,
    schedule: &Schedule,
    words: &WordTable,
) -> Result<CSchedule, AllocError>
    ensures { IfOk result (λ c. c ≡ spec.core_schedule words.now schedule.now) }
{
    let choices = choices_of(alloc, &schedule.choices, words)?;
    Ok(CSchedule {
        program: words.number(&schedule.program),
        choices,
    })
}
