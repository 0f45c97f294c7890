//! The headings of parts: how many statements a program has, and its always names.

ghost use Rattle.std.specs.Prelude.{IfOk};
ghost use Rattle.names_rules.specs.Scope.{entries};
ghost use Rattle.meaning_documents.specs.Setting.{items_of};
ghost use Rattle.expand_documents.specs.AlwaysNames.{AreSound, VariablesHaveSlots, Defines, definition_scope};
ghost use Rattle.quantified_assign.specs.Headings as spec;

use case_tables::Code;
use expand_documents::add_definitions;
use expand_expressions::{AlwaysTable, ValueTable, VariableTable};
use expand_statements::check_count;
use names_rules::NameFault;
use std::alloc::{AllocError, Global};
use unity_base::Seq;
use unity_syntax::{Def, Part, Program};

/// Where headings stop: the place of the first part whose heading has a fault, and that fault.
#[derive(Clone, Copy)]
pub struct Stop {
    pub place: usize,
    pub code: Code,
    pub at: u64,
}

fn add_section<'a>(
    alloc: Global,
    section: &'a Option<Seq<Def>>,
    variables: &VariableTable<'a>,
    values: &ValueTable<'a>,
    always: &mut AlwaysTable<'a>,
) -> Result<(), NameFault>
    requires variables { VariablesHaveSlots (entries variables.now) }
    requires always { AreSound (entries always.old) }
    ensures { Defines result (definition_scope (entries variables.now) (entries values.now) (entries always.old))
        (entries always.new) (items_of section.now) }
{
    match section {
        None => Ok(()),
        Some(ds) => add_definitions(alloc, ds.as_slice(), variables, values, always),
    }
}

fn add_heading<'a>(
    alloc: Global,
    part: &'a Part,
    variables: &VariableTable<'a>,
    values: &ValueTable<'a>,
    always: &mut AlwaysTable<'a>,
) -> Result<(), NameFault>
    requires variables { VariablesHaveSlots (entries variables.now) }
    requires sound { AreSound (entries always.old) }
    ensures { spec.AddsHeading result
        (definition_scope (entries variables.now) (entries values.now) (entries always.old))
        (entries always.new) part.now }
{
    match part {
        Part::Program {
            of: Program::Plain {
                name,
                always: section,
                items,
                ..
            },
            ..
        } => {
            check_count(alloc, name, items)?;
            add_section(alloc, section, variables, values, always)
        }
        Part::Program {
            of: Program::Union { .. },
            ..
        } => Ok(()),
        Part::Proof { .. } => Ok(()),
    }
}

/// Adds what the always names of parts become, each with those before it, up to the first part whose heading
/// has a fault: too many statements, at the name of the program, or else the fault of a definition.
///
/// An error says that memory was refused.
pub fn add_headings<'a>(
    alloc: Global,
    parts: &'a [Part],
    variables: &VariableTable<'a>,
    values: &ValueTable<'a>,
    always: &mut AlwaysTable<'a>,
) -> Result<Option<Stop>, AllocError>
    requires variables { VariablesHaveSlots (entries variables.now) }
    requires sound { AreSound (entries always.old) }
    ensures { IfOk result (λ stop. spec.AddsHeadings stop
        (definition_scope (entries variables.now) (entries values.now) (entries always.old))
        (entries always.new) parts.now) }
{
    for i in 0..parts.len() {
        match add_heading(alloc, &parts[i], variables, values, always) {
            Ok(()) => {}
            Err(NameFault::Memory) => return Err(AllocError),
            Err(NameFault::Fault { code, at }) => {
                return Ok(Some(Stop { place: i, code, at }));
            }
        }
    }
    Ok(None)
}
