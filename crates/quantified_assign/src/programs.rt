//! Programs that are no unions.

ghost use Rattle.std.specs.Prelude.{◌≡◌, ◌∷◌, [], map, Some, None, IfOk};
ghost use Rattle.expand_steps.specs.Steps.{outer_scope};
ghost use Rattle.expand_documents.specs.Faults.{initially_fault};
ghost use Rattle.expand_rules.specs.Lists.{items_fault};
ghost use Rattle.expand_rules.specs.Assigning.{statements};
ghost use Rattle.expand_rules.specs.Programs.{core_statement, initial_form};
ghost use Rattle.expand_declarations.specs.WordNumbers.{word_number};
ghost use Rattle.expand_expressions.specs.Places.{IsReady};
ghost use Rattle.quantified_assign.specs.Bodies as spec;

use case_tables::Code;
use core_terms::{CForm, CProgram, CSlot, CStmt, owned_form};
use expand_declarations::{WordTable, shown_slots, start_values};
use expand_expressions::{Known, TruthCore, outside, truth};
use expand_statements::{check_items, push_statements};
use expand_steps::{formed, is_too_large};
use names_rules::NameFault;
use std::alloc::{AllocError, Global};
use unity_base::{Seq, Shared};
use unity_syntax::{Init, Initially, Items, Name, Var};

/// What the bodies of parts are made with: the words of the document, what it declares, and its slots.
#[derive(Clone, Copy)]
pub struct Making<'k, 'a> {
    pub words: &'k WordTable<'a>,
    pub known: &'k Known<'k, 'a>,
    pub slots: &'k [CSlot],
}

/// The sections of a program.
#[derive(Clone, Copy)]
pub struct Sections<'p> {
    pub name: &'p Name,
    pub declare: &'p Option<Seq<Var>>,
    pub initially: &'p Option<Initially>,
    pub start: &'p Option<(Init, Seq<Init>)>,
    pub items: &'p Items,
}

// A formula that stands by itself, unless it is too large, or else an end of a range or a divisor in it is bad.
fn settled(alloc: Global, t: TruthCore, front: u64) -> Result<CForm, NameFault>
    requires { spec.IsLightTruth t }
    ensures { spec.SettlesForm result t front }
{
    if is_too_large(t.constant, t.measure) {
        return Err(NameFault::Fault {
            code: Code::TooLarge,
            at: front,
        });
    }
    t.measure.flaws.check()?;
    Ok(owned_form(alloc, t.form)?)
}

// The formula of a section.
fn section_form(alloc: Global, section: &Initially, known: &Known) -> Result<CForm, NameFault>
    requires { IsReady known.now }
    ensures { spec.GivesForm result (initial_form (outer_scope known.now) (Some section.now))
        (initially_fault (outer_scope known.now) (Some section.now)) }
{
    let f = formed(alloc, &section.of, known, &outside(), section.at)?;
    let t = truth(alloc, f)?;
    settled(alloc, t, section.at)
}

// What holds of each first state.
fn initial_form(
    alloc: Global,
    initially: &Option<Initially>,
    known: &Known,
) -> Result<CForm, NameFault>
    requires { IsReady known.now }
    ensures { spec.GivesForm result (initial_form (outer_scope known.now) initially.now)
        (initially_fault (outer_scope known.now) initially.now) }
{
    match initially {
        None => Ok(CForm::Top),
        Some(section) => section_form(alloc, section, known),
    }
}

fn statements_of(
    alloc: Global,
    items: &Items,
    making: &Making,
) -> Result<Seq<Shared<CStmt>>, AllocError>
    requires ready { spec.IsPrepared making.now }
    requires faultless { items_fault (outer_scope making.now.known.now) items.now ([] ∷ []) ≡ None }
    ensures { IfOk result (λ list. list ≡ map (core_statement (word_number making.now.words.now))
        (statements (outer_scope making.now.known.now) items.now)) }
{
    let mut list = Seq::new(alloc);
    push_statements(alloc, items, making.known, making.words, &mut list)?;
    Ok(list)
}

// A program, whose statements have no fault, with the formula of its first states.
fn program_with(
    alloc: Global,
    sections: &Sections,
    initially: CForm,
    making: &Making,
) -> Result<CProgram, AllocError>
    requires ready { spec.IsPrepared making.now }
    requires faultless { items_fault (outer_scope making.now.known.now) sections.now.items.now ([] ∷ []) ≡ None }
    ensures { IfOk result (λ c. c ≡ record (spec.core_of making.now sections.now) { initially = initially }) }
{
    let shown = shown_slots(alloc, sections.declare, making.words, making.slots)?;
    let start = start_values(
        alloc,
        sections.start,
        making.known.variables,
        making.known.values,
    )?;
    let statements = statements_of(alloc, sections.items, making)?;
    Ok(CProgram {
        name: making.words.number(sections.name),
        parts: None,
        shown,
        initially,
        start,
        statements,
    })
}

// A program with the formula of its first states, unless its statements have a fault.
fn checked_program(
    alloc: Global,
    sections: &Sections,
    initially: CForm,
    making: &Making,
) -> Result<CProgram, NameFault>
    requires ready { spec.IsPrepared making.now }
    requires light { spec.HasLightForm initially }
    ensures { spec.MakesProgram result (record (spec.core_of making.now sections.now) { initially = initially })
        (items_fault (outer_scope making.now.known.now) sections.now.items.now ([] ∷ [])) }
{
    check_items(alloc, sections.items, making.known)?;
    Ok(program_with(alloc, sections, initially, making)?)
}

fn plain_program(alloc: Global, sections: &Sections, making: &Making) -> Result<CProgram, NameFault>
    requires { spec.IsPrepared making.now }
    ensures { spec.MakesProgram result (spec.core_of making.now sections.now)
        (spec.sections_fault making.now sections.now) }
{
    let initially = initial_form(alloc, sections.initially, making.known)?;
    checked_program(alloc, sections, initially, making)
}

/// Adds a program that is no union. `Fault` exactly at its first fault: of its initially section, or else of
/// its statements.
pub fn add_plain(
    alloc: Global,
    sections: &Sections,
    making: &Making,
    programs: &mut Seq<CProgram>,
) -> Result<(), NameFault>
    requires ready { spec.IsPrepared making.now }
    requires light { spec.StartsAreLight programs.old }
    ensures { spec.AddsProgram result programs.old programs.new (Some (spec.core_of making.now sections.now))
        (spec.sections_fault making.now sections.now) }
{
    let program = plain_program(alloc, sections, making)?;
    programs.push(program)?;
    Ok(())
}
