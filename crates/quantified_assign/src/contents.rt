//! The slots, the programs and the proofs of parts.

ghost use Rattle.std.specs.Prelude.{◌≡◌, ◌<◌, ◌≤◌, [], length, None, Some};
ghost use Rattle.names_rules.specs.Scope.{entries};
ghost use Rattle.names_rules.specs.Answers.{Demands, Stops};
ghost use Rattle.expand_documents.specs.Faults.{laid_fault, parts_fault, part_name};
ghost use Rattle.expand_documents.specs.Cores.{declared_scope};
ghost use Rattle.expand_documents.specs.AlwaysNames.{AreSound, VariablesHaveSlots, definition_scope};
ghost use Rattle.expand_declarations.specs.Slots.{DeclaredNear, IsWholeLayout, document_slots, past_part};
ghost use Rattle.quantified_assign.specs.Bodies.{AddsBodies};
ghost use Rattle.quantified_assign.specs.Expanding as spec;

use crate::bodies::add_bodies;
use crate::headings::{Stop, add_headings};
use crate::programs::Making;
use case_tables::Code;
use core_terms::{CProgram, CProof, CSlot};
use expand_declarations::{Laying, Layout, WordTable, enumeration_words, lay_out};
use expand_expressions::{AlwaysTable, Known, ValueTable};
use indexmap::IndexMap;
use names_rules::NameFault;
use std::alloc::Global;
use unity_base::Seq;
use unity_syntax::{Name, Part, Program};

/// The slots, the programs and the proofs of parts.
#[derive(Drop)]
pub struct Contents {
    pub slots: Seq<CSlot>,
    pub programs: Seq<CProgram>,
    pub proofs: Seq<CProof>,
}

// Adds the bodies of parts, where these always names stand.
fn add_known<'a>(
    alloc: Global,
    parts: &[Part],
    words: &WordTable<'a>,
    layout: &Layout<'a>,
    values: &ValueTable<'a>,
    always: &AlwaysTable<'a>,
    programs: &mut Seq<CProgram>,
    proofs: &mut Seq<CProof>,
) -> Result<(), NameFault>
    requires slots { length layout.now.slots ≤ 4096 }
    requires variables { VariablesHaveSlots (entries layout.now.variables) }
    requires sound { AreSound (entries always.now) }
    requires first { programs.old ≡ [] }
    ensures { AddsBodies result words.now
        (definition_scope (entries layout.now.variables) (entries values.now) (entries always.now))
        layout.now.slots [] programs.new proofs.old proofs.new parts.now }
{
    let known = Known {
        variables: &layout.variables,
        values,
        always,
    };
    let making = Making {
        words,
        known: &known,
        slots: layout.slots.as_slice(),
    };
    add_bodies(alloc, parts, &making, programs, proofs)
}

// Adds the bodies of parts whose headings have no fault. Where one has a fault, adds nothing, and says where.
fn add_headed<'a>(
    alloc: Global,
    parts: &'a [Part],
    words: &WordTable<'a>,
    layout: &Layout<'a>,
    values: &ValueTable<'a>,
    programs: &mut Seq<CProgram>,
    proofs: &mut Seq<CProof>,
) -> Result<Option<Stop>, NameFault>
    requires slots { length layout.now.slots ≤ 4096 }
    requires variables { VariablesHaveSlots (entries layout.now.variables) }
    requires first { programs.old ≡ [] }
    requires none { proofs.old ≡ [] }
    ensures { spec.MakesHeaded result words.now
        (definition_scope (entries layout.now.variables) (entries values.now) [])
        layout.now.slots programs.new proofs.new parts.now }
{
    let mut always = IndexMap::new(alloc);
    match add_headings(alloc, parts, &layout.variables, values, &mut always)? {
        None => {
            add_known(
                alloc, parts, words, layout, values, &always, programs, proofs,
            )?;
            Ok(None)
        }
        Some(stop) => Ok(Some(stop)),
    }
}

// Adds the bodies of parts, or stops at a fault of those before the first heading with a fault, or else at
// that one.
fn add_valued<'a>(
    alloc: Global,
    parts: &'a [Part],
    words: &WordTable<'a>,
    layout: &Layout<'a>,
    values: &ValueTable<'a>,
    programs: &mut Seq<CProgram>,
    proofs: &mut Seq<CProof>,
) -> Result<(), NameFault>
    requires slots { length layout.now.slots ≤ 4096 }
    requires variables { VariablesHaveSlots (entries layout.now.variables) }
    requires first { programs.old ≡ [] }
    requires none { proofs.old ≡ [] }
    ensures { spec.MakesBodies result words.now
        (definition_scope (entries layout.now.variables) (entries values.now) [])
        layout.now.slots programs.new proofs.new parts.now }
{
    match add_headed(alloc, parts, words, layout, values, programs, proofs)? {
        None => Ok(()),
        Some(stop) => {
            let before = &parts[..stop.place];
            add_headed(alloc, before, words, layout, values, programs, proofs)?;
            Err(NameFault::Fault {
                code: stop.code,
                at: stop.at,
            })
        }
    }
}

// Adds the programs and the proofs of parts that are laid out.
fn add_laid<'a>(
    alloc: Global,
    parts: &'a [Part],
    words: &WordTable<'a>,
    layout: &Layout<'a>,
    programs: &mut Seq<CProgram>,
    proofs: &mut Seq<CProof>,
) -> Result<(), NameFault>
    requires whole { IsWholeLayout words.now layout.now parts.now }
    requires first { programs.old ≡ [] }
    requires none { proofs.old ≡ [] }
    ensures { spec.MakesBodies result words.now (declared_scope parts.now)
        (document_slots words.now parts.now) programs.new proofs.new parts.now }
{
    let values = enumeration_words(alloc, parts)?;
    add_valued(alloc, parts, words, layout, &values, programs, proofs)
}

// What parts that are laid out hold.
fn laid_contents<'a>(
    alloc: Global,
    parts: &'a [Part],
    words: &WordTable<'a>,
    layout: Layout<'a>,
) -> Result<Contents, NameFault>
    requires { IsWholeLayout words.now layout parts.now }
    ensures { spec.HoldsContents result words.now parts.now (laid_fault words.now parts.now) }
{
    let mut programs = Seq::new(alloc);
    let mut proofs = Seq::new(alloc);
    add_laid(alloc, parts, words, &layout, &mut programs, &mut proofs)?;
    let Layout {
        variables: _,
        slots,
    } = layout;
    Ok(Contents {
        slots,
        programs,
        proofs,
    })
}

// Whether parts that have few enough slots have a fault.
fn check_laid<'a>(alloc: Global, parts: &'a [Part], words: &WordTable<'a>) -> Result<(), NameFault>
    requires near { DeclaredNear parts.now }
    requires few { past_part parts.now ≡ None }
    ensures { Demands result (laid_fault words.now parts.now) }
{
    match lay_out(alloc, parts, words)? {
        Laying::Whole(layout) => {
            laid_contents(alloc, parts, words, layout)?;
            Ok(())
        }
        Laying::Past(_) => unreachable!(),
    }
}

// The name of the program that a program stands under.
fn program_name(program: &Program) -> &Name
    ensures { result.now ≡ spec.name_of program.now }
{
    match program {
        Program::Union {
            at: _,
            name,
            left: _,
            right: _,
        } => name,
        Program::Plain {
            at: _,
            name,
            declare: _,
            always: _,
            initially: _,
            start: _,
            items: _,
        } => name,
    }
}

// The name of the program that a part is about.
fn part_name(part: &Part) -> &Name
    ensures { result.now ≡ part_name part.now }
{
    match part {
        Part::Program { at: _, of } => program_name(of),
        Part::Proof { at: _, of } => &of.program,
    }
}

// The fault of parts that have too many slots from a place on.
fn past_fault<'a>(
    alloc: Global,
    parts: &'a [Part],
    place: usize,
    words: &WordTable<'a>,
) -> NameFault
    requires near { DeclaredNear parts.now }
    requires within { place < length parts.now }
    requires past { past_part parts.now ≡ Some place }
    ensures { Stops result (parts_fault words.now parts.now (Some place)) }
{
    match check_laid(alloc, &parts[..place], words) {
        Err(fault) => fault,
        Ok(()) => NameFault::Fault {
            code: Code::TooLarge,
            at: part_name(&parts[place]).at,
        },
    }
}

/// What parts of a document hold. `Fault` exactly at the first fault of their expansion.
pub fn contents_of<'a>(
    alloc: Global,
    parts: &'a [Part],
    words: &WordTable<'a>,
) -> Result<Contents, NameFault>
    requires { DeclaredNear parts.now }
    ensures { spec.HoldsContents result words.now parts.now
        (parts_fault words.now parts.now (past_part parts.now)) }
{
    match lay_out(alloc, parts, words)? {
        Laying::Whole(layout) => laid_contents(alloc, parts, words, layout),
        Laying::Past(place) => Err(past_fault(alloc, parts, place, words)),
    }
}
