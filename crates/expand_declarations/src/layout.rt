//! The slots of variables, in the order of declaration.
ghost use Rattle.std.specs.Prelude.{◌≡◌, ◌+◌, ◌-◌, ◌≤◌, [], ◌∷◌, ◌++◌, false, Some, None};
ghost use Rattle.std.specs.Prelude.{IfOk, OnOk, length, option_map};
ghost use Rattle.expand_expressions.specs.from_meaning_documents.Setting.{declarations, slots_for};
ghost use Rattle.expand_expressions.specs.from_meaning_documents.Setting.{type_indices, variable_from};
ghost use Rattle.names_rules.specs.Scope.{entries};
ghost use Rattle.names_rules.specs.Declarations.{items_of};
ghost use Rattle.expand_expressions.specs.Places.{ends_of, variable_of, variables_of};
ghost use Rattle.expand_declarations.specs.Slots as spec;

use crate::elements::{add_slots, element_of, indices_of, is_truth, numbers_of, slots_for};
use crate::words::WordTable;
use core_terms::{CSlot, Range};
use expand_expressions::{VariableSlots, VariableTable};
use indexmap::IndexMap;
use std::alloc::{AllocError, Global};
use unity_base::Seq;
use unity_syntax::{Name, Part, Plain, Program, Var};

/// How many slots a document may have.
const MOST_SLOTS: u128 = 4096;

/// The variables of a document and their slots, both in order of first declaration.
#[derive(Drop)]
pub struct Layout<'a> {
    pub variables: VariableTable<'a>,
    pub slots: Seq<CSlot>,
}

/// What the parts of a document need.
#[derive(Drop)]
pub enum Laying<'a> {
    /// No more than 4,096 slots.
    Whole(Layout<'a>),
    /// More, from the part at this place on.
    Past(usize),
}

// Where a variable is, whose slots begin at this one.
pub fn place(v: &Var, indices: Option<Range>, first: u32) -> Result<VariableSlots, AllocError>
    requires { option_map ends_of indices ≡ type_indices v.now.kind }
    ensures { IfOk result (λ p. variable_of v.now.name.text p ≡ variable_from first v.now) }
{
    let range = numbers_of(element_of(&v.kind))?;
    Ok(VariableSlots {
        indices,
        range,
        is_truth: is_truth(element_of(&v.kind)),
        first,
    })
}

// Whether a name is that of a variable.
fn is_known(name: &Name, variables: &VariableTable) -> bool
    ensures { result ≡ spec.is_known (variables_of (entries variables.now)) name.now.text }
{
    variables.contains_key(name.text.as_slice())
}

// A variable whose name is new.
fn enter<'a>(
    name: &'a Name,
    placed: VariableSlots,
    variables: &mut VariableTable<'a>,
) -> Result<(), AllocError>
    requires { spec.is_known (variables_of (entries variables.old)) name.now.text ≡ false }
    ensures { OnOk result (variables_of (entries variables.new) ≡
        variables_of (entries variables.old) ++ variable_of name.now.text placed ∷ []) }
{
    variables.insert(name.text.as_slice(), placed)?;
    Ok(())
}

// Lays out a variable whose name is new, and whose slots are no more than are allowed.
fn lay_new<'a>(
    alloc: Global,
    v: &'a Var,
    indices: Option<Range>,
    count: u64,
    words: &WordTable,
    layout: &mut Layout<'a>,
) -> Result<(), AllocError>
    requires counted { spec.IsCounted layout.old }
    requires new { spec.is_known (spec.variables_in layout.old) v.now.name.text ≡ false }
    requires indices { option_map ends_of indices ≡ type_indices v.now.kind }
    requires count { count ≡ slots_for (option_map ends_of indices) }
    requires fits { length layout.old.slots + count ≤ spec.most_slots }
    ensures { OnOk result (spec.Laid words.now layout.old layout.new (v.now ∷ [])) }
{
    let first = layout.slots.len() as u32;
    let placed = place(v, indices, first)?;
    enter(&v.name, placed, &mut layout.variables)?;
    add_slots(alloc, v, indices, count, words, &mut layout.slots)
}

// Lays out a declaration. False where its slots are more than are left.
fn lay<'a>(
    alloc: Global,
    v: &'a Var,
    words: &WordTable,
    layout: &mut Layout<'a>,
) -> Result<bool, AllocError>
    requires { spec.IsCounted layout.old }
    ensures { IfOk result (λ fits. spec.Lays words.now fits layout.old layout.new (v.now ∷ [])) }
{
    if is_known(&v.name, &layout.variables) {
        return Ok(true);
    }
    let indices = indices_of(&v.kind)?;
    let count = slots_for(indices);
    if count > MOST_SLOTS - layout.slots.len() as u128 {
        return Ok(false);
    }
    lay_new(alloc, v, indices, count as u64, words, layout)?;
    Ok(true)
}

fn lay_all<'a>(
    alloc: Global,
    vs: &'a [Var],
    words: &WordTable,
    layout: &mut Layout<'a>,
) -> Result<bool, AllocError>
    requires { spec.IsCounted layout.old }
    ensures { IfOk result (λ fits. spec.Lays words.now fits layout.old layout.new vs.now) }
{
    for v in vs {
        if !lay(alloc, v, words, layout)? {
            return Ok(false);
        }
    }
    Ok(true)
}

fn lay_declared<'a>(
    alloc: Global,
    declare: &'a Option<Seq<Var>>,
    words: &WordTable,
    layout: &mut Layout<'a>,
) -> Result<bool, AllocError>
    requires { spec.IsCounted layout.old }
    ensures { IfOk result (λ fits. spec.Lays words.now fits layout.old layout.new (items_of declare.now)) }
{
    match declare {
        None => Ok(true),
        Some(vs) => lay_all(alloc, vs.as_slice(), words, layout),
    }
}

fn lay_program<'a>(
    alloc: Global,
    program: &'a Program,
    words: &WordTable,
    layout: &mut Layout<'a>,
) -> Result<bool, AllocError>
    requires { spec.IsCounted layout.old }
    ensures { IfOk result (λ fits. spec.Lays words.now fits layout.old layout.new (declarations program.now)) }
{
    match program {
        Program::Union {
            at: _,
            name: _,
            left: _,
            right: _,
        } => Ok(true),
        Program::Plain {
            at: _,
            name: _,
            declare,
            always: _,
            initially: _,
            start: _,
            items: _,
        } => lay_declared(alloc, declare, words, layout),
    }
}

fn lay_part<'a>(
    alloc: Global,
    part: &'a Part,
    words: &WordTable,
    layout: &mut Layout<'a>,
) -> Result<bool, AllocError>
    requires { spec.IsCounted layout.old }
    ensures { IfOk result (λ fits. spec.Lays words.now fits layout.old layout.new (spec.part_declarations part.now)) }
{
    match part {
        Part::Program { at: _, of } => lay_program(alloc, of, words, layout),
        Part::Proof { at: _, of: _ } => Ok(true),
    }
}

fn lay_parts<'a>(
    alloc: Global,
    parts: &'a [Part],
    words: &WordTable,
    layout: &mut Layout<'a>,
) -> Result<Option<usize>, AllocError>
    requires { spec.IsCounted layout.old }
    ensures { IfOk result (λ past. spec.LaysParts words.now past layout.old layout.new parts.now) }
{
    for i in 0..parts.len() {
        if !lay_part(alloc, &parts[i], words, layout)? {
            return Ok(Some(i));
        }
    }
    Ok(None)
}

/// The variables that parts of a document declare, and their slots; or the place of the first part by
/// whose declarations there are more than 4,096 slots, none of which is made. It takes time linear in
/// the parts and the slots.
///
/// An error says that memory was refused, also where a number is past 2^62: no text has one.
pub fn lay_out<'a>(
    alloc: Global,
    parts: &'a [Part],
    words: &WordTable,
) -> Result<Laying<'a>, AllocError>
    requires { spec.DeclaredNear parts.now }
    ensures { IfOk result (λ laying. spec.IsLaying words.now laying parts.now) }
{
    let mut layout = Layout {
        variables: IndexMap::new(alloc),
        slots: Seq::new(alloc),
    };
    match lay_parts(alloc, parts, words, &mut layout)? {
        None => Ok(Laying::Whole(layout)),
        Some(place) => Ok(Laying::Past(place)),
    }
}
