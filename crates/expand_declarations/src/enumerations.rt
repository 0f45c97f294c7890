//! The words of enumerations, each with its number.

ghost use Rattle.std.specs.Prelude.{◌≡◌, pos, is_some, IfOk, OnOk};
ghost use Rattle.std.specs.List.{flat_map};
ghost use Rattle.std.specs.Map.{lookup};
ghost use Rattle.std.specs.Str.{bytes_eq};
ghost use Rattle.expand_expressions.specs.from_meaning_documents.Setting.{declarations, plain_words, with_places};
ghost use Rattle.names_rules.specs.Scope.{entries};
ghost use Rattle.names_rules.specs.Declarations.{items_of};
ghost use Rattle.expand_declarations.specs.Start as spec;

use crate::numbers::literal;
use expand_expressions::ValueTable;
use indexmap::IndexMap;
use std::alloc::{AllocError, Global};
use unity_base::Seq;
use unity_syntax::{Name, Part, Plain, Program, Var, VarType};

fn is_numbered(name: &Name, values: &ValueTable) -> bool
    ensures { result ≡ is_some (lookup (bytes_eq name.now.text) (entries values.now)) }
{
    values.contains_key(name.text.as_slice())
}

// A word; one that is there keeps its number.
fn add_word<'a>(name: &'a Name, number: u64, values: &mut ValueTable<'a>) -> Result<(), AllocError>
    ensures { OnOk result (entries values.new ≡ spec.with_word (entries values.old) (name.now.text, pos number)) }
{
    if !is_numbered(name, values) {
        values.insert(name.text.as_slice(), literal(false, number)?)?;
    }
    Ok(())
}

fn add_further<'a>(names: &'a [Name], values: &mut ValueTable<'a>) -> Result<(), AllocError>
    ensures { OnOk result (entries values.new ≡ spec.with_words (entries values.old) (with_places 1 names.now)) }
{
    for i in 0..names.len() {
        add_word(&names[i], i as u64 + 1, values)?;
    }
    Ok(())
}

fn add_plain<'a>(plain: &'a Plain, values: &mut ValueTable<'a>) -> Result<(), AllocError>
    ensures { OnOk result (entries values.new ≡ spec.with_words (entries values.old) (plain_words plain.now)) }
{
    match plain {
        Plain::Boolean { at: _ } => Ok(()),
        Plain::Range { at: _, range: _ } => Ok(()),
        Plain::Words { at: _, first, rest } => {
            add_word(first, 0, values)?;
            add_further(rest.as_slice(), values)
        }
    }
}

fn add_variable<'a>(v: &'a Var, values: &mut ValueTable<'a>) -> Result<(), AllocError>
    ensures { OnOk result (entries values.new ≡ spec.with_words (entries values.old) (spec.var_words v.now)) }
{
    match &v.kind {
        VarType::Plain { at: _, of } => add_plain(of, values),
        VarType::Array {
            at: _,
            range: _,
            of,
        } => add_plain(of, values),
    }
}

fn add_variables<'a>(vs: &'a [Var], values: &mut ValueTable<'a>) -> Result<(), AllocError>
    ensures { OnOk result (entries values.new ≡ spec.with_words (entries values.old) (flat_map spec.var_words vs.now)) }
{
    for v in vs {
        add_variable(v, values)?;
    }
    Ok(())
}

fn add_declared<'a>(
    declare: &'a Option<Seq<Var>>,
    values: &mut ValueTable<'a>,
) -> Result<(), AllocError>
    ensures { OnOk result (entries values.new ≡ spec.with_words (entries values.old)
        (flat_map spec.var_words (items_of declare.now))) }
{
    match declare {
        None => Ok(()),
        Some(vs) => add_variables(vs.as_slice(), values),
    }
}

fn add_program<'a>(p: &'a Program, values: &mut ValueTable<'a>) -> Result<(), AllocError>
    ensures { OnOk result (entries values.new ≡ spec.with_words (entries values.old)
        (flat_map spec.var_words (declarations p.now))) }
{
    match p {
        Program::Union {
            at: _,
            name: _,
            left: _,
            right: _,
        } => Ok(()),
        Program::Plain {
            at: _,
            name: _,
            declare,
            always: _,
            initially: _,
            start: _,
            items: _,
        } => add_declared(declare, values),
    }
}

fn add_part<'a>(part: &'a Part, values: &mut ValueTable<'a>) -> Result<(), AllocError>
    ensures { OnOk result (entries values.new ≡ spec.with_words (entries values.old) (spec.part_words part.now)) }
{
    match part {
        Part::Program { at: _, of } => add_program(of, values),
        Part::Proof { at: _, of: _ } => Ok(()),
    }
}

fn add_parts<'a>(parts: &'a [Part], values: &mut ValueTable<'a>) -> Result<(), AllocError>
    ensures { OnOk result (entries values.new ≡ spec.with_words (entries values.old)
        (spec.enumeration_words parts.now)) }
{
    for part in parts {
        add_part(part, values)?;
    }
    Ok(())
}

/// The words of enumerations that parts of a document declare, in order of first appearance, each with the
/// number that it has where it stands first.
///
/// An error says that memory was refused, also where an enumeration has more than 2^62 words: no text has.
pub fn enumeration_words<'a>(alloc: Global, parts: &'a [Part]) -> Result<ValueTable<'a>, AllocError>
    ensures { IfOk result (λ values. entries values ≡ spec.first_words (spec.enumeration_words parts.now)) }
{
    let mut values = IndexMap::new(alloc);
    add_parts(parts, &mut values)?;
    Ok(values)
}
