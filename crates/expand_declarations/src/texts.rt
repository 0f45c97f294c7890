//! The words of a document that its core form names.

ghost use Rattle.std.specs.Prelude.{◌≡◌, [], ◌∷◌, ◌++◌, map, IfOk, OnOk};
ghost use Rattle.std.specs.List.{flat_map};
ghost use Rattle.names_rules.specs.Scope.{seen_keys};
ghost use Rattle.names_rules.specs.Declarations.{items_of, some_of};
ghost use Rattle.expand_declarations.specs.Texts as texts_of;
ghost use Rattle.expand_declarations.specs.WordNumbers.{with_texts, document_words};

use crate::proof_texts::add_proof;
use crate::words::{Gathered, WordTable, add_listed, add_name, add_words, word_table};
use indexmap::IndexSet;
use std::alloc::{AllocError, Global};
use unity_base::Seq;
use unity_syntax::{Document, Item, Items, Part, Plain, Program, Schedule, Var, VarType};

fn add_plain<'a>(plain: &'a Plain, words: &mut Gathered<'a>) -> Result<(), AllocError>
    ensures { OnOk result (seen_keys words.new ≡ with_texts (seen_keys words.old) (texts_of.plain_texts plain.now)) }
{
    match plain {
        Plain::Boolean { at: _ } => Ok(()),
        Plain::Range { at: _, range: _ } => Ok(()),
        Plain::Words { at: _, first, rest } => {
            add_name(first, words)?;
            add_words(rest.as_slice(), words)
        }
    }
}

fn add_variable<'a>(v: &'a Var, words: &mut Gathered<'a>) -> Result<(), AllocError>
    ensures { OnOk result (seen_keys words.new ≡ with_texts (seen_keys words.old) (texts_of.var_texts v.now)) }
{
    add_name(&v.name, words)?;
    match &v.kind {
        VarType::Plain { at: _, of } => add_plain(of, words),
        VarType::Array {
            at: _,
            range: _,
            of,
        } => add_plain(of, words),
    }
}

fn add_variables<'a>(list: &'a Option<Seq<Var>>, words: &mut Gathered<'a>) -> Result<(), AllocError>
    ensures { OnOk result (seen_keys words.new
        ≡ with_texts (seen_keys words.old) (flat_map texts_of.var_texts (items_of list.now))) }
{
    match list {
        None => Ok(()),
        Some(vs) => add_each_variable(vs.as_slice(), words),
    }
}

fn add_each_variable<'a>(vs: &'a [Var], words: &mut Gathered<'a>) -> Result<(), AllocError>
    ensures { OnOk result (seen_keys words.new
        ≡ with_texts (seen_keys words.old) (flat_map texts_of.var_texts vs.now)) }
{
    for v in vs {
        add_variable(v, words)?;
    }
    Ok(())
}

#[cycle(items)]
fn add_item<'a>(i: &'a Item, words: &mut Gathered<'a>) -> Result<(), AllocError>
    ensures { OnOk result (seen_keys words.new ≡ with_texts (seen_keys words.old) (texts_of.item_texts i.now)) }
{
    match i {
        Item::Statement {
            at: _,
            label,
            assign: _,
        } => add_name(label, words),
        Item::Quantified {
            at: _,
            name: _,
            range: _,
            of,
        } => add_items(of.get(), words),
    }
}

#[cycle(items)]
fn add_items<'a>(x: &'a Items, words: &mut Gathered<'a>) -> Result<(), AllocError>
    ensures { OnOk result (seen_keys words.new ≡ with_texts (seen_keys words.old) (texts_of.items_texts x.now)) }
{
    add_item(&x.first, words)?;
    add_further(&x.rest, words)
}

#[cycle(items)]
fn add_further<'a>(list: &'a Seq<Item>, words: &mut Gathered<'a>) -> Result<(), AllocError>
    ensures { OnOk result (seen_keys words.new
        ≡ with_texts (seen_keys words.old) (flat_map texts_of.item_texts list.now)) }
{
    for i in list.as_slice() {
        add_item(i, words)?;
    }
    Ok(())
}

fn add_program<'a>(p: &'a Program, words: &mut Gathered<'a>) -> Result<(), AllocError>
    ensures { OnOk result (seen_keys words.new ≡ with_texts (seen_keys words.old) (texts_of.program_texts p.now)) }
{
    match p {
        Program::Union {
            at: _,
            name,
            left: _,
            right: _,
        } => add_name(name, words),
        Program::Plain {
            at: _,
            name,
            declare,
            always: _,
            initially: _,
            start: _,
            items,
        } => {
            add_name(name, words)?;
            add_variables(declare, words)?;
            add_items(items, words)
        }
    }
}

fn add_part<'a>(part: &'a Part, words: &mut Gathered<'a>) -> Result<(), AllocError>
    ensures { OnOk result (seen_keys words.new ≡ with_texts (seen_keys words.old) (texts_of.part_texts part.now)) }
{
    match part {
        Part::Program { at: _, of } => add_program(of, words),
        Part::Proof { at: _, of } => add_proof(of, words),
    }
}

fn add_parts<'a>(parts: &'a [Part], words: &mut Gathered<'a>) -> Result<(), AllocError>
    ensures { OnOk result (seen_keys words.new
        ≡ with_texts (seen_keys words.old) (flat_map texts_of.part_texts parts.now)) }
{
    for part in parts {
        add_part(part, words)?;
    }
    Ok(())
}

fn add_schedule<'a>(
    schedule: &'a Option<Schedule>,
    words: &mut Gathered<'a>,
) -> Result<(), AllocError>
    ensures { OnOk result (seen_keys words.new
        ≡ with_texts (seen_keys words.old) (texts_of.schedule_texts schedule.now)) }
{
    match schedule {
        None => Ok(()),
        Some(schedule) => {
            add_name(&schedule.program, words)?;
            add_listed(&schedule.choices, words)
        }
    }
}

fn add_document<'a>(d: &'a Document, words: &mut Gathered<'a>) -> Result<(), AllocError>
    ensures { OnOk result (seen_keys words.new ≡ with_texts (seen_keys words.old) (texts_of.document_texts d.now)) }
{
    add_parts(d.parts.as_slice(), words)?;
    add_schedule(&d.schedule, words)
}

fn gathered<'a>(alloc: Global, d: &'a Document) -> Result<Gathered<'a>, AllocError>
    ensures { IfOk result (λ words. seen_keys words ≡ document_words d.now) }
{
    let mut words = IndexSet::new(alloc);
    add_document(d, &mut words)?;
    Ok(words)
}

/// The words of a document, each once, in order of first appearance. It takes time linear in the
/// document.
///
/// An error says that memory was refused, also where there are 2^32 words: no memory holds as many.
pub fn document_words<'a>(alloc: Global, d: &'a Document) -> Result<WordTable<'a>, AllocError>
    ensures { IfOk result (λ words. words ≡ document_words d.now) }
{
    word_table(gathered(alloc, d)?)
}
