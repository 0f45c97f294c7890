// A node's place in the tables of a pool, where it is put if it has none. Each kind of node has a function of its own,
// which is handed the places of the parts: so no node stands in the frame of a call that goes down a tree.
ghost use Rattle.std.specs.Prelude.{◌≡◌, ◌<◌, length, cond, Some, slice_get, IfOk};
ghost use Rattle.core_terms.specs.declared.trees.CForm.TheVariants as form;
ghost use Rattle.core_terms.specs.declared.trees.CTerm.TheVariants as term;
ghost use Rattle.core_terms.specs.Pools.{pooled, form_of_node, term_of_node, IsFormWithin, IsTermWithin, IsPool, Grows};
ghost use Rattle.core_terms.specs.Pools.{form_or, term_or};
ghost use Rattle.core_terms.specs.Senses.{pair_node, divided_node, sense_node, joined_node};

use crate::building::{push_form, push_term};
use crate::known::{Dividing, Joining, Pairing, Sense};
use crate::nodes::{FormId, FormNode, TermId, TermNode};
use crate::tables::Tables;
use std::alloc::AllocError;

/// The place of a formula's node.
///
/// An error says that memory was refused; the tables are then as they were.
#[inline(never)]
pub fn place_form(tables: &mut Tables, node: FormNode) -> Result<FormId, AllocError>
    requires whole { IsPool (pooled tables.old) }
    requires parts { IsFormWithin (length tables.old.forms) (length tables.old.terms) node }
    ensures tree { IfOk result (λ id. slice_get (pooled tables.new).forms id.place ≡
        Some (form_of_node (pooled tables.old).forms (pooled tables.old).terms node)) }
    ensures whole { IsPool (pooled tables.new) }
    ensures kept { Grows (pooled tables.old) (pooled tables.new) }
{
    let count = tables.forms.len();
    let (place, is_new) = tables.form_nodes.insert_full(node)?;
    if !is_new {
        return Ok(FormId { place });
    }
    match push_form(tables.alloc, &mut tables.forms, &tables.terms, node) {
        Ok(()) => Ok(FormId { place: count }),
        Err(error) => {
            tables.form_nodes.truncate(count);
            Err(error)
        }
    }
}

/// The place of a term's node.
///
/// An error says that memory was refused; the tables are then as they were.
#[inline(never)]
pub fn place_term(tables: &mut Tables, node: TermNode) -> Result<TermId, AllocError>
    requires whole { IsPool (pooled tables.old) }
    requires parts { IsTermWithin (length tables.old.forms) (length tables.old.terms) node }
    ensures tree { IfOk result (λ id. slice_get (pooled tables.new).terms id.place ≡
        Some (term_of_node (pooled tables.old).forms (pooled tables.old).terms node)) }
    ensures whole { IsPool (pooled tables.new) }
    ensures kept { Grows (pooled tables.old) (pooled tables.new) }
{
    let count = tables.terms.len();
    let (place, is_new) = tables.term_nodes.insert_full(node)?;
    if !is_new {
        return Ok(TermId { place });
    }
    match push_term(tables.alloc, &tables.forms, &mut tables.terms, node) {
        Ok(()) => Ok(TermId { place: count }),
        Err(error) => {
            tables.term_nodes.truncate(count);
            Err(error)
        }
    }
}

/// The place of a truth.
///
/// An error says that memory was refused; all that the tables held stays.
#[inline(never)]
pub fn place_truth(tables: &mut Tables, holds: bool) -> Result<FormId, AllocError>
    requires whole { IsPool (pooled tables.old) }
    ensures tree { IfOk result (λ id. slice_get (pooled tables.new).forms id.place ≡
        Some (cond holds form.Top form.Bottom)) }
    ensures whole { IsPool (pooled tables.new) }
    ensures kept { Grows (pooled tables.old) (pooled tables.new) }
{
    if holds {
        place_form(tables, FormNode::Top)
    } else {
        place_form(tables, FormNode::Bottom)
    }
}

/// The place of a test of a term against 0.
///
/// An error says that memory was refused; all that the tables held stays.
#[inline(never)]
pub fn place_sense(tables: &mut Tables, sense: Sense, part: TermId) -> Result<FormId, AllocError>
    requires whole { IsPool (pooled tables.old) }
    requires part { part.place < length tables.old.terms }
    ensures tree { IfOk result (λ id. slice_get (pooled tables.new).forms id.place ≡
        Some (sense_node sense (term_or (pooled tables.old).terms part.place))) }
    ensures whole { IsPool (pooled tables.new) }
    ensures kept { Grows (pooled tables.old) (pooled tables.new) }
{
    match sense {
        Sense::AtLeast => place_form(tables, FormNode::AtLeast(part)),
        Sense::Zero => place_form(tables, FormNode::Zero(part)),
    }
}

/// The place of a negation.
///
/// An error says that memory was refused; all that the tables held stays.
#[inline(never)]
pub fn place_not(tables: &mut Tables, part: FormId) -> Result<FormId, AllocError>
    requires whole { IsPool (pooled tables.old) }
    requires part { part.place < length tables.old.forms }
    ensures tree { IfOk result (λ id. slice_get (pooled tables.new).forms id.place ≡
        Some (form.Not (form_or (pooled tables.old).forms part.place))) }
    ensures whole { IsPool (pooled tables.new) }
    ensures kept { Grows (pooled tables.old) (pooled tables.new) }
{
    place_form(tables, FormNode::Not(part))
}

/// The place of two formulas joined.
///
/// An error says that memory was refused; all that the tables held stays.
#[inline(never)]
pub fn place_joined(
    tables: &mut Tables,
    joining: Joining,
    first: FormId,
    second: FormId,
) -> Result<FormId, AllocError>
    requires whole { IsPool (pooled tables.old) }
    requires first { first.place < length tables.old.forms }
    requires second { second.place < length tables.old.forms }
    ensures tree { IfOk result (λ id. slice_get (pooled tables.new).forms id.place ≡
        Some (joined_node joining (form_or (pooled tables.old).forms first.place)
        (form_or (pooled tables.old).forms second.place))) }
    ensures whole { IsPool (pooled tables.new) }
    ensures kept { Grows (pooled tables.old) (pooled tables.new) }
{
    match joining {
        Joining::Both => place_form(tables, FormNode::And(first, second)),
        Joining::Either => place_form(tables, FormNode::Or(first, second)),
    }
}

/// The place of a constant.
///
/// An error says that memory was refused; all that the tables held stays.
#[inline(never)]
pub fn place_constant(tables: &mut Tables, c: i64) -> Result<TermId, AllocError>
    requires whole { IsPool (pooled tables.old) }
    ensures tree { IfOk result (λ id. slice_get (pooled tables.new).terms id.place ≡ Some (term.Const c)) }
    ensures whole { IsPool (pooled tables.new) }
    ensures kept { Grows (pooled tables.old) (pooled tables.new) }
{
    place_term(tables, TermNode::Const(c))
}

/// The place of a slot.
///
/// An error says that memory was refused; all that the tables held stays.
#[inline(never)]
pub fn place_slot(tables: &mut Tables, number: u32) -> Result<TermId, AllocError>
    requires whole { IsPool (pooled tables.old) }
    ensures tree { IfOk result (λ id. slice_get (pooled tables.new).terms id.place ≡ Some (term.Slot number)) }
    ensures whole { IsPool (pooled tables.new) }
    ensures kept { Grows (pooled tables.old) (pooled tables.new) }
{
    place_term(tables, TermNode::Slot(number))
}

/// The place of a parameter.
///
/// An error says that memory was refused; all that the tables held stays.
#[inline(never)]
pub fn place_param(tables: &mut Tables, number: u32) -> Result<TermId, AllocError>
    requires whole { IsPool (pooled tables.old) }
    ensures tree { IfOk result (λ id. slice_get (pooled tables.new).terms id.place ≡ Some (term.Param number)) }
    ensures whole { IsPool (pooled tables.new) }
    ensures kept { Grows (pooled tables.old) (pooled tables.new) }
{
    place_term(tables, TermNode::Param(number))
}

/// The place of a sum or a difference.
///
/// An error says that memory was refused; all that the tables held stays.
#[inline(never)]
pub fn place_pair(
    tables: &mut Tables,
    which: Pairing,
    first: TermId,
    second: TermId,
) -> Result<TermId, AllocError>
    requires whole { IsPool (pooled tables.old) }
    requires first { first.place < length tables.old.terms }
    requires second { second.place < length tables.old.terms }
    ensures tree { IfOk result (λ id. slice_get (pooled tables.new).terms id.place ≡
        Some (pair_node which (term_or (pooled tables.old).terms first.place)
        (term_or (pooled tables.old).terms second.place))) }
    ensures whole { IsPool (pooled tables.new) }
    ensures kept { Grows (pooled tables.old) (pooled tables.new) }
{
    match which {
        Pairing::Sum => place_term(tables, TermNode::Add(first, second)),
        Pairing::Difference => place_term(tables, TermNode::Sub(first, second)),
    }
}

/// The place of a multiple.
///
/// An error says that memory was refused; all that the tables held stays.
#[inline(never)]
pub fn place_multiple(tables: &mut Tables, k: i64, part: TermId) -> Result<TermId, AllocError>
    requires whole { IsPool (pooled tables.old) }
    requires part { part.place < length tables.old.terms }
    ensures tree { IfOk result (λ id. slice_get (pooled tables.new).terms id.place ≡
        Some (term.Scale k (term_or (pooled tables.old).terms part.place))) }
    ensures whole { IsPool (pooled tables.new) }
    ensures kept { Grows (pooled tables.old) (pooled tables.new) }
{
    place_term(tables, TermNode::Scale(k, part))
}

/// The place of a quotient or a remainder.
///
/// An error says that memory was refused; all that the tables held stays.
#[inline(never)]
pub fn place_divided(
    tables: &mut Tables,
    which: Dividing,
    part: TermId,
    k: i64,
) -> Result<TermId, AllocError>
    requires whole { IsPool (pooled tables.old) }
    requires part { part.place < length tables.old.terms }
    ensures tree { IfOk result (λ id. slice_get (pooled tables.new).terms id.place ≡
        Some (divided_node which (term_or (pooled tables.old).terms part.place) k)) }
    ensures whole { IsPool (pooled tables.new) }
    ensures kept { Grows (pooled tables.old) (pooled tables.new) }
{
    match which {
        Dividing::Quotient => place_term(tables, TermNode::Div(part, k)),
        Dividing::Remainder => place_term(tables, TermNode::Mod(part, k)),
    }
}

/// The place of a choice between two terms.
///
/// An error says that memory was refused; all that the tables held stays.
#[inline(never)]
pub fn place_choice(
    tables: &mut Tables,
    condition: FormId,
    first: TermId,
    second: TermId,
) -> Result<TermId, AllocError>
    requires whole { IsPool (pooled tables.old) }
    requires condition { condition.place < length tables.old.forms }
    requires first { first.place < length tables.old.terms }
    requires second { second.place < length tables.old.terms }
    ensures tree { IfOk result (λ id. slice_get (pooled tables.new).terms id.place ≡
        Some (term.Ite (form_or (pooled tables.old).forms condition.place)
        (term_or (pooled tables.old).terms first.place) (term_or (pooled tables.old).terms second.place))) }
    ensures whole { IsPool (pooled tables.new) }
    ensures kept { Grows (pooled tables.old) (pooled tables.new) }
{
    place_term(tables, TermNode::Ite(condition, first, second))
}
