// What nodes become, folded and put into a pool. A node that stays as it is keeps its number, and is not looked up.
ghost use Rattle.std.specs.Prelude.{◌≡◌, ℕ, ◌<◌, List, length, Some, slice_get, IfOk};
ghost use Rattle.std.specs.Bool.{OnTrue};
ghost use Rattle.core_terms.specs.declared.trees.CForm.{CForm};
ghost use Rattle.core_terms.specs.declared.trees.CTerm.{CTerm};
ghost use Rattle.core_terms.specs.Folding as fold;
ghost use Rattle.core_terms.specs.Pools.{form_or, term_or, form_of_node, term_of_node, IsFormWithin, IsTermWithin};
ghost use Rattle.core_terms.specs.Pools.{Grows};
ghost use Rattle.core_terms.specs.Marks.{KeepsMarks};
ghost use Rattle.wp_substitution.specs.Chains.{AreChains, chain_at, form_by, term_by};
ghost use Rattle.wp_substitution.specs.Memos.{IsFormKnown, IsTermKnown, IsFormTurn, IsNodeTurn, IsTermTurn};

use crate::chains::Chain;
use crate::memos::{FormKnown, TermKnown};
use crate::numbers::joined_truth;
use crate::turning::{FormTurn, TermTurn};
use core_terms::{FormId, FormNode, Joining, Pool, TermId, TermNode};
use std::alloc::AllocError;
use std::collections::BTreeMap;

/// What a formula of the pool becomes, folded and put into the pool.
///
/// An error says that memory was refused. All that the pool held stays, whatever is answered.
pub fn put_form_turn(
    pool: &mut Pool,
    chains: &BTreeMap<u32, Chain>,
    id: FormId,
    turn: FormTurn,
) -> Result<FormKnown, AllocError>
    requires place { id.place < length pool.old.forms }
    requires turn { IsFormTurn pool.old (form_by chains.now (form_or pool.old.forms id.place)) turn }
    ensures known { IfOk result (IsFormKnown pool.new (form_by chains.now (form_or pool.old.forms id.place))) }
    ensures kept { Grows pool.old pool.new }
    ensures marks { KeepsMarks pool.old pool.new }
{
    let folded = folded_form_node(turn);
    let id = put_form_near(pool, id, folded)?;
    Ok(FormKnown {
        id,
        truth: turn.truth,
    })
}

/// What a term of the pool becomes, folded and put into the pool.
///
/// An error says that memory was refused. All that the pool held stays, whatever is answered.
#[tactic(auto, using(core_terms::proofs::PoolLaws::grown))]
pub fn put_term_turn(
    pool: &mut Pool,
    chains: &BTreeMap<u32, Chain>,
    id: TermId,
    turn: TermTurn,
) -> Result<TermKnown, AllocError>
    requires chains { AreChains chains.now }
    requires place { id.place < length pool.old.terms }
    requires turn { IsTermTurn chains.now pool.old (term_by chains.now (term_or pool.old.terms id.place)) turn }
    ensures known { IfOk result (IsTermKnown pool.new (term_by chains.now (term_or pool.old.terms id.place))) }
    ensures kept { Grows pool.old pool.new }
    ensures marks { KeepsMarks pool.old pool.new }
{
    match turn {
        TermTurn::Node(node, number) => put_node_turn(pool, chains, id, node, number),
        TermTurn::Term(known) => Ok(known),
        TermTurn::Slot(slot) => put_slot(pool, chains, id, slot),
    }
}

// A node, folded; `number` is what it is worth, where it names no slot and no parameter.
fn put_node_turn(
    pool: &mut Pool,
    chains: &BTreeMap<u32, Chain>,
    id: TermId,
    node: TermNode,
    number: Option<i128>,
) -> Result<TermKnown, AllocError>
    requires place { id.place < length pool.old.terms }
    requires turn { IsNodeTurn pool.old (term_by chains.now (term_or pool.old.terms id.place)) node number }
    ensures known { IfOk result (IsTermKnown pool.new (term_by chains.now (term_or pool.old.terms id.place))) }
    ensures kept { Grows pool.old pool.new }
    ensures marks { KeepsMarks pool.old pool.new }
{
    let folded = folded_term_node(node, number);
    let id = put_term_near(pool, id, folded)?;
    Ok(TermKnown { id, number })
}

// What a slot holds after the writes.
#[tactic(auto, using(crate::proofs::TurnLaws::number_slot))]
fn put_slot(
    pool: &mut Pool,
    chains: &BTreeMap<u32, Chain>,
    near: TermId,
    slot: u32,
) -> Result<TermKnown, AllocError>
    requires chains { AreChains chains.now }
    requires near { near.place < length pool.old.terms }
    ensures tree { IfOk result (λ k. slice_get pool.new.terms k.id.place ≡ Some (chain_at chains.now slot)) }
    ensures number { IfOk result (λ k. k.number ≡ fold.number_of (chain_at chains.now slot)) }
    ensures kept { Grows pool.old pool.new }
    ensures marks { KeepsMarks pool.old pool.new }
{
    match chains.get(&slot) {
        Some(chain) => {
            let id = pool.put_term(chain.term.get())?;
            Ok(TermKnown {
                id,
                number: chain.number,
            })
        }
        None => {
            let id = put_term_near(pool, near, TermNode::Slot(slot))?;
            Ok(TermKnown { id, number: None })
        }
    }
}

/// That two formulas of the pool hold, folded and put into the pool.
///
/// An error says that memory was refused. All that the pool held stays, whatever is answered.
pub fn put_both(pool: &mut Pool, first: FormKnown, second: FormKnown) -> Result<FormId, AllocError>
    requires first { first.id.place < length pool.old.forms }
    requires second { second.id.place < length pool.old.forms }
    ensures tree { (f g : CForm) → IsFormKnown pool.old f first → IsFormKnown pool.old g second →
        IfOk result (λ id. slice_get pool.new.forms id.place ≡ Some (fold.and_form f g)) }
    ensures kept { Grows pool.old pool.new }
    ensures marks { KeepsMarks pool.old pool.new }
{
    let truth = joined_truth(Joining::Both, first.truth, second.truth);
    let folded = folded_form_node(FormTurn {
        node: FormNode::And(first.id, second.id),
        truth,
    });
    pool.put_form_node(folded)
}

// The node, or `Top` or `Bottom` where the truth is known.
fn folded_form_node(turn: FormTurn) -> FormNode
    ensures tree { (forms : List CForm) (terms : List CTerm) → form_of_node forms terms result ≡
        fold.truth_or turn.truth (form_of_node forms terms turn.node) }
    ensures parts { (forms terms : ℕ) → IsFormWithin forms terms turn.node → IsFormWithin forms terms result }
{
    match turn.truth {
        Some(true) => FormNode::Top,
        Some(false) => FormNode::Bottom,
        None => turn.node,
    }
}

// The node, or the constant of its number where that lies within plus or minus 2^62.
fn folded_term_node(node: TermNode, number: Option<i128>) -> TermNode
    ensures tree { (forms : List CForm) (terms : List CTerm) → term_of_node forms terms result ≡
        fold.constant_or number (term_of_node forms terms node) }
    ensures parts { (forms terms : ℕ) → IsTermWithin forms terms node → IsTermWithin forms terms result }
{
    match number {
        Some(z) if z.unsigned_abs() <= 1 << 62 => TermNode::Const(z as i64),
        _ => node,
    }
}

// The number of a node, which may be that of the formula near by.
fn put_form_near(pool: &mut Pool, near: FormId, node: FormNode) -> Result<FormId, AllocError>
    requires near { near.place < length pool.old.forms }
    requires parts { IsFormWithin (length pool.old.forms) (length pool.old.terms) node }
    ensures tree { IfOk result (λ id. slice_get pool.new.forms id.place ≡
        Some (form_of_node pool.old.forms pool.old.terms node)) }
    ensures kept { Grows pool.old pool.new }
    ensures marks { KeepsMarks pool.old pool.new }
{
    if is_form_node(pool, near, node) {
        return Ok(near);
    }
    pool.put_form_node(node)
}

// The number of a node, which may be that of the term near by.
#[tactic(auto, using(core_terms::proofs::PoolLaws::grown))]
fn put_term_near(pool: &mut Pool, near: TermId, node: TermNode) -> Result<TermId, AllocError>
    requires near { near.place < length pool.old.terms }
    requires parts { IsTermWithin (length pool.old.forms) (length pool.old.terms) node }
    ensures tree { IfOk result (λ id. slice_get pool.new.terms id.place ≡
        Some (term_of_node pool.old.forms pool.old.terms node)) }
    ensures kept { Grows pool.old pool.new }
    ensures marks { KeepsMarks pool.old pool.new }
{
    if is_term_node(pool, near, node) {
        return Ok(near);
    }
    pool.put_term_node(node)
}

// Whether the node is that of the formula near by.
fn is_form_node(pool: &Pool, near: FormId, node: FormNode) -> bool
    requires { near.place < length pool.now.forms }
    ensures { OnTrue result
        (slice_get pool.now.forms near.place ≡ Some (form_of_node pool.now.forms pool.now.terms node)) }
{
    pool.form_node(near) == node
}

// Whether the node is that of the term near by.
fn is_term_node(pool: &Pool, near: TermId, node: TermNode) -> bool
    requires { near.place < length pool.now.terms }
    ensures { OnTrue result
        (slice_get pool.now.terms near.place ≡ Some (term_of_node pool.now.forms pool.now.terms node)) }
{
    pool.term_node(near) == node
}
