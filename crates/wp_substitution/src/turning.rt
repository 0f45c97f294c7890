// What a node of a pool becomes where its slots are replaced, once that is known of its parts. The answer is else the
// first part of which it is not known.
ghost use Rattle.std.specs.Prelude.{◌≡◌, ℕ, ◌*◌, ◌^◌, ◌<◌, ◌≤◌, List, None, Some, IfOk, IfErr};
ghost use Rattle.std.specs.Int.RustNames.{unsigned_abs};
ghost use Rattle.core_terms.specs.Folding as fold;
ghost use Rattle.core_terms.specs.Senses as senses;
ghost use Rattle.core_terms.specs.Senses.{paired_term, divided_term, sense_form, joined_form};
ghost use Rattle.core_terms.specs.declared.trees.CForm.{CForm};
ghost use Rattle.core_terms.specs.declared.trees.CTerm.{CTerm};
ghost use Rattle.core_terms.specs.declared.nodes.TermNode.{TermNode};
ghost use Rattle.core_terms.specs.Pools.{form_or, term_or, form_of_node, term_of_node, IsFormWithin, IsTermWithin};
ghost use Rattle.core_terms.specs.Marks.{Fits};
ghost use Rattle.wp_substitution.specs.Chains.{AreChains, form_by, term_by, after_weights};
ghost use Rattle.wp_substitution.specs.Memos.{Remembers, IsFormPart, IsTermPart, IsPart, AreFormParts, AreTermParts};
ghost use Rattle.wp_substitution.specs.Memos.{IsFormKnown, IsFormTurn, IsTermTurn};
ghost use Rattle.wp_substitution.specs.declared.turning.TermTurn.{TermTurn};

use crate::chains::Chain;
use crate::memos::{FormKnown, Memo, Part, TermKnown};
use crate::numbers::{
    divided_number, joined_truth, multiple_number, other_truth, pair_number, sense_truth,
};
use core_terms::{Dividing, FormId, FormNode, Joining, Pairing, Pool, Sense, TermId, TermNode};
use std::collections::BTreeMap;

/// The node that a formula becomes, before it is folded, and its truth where it names no slot and no parameter.
#[derive(Clone, Copy)]
pub struct FormTurn {
    pub node: FormNode,
    pub truth: Option<bool>,
}

/// What a term becomes.
#[derive(Clone, Copy)]
pub enum TermTurn {
    /// The term of the node, folded; the number is what the node is worth where it names no slot and no parameter.
    Node(TermNode, Option<i128>),
    /// A term of the pool.
    Term(TermKnown),
    /// What the slot holds after the writes.
    Slot(u32),
}

/// What a formula becomes.
pub fn form_turn(
    pool: &Pool,
    memo: &Memo,
    chains: &BTreeMap<u32, Chain>,
    id: FormId,
) -> Result<FormTurn, Part>
    requires known { Remembers chains.now pool.now memo.now }
    requires chains { AreChains chains.now }
    requires part { IsFormPart pool.now memo.now.mark id.place }
    ensures turn { IfOk result (IsFormTurn pool.now (form_by chains.now (form_or pool.now.forms id.place))) }
    ensures missing { IfErr result (IsPart pool.now memo.now.mark) }
{
    match form_node(pool, memo, id) {
        FormNode::Top => Ok(truth_turn(FormNode::Top, true)),
        FormNode::Bottom => Ok(truth_turn(FormNode::Bottom, false)),
        FormNode::AtLeast(t) => sense_turn(pool, memo, chains, Sense::AtLeast, t),
        FormNode::Zero(t) => sense_turn(pool, memo, chains, Sense::Zero, t),
        FormNode::Not(f) => not_turn(pool, memo, chains, f),
        FormNode::And(f, g) => joined_turn(pool, memo, chains, Joining::Both, f, g),
        FormNode::Or(f, g) => joined_turn(pool, memo, chains, Joining::Either, f, g),
    }
}

// The node of a formula, whose parts weigh as little and stand below the mark too.
fn form_node(pool: &Pool, memo: &Memo, id: FormId) -> FormNode
    requires fits { Fits pool.now memo.now.mark }
    requires part { IsFormPart pool.now memo.now.mark id.place }
    ensures tree { form_or pool.now.forms id.place ≡ form_of_node pool.now.forms pool.now.terms result }
    ensures parts { AreFormParts pool.now memo.now.mark result }
{
    pool.form_node(id)
}

// The node of a term, with what `form_node` says.
fn term_node(pool: &Pool, memo: &Memo, id: TermId) -> TermNode
    requires fits { Fits pool.now memo.now.mark }
    requires part { IsTermPart pool.now memo.now.mark id.place }
    ensures tree { term_or pool.now.terms id.place ≡ term_of_node pool.now.forms pool.now.terms result }
    ensures parts { AreTermParts pool.now memo.now.mark result }
{
    pool.term_node(id)
}

fn truth_turn(node: FormNode, holds: bool) -> FormTurn
    ensures node { result.node ≡ node }
    ensures truth { result.truth ≡ Some holds }
{
    FormTurn {
        node,
        truth: Some(holds),
    }
}

fn sense_turn(
    pool: &Pool,
    memo: &Memo,
    chains: &BTreeMap<u32, Chain>,
    sense: Sense,
    t: TermId,
) -> Result<FormTurn, Part>
    requires known { Remembers chains.now pool.now memo.now }
    requires chains { AreChains chains.now }
    requires part { IsTermPart pool.now memo.now.mark t.place }
    ensures turn { IfOk result
        (IsFormTurn pool.now (sense_form sense (term_by chains.now (term_or pool.now.terms t.place)))) }
    ensures missing { IfErr result (IsPart pool.now memo.now.mark) }
{
    let part = memo.term(pool, chains, t)?;
    let node = sense_node(sense, part.id);
    let truth = sense_truth(sense, part.number);
    Ok(FormTurn { node, truth })
}

fn not_turn(
    pool: &Pool,
    memo: &Memo,
    chains: &BTreeMap<u32, Chain>,
    f: FormId,
) -> Result<FormTurn, Part>
    requires known { Remembers chains.now pool.now memo.now }
    requires part { IsFormPart pool.now memo.now.mark f.place }
    ensures turn { IfOk result
        (IsFormTurn pool.now (fold.not_form (form_by chains.now (form_or pool.now.forms f.place)))) }
    ensures missing { IfErr result (IsPart pool.now memo.now.mark) }
{
    let part = memo.form(pool, chains, f)?;
    let truth = other_truth(part.truth);
    Ok(FormTurn {
        node: FormNode::Not(part.id),
        truth,
    })
}

fn joined_turn(
    pool: &Pool,
    memo: &Memo,
    chains: &BTreeMap<u32, Chain>,
    joining: Joining,
    f: FormId,
    g: FormId,
) -> Result<FormTurn, Part>
    requires known { Remembers chains.now pool.now memo.now }
    requires first { IsFormPart pool.now memo.now.mark f.place }
    requires second { IsFormPart pool.now memo.now.mark g.place }
    ensures turn { IfOk result (IsFormTurn pool.now (joined_form joining
        (form_by chains.now (form_or pool.now.forms f.place)) (form_by chains.now (form_or pool.now.forms g.place)))) }
    ensures missing { IfErr result (IsPart pool.now memo.now.mark) }
{
    let first = memo.form(pool, chains, f)?;
    let second = memo.form(pool, chains, g)?;
    let node = joined_node(joining, first.id, second.id);
    let truth = joined_truth(joining, first.truth, second.truth);
    Ok(FormTurn { node, truth })
}

/// What a term becomes.
pub fn term_turn(
    pool: &Pool,
    memo: &Memo,
    chains: &BTreeMap<u32, Chain>,
    id: TermId,
) -> Result<TermTurn, Part>
    requires known { Remembers chains.now pool.now memo.now }
    requires chains { AreChains chains.now }
    requires part { IsTermPart pool.now memo.now.mark id.place }
    ensures turn { IfOk result
        (IsTermTurn chains.now pool.now (term_by chains.now (term_or pool.now.terms id.place))) }
    ensures missing { IfErr result (IsPart pool.now memo.now.mark) }
{
    match term_node(pool, memo, id) {
        TermNode::Const(c) => Ok(constant_turn(c)),
        TermNode::Slot(n) => Ok(TermTurn::Slot(n)),
        TermNode::Param(n) => Ok(TermTurn::Node(TermNode::Param(n), None)),
        TermNode::Add(a, b) => pair_turn(pool, memo, chains, Pairing::Sum, a, b),
        TermNode::Sub(a, b) => pair_turn(pool, memo, chains, Pairing::Difference, a, b),
        TermNode::Scale(k, a) => multiple_turn(pool, memo, chains, k, a),
        TermNode::Div(a, k) => divided_turn(pool, memo, chains, Dividing::Quotient, a, k),
        TermNode::Mod(a, k) => divided_turn(pool, memo, chains, Dividing::Remainder, a, k),
        TermNode::Ite(c, a, b) => choice_turn(pool, memo, chains, c, a, b),
    }
}

fn constant_turn(c: i64) -> TermTurn
    ensures { result ≡ TermTurn.Node (TermNode.Const c) (Some c) }
{
    TermTurn::Node(TermNode::Const(c), Some(c as i128))
}

fn pair_turn(
    pool: &Pool,
    memo: &Memo,
    chains: &BTreeMap<u32, Chain>,
    which: Pairing,
    a: TermId,
    b: TermId,
) -> Result<TermTurn, Part>
    requires known { Remembers chains.now pool.now memo.now }
    requires chains { AreChains chains.now }
    requires first { IsTermPart pool.now memo.now.mark a.place }
    requires second { IsTermPart pool.now memo.now.mark b.place }
    ensures turn { IfOk result (IsTermTurn chains.now pool.now (paired_term which
        (term_by chains.now (term_or pool.now.terms a.place)) (term_by chains.now (term_or pool.now.terms b.place)))) }
    ensures missing { IfErr result (IsPart pool.now memo.now.mark) }
{
    let first = memo.term(pool, chains, a)?;
    let second = memo.term(pool, chains, b)?;
    let node = pair_node(which, first.id, second.id);
    let number = pair_number(which, first.number, second.number);
    Ok(TermTurn::Node(node, number))
}

#[tactic(auto, using(crate::proofs::MemoLaws::multiple_bounded))]
fn multiple_turn(
    pool: &Pool,
    memo: &Memo,
    chains: &BTreeMap<u32, Chain>,
    k: i64,
    a: TermId,
) -> Result<TermTurn, Part>
    requires known { Remembers chains.now pool.now memo.now }
    requires chains { AreChains chains.now }
    requires part { IsTermPart pool.now memo.now.mark a.place }
    requires weight { unsigned_abs k * (after_weights (term_or pool.now.terms a.place)).own ≤ 2 ^ 124 }
    ensures turn { IfOk result (IsTermTurn chains.now pool.now
        (fold.scaled_term k (term_by chains.now (term_or pool.now.terms a.place)))) }
    ensures missing { IfErr result (IsPart pool.now memo.now.mark) }
{
    let part = memo.term(pool, chains, a)?;
    let number = multiple_number(k, part.number);
    Ok(TermTurn::Node(TermNode::Scale(k, part.id), number))
}

fn divided_turn(
    pool: &Pool,
    memo: &Memo,
    chains: &BTreeMap<u32, Chain>,
    which: Dividing,
    a: TermId,
    k: i64,
) -> Result<TermTurn, Part>
    requires known { Remembers chains.now pool.now memo.now }
    requires chains { AreChains chains.now }
    requires part { IsTermPart pool.now memo.now.mark a.place }
    ensures turn { IfOk result (IsTermTurn chains.now pool.now
        (divided_term which k (term_by chains.now (term_or pool.now.terms a.place)))) }
    ensures missing { IfErr result (IsPart pool.now memo.now.mark) }
{
    let part = memo.term(pool, chains, a)?;
    let node = divided_node(which, part.id, k);
    let number = divided_number(which, part.number, k);
    Ok(TermTurn::Node(node, number))
}

// The branch alone, where the truth of the condition is known; the other branch is then not looked at.
fn choice_turn(
    pool: &Pool,
    memo: &Memo,
    chains: &BTreeMap<u32, Chain>,
    c: FormId,
    a: TermId,
    b: TermId,
) -> Result<TermTurn, Part>
    requires known { Remembers chains.now pool.now memo.now }
    requires chains { AreChains chains.now }
    requires condition { IsFormPart pool.now memo.now.mark c.place }
    requires first { IsTermPart pool.now memo.now.mark a.place }
    requires second { IsTermPart pool.now memo.now.mark b.place }
    ensures turn { IfOk result (IsTermTurn chains.now pool.now (fold.choice_term
        (form_by chains.now (form_or pool.now.forms c.place)) (term_by chains.now (term_or pool.now.terms a.place))
        (term_by chains.now (term_or pool.now.terms b.place)))) }
    ensures missing { IfErr result (IsPart pool.now memo.now.mark) }
{
    let condition = memo.form(pool, chains, c)?;
    match condition.truth {
        Some(true) => branch_turn(pool, memo, chains, a),
        Some(false) => branch_turn(pool, memo, chains, b),
        None => open_turn(pool, memo, chains, condition, a, b),
    }
}

// One branch.
fn branch_turn(
    pool: &Pool,
    memo: &Memo,
    chains: &BTreeMap<u32, Chain>,
    a: TermId,
) -> Result<TermTurn, Part>
    requires known { Remembers chains.now pool.now memo.now }
    requires chains { AreChains chains.now }
    requires part { IsTermPart pool.now memo.now.mark a.place }
    ensures turn { IfOk result (IsTermTurn chains.now pool.now (term_by chains.now (term_or pool.now.terms a.place))) }
    ensures missing { IfErr result (IsPart pool.now memo.now.mark) }
{
    let part = memo.term(pool, chains, a)?;
    Ok(TermTurn::Term(part))
}

// Both branches, where the truth of the condition is not known.
fn open_turn(
    pool: &Pool,
    memo: &Memo,
    chains: &BTreeMap<u32, Chain>,
    condition: FormKnown,
    a: TermId,
    b: TermId,
) -> Result<TermTurn, Part>
    requires known { Remembers chains.now pool.now memo.now }
    requires chains { AreChains chains.now }
    requires open { condition.truth ≡ None }
    requires first { IsTermPart pool.now memo.now.mark a.place }
    requires second { IsTermPart pool.now memo.now.mark b.place }
    ensures turn { (f : CForm) → IsFormKnown pool.now f condition → IfOk result (IsTermTurn chains.now pool.now
        (fold.choice_term f (term_by chains.now (term_or pool.now.terms a.place))
        (term_by chains.now (term_or pool.now.terms b.place)))) }
    ensures missing { IfErr result (IsPart pool.now memo.now.mark) }
{
    let first = memo.term(pool, chains, a)?;
    let second = memo.term(pool, chains, b)?;
    let node = TermNode::Ite(condition.id, first.id, second.id);
    Ok(TermTurn::Node(node, None))
}

fn sense_node(sense: Sense, t: TermId) -> FormNode
    ensures tree { (forms : List CForm) (terms : List CTerm) →
        form_of_node forms terms result ≡ senses.sense_node sense (term_or terms t.place) }
    ensures parts { (forms terms : ℕ) → t.place < terms → IsFormWithin forms terms result }
{
    match sense {
        Sense::AtLeast => FormNode::AtLeast(t),
        Sense::Zero => FormNode::Zero(t),
    }
}

fn joined_node(joining: Joining, f: FormId, g: FormId) -> FormNode
    ensures tree { (forms : List CForm) (terms : List CTerm) → form_of_node forms terms result ≡
        senses.joined_node joining (form_or forms f.place) (form_or forms g.place) }
    ensures parts { (forms terms : ℕ) → f.place < forms → g.place < forms → IsFormWithin forms terms result }
{
    match joining {
        Joining::Both => FormNode::And(f, g),
        Joining::Either => FormNode::Or(f, g),
    }
}

fn pair_node(which: Pairing, a: TermId, b: TermId) -> TermNode
    ensures tree { (forms : List CForm) (terms : List CTerm) → term_of_node forms terms result ≡
        senses.pair_node which (term_or terms a.place) (term_or terms b.place) }
    ensures parts { (forms terms : ℕ) → a.place < terms → b.place < terms → IsTermWithin forms terms result }
{
    match which {
        Pairing::Sum => TermNode::Add(a, b),
        Pairing::Difference => TermNode::Sub(a, b),
    }
}

fn divided_node(which: Dividing, a: TermId, k: i64) -> TermNode
    ensures tree { (forms : List CForm) (terms : List CTerm) → term_of_node forms terms result ≡
        senses.divided_node which (term_or terms a.place) k }
    ensures parts { (forms terms : ℕ) → a.place < terms → IsTermWithin forms terms result }
{
    match which {
        Dividing::Quotient => TermNode::Div(a, k),
        Dividing::Remainder => TermNode::Mod(a, k),
    }
}
