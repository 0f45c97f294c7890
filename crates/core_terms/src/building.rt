// The tree of a node, from the trees at its parts' places, which it shares.
ghost use Rattle.std.specs.Prelude.{◌≡◌, ◌<◌, ◌++◌, ◌∷◌, [], ◌^◌, length, min, IfOk, OnOk, OnErr};
ghost use Rattle.core_terms.specs.Sizes.{form_nodes, term_nodes};
ghost use Rattle.core_terms.specs.Pools.{form_trees, term_trees, form_or, term_or, form_of_node, term_of_node};
ghost use Rattle.core_terms.specs.Pools.{IsFormWithin, IsTermWithin};

use crate::copies::copy_term;
use crate::entries::{FormEntry, TermEntry};
use crate::measures::plus;
use crate::nodes::{FormId, FormNode, TermId, TermNode};
use crate::trees::{CForm, CTerm};
use std::alloc::{AllocError, Global};
use unity_base::{Seq, Shared};

/// Puts the tree of a node behind the formulas.
///
/// An error says that memory was refused.
pub fn push_form(
    alloc: Global,
    forms: &mut Seq<FormEntry>,
    terms: &Seq<TermEntry>,
    node: FormNode,
) -> Result<(), AllocError>
    requires { IsFormWithin (length forms.old) (length terms.now) node }
    ensures ok { OnOk result (form_trees forms.new ≡
        form_trees forms.old ++ form_of_node (form_trees forms.old) (term_trees terms.now) node ∷ []) }
    ensures err { OnErr result (forms.new ≡ forms.old) }
{
    let entry = form_entry(alloc, forms.as_slice(), terms.as_slice(), node)?;
    forms.push(entry)
}

/// Puts the tree of a node behind the terms.
///
/// An error says that memory was refused.
pub fn push_term(
    alloc: Global,
    forms: &Seq<FormEntry>,
    terms: &mut Seq<TermEntry>,
    node: TermNode,
) -> Result<(), AllocError>
    requires { IsTermWithin (length forms.now) (length terms.old) node }
    ensures ok { OnOk result (term_trees terms.new ≡
        term_trees terms.old ++ term_of_node (form_trees forms.now) (term_trees terms.old) node ∷ []) }
    ensures err { OnErr result (terms.new ≡ terms.old) }
{
    let entry = term_entry(alloc, forms.as_slice(), terms.as_slice(), node)?;
    terms.push(entry)
}

fn form_entry(
    alloc: Global,
    forms: &[FormEntry],
    terms: &[TermEntry],
    node: FormNode,
) -> Result<FormEntry, AllocError>
    requires { IsFormWithin (length forms.now) (length terms.now) node }
    ensures { IfOk result (λ e. e.tree ≡ form_of_node (form_trees forms.now) (term_trees terms.now) node) }
{
    let size = form_size(forms, terms, node);
    let tree = Shared::new(alloc, form_tree(alloc, forms, terms, node)?)?;
    Ok(FormEntry { tree, size })
}

fn term_entry(
    alloc: Global,
    forms: &[FormEntry],
    terms: &[TermEntry],
    node: TermNode,
) -> Result<TermEntry, AllocError>
    requires { IsTermWithin (length forms.now) (length terms.now) node }
    ensures { IfOk result (λ e. e.tree ≡ term_of_node (form_trees forms.now) (term_trees terms.now) node) }
{
    let size = term_size(forms, terms, node);
    let tree = Shared::new(alloc, term_tree(alloc, forms, terms, node)?)?;
    Ok(TermEntry { tree, size })
}

fn form_tree(
    alloc: Global,
    forms: &[FormEntry],
    terms: &[TermEntry],
    node: FormNode,
) -> Result<CForm, AllocError>
    requires { IsFormWithin (length forms.now) (length terms.now) node }
    ensures { IfOk result (λ f. f ≡ form_of_node (form_trees forms.now) (term_trees terms.now) node) }
{
    match node {
        FormNode::Top => Ok(CForm::Top),
        FormNode::Bottom => Ok(CForm::Bottom),
        FormNode::AtLeast(t) => Ok(CForm::AtLeast(copy_term(alloc, term_at(terms, t).tree.get())?)),
        FormNode::Zero(t) => Ok(CForm::Zero(copy_term(alloc, term_at(terms, t).tree.get())?)),
        FormNode::Not(f) => Ok(CForm::Not(form_at(forms, f).tree.share()?)),
        FormNode::And(f, g) => Ok(CForm::And(
            form_at(forms, f).tree.share()?,
            form_at(forms, g).tree.share()?,
        )),
        FormNode::Or(f, g) => Ok(CForm::Or(
            form_at(forms, f).tree.share()?,
            form_at(forms, g).tree.share()?,
        )),
    }
}

fn term_tree(
    _alloc: Global,
    forms: &[FormEntry],
    terms: &[TermEntry],
    node: TermNode,
) -> Result<CTerm, AllocError>
    requires { IsTermWithin (length forms.now) (length terms.now) node }
    ensures { IfOk result (λ t. t ≡ term_of_node (form_trees forms.now) (term_trees terms.now) node) }
{
    match node {
        TermNode::Const(c) => Ok(CTerm::Const(c)),
        TermNode::Slot(n) => Ok(CTerm::Slot(n)),
        TermNode::Param(n) => Ok(CTerm::Param(n)),
        TermNode::Add(a, b) => Ok(CTerm::Add(
            term_at(terms, a).tree.share()?,
            term_at(terms, b).tree.share()?,
        )),
        TermNode::Sub(a, b) => Ok(CTerm::Sub(
            term_at(terms, a).tree.share()?,
            term_at(terms, b).tree.share()?,
        )),
        TermNode::Scale(k, a) => Ok(CTerm::Scale(k, term_at(terms, a).tree.share()?)),
        TermNode::Div(a, k) => Ok(CTerm::Div(term_at(terms, a).tree.share()?, k)),
        TermNode::Mod(a, k) => Ok(CTerm::Mod(term_at(terms, a).tree.share()?, k)),
        TermNode::Ite(c, a, b) => Ok(CTerm::Ite(
            form_at(forms, c).tree.share()?,
            term_at(terms, a).tree.share()?,
            term_at(terms, b).tree.share()?,
        )),
    }
}

fn form_size(forms: &[FormEntry], terms: &[TermEntry], node: FormNode) -> u64
    requires { IsFormWithin (length forms.now) (length terms.now) node }
    ensures { result ≡
        min (form_nodes (form_of_node (form_trees forms.now) (term_trees terms.now) node)) (2 ^ 63) }
{
    match node {
        FormNode::Top => 1,
        FormNode::Bottom => 1,
        FormNode::AtLeast(t) => plus(1, term_at(terms, t).size),
        FormNode::Zero(t) => plus(1, term_at(terms, t).size),
        FormNode::Not(f) => plus(1, form_at(forms, f).size),
        FormNode::And(f, g) => plus(plus(1, form_at(forms, f).size), form_at(forms, g).size),
        FormNode::Or(f, g) => plus(plus(1, form_at(forms, f).size), form_at(forms, g).size),
    }
}

fn term_size(forms: &[FormEntry], terms: &[TermEntry], node: TermNode) -> u64
    requires { IsTermWithin (length forms.now) (length terms.now) node }
    ensures { result ≡
        min (term_nodes (term_of_node (form_trees forms.now) (term_trees terms.now) node)) (2 ^ 63) }
{
    match node {
        TermNode::Const(_) => 1,
        TermNode::Slot(_) => 1,
        TermNode::Param(_) => 1,
        TermNode::Add(a, b) => plus(plus(1, term_at(terms, a).size), term_at(terms, b).size),
        TermNode::Sub(a, b) => plus(plus(1, term_at(terms, a).size), term_at(terms, b).size),
        TermNode::Scale(_, a) => plus(1, term_at(terms, a).size),
        TermNode::Div(a, _) => plus(1, term_at(terms, a).size),
        TermNode::Mod(a, _) => plus(1, term_at(terms, a).size),
        TermNode::Ite(c, a, b) => plus(
            plus(plus(1, form_at(forms, c).size), term_at(terms, a).size),
            term_at(terms, b).size,
        ),
    }
}

fn form_at(forms: &[FormEntry], id: FormId) -> &FormEntry
    requires { id.place < length forms.now }
    ensures tree { result.now.tree ≡ form_or (form_trees forms.now) id.place }
    ensures size { result.now.size ≡ min (form_nodes (form_or (form_trees forms.now) id.place)) (2 ^ 63) }
{
    &forms[id.place]
}

fn term_at(terms: &[TermEntry], id: TermId) -> &TermEntry
    requires { id.place < length terms.now }
    ensures tree { result.now.tree ≡ term_or (term_trees terms.now) id.place }
    ensures size { result.now.size ≡ min (term_nodes (term_or (term_trees terms.now) id.place)) (2 ^ 63) }
{
    &terms[id.place]
}
