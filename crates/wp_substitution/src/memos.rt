// What a call remembers of the nodes of a pool, whose slots it replaces.
ghost use Rattle.std.specs.Prelude.{◌≡◌, ◌<◌, ◌≤◌, length, slice_set, All, None, Some, IfOk, IfErr, MatchOption};
ghost use Rattle.std.specs.Int.RustNames.{unsigned_abs};
ghost use Rattle.core_terms.specs.Pools.{form_or, term_or};
ghost use Rattle.wp_substitution.specs.Chains.{AreChains, form_by, term_by, after_weights};
ghost use Rattle.wp_substitution.specs.Numbers.{IsBounded};
ghost use Rattle.wp_substitution.specs.Memos.{known_at, IsNewMemo, IsFormKnown, IsTermKnown, Remembers, IsFormPart};
ghost use Rattle.wp_substitution.specs.Memos.{IsTermPart, IsPart};

use crate::chains::Chain;
use core_terms::from_unity_base::Seq;
use core_terms::{FormId, Mark, Pool, TermId};
use std::alloc::{AllocError, Global};
use std::collections::BTreeMap;

/// The number of a formula, and its truth where it names no slot and no parameter.
#[derive(Clone, Copy)]
pub struct FormKnown {
    pub id: FormId,
    pub truth: Option<bool>,
}

/// The number of a term, and what it is worth where it names no slot and no parameter.
#[derive(Clone, Copy)]
pub struct TermKnown {
    pub id: TermId,
    pub number: Option<i128>,
}

/// A formula or a term of a pool.
#[derive(Clone, Copy)]
pub enum Part {
    Form(FormId),
    Term(TermId),
}

/// What each formula and each term that a pool held at a moment becomes where its slots are replaced, as far as that
/// is known.
#[derive(Drop)]
pub struct Memo {
    pub mark: Mark,
    pub forms: Seq<Option<FormKnown>>,
    pub terms: Seq<Option<TermKnown>>,
}

impl Memo {
    /// Of what the pool holds now; nothing is known yet.
    pub fn new(alloc: Global, pool: &Pool) -> Result<Memo, AllocError>
        ensures known { IfOk result (IsNewMemo pool.now) }
        ensures forms { IfOk result (λ memo. memo.mark.forms ≡ length pool.now.forms) }
    {
        let mark = pool.mark();
        let forms = unknown_forms(alloc, mark.form_count())?;
        let terms = unknown_terms(alloc, mark.term_count())?;
        Ok(Memo { mark, forms, terms })
    }

    /// What is known of a formula. The error is the formula, where nothing is known.
    pub fn form(
        &self,
        pool: &Pool,
        chains: &BTreeMap<u32, Chain>,
        id: FormId,
    ) -> Result<FormKnown, Part>
        requires known { Remembers chains.now pool.now self.now }
        requires part { IsFormPart pool.now self.now.mark id.place }
        ensures known { IfOk result (IsFormKnown pool.now (form_by chains.now (form_or pool.now.forms id.place))) }
        ensures missing { IfErr result (IsPart pool.now self.now.mark) }
    {
        match form_at(&self.forms, id.index()) {
            Some(known) => Ok(known),
            None => Err(Part::Form(id)),
        }
    }

    /// What is known of a term. The error is the term, where nothing is known.
    pub fn term(
        &self,
        pool: &Pool,
        chains: &BTreeMap<u32, Chain>,
        id: TermId,
    ) -> Result<TermKnown, Part>
        requires known { Remembers chains.now pool.now self.now }
        requires chains { AreChains chains.now }
        requires part { IsTermPart pool.now self.now.mark id.place }
        ensures known { IfOk result (IsTermKnown pool.now (term_by chains.now (term_or pool.now.terms id.place))) }
        ensures weight { IfOk result (λ k. MatchOption k.number (Unit {0})
            (λ z. unsigned_abs z ≤ (after_weights (term_or pool.now.terms id.place)).own)) }
        ensures bounded { IfOk result (λ k. IsBounded k.number) }
        ensures missing { IfErr result (IsPart pool.now self.now.mark) }
    {
        match term_at(&self.terms, id.index()) {
            Some(known) => Ok(known),
            None => Err(Part::Term(id)),
        }
    }

    /// Remembers what a formula becomes.
    pub fn set_form(
        &mut self,
        pool: &Pool,
        chains: &BTreeMap<u32, Chain>,
        id: FormId,
        known: FormKnown,
    )
        requires known { Remembers chains.now pool.now self.old }
        requires place { id.place < self.old.mark.forms }
        requires form { IsFormKnown pool.now (form_by chains.now (form_or pool.now.forms id.place)) known }
        ensures known { Remembers chains.now pool.now self.new }
        ensures mark { self.new.mark ≡ self.old.mark }
    {
        self.forms.replace(id.index(), Some(known));
    }

    /// Remembers what a term becomes.
    pub fn set_term(
        &mut self,
        pool: &Pool,
        chains: &BTreeMap<u32, Chain>,
        id: TermId,
        known: TermKnown,
    )
        requires known { Remembers chains.now pool.now self.old }
        requires place { id.place < self.old.mark.terms }
        requires term { IsTermKnown pool.now (term_by chains.now (term_or pool.now.terms id.place)) known }
        ensures known { Remembers chains.now pool.now self.new }
        ensures mark { self.new.mark ≡ self.old.mark }
    {
        self.terms.replace(id.index(), Some(known));
    }
}

// So many formulas of which nothing is known.
fn unknown_forms(alloc: Global, count: usize) -> Result<Seq<Option<FormKnown>>, AllocError>
    ensures count { IfOk result (λ forms. length forms ≡ count) }
    ensures unknown { IfOk result (All (λ k. k ≡ None)) }
{
    let mut forms = Seq::new(alloc);
    let mut left = count;
    while left > 0 {
        left -= 1;
        forms.push(None)?;
    }
    Ok(forms)
}

// So many terms of which nothing is known.
fn unknown_terms(alloc: Global, count: usize) -> Result<Seq<Option<TermKnown>>, AllocError>
    ensures count { IfOk result (λ terms. length terms ≡ count) }
    ensures unknown { IfOk result (All (λ k. k ≡ None)) }
{
    let mut terms = Seq::new(alloc);
    let mut left = count;
    while left > 0 {
        left -= 1;
        terms.push(None)?;
    }
    Ok(terms)
}

// What is known of the formula at a place.
#[tactic(auto, using(crate::proofs::MemoLaws::known_read))]
fn form_at(forms: &Seq<Option<FormKnown>>, place: usize) -> Option<FormKnown>
    ensures { result ≡ known_at forms.now place }
{
    match forms.get(place) {
        Some(known) => *known,
        None => None,
    }
}

// What is known of the term at a place.
#[tactic(auto, using(crate::proofs::MemoLaws::known_read))]
fn term_at(terms: &Seq<Option<TermKnown>>, place: usize) -> Option<TermKnown>
    ensures { result ≡ known_at terms.now place }
{
    match terms.get(place) {
        Some(known) => *known,
        None => None,
    }
}
