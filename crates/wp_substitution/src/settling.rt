// What a formula of a pool becomes where its slots are replaced: node by node, what each becomes worked out once and
// remembered under its number. A node that stays as it is keeps its number. The parts that are to be looked at first
// stand in a list, so that a deep formula takes no deep stack.
ghost use Rattle.std.specs.Prelude.{◌≡◌, All, IfOk, OnOk, MatchOption};
ghost use Rattle.core_terms.specs.Pools.{form_or, Grows};
ghost use Rattle.core_terms.specs.Marks.{KeepsMarks};
ghost use Rattle.wp_substitution.specs.Chains.{AreChains, form_by};
ghost use Rattle.wp_substitution.specs.Memos.{IsFormKnown, Remembers, IsFormPart, IsPart};

use crate::chains::Chain;
use crate::memos::{FormKnown, Memo, Part, TermKnown};
use crate::nodes::{put_form_turn, put_term_turn};
use crate::turning::{form_turn, term_turn};
use core_terms::from_unity_base::Seq;
use core_terms::{FormId, Pool};
use std::alloc::{AllocError, Global};
use std::collections::BTreeMap;

/// What a formula of the pool becomes where its slots are replaced by what the table says of them, all at once.
///
/// An error says that memory was refused. All that the pool held stays, whatever is answered.
#[tactic(auto, using(core_terms::proofs::PoolLaws::grown))]
pub fn form_settled(
    alloc: Global,
    pool: &mut Pool,
    memo: &mut Memo,
    chains: &BTreeMap<u32, Chain>,
    id: FormId,
) -> Result<FormKnown, AllocError>
    requires known { Remembers chains.now pool.old memo.old }
    requires chains { AreChains chains.now }
    requires part { IsFormPart pool.old memo.old.mark id.place }
    ensures known { IfOk result (IsFormKnown pool.new (form_by chains.now (form_or pool.old.forms id.place))) }
    ensures kept { Grows pool.old pool.new }
    ensures marks { KeepsMarks pool.old pool.new }
{
    let mut todo = Seq::new(alloc);
    for _ in 0..u64::MAX {
        match memo.form(pool, chains, id) {
            Ok(known) => return Ok(known),
            Err(missing) => go_on(pool, memo, chains, &mut todo, missing)?,
        }
    }
    Err(AllocError)
}

// Looks at the last part of the list, or at the other part, where there is none: settles it, or else puts the first of
// its parts that is not settled behind it.
fn go_on(
    pool: &mut Pool,
    memo: &mut Memo,
    chains: &BTreeMap<u32, Chain>,
    todo: &mut Seq<Part>,
    other: Part,
) -> Result<(), AllocError>
    requires known { Remembers chains.now pool.old memo.old }
    requires chains { AreChains chains.now }
    requires todo { All (IsPart pool.old memo.old.mark) todo.old }
    requires other { IsPart pool.old memo.old.mark other }
    ensures todo { OnOk result (All (IsPart pool.new memo.new.mark) todo.new) }
    ensures known { Remembers chains.now pool.new memo.new }
    ensures mark { memo.new.mark ≡ memo.old.mark }
    ensures kept { Grows pool.old pool.new }
    ensures marks { KeepsMarks pool.old pool.new }
{
    let next = next_part(pool, memo, todo, other);
    let first = settle(pool, memo, chains, next)?;
    add_parts(pool, memo, todo, next, first)
}

// The last part of the list, taken out; the other part, where there is none.
fn next_part(pool: &Pool, memo: &Memo, todo: &mut Seq<Part>, other: Part) -> Part
    requires todo { All (IsPart pool.now memo.now.mark) todo.old }
    requires other { IsPart pool.now memo.now.mark other }
    ensures todo { All (IsPart pool.now memo.now.mark) todo.new }
    ensures next { IsPart pool.now memo.now.mark result }
{
    match todo.pop() {
        Some(next) => next,
        None => other,
    }
}

// Puts a part, and the first of its parts that is not settled, behind the list; nothing, where there is no such part.
fn add_parts(
    pool: &Pool,
    memo: &Memo,
    todo: &mut Seq<Part>,
    next: Part,
    first: Option<Part>,
) -> Result<(), AllocError>
    requires todo { All (IsPart pool.now memo.now.mark) todo.old }
    requires next { IsPart pool.now memo.now.mark next }
    requires first { MatchOption first (Unit {0}) (IsPart pool.now memo.now.mark) }
    ensures { OnOk result (All (IsPart pool.now memo.now.mark) todo.new) }
{
    match first {
        Some(first) => push_both(pool, memo, todo, next, first),
        None => Ok(()),
    }
}

fn push_both(
    pool: &Pool,
    memo: &Memo,
    todo: &mut Seq<Part>,
    next: Part,
    first: Part,
) -> Result<(), AllocError>
    requires todo { All (IsPart pool.now memo.now.mark) todo.old }
    requires next { IsPart pool.now memo.now.mark next }
    requires first { IsPart pool.now memo.now.mark first }
    ensures { OnOk result (All (IsPart pool.now memo.now.mark) todo.new) }
{
    todo.push(next)?;
    todo.push(first)
}

// Settles a part, once its own parts are settled; the answer is else the first of these that is not.
#[tactic(auto, using(core_terms::proofs::PoolLaws::grown))]
fn settle(
    pool: &mut Pool,
    memo: &mut Memo,
    chains: &BTreeMap<u32, Chain>,
    part: Part,
) -> Result<Option<Part>, AllocError>
    requires known { Remembers chains.now pool.old memo.old }
    requires chains { AreChains chains.now }
    requires part { IsPart pool.old memo.old.mark part }
    ensures first { IfOk result (λ first. MatchOption first (Unit {0}) (IsPart pool.new memo.new.mark)) }
    ensures known { Remembers chains.now pool.new memo.new }
    ensures mark { memo.new.mark ≡ memo.old.mark }
    ensures kept { Grows pool.old pool.new }
    ensures marks { KeepsMarks pool.old pool.new }
{
    match part {
        Part::Form(id) => match form_turn(pool, memo, chains, id) {
            Ok(turn) => {
                let form = put_form_turn(pool, chains, id, turn)?;
                memo.set_form(pool, chains, id, form);
                Ok(None)
            }
            Err(first) => Ok(Some(first)),
        },
        Part::Term(id) => match term_turn(pool, memo, chains, id) {
            Ok(turn) => {
                let term = put_term_turn(pool, chains, id, turn)?;
                memo.set_term(pool, chains, id, term);
                Ok(None)
            }
            Err(first) => Ok(Some(first)),
        },
    }
}
