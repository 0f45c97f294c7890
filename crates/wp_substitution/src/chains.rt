// The table of written slots: what each holds after the writes.
ghost use Rattle.std.specs.Prelude.{◌≡◌, ℕ, ◌^◌, ◌≤◌, nat_eq, cond, false, All, IfOk, OnOk};
ghost use Rattle.std.specs.Ordering.{nat_cmp};
ghost use Rattle.std.specs.BTreeMap.{get};
ghost use Rattle.core_terms.specs.Folding.{choice_term};
ghost use Rattle.wp_substitution.specs.Preconditions.{slot_after};
ghost use Rattle.wp_substitution.specs.Joined.{IsLightWrite};
ghost use Rattle.wp_substitution.specs.Chains.{chain_at, IsChain, AreChains};

use core_terms::from_unity_base::Shared;
use core_terms::{CTerm, CWrite, choice_known, held_form, held_term, number_of, truth_of};
use std::alloc::{AllocError, Global};
use std::collections::BTreeMap;

/// The term of what a slot holds after some writes, and its number where it names no slot and no parameter.
#[derive(Drop)]
pub struct Chain {
    pub term: Shared<CTerm>,
    pub number: Option<i128>,
}

/// The terms of all slots that the writes name.
pub fn chains(alloc: Global, writes: &[CWrite]) -> Result<BTreeMap<u32, Chain>, AllocError>
    requires { All IsLightWrite writes.now }
    ensures terms { IfOk result (λ chains. (n : ℕ) → chain_at chains n ≡ slot_after writes.now n) }
    ensures known { IfOk result AreChains }
{
    let mut chains = BTreeMap::new(alloc);
    let mut left = writes.len();
    while left > 0 {
        left -= 1;
        put_first(alloc, &mut chains, &writes[left])?;
    }
    Ok(chains)
}

// Puts a write in front of those that the table knows.
fn put_first(alloc: Global, chains: &mut BTreeMap<u32, Chain>, w: &CWrite) -> Result<(), AllocError>
    requires known { AreChains chains.old }
    requires light { IsLightWrite w.now }
    ensures terms { OnOk result ((n : ℕ) → chain_at chains.new n ≡
        cond (nat_eq w.now.slot n) (choice_term w.now.when w.now.value (chain_at chains.old n))
        (chain_at chains.old n)) }
    ensures known { OnOk result (AreChains chains.new) }
{
    let chain = take_chain(alloc, chains, w.slot)?;
    let chain = choice(alloc, w, chain)?;
    chains.insert(w.slot, chain)?;
    Ok(())
}

// What a slot holds after the writes that the table knows, taken out of it.
fn take_chain(
    alloc: Global,
    chains: &mut BTreeMap<u32, Chain>,
    slot: u32,
) -> Result<Chain, AllocError>
    requires { AreChains chains.old }
    ensures term { IfOk result (λ chain. chain.term ≡ chain_at chains.old slot) }
    ensures known { IfOk result IsChain }
    ensures others { (n : ℕ) → nat_eq slot n ≡ false → get nat_cmp chains.new n ≡ get nat_cmp chains.old n }
{
    match chains.remove(&slot) {
        Some(chain) => Ok(chain),
        None => Ok(Chain {
            term: Shared::new(alloc, CTerm::Slot(slot))?,
            number: None,
        }),
    }
}

// The value of a write that is made, or else what the slot holds after the others.
fn choice(alloc: Global, w: &CWrite, rest: Chain) -> Result<Chain, AllocError>
    requires light { IsLightWrite w.now }
    requires known { IsChain rest }
    ensures term { IfOk result (λ chain. chain.term ≡ choice_term w.now.when w.now.value rest.term) }
    ensures known { IfOk result IsChain }
{
    let Chain { term, mut number } = rest;
    let truth = truth_of(&w.when);
    let first = number_of(&w.value);
    let when = held_form(alloc, &w.when)?;
    let value = held_term(alloc, &w.value)?;
    let term = choice_known(alloc, when, truth, value, first, term, &mut number)?;
    Ok(Chain { term, number })
}
