// A term's first `Ite`. Each kind of node has a function of its own, which leaves what it finds in the place of its
// caller: so the frames are small, and a deep term is gone through within a small stack.
ghost use Rattle.std.specs.Prelude.{◌≡◌, IfOk, OnOk, Some, None};
ghost use Rattle.std.specs.Option.{option_map};
ghost use Rattle.core_terms.specs.declared.trees.CTerm.TheVariants.{Scale};
ghost use Rattle.obligations.specs.Settling.{within, first_ite};
ghost use Rattle.core_terms.specs.Senses.{pair_node, divided_node};

use crate::branches::Choice;
use crate::pairing::{divided_term, pair_term};
use core_terms::from_unity_base::{Held, Shared};
use core_terms::{CForm, CTerm, Dividing, Pairing};
use std::alloc::{AllocError, Global};
use std::mem;

/// The choice at an `Ite`.
#[inline(never)]
fn put_choice(
    alloc: Global,
    c: &Shared<CForm>,
    a: &Shared<CTerm>,
    b: &Shared<CTerm>,
    found: &mut Option<Held<Choice>>,
) -> Result<(), AllocError>
    ensures { OnOk result (found.new ≡ Some (record { when = c.now; yes = a.now; no = b.now })) }
{
    let choice = Choice {
        when: c.share()?,
        yes: a.share()?,
        no: b.share()?,
    };
    *found = Some(Held::new(alloc, choice)?);
    Ok(())
}

/// Leaves a choice between two terms.
#[inline(never)]
fn put_parts(
    alloc: Global,
    when: Shared<CForm>,
    yes: CTerm,
    no: CTerm,
    found: &mut Option<Held<Choice>>,
) -> Result<(), AllocError>
    ensures { OnOk result (found.new ≡ Some (record { when = when; yes = yes; no = no })) }
{
    let yes = Shared::new(alloc, yes)?;
    let no = Shared::new(alloc, no)?;
    *found = Some(Held::new(alloc, Choice { when, yes, no })?);
    Ok(())
}

/// What was found is in the first part of a sum or a difference.
#[inline(never)]
fn put_in_first(
    alloc: Global,
    which: Pairing,
    b: &Shared<CTerm>,
    found: &mut Option<Held<Choice>>,
) -> Result<(), AllocError>
    ensures { OnOk result (found.new ≡ option_map (within (λ x. pair_node which x b.now)) found.old) }
{
    match mem::replace(found, None) {
        Some(choice) => {
            let Choice { when, yes, no } = choice.into_inner();
            let yes = pair_term(which, yes, b.share()?);
            let no = pair_term(which, no, b.share()?);
            put_parts(alloc, when, yes, no, found)
        }
        None => Ok(()),
    }
}

/// What was found is in the second part of a sum or a difference.
#[inline(never)]
fn put_in_second(
    alloc: Global,
    which: Pairing,
    a: &Shared<CTerm>,
    found: &mut Option<Held<Choice>>,
) -> Result<(), AllocError>
    ensures { OnOk result (found.new ≡ option_map (within (λ x. pair_node which a.now x)) found.old) }
{
    match mem::replace(found, None) {
        Some(choice) => {
            let Choice { when, yes, no } = choice.into_inner();
            let yes = pair_term(which, a.share()?, yes);
            let no = pair_term(which, a.share()?, no);
            put_parts(alloc, when, yes, no, found)
        }
        None => Ok(()),
    }
}

/// What was found is in a multiple.
#[inline(never)]
fn put_in_multiple(
    alloc: Global,
    k: i64,
    found: &mut Option<Held<Choice>>,
) -> Result<(), AllocError>
    ensures { OnOk result (found.new ≡ option_map (within (λ x. Scale k x)) found.old) }
{
    match mem::replace(found, None) {
        Some(choice) => {
            let Choice { when, yes, no } = choice.into_inner();
            put_parts(
                alloc,
                when,
                CTerm::Scale(k, yes),
                CTerm::Scale(k, no),
                found,
            )
        }
        None => Ok(()),
    }
}

/// What was found is in what is divided.
#[inline(never)]
fn put_in_divided(
    alloc: Global,
    which: Dividing,
    k: i64,
    found: &mut Option<Held<Choice>>,
) -> Result<(), AllocError>
    ensures { OnOk result (found.new ≡ option_map (within (λ x. divided_node which x k)) found.old) }
{
    match mem::replace(found, None) {
        Some(choice) => {
            let Choice { when, yes, no } = choice.into_inner();
            let yes = divided_term(which, yes, k);
            let no = divided_term(which, no, k);
            put_parts(alloc, when, yes, no, found)
        }
        None => Ok(()),
    }
}

/// A term's first `Ite` in reading order, one before those inside it. `None` where it has none.
pub fn find_choice(alloc: Global, t: &CTerm) -> Result<Option<Held<Choice>>, AllocError>
    ensures { IfOk result (λ o. o ≡ first_ite t.now) }
{
    let mut found = None;
    look(alloc, t, &mut found)?;
    Ok(found)
}

/// Looks for a term's first `Ite`.
#[cycle(choices)]
fn look(alloc: Global, t: &CTerm, found: &mut Option<Held<Choice>>) -> Result<(), AllocError>
    requires none { found.old ≡ None }
    ensures { OnOk result (found.new ≡ first_ite t.now) }
{
    match t {
        CTerm::Const(_) => Ok(()),
        CTerm::Slot(_) => Ok(()),
        CTerm::Param(_) => Ok(()),
        CTerm::Add(a, b) => look_in_pair(alloc, Pairing::Sum, a, b, found),
        CTerm::Sub(a, b) => look_in_pair(alloc, Pairing::Difference, a, b, found),
        CTerm::Scale(k, a) => look_in_multiple(alloc, *k, a, found),
        CTerm::Div(a, k) => look_in_divided(alloc, Dividing::Quotient, a, *k, found),
        CTerm::Mod(a, k) => look_in_divided(alloc, Dividing::Remainder, a, *k, found),
        CTerm::Ite(c, a, b) => put_choice(alloc, c, a, b, found),
    }
}

/// Looks in the first part of a sum or a difference, and then in the second.
#[cycle(choices)]
#[inline(never)]
fn look_in_pair(
    alloc: Global,
    which: Pairing,
    a: &Shared<CTerm>,
    b: &Shared<CTerm>,
    found: &mut Option<Held<Choice>>,
) -> Result<(), AllocError>
    requires none { found.old ≡ None }
    ensures { OnOk result (found.new ≡ first_ite (pair_node which a.now b.now)) }
{
    match look(alloc, a.get(), found) {
        Ok(()) => look_on(alloc, which, a, b, found),
        Err(error) => Err(error),
    }
}

/// Looks in the second part of a sum or a difference where the first has none.
#[cycle(choices)]
#[inline(never)]
fn look_on(
    alloc: Global,
    which: Pairing,
    a: &Shared<CTerm>,
    b: &Shared<CTerm>,
    found: &mut Option<Held<Choice>>,
) -> Result<(), AllocError>
    requires first { found.old ≡ first_ite a.now }
    ensures { OnOk result (found.new ≡ first_ite (pair_node which a.now b.now)) }
{
    if found.is_some() {
        return put_in_first(alloc, which, b, found);
    }
    match look(alloc, b.get(), found) {
        Ok(()) => put_in_second(alloc, which, a, found),
        Err(error) => Err(error),
    }
}

#[cycle(choices)]
#[inline(never)]
fn look_in_multiple(
    alloc: Global,
    k: i64,
    a: &Shared<CTerm>,
    found: &mut Option<Held<Choice>>,
) -> Result<(), AllocError>
    requires none { found.old ≡ None }
    ensures { OnOk result (found.new ≡ first_ite (Scale k a.now)) }
{
    match look(alloc, a.get(), found) {
        Ok(()) => put_in_multiple(alloc, k, found),
        Err(error) => Err(error),
    }
}

#[cycle(choices)]
#[inline(never)]
fn look_in_divided(
    alloc: Global,
    which: Dividing,
    a: &Shared<CTerm>,
    k: i64,
    found: &mut Option<Held<Choice>>,
) -> Result<(), AllocError>
    requires none { found.old ≡ None }
    ensures { OnOk result (found.new ≡ first_ite (divided_node which a.now k)) }
{
    match look(alloc, a.get(), found) {
        Ok(()) => put_in_divided(alloc, which, k, found),
        Err(error) => Err(error),
    }
}
