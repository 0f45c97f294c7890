// A term's first quotient. Each kind of node has a function of its own, which leaves what it finds in the place of its
// caller: so the frames are small, and a deep term is gone through within a small stack.
ghost use Rattle.std.specs.Prelude.{◌≡◌, IfOk, OnOk, Some, None};
ghost use Rattle.std.specs.Option.{option_map};
ghost use Rattle.core_terms.specs.declared.trees.CTerm.TheVariants.{Scale};
ghost use Rattle.core_terms.specs.from_meaning_states.Division as division;
ghost use Rattle.obligations.specs.Settling.{has_quotient, taken_within, first_taken, or_whole, by_quotient};
ghost use Rattle.core_terms.specs.Senses.{pair_node, divided_node};

use crate::branches::Taken;
use crate::pairing::{divided_term, pair_term};
use core_terms::from_unity_base::{Held, Shared};
use core_terms::{CTerm, Dividing, Pairing};
use std::alloc::{AllocError, Global};
use std::mem;

/// Whether a term has a quotient outside of its `Ite`s.
pub fn has_quotient(t: &CTerm) -> bool
    ensures { result ≡ has_quotient t.now }
{
    match t {
        CTerm::Const(_) => false,
        CTerm::Slot(_) => false,
        CTerm::Param(_) => false,
        CTerm::Add(a, b) => has_quotient(a.get()) || has_quotient(b.get()),
        CTerm::Sub(a, b) => has_quotient(a.get()) || has_quotient(b.get()),
        CTerm::Scale(_, a) => has_quotient(a.get()),
        CTerm::Div(..) => true,
        CTerm::Mod(..) => true,
        CTerm::Ite(..) => false,
    }
}

/// A divisor: 1 where the number is less.
fn divisor_of(k: i64) -> i64
    ensures { result ≡ division.divisor k }
{
    if 1 <= k { k } else { 1 }
}

/// What was found is in the second part of a sum or a difference.
#[inline(never)]
fn put_in_second(
    alloc: Global,
    which: Pairing,
    a: &Shared<CTerm>,
    found: &mut Option<Held<Taken>>,
) -> Result<(), AllocError>
    ensures { OnOk result (found.new ≡ option_map (taken_within (λ x. pair_node which a.now x)) found.old) }
{
    match mem::replace(found, None) {
        Some(taken) => {
            let Taken { of, divisor, rest } = taken.into_inner();
            let whole = pair_term(which, a.share()?, rest);
            put_rest(alloc, of, divisor, whole, found)
        }
        None => Ok(()),
    }
}

/// What was found is in the first part of a sum or a difference.
#[inline(never)]
fn put_in_first(
    alloc: Global,
    which: Pairing,
    b: &Shared<CTerm>,
    found: &mut Option<Held<Taken>>,
) -> Result<(), AllocError>
    ensures { OnOk result (found.new ≡ option_map (taken_within (λ x. pair_node which x b.now)) found.old) }
{
    match mem::replace(found, None) {
        Some(taken) => {
            let Taken { of, divisor, rest } = taken.into_inner();
            let whole = pair_term(which, rest, b.share()?);
            put_rest(alloc, of, divisor, whole, found)
        }
        None => Ok(()),
    }
}

/// What was found is in a multiple.
#[inline(never)]
fn put_in_multiple(alloc: Global, k: i64, found: &mut Option<Held<Taken>>) -> Result<(), AllocError>
    ensures { OnOk result (found.new ≡ option_map (taken_within (λ x. Scale k x)) found.old) }
{
    match mem::replace(found, None) {
        Some(taken) => {
            let Taken { of, divisor, rest } = taken.into_inner();
            put_rest(alloc, of, divisor, CTerm::Scale(k, rest), found)
        }
        None => Ok(()),
    }
}

/// What was found is in what is divided; else the quotient or the remainder is the whole term, and the parameter stands
/// for the quotient.
#[inline(never)]
fn put_in_divided(
    alloc: Global,
    v: u32,
    which: Dividing,
    a: &Shared<CTerm>,
    k: i64,
    found: &mut Option<Held<Taken>>,
) -> Result<(), AllocError>
    ensures { OnOk result (found.new ≡ or_whole (λ x. divided_node which x k) found.old
        (record { of = a.now; divisor = division.divisor k; rest = by_quotient which v a.now k })) }
{
    match mem::replace(found, None) {
        Some(taken) => {
            let Taken { of, divisor, rest } = taken.into_inner();
            put_rest(alloc, of, divisor, divided_term(which, rest, k), found)
        }
        None => put_rest(
            alloc,
            a.share()?,
            divisor_of(k),
            by_quotient(alloc, which, v, a, k)?,
            found,
        ),
    }
}

/// A quotient or a remainder where a parameter stands for the quotient: a remainder is what is divided less the divisor
/// times the parameter.
fn by_quotient(
    alloc: Global,
    which: Dividing,
    v: u32,
    a: &Shared<CTerm>,
    k: i64,
) -> Result<CTerm, AllocError>
    ensures { IfOk result (λ t. t ≡ by_quotient which v a.now k) }
{
    let quotient = CTerm::Param(v);
    match which {
        Dividing::Quotient => Ok(quotient),
        Dividing::Remainder => {
            let quotient = Shared::new(alloc, quotient)?;
            let multiple = Shared::new(alloc, CTerm::Scale(divisor_of(k), quotient))?;
            Ok(CTerm::Sub(a.share()?, multiple))
        }
    }
}

/// Leaves a quotient with what it makes of a greater term.
#[inline(never)]
fn put_rest(
    alloc: Global,
    of: Shared<CTerm>,
    divisor: i64,
    rest: CTerm,
    found: &mut Option<Held<Taken>>,
) -> Result<(), AllocError>
    ensures { OnOk result (found.new ≡ Some (record { of = of; divisor = divisor; rest = rest })) }
{
    let rest = Shared::new(alloc, rest)?;
    *found = Some(Held::new(alloc, Taken { of, divisor, rest })?);
    Ok(())
}

/// A term's first quotient outside of its `Ite`s, operands before their operator, with the parameter of this number
/// in its place. `None` where it has none.
pub fn find_quotient(alloc: Global, v: u32, t: &CTerm) -> Result<Option<Held<Taken>>, AllocError>
    ensures { IfOk result (λ o. o ≡ first_taken v t.now) }
{
    let mut found = None;
    look(alloc, v, t, &mut found)?;
    Ok(found)
}

/// Looks for a term's first quotient.
#[cycle(quotients)]
fn look(alloc: Global, v: u32, t: &CTerm, found: &mut Option<Held<Taken>>) -> Result<(), AllocError>
    requires none { found.old ≡ None }
    ensures { OnOk result (found.new ≡ first_taken v t.now) }
{
    match t {
        CTerm::Const(_) => Ok(()),
        CTerm::Slot(_) => Ok(()),
        CTerm::Param(_) => Ok(()),
        CTerm::Add(a, b) => look_in_pair(alloc, v, Pairing::Sum, a, b, found),
        CTerm::Sub(a, b) => look_in_pair(alloc, v, Pairing::Difference, a, b, found),
        CTerm::Scale(k, a) => look_in_multiple(alloc, v, *k, a, found),
        CTerm::Div(a, k) => look_in_divided(alloc, v, Dividing::Quotient, a, *k, found),
        CTerm::Mod(a, k) => look_in_divided(alloc, v, Dividing::Remainder, a, *k, found),
        CTerm::Ite(..) => Ok(()),
    }
}

/// Looks in the first part of a sum or a difference, and then in the second.
#[cycle(quotients)]
#[inline(never)]
fn look_in_pair(
    alloc: Global,
    v: u32,
    which: Pairing,
    a: &Shared<CTerm>,
    b: &Shared<CTerm>,
    found: &mut Option<Held<Taken>>,
) -> Result<(), AllocError>
    requires none { found.old ≡ None }
    ensures { OnOk result (found.new ≡ first_taken v (pair_node which a.now b.now)) }
{
    match look(alloc, v, a.get(), found) {
        Ok(()) => look_on(alloc, v, which, a, b, found),
        Err(error) => Err(error),
    }
}

/// Looks in the second part of a sum or a difference where the first has none.
#[cycle(quotients)]
#[inline(never)]
fn look_on(
    alloc: Global,
    v: u32,
    which: Pairing,
    a: &Shared<CTerm>,
    b: &Shared<CTerm>,
    found: &mut Option<Held<Taken>>,
) -> Result<(), AllocError>
    requires first { found.old ≡ first_taken v a.now }
    ensures { OnOk result (found.new ≡ first_taken v (pair_node which a.now b.now)) }
{
    if found.is_some() {
        return put_in_first(alloc, which, b, found);
    }
    match look(alloc, v, b.get(), found) {
        Ok(()) => put_in_second(alloc, which, a, found),
        Err(error) => Err(error),
    }
}

#[cycle(quotients)]
#[inline(never)]
fn look_in_multiple(
    alloc: Global,
    v: u32,
    k: i64,
    a: &Shared<CTerm>,
    found: &mut Option<Held<Taken>>,
) -> Result<(), AllocError>
    requires none { found.old ≡ None }
    ensures { OnOk result (found.new ≡ first_taken v (Scale k a.now)) }
{
    match look(alloc, v, a.get(), found) {
        Ok(()) => put_in_multiple(alloc, k, found),
        Err(error) => Err(error),
    }
}

#[cycle(quotients)]
#[inline(never)]
fn look_in_divided(
    alloc: Global,
    v: u32,
    which: Dividing,
    a: &Shared<CTerm>,
    k: i64,
    found: &mut Option<Held<Taken>>,
) -> Result<(), AllocError>
    requires none { found.old ≡ None }
    ensures { OnOk result (found.new ≡ first_taken v (divided_node which a.now k)) }
{
    match look(alloc, v, a.get(), found) {
        Ok(()) => put_in_divided(alloc, v, which, a, k, found),
        Err(error) => Err(error),
    }
}
