// Values put in the place of slots, one write after the other. A wrong body alone calls this, and no clause says
// what it gives.
use core_terms::{CForm, CTerm, CWrite, copy_form, copy_term, held_form, held_term};
use std::alloc::{AllocError, Global};
use unity_base::Shared;

/// The formula with what each write gives its slot in the place of the slot. Of one write that is what holds before it;
/// of several, a later one replaces also what an earlier one put in.
///
/// An error says that memory was refused.
pub fn one_after_the_other(
    alloc: Global,
    q: &CForm,
    writes: &[CWrite],
) -> Result<CForm, AllocError> {
    let mut before = copy_form(alloc, q)?;
    for w in writes {
        before = put_in_form(alloc, &before, w)?;
    }
    Ok(before)
}

#[cycle(replacing)]
fn put_in_form(alloc: Global, f: &CForm, w: &CWrite) -> Result<CForm, AllocError> {
    match f {
        CForm::Top => Ok(CForm::Top),
        CForm::Bottom => Ok(CForm::Bottom),
        CForm::AtLeast(t) => Ok(CForm::AtLeast(put_in_term(alloc, t, w)?)),
        CForm::Zero(t) => Ok(CForm::Zero(put_in_term(alloc, t, w)?)),
        CForm::Not(g) => {
            let part = Shared::new(alloc, put_in_form(alloc, g.get(), w)?)?;
            Ok(CForm::Not(part))
        }
        CForm::And(g, h) => {
            let first = Shared::new(alloc, put_in_form(alloc, g.get(), w)?)?;
            let second = Shared::new(alloc, put_in_form(alloc, h.get(), w)?)?;
            Ok(CForm::And(first, second))
        }
        CForm::Or(g, h) => {
            let first = Shared::new(alloc, put_in_form(alloc, g.get(), w)?)?;
            let second = Shared::new(alloc, put_in_form(alloc, h.get(), w)?)?;
            Ok(CForm::Or(first, second))
        }
    }
}

#[cycle(replacing)]
fn put_in_term(alloc: Global, t: &CTerm, w: &CWrite) -> Result<CTerm, AllocError> {
    match t {
        CTerm::Slot(n) if *n == w.slot => written(alloc, w),
        CTerm::Add(a, b) => {
            let first = Shared::new(alloc, put_in_term(alloc, a.get(), w)?)?;
            let second = Shared::new(alloc, put_in_term(alloc, b.get(), w)?)?;
            Ok(CTerm::Add(first, second))
        }
        CTerm::Sub(a, b) => {
            let first = Shared::new(alloc, put_in_term(alloc, a.get(), w)?)?;
            let second = Shared::new(alloc, put_in_term(alloc, b.get(), w)?)?;
            Ok(CTerm::Sub(first, second))
        }
        CTerm::Scale(k, a) => {
            let part = Shared::new(alloc, put_in_term(alloc, a.get(), w)?)?;
            Ok(CTerm::Scale(*k, part))
        }
        CTerm::Div(a, k) => {
            let part = Shared::new(alloc, put_in_term(alloc, a.get(), w)?)?;
            Ok(CTerm::Div(part, *k))
        }
        CTerm::Mod(a, k) => {
            let part = Shared::new(alloc, put_in_term(alloc, a.get(), w)?)?;
            Ok(CTerm::Mod(part, *k))
        }
        CTerm::Ite(c, a, b) => {
            let condition = Shared::new(alloc, put_in_form(alloc, c.get(), w)?)?;
            let first = Shared::new(alloc, put_in_term(alloc, a.get(), w)?)?;
            let second = Shared::new(alloc, put_in_term(alloc, b.get(), w)?)?;
            Ok(CTerm::Ite(condition, first, second))
        }
        t => copy_term(alloc, t),
    }
}

// The value where the condition holds, and else the slot.
fn written(alloc: Global, w: &CWrite) -> Result<CTerm, AllocError> {
    let when = held_form(alloc, &w.when)?;
    let value = held_term(alloc, &w.value)?;
    let slot = Shared::new(alloc, CTerm::Slot(w.slot))?;
    Ok(CTerm::Ite(when, value, slot))
}
