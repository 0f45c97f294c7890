// Equal trees, which share their parts.
ghost use Rattle.std.specs.Prelude.{◌≡◌, IfOk};

use crate::trees::{CForm, CTerm};
use std::alloc::{AllocError, Global};
use unity_base::Shared;

/// An equal term, which shares its parts with the first.
pub fn copy_term(_alloc: Global, t: &CTerm) -> Result<CTerm, AllocError>
    ensures { IfOk result (λ u. u ≡ t.now) }
{
    match t {
        CTerm::Const(c) => Ok(CTerm::Const(*c)),
        CTerm::Slot(n) => Ok(CTerm::Slot(*n)),
        CTerm::Param(n) => Ok(CTerm::Param(*n)),
        CTerm::Add(a, b) => Ok(CTerm::Add(a.share()?, b.share()?)),
        CTerm::Sub(a, b) => Ok(CTerm::Sub(a.share()?, b.share()?)),
        CTerm::Scale(k, a) => Ok(CTerm::Scale(*k, a.share()?)),
        CTerm::Div(a, k) => Ok(CTerm::Div(a.share()?, *k)),
        CTerm::Mod(a, k) => Ok(CTerm::Mod(a.share()?, *k)),
        CTerm::Ite(c, a, b) => Ok(CTerm::Ite(c.share()?, a.share()?, b.share()?)),
    }
}

/// An equal formula, which shares its parts with the first.
pub fn copy_form(_alloc: Global, f: &CForm) -> Result<CForm, AllocError>
    ensures { IfOk result (λ g. g ≡ f.now) }
{
    match f {
        CForm::Top => Ok(CForm::Top),
        CForm::Bottom => Ok(CForm::Bottom),
        CForm::AtLeast(t) => Ok(CForm::AtLeast(copy_term(_alloc, t)?)),
        CForm::Zero(t) => Ok(CForm::Zero(copy_term(_alloc, t)?)),
        CForm::Not(g) => Ok(CForm::Not(g.share()?)),
        CForm::And(g, h) => Ok(CForm::And(g.share()?, h.share()?)),
        CForm::Or(g, h) => Ok(CForm::Or(g.share()?, h.share()?)),
    }
}

/// The term of a box: taken out, or, where there are other owners, a shallow copy.
pub fn owned_term(alloc: Global, part: Shared<CTerm>) -> Result<CTerm, AllocError>
    ensures { IfOk result (λ t. t ≡ part) }
{
    match part.try_into_inner() {
        Ok(t) => Ok(t),
        Err(part) => copy_term(alloc, part.get()),
    }
}

/// The formula of a box: taken out, or, where there are other owners, a shallow copy.
pub fn owned_form(alloc: Global, part: Shared<CForm>) -> Result<CForm, AllocError>
    ensures { IfOk result (λ f. f ≡ part) }
{
    match part.try_into_inner() {
        Ok(f) => Ok(f),
        Err(part) => copy_form(alloc, part.get()),
    }
}

/// An equal formula in a place of its own.
pub fn held_form(alloc: Global, f: &CForm) -> Result<Shared<CForm>, AllocError>
    ensures { IfOk result (λ g. g ≡ f.now) }
{
    Shared::new(alloc, copy_form(alloc, f)?)
}

/// An equal term in a place of its own.
pub fn held_term(alloc: Global, t: &CTerm) -> Result<Shared<CTerm>, AllocError>
    ensures { IfOk result (λ u. u ≡ t.now) }
{
    Shared::new(alloc, copy_term(alloc, t)?)
}
