// Ranges, terms and formulas.
ghost use Rattle.std.specs.Prelude.{◌≡◌, ◌≤◌, IfErr, IfOk, IfSome, max};
ghost use Rattle.core_terms.specs.declared.trees.CTerm.{size-CTerm};
ghost use Rattle.core_terms.specs.declared.trees.CForm.{size-CForm};

use crate::measures::{size_within, term_within};
use unity_base::Shared;

/// The whole numbers from `lo` to `hi`, both ends included.
#[derive(Clone, Copy, Debug, PartialEq, Eq)]
pub struct Range {
    pub lo: i64,
    pub hi: i64,
}

/// A number that depends on a state and on the numbers of parameters.
#[cycle(core)]
pub enum CTerm {
    /// The number itself.
    Const(i64),
    /// What the state gives the slot of this number.
    Slot(u32),
    /// What the parameter of this number is.
    Param(u32),
    /// The sum of two terms.
    Add(Shared<CTerm>, Shared<CTerm>),
    /// The first term less the second.
    Sub(Shared<CTerm>, Shared<CTerm>),
    /// So many times the term.
    Scale(i64, Shared<CTerm>),
    /// The term divided by the number, rounded down; the division is by 1 where the number is less.
    Div(Shared<CTerm>, i64),
    /// What that division leaves of the term.
    Mod(Shared<CTerm>, i64),
    /// The first term where the formula holds, and the second elsewhere.
    Ite(Shared<CForm>, Shared<CTerm>, Shared<CTerm>),
}

/// A formula, which holds or does not hold at a state and numbers of parameters.
#[cycle(core)]
pub enum CForm {
    /// It holds.
    Top,
    /// It does not hold.
    Bottom,
    /// The term is at least 0.
    AtLeast(CTerm),
    /// The term is 0.
    Zero(CTerm),
    /// The formula does not hold.
    Not(Shared<CForm>),
    /// Both formulas hold.
    And(Shared<CForm>, Shared<CForm>),
    /// One of the formulas holds, or both do.
    Or(Shared<CForm>, Shared<CForm>),
}

// Parts of so many nodes are dropped first, since no deep stack is needed for them.
const FEW: u64 = 8;

// A drop goes down the larger part of a node in a loop and calls itself for the others. It stops at a part that has
// another owner.
impl Drop for CTerm {
    #[cycle(drops)]
    fn drop(mut self) {
        loop {
            let next = match self {
                CTerm::Const(_) | CTerm::Slot(_) | CTerm::Param(_) => return,
                CTerm::Scale(_, a) | CTerm::Div(a, _) | CTerm::Mod(a, _) => a.into_inner(),
                CTerm::Add(a, b) | CTerm::Sub(a, b) => {
                    let (next, other) = larger_first(a, b);
                    if let Some(part) = other.into_inner() {
                        drop_term(part);
                    }
                    next.into_inner()
                }
                CTerm::Ite(c, a, b) => {
                    let (next, other) = larger_first(a, b);
                    if let Some(part) = other.into_inner() {
                        drop_term(part);
                    }
                    if !has_few(next.get()) {
                        if let Some(part) = c.into_inner() {
                            drop_form(part);
                        }
                        next.into_inner()
                    } else {
                        if let Some(part) = next.into_inner() {
                            drop_term(part);
                        }
                        match opened(c) {
                            Some(Ok(t)) => Some(t),
                            Some(Err(f)) => return drop_form(f),
                            None => return,
                        }
                    }
                }
            };
            let Some(t) = next else { return };
            self = t;
        }
    }
}

#[cycle(drops)]
fn drop_term(_t: CTerm) {}

#[cycle(drops)]
fn drop_form(_f: CForm) {}

impl CForm {
    // The term that a formula holds against 0; the formula itself, where it holds none.
    fn compared(self) -> Result<CTerm, CForm>
        ensures term { IfOk result (λ t. size-CTerm t ≤ size-CForm self) }
        ensures other { IfErr result (λ f. f ≡ self) }
    {
        match self {
            CForm::AtLeast(t) | CForm::Zero(t) => Ok(t),
            f => Err(f),
        }
    }
}

// The term that a formula holds against 0, or the formula itself; nothing where it has another owner.
fn opened(f: Shared<CForm>) -> Option<Result<CTerm, CForm>>
    ensures term { IfSome result (λ r. IfOk r (λ t. size-CTerm t ≤ size-CForm f)) }
    ensures other { IfSome result (λ r. IfErr r (λ g. g ≡ f)) }
{
    match f.into_inner() {
        Some(f) => Some(f.compared()),
        None => None,
    }
}

// Whether a term has few nodes.
fn has_few(t: &CTerm) -> bool {
    term_within(t, FEW).is_some()
}

// Two terms, of which the second has few nodes, if one of them has.
fn larger_first(a: Shared<CTerm>, b: Shared<CTerm>) -> (Shared<CTerm>, Shared<CTerm>)
    ensures first { size-CTerm result.0 ≤ max (size-CTerm a) (size-CTerm b) }
    ensures second { size-CTerm result.1 ≤ max (size-CTerm a) (size-CTerm b) }
{
    if !has_few(b.get()) && has_few(a.get()) {
        (b, a)
    } else {
        (a, b)
    }
}

// Two formulas, of which the second has few nodes, if one of them has.
fn larger_form_first(g: Shared<CForm>, h: Shared<CForm>) -> (Shared<CForm>, Shared<CForm>)
    ensures first { size-CForm result.0 ≤ max (size-CForm g) (size-CForm h) }
    ensures second { size-CForm result.1 ≤ max (size-CForm g) (size-CForm h) }
{
    if size_within(h.get(), FEW).is_none() && size_within(g.get(), FEW).is_some() {
        (h, g)
    } else {
        (g, h)
    }
}

impl Drop for CForm {
    #[cycle(drops)]
    fn drop(mut self) {
        loop {
            let next = match self {
                CForm::Top | CForm::Bottom => return,
                CForm::AtLeast(_t) | CForm::Zero(_t) => return,
                CForm::Not(g) => g,
                CForm::And(g, h) | CForm::Or(g, h) => {
                    let (next, other) = larger_form_first(g, h);
                    if let Some(part) = other.into_inner() {
                        drop_form(part);
                    }
                    next
                }
            };
            match next.into_inner() {
                Some(f) => self = f,
                None => return,
            }
        }
    }
}
