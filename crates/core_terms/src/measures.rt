// How large a formula is, and how far from 0 its numbers can lie.
ghost use Rattle.std.specs.Prelude.{◌≡◌, ◌+◌, ◌*◌, ◌^◌, ◌<◌, ◌≤◌, min, max, length, map, slice_get, Some, MatchOption};
ghost use Rattle.std.specs.Int.RustNames.{unsigned_abs};
ghost use Rattle.core_terms.specs.Sizes.{term_nodes, form_nodes};

use crate::trees::{CForm, CTerm};

/// The number of nodes, or 2^63 where there are more.
#[cycle(sizes)]
pub fn size_of(f: &CForm) -> u64
    ensures { result ≡ min (form_nodes f.now) (2 ^ 63) }
{
    match f {
        CForm::Top => 1,
        CForm::Bottom => 1,
        CForm::AtLeast(t) => plus(1, size_of_term(t)),
        CForm::Zero(t) => plus(1, size_of_term(t)),
        CForm::Not(g) => plus(1, size_of(g.get())),
        CForm::And(g, h) => plus(plus(1, size_of(g.get())), size_of(h.get())),
        CForm::Or(g, h) => plus(plus(1, size_of(g.get())), size_of(h.get())),
    }
}

/// The number of a term's nodes, or 2^63 where there are more.
#[cycle(sizes)]
pub fn size_of_term(t: &CTerm) -> u64
    ensures { result ≡ min (term_nodes t.now) (2 ^ 63) }
{
    match t {
        CTerm::Const(_) => 1,
        CTerm::Slot(_) => 1,
        CTerm::Param(_) => 1,
        CTerm::Add(a, b) => plus(plus(1, size_of_term(a.get())), size_of_term(b.get())),
        CTerm::Sub(a, b) => plus(plus(1, size_of_term(a.get())), size_of_term(b.get())),
        CTerm::Scale(_, a) => plus(1, size_of_term(a.get())),
        CTerm::Div(a, _) => plus(1, size_of_term(a.get())),
        CTerm::Mod(a, _) => plus(1, size_of_term(a.get())),
        CTerm::Ite(c, a, b) => plus(
            plus(plus(1, size_of(c.get())), size_of_term(a.get())),
            size_of_term(b.get()),
        ),
    }
}

// The sum, or 2^63 where it is more.
pub(crate) fn plus(a: u64, b: u64) -> u64
    ensures { result ≡ min (a + b) (2 ^ 63) }
{
    a.saturating_add(b).min(1 << 63)
}

/// The number of nodes, where that is at most so many; it looks at no more nodes than that.
#[cycle(within)]
pub fn size_within(f: &CForm, most: u64) -> Option<u64>
    ensures { MatchOption result (most < form_nodes f.now) (λ n. (n ≡ form_nodes f.now) × (n ≤ most)) }
{
    if most == 0 {
        return None;
    }
    match f {
        CForm::Top => Some(1),
        CForm::Bottom => Some(1),
        CForm::AtLeast(t) => Some(1 + term_within(t, most - 1)?),
        CForm::Zero(t) => Some(1 + term_within(t, most - 1)?),
        CForm::Not(g) => Some(1 + size_within(g.get(), most - 1)?),
        CForm::And(g, h) => {
            let first = 1 + size_within(g.get(), most - 1)?;
            Some(first + size_within(h.get(), most - first)?)
        }
        CForm::Or(g, h) => {
            let first = 1 + size_within(g.get(), most - 1)?;
            Some(first + size_within(h.get(), most - first)?)
        }
    }
}

/// The number of a term's nodes, where that is at most so many; it looks at no more nodes than that.
#[cycle(within)]
pub fn term_within(t: &CTerm, most: u64) -> Option<u64>
    ensures { MatchOption result (most < term_nodes t.now) (λ n. (n ≡ term_nodes t.now) × (n ≤ most)) }
{
    if most == 0 {
        return None;
    }
    match t {
        CTerm::Const(_) => Some(1),
        CTerm::Slot(_) => Some(1),
        CTerm::Param(_) => Some(1),
        CTerm::Add(a, b) => {
            let first = 1 + term_within(a.get(), most - 1)?;
            Some(first + term_within(b.get(), most - first)?)
        }
        CTerm::Sub(a, b) => {
            let first = 1 + term_within(a.get(), most - 1)?;
            Some(first + term_within(b.get(), most - first)?)
        }
        CTerm::Scale(_, a) => Some(1 + term_within(a.get(), most - 1)?),
        CTerm::Div(a, _) => Some(1 + term_within(a.get(), most - 1)?),
        CTerm::Mod(a, _) => Some(1 + term_within(a.get(), most - 1)?),
        CTerm::Ite(c, a, b) => {
            let first = 1 + size_within(c.get(), most - 1)?;
            let second = first + term_within(a.get(), most - first)?;
            Some(second + term_within(b.get(), most - second)?)
        }
    }
}
