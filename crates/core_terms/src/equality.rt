// Whether two trees are equal.
ghost use Rattle.std.specs.Prelude.{◌≡◌, ◌↔◌, IsTrue};

use crate::trees::{CForm, CTerm};

/// Whether two formulas are equal as trees.
#[cycle(equality)]
pub fn same(f: &CForm, g: &CForm) -> bool
    ensures { IsTrue result ↔ (f.now ≡ g.now) }
{
    match (f, g) {
        (CForm::Top, CForm::Top) => true,
        (CForm::Bottom, CForm::Bottom) => true,
        (CForm::AtLeast(t), CForm::AtLeast(u)) => same_term(t, u),
        (CForm::Zero(t), CForm::Zero(u)) => same_term(t, u),
        (CForm::Not(f), CForm::Not(g)) => same(f.get(), g.get()),
        (CForm::And(f, h), CForm::And(g, i)) => same(f.get(), g.get()) && same(h.get(), i.get()),
        (CForm::Or(f, h), CForm::Or(g, i)) => same(f.get(), g.get()) && same(h.get(), i.get()),
        _ => false,
    }
}

/// Whether two terms are equal as trees.
#[cycle(equality)]
pub fn same_term(t: &CTerm, u: &CTerm) -> bool
    ensures { IsTrue result ↔ (t.now ≡ u.now) }
{
    match (t, u) {
        (CTerm::Const(c), CTerm::Const(d)) => *c == *d,
        (CTerm::Slot(m), CTerm::Slot(n)) => *m == *n,
        (CTerm::Param(m), CTerm::Param(n)) => *m == *n,
        (CTerm::Add(a, b), CTerm::Add(c, d)) => same_term(a.get(), c.get())
            && same_term(b.get(), d.get()),
        (CTerm::Sub(a, b), CTerm::Sub(c, d)) => same_term(a.get(), c.get())
            && same_term(b.get(), d.get()),
        (CTerm::Scale(k, a), CTerm::Scale(l, b)) => *k == *l && same_term(a.get(), b.get()),
        (CTerm::Div(a, k), CTerm::Div(b, l)) => *k == *l && same_term(a.get(), b.get()),
        (CTerm::Mod(a, k), CTerm::Mod(b, l)) => *k == *l && same_term(a.get(), b.get()),
        (CTerm::Ite(c, a, b), CTerm::Ite(d, e, h)) => {
            same(c.get(), d.get()) && same_term(a.get(), e.get()) && same_term(b.get(), h.get())
        }
        _ => false,
    }
}
