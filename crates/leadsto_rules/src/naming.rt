// Whether a formula names a parameter.
ghost use Rattle.std.specs.Prelude.{◌≡◌};
ghost use Rattle.core_terms.specs.Places.{names_param, term_names_param};

use core_terms::{CForm, CTerm};

// Whether a formula names the parameter of this number.
#[cycle(naming)]
pub(crate) fn names(f: &CForm, number: u32) -> bool
    ensures { result ≡ names_param number f.now }
{
    match f {
        CForm::Top => false,
        CForm::Bottom => false,
        CForm::AtLeast(t) => term_names(t, number),
        CForm::Zero(t) => term_names(t, number),
        CForm::Not(g) => names(g.get(), number),
        CForm::And(g, h) => names(g.get(), number) || names(h.get(), number),
        CForm::Or(g, h) => names(g.get(), number) || names(h.get(), number),
    }
}

// Whether a term names it.
#[cycle(naming)]
fn term_names(t: &CTerm, number: u32) -> bool
    ensures { result ≡ term_names_param number t.now }
{
    match t {
        CTerm::Const(_) => false,
        CTerm::Slot(_) => false,
        CTerm::Param(n) => *n == number,
        CTerm::Add(a, b) => term_names(a.get(), number) || term_names(b.get(), number),
        CTerm::Sub(a, b) => term_names(a.get(), number) || term_names(b.get(), number),
        CTerm::Scale(_, a) => term_names(a.get(), number),
        CTerm::Div(a, _) => term_names(a.get(), number),
        CTerm::Mod(a, _) => term_names(a.get(), number),
        CTerm::Ite(c, a, b) => {
            names(c.get(), number) || (term_names(a.get(), number) || term_names(b.get(), number))
        }
    }
}
