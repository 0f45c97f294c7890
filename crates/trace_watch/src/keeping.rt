// Whether a record names only slots that have the numbers that they had at the place before.
ghost use Rattle.std.specs.Prelude.{◌≡◌};
ghost use Rattle.core_terms.specs.Conditions.{any_place};
ghost use Rattle.core_terms.specs.Places.{form_names_only, term_names_only};
ghost use Rattle.trace_watch.specs.Places as places;

use crate::helpers::value_at;
use crate::place::Place;
use core_terms::{CForm, CTerm};
use fair_rounds::Record;

/// Whether the record's formulas name only such slots.
pub(crate) fn keeps_forms(here: &Place, claim: &Record) -> bool
    ensures { result ≡ places.keeps_forms here.now claim.now }
{
    keeps_form(here, &claim.p) && keeps_form(here, &claim.q)
}

// Whether a formula names only such slots.
#[cycle(keeping)]
fn keeps_form(here: &Place, f: &CForm) -> bool
    ensures { result ≡ form_names_only (places.is_kept here.now) any_place f.now }
{
    match f {
        CForm::Top => true,
        CForm::Bottom => true,
        CForm::AtLeast(t) => keeps_term(here, t),
        CForm::Zero(t) => keeps_term(here, t),
        CForm::Not(g) => keeps_form(here, g.get()),
        CForm::And(g, h) => keeps_form(here, g.get()) && keeps_form(here, h.get()),
        CForm::Or(g, h) => keeps_form(here, g.get()) && keeps_form(here, h.get()),
    }
}

// Whether a term does.
#[cycle(keeping)]
fn keeps_term(here: &Place, t: &CTerm) -> bool
    ensures { result ≡ term_names_only (places.is_kept here.now) any_place t.now }
{
    match t {
        CTerm::Const(_) => true,
        CTerm::Slot(n) => is_kept(here, *n),
        CTerm::Param(_) => true,
        CTerm::Add(a, b) => keeps_term(here, a.get()) && keeps_term(here, b.get()),
        CTerm::Sub(a, b) => keeps_term(here, a.get()) && keeps_term(here, b.get()),
        CTerm::Scale(_, a) => keeps_term(here, a.get()),
        CTerm::Div(a, _) => keeps_term(here, a.get()),
        CTerm::Mod(a, _) => keeps_term(here, a.get()),
        CTerm::Ite(c, a, b) => {
            keeps_form(here, c.get()) && (keeps_term(here, a.get()) && keeps_term(here, b.get()))
        }
    }
}

// Whether a slot is one.
fn is_kept(here: &Place, slot: u32) -> bool
    ensures { result ≡ places.is_kept here.now slot }
{
    value_at(here.before, slot) == value_at(here.state, slot)
}
