// Whether a record names a slot that a layer shows and the program under it does not.
ghost use Rattle.std.specs.Prelude.{◌≡◌, ◌&&◌, not};
ghost use Rattle.std.specs.List.{list_all};
ghost use Rattle.core_terms.specs.Conditions.{is_shown, any_place};
ghost use Rattle.core_terms.specs.Places.{form_names_only, term_names_only};
ghost use Rattle.core_terms.specs.declared.programs.CProgram.{CProgram};
ghost use Rattle.safety_rules.specs.from_rules_table.Layers as layer;

use crate::shown::Shown;
use core_terms::{CForm, CTerm};
use fair_rounds::Record;

// Whether a slot is no new one.
fn is_old(above: &Shown, below: &Shown, slot: u32) -> bool
    ensures { result ≡ not (is_shown above.now.slots.now slot && not (is_shown below.now.slots.now slot)) }
{
    !(above.has(slot) && !below.has(slot))
}

// Whether a formula names no new slot.
#[cycle(naming)]
fn form_is_old(above: &Shown, below: &Shown, f: &CForm) -> bool
    ensures { result ≡ form_names_only
        (λ n. not (is_shown above.now.slots.now n && not (is_shown below.now.slots.now n))) any_place f.now }
{
    match f {
        CForm::Top => true,
        CForm::Bottom => true,
        CForm::AtLeast(t) => term_is_old(above, below, t),
        CForm::Zero(t) => term_is_old(above, below, t),
        CForm::Not(g) => form_is_old(above, below, g.get()),
        CForm::And(g, h) => form_is_old(above, below, g.get())
            && form_is_old(above, below, h.get()),
        CForm::Or(g, h) => form_is_old(above, below, g.get()) && form_is_old(above, below, h.get()),
    }
}

// Whether a term names none.
#[cycle(naming)]
fn term_is_old(above: &Shown, below: &Shown, t: &CTerm) -> bool
    ensures { result ≡ term_names_only
        (λ n. not (is_shown above.now.slots.now n && not (is_shown below.now.slots.now n))) any_place t.now }
{
    match t {
        CTerm::Const(_) => true,
        CTerm::Slot(n) => is_old(above, below, *n),
        CTerm::Param(_) => true,
        CTerm::Add(a, b) => term_is_old(above, below, a.get())
            && term_is_old(above, below, b.get()),
        CTerm::Sub(a, b) => term_is_old(above, below, a.get())
            && term_is_old(above, below, b.get()),
        CTerm::Scale(_, a) => term_is_old(above, below, a.get()),
        CTerm::Div(a, _) => term_is_old(above, below, a.get()),
        CTerm::Mod(a, _) => term_is_old(above, below, a.get()),
        CTerm::Ite(c, a, b) => {
            form_is_old(above, below, c.get())
                && (term_is_old(above, below, a.get()) && term_is_old(above, below, b.get()))
        }
    }
}

// Whether no formula of a list names one.
fn all_are_old(above: &Shown, below: &Shown, forms: &[CForm]) -> bool
    ensures { result ≡ list_all (form_names_only
        (λ n. not (is_shown above.now.slots.now n && not (is_shown below.now.slots.now n))) any_place) forms.now }
{
    for f in forms {
        if !form_is_old(above, below, f) {
            return false;
        }
    }
    true
}

// Whether a record names none.
pub(crate) fn names_old(above: &Shown, below: &Shown, a: &Record) -> bool
    ensures { (h f : CProgram) → above.now.slots.now ≡ h.shown → below.now.slots.now ≡ f.shown →
        result ≡ layer.names_old h f a.now }
{
    form_is_old(above, below, &a.p)
        && form_is_old(above, below, &a.q)
        && all_are_old(above, below, a.under.as_slice())
}
