//! Formulas of a step, and the metric of an induction.

ghost use Rattle.std.specs.Prelude.{◌≡◌, ◌∷◌, [], ◌^◌, ◌≤◌};
ghost use Rattle.expand_rules.specs.Forming.{as_number, as_truth, form_of, formed, term_of};
ghost use Rattle.expand_expressions.specs.Places.{IsReady, scope};
ghost use Rattle.expand_expressions.specs.Sound.{IsSound};
ghost use Rattle.expand_steps.specs.Elements.{GivesOne, Forms, NotesFlaws, form_in, is_large, number_in, refused};
ghost use Rattle.expand_steps.specs.Elements.{term_in};
ghost use Rattle.expand_steps.specs.Elements.{truth_in};

use case_tables::Code;
use core_terms::{CForm, CTerm, owned_form, owned_term};
use expand_expressions::{Env, Known, Refusal, form, number, truth};
use expand_rules::{Flaws, Formed, Measure};
use names_rules::NameFault;
use std::alloc::Global;
use unity_syntax::Expr;

/// Whether what has this measure, constant or not, is too large: it weighs more than 2^62, or has more than
/// 65,536 nodes.
pub fn is_too_large(constant: bool, m: Measure) -> bool
    ensures { result ≡ is_large constant m }
{
    m.most > 4_611_686_018_427_387_904
        || m.quantified > 65_536
        || (!constant && m.size > 65_536)
        || m.size > 65_536
}

fn refused(refusal: Refusal, front: u64) -> NameFault
    ensures { result ≡ refused refusal front }
{
    match refusal {
        Refusal::Memory => NameFault::Memory,
        Refusal::TooLarge => NameFault::Fault {
            code: Code::TooLarge,
            at: front,
        },
    }
}

/// What an expression becomes. `Fault` says that whatever has it as a part is too large, at `front`.
pub fn formed(
    alloc: Global,
    e: &Expr,
    known: &Known,
    env: &Env,
    front: u64,
) -> Result<Formed, NameFault>
    requires { IsReady known.now }
    ensures { Forms result (formed e.now (scope known.now env.now)) front }
{
    match form(alloc, e, env, known) {
        Ok(f) => Ok(f),
        Err(refusal) => Err(refused(refusal, front)),
    }
}

// Notes what fails of what has this measure.
fn note(constant: bool, m: Measure, front: u64, bad: &mut Flaws) -> Result<(), NameFault>
    ensures { NotesFlaws result constant m front bad.old bad.new }
{
    if is_too_large(constant, m) {
        return Err(NameFault::Fault {
            code: Code::TooLarge,
            at: front,
        });
    }
    *bad = bad.and(m.flaws);
    Ok(())
}

fn settled_truth(alloc: Global, f: Formed, front: u64, bad: &mut Flaws) -> Result<CForm, NameFault>
    requires sound { IsSound f }
    requires light { f.measure.most ≤ 2 ^ 62 }
    ensures { GivesOne result (form_of (as_truth f).core) front bad.old bad.new (as_truth f ∷ []) }
{
    let t = truth(alloc, f)?;
    note(t.constant, t.measure, front, bad)?;
    Ok(owned_form(alloc, t.form)?)
}

fn settled_number(alloc: Global, f: Formed, front: u64, bad: &mut Flaws) -> Result<CTerm, NameFault>
    requires { IsSound f }
    ensures { GivesOne result (term_of (as_number f).core) front bad.old bad.new (as_number f ∷ []) }
{
    let n = number(alloc, f)?;
    note(n.constant, n.measure, front, bad)?;
    Ok(owned_term(alloc, n.term)?)
}

/// A formula in core form. `Fault` exactly where it is too large, at the front of what it is a part of.
/// What fails is noted.
pub fn formula(
    alloc: Global,
    e: &Expr,
    known: &Known,
    env: &Env,
    front: u64,
    bad: &mut Flaws,
) -> Result<CForm, NameFault>
    requires { IsReady known.now }
    ensures { GivesOne result (form_in (scope known.now env.now) e.now) front bad.old bad.new
        (truth_in (scope known.now env.now) e.now ∷ []) }
{
    let f = formed(alloc, e, known, env, front)?;
    settled_truth(alloc, f, front, bad)
}

/// A number in core form, as the metric of an induction. `Fault` exactly where it is too large.
pub fn metric(
    alloc: Global,
    e: &Expr,
    known: &Known,
    env: &Env,
    front: u64,
    bad: &mut Flaws,
) -> Result<CTerm, NameFault>
    requires { IsReady known.now }
    ensures { GivesOne result (term_in (scope known.now env.now) e.now) front bad.old bad.new
        (number_in (scope known.now env.now) e.now ∷ []) }
{
    let f = formed(alloc, e, known, env, front)?;
    settled_number(alloc, f, front, bad)
}
