// The truth of a formula from a number on. What is found stands beside the result, and nodes of several parts have
// functions of their own: so the frames are small.
ghost use Rattle.std.specs.Prelude.{◌≡◌, ℕ, ◌≤◌, ℤ, List, IfSome};
ghost use Rattle.std.specs.Bool.{OnTrue};
ghost use Rattle.core_terms.specs.declared.documents.Arg.{Arg};
ghost use Rattle.core_terms.specs.declared.trees.CTerm.TheVariants.{Param, Div, Mod, Ite};
ghost use Rattle.core_terms.specs.Senses.{pair_node, sense_node, joined_node};
ghost use Rattle.leadsto_rules.specs.Lines.{joined_truth};
ghost use Rattle.leadsto_rules.specs.Stretches.{PutsNumber, IsLineOn, IsTruthOn};

use crate::lines::{
    Line, Start, Stretch, divide, known_line, multiply, pair, stretch_of, take_rest,
};
use core_terms::{CForm, CTerm, Joining, Pairing, Sense};
use unity_base::Shared;

/// Whether the formula holds where the number is put for the parameter, and for how many of the further numbers it
/// stays so. `None` where that is not known, as where the formula names a slot or another parameter.
pub fn truth_on(f: &CForm, start: &Start) -> Option<Stretch>
    ensures truth { (args : ℤ → List Arg) → PutsNumber start.now.name args →
        IfSome result (λ s. IsTruthOn args start.now.number s.reach f.now s.holds) }
    ensures reach { IfSome result (λ s. s.reach ≤ start.now.reach) }
{
    let mut reach = start.reach;
    let holds = truth_from(f, start, &mut reach)?;
    Some(Stretch { holds, reach })
}

// Whether the formula holds, for so many numbers; they become fewer where it does not stay so.
#[cycle(stretches)]
fn truth_from(f: &CForm, start: &Start, reach: &mut u64) -> Option<bool>
    ensures truth { (args : ℤ → List Arg) → PutsNumber start.now.name args →
        IfSome result (IsTruthOn args start.now.number reach.new f.now) }
    ensures reach { reach.new ≤ reach.old }
{
    match f {
        CForm::Top => Some(true),
        CForm::Bottom => Some(false),
        CForm::AtLeast(t) => sense_from(Sense::AtLeast, t, start, reach),
        CForm::Zero(t) => sense_from(Sense::Zero, t, start, reach),
        CForm::Not(g) => Some(!truth_from(g.get(), start, reach)?),
        CForm::And(g, h) => joined_from(Joining::Both, g, h, start, reach),
        CForm::Or(g, h) => joined_from(Joining::Either, g, h, start, reach),
    }
}

#[cycle(stretches)]
#[inline(never)]
fn sense_from(sense: Sense, t: &CTerm, start: &Start, reach: &mut u64) -> Option<bool>
    ensures truth { (args : ℤ → List Arg) → PutsNumber start.now.name args →
        IfSome result (IsTruthOn args start.now.number reach.new (sense_node sense t.now)) }
    ensures reach { reach.new ≤ reach.old }
{
    let mut line = Line { value: 0, slope: 0 };
    if line_from(t, start, reach, &mut line) {
        let stretch = stretch_of(sense, line, *reach);
        *reach = stretch.reach;
        Some(stretch.holds)
    } else {
        None
    }
}

#[cycle(stretches)]
#[inline(never)]
fn joined_from(
    joining: Joining,
    g: &Shared<CForm>,
    h: &Shared<CForm>,
    start: &Start,
    reach: &mut u64,
) -> Option<bool>
    ensures truth { (args : ℤ → List Arg) → PutsNumber start.now.name args →
        IfSome result (IsTruthOn args start.now.number reach.new (joined_node joining g.now h.now)) }
    ensures reach { reach.new ≤ reach.old }
{
    let second = truth_from(h.get(), start, reach)?;
    let first = truth_from(g.get(), start, reach)?;
    Some(joined_truth(joining, first, second))
}

// Whether two truths hold, or one of them does.
fn joined_truth(joining: Joining, first: bool, second: bool) -> bool
    ensures { result ≡ joined_truth joining first second }
{
    match joining {
        Joining::Both => first & second,
        Joining::Either => first | second,
    }
}

// Whether the line of the term is known, for so many numbers; they become fewer where another line begins.
#[cycle(stretches)]
fn line_from(t: &CTerm, start: &Start, reach: &mut u64, line: &mut Line) -> bool
    ensures line { (args : ℤ → List Arg) → PutsNumber start.now.name args →
        OnTrue result (IsLineOn args start.now.number reach.new t.now line.new) }
    ensures reach { reach.new ≤ reach.old }
{
    match t {
        CTerm::Const(c) => known_line(line, *c, 0),
        CTerm::Slot(_) => false,
        CTerm::Param(n) => param_line(*n, start, line),
        CTerm::Add(a, b) => pair_from(Pairing::Sum, a, b, start, reach, line),
        CTerm::Sub(a, b) => pair_from(Pairing::Difference, a, b, start, reach, line),
        CTerm::Scale(k, a) => line_from(a.get(), start, reach, line) && multiply(*k, line),
        CTerm::Div(a, k) => quotient_from(a, *k, start, reach, line),
        CTerm::Mod(a, k) => remainder_from(a, *k, start, reach, line),
        CTerm::Ite(c, a, b) => choice_from(c, a, b, start, reach, line),
    }
}

// The line of the parameter.
#[inline(never)]
fn param_line(name: u32, start: &Start, line: &mut Line) -> bool
    ensures { (args : ℤ → List Arg) (reach : ℕ) → PutsNumber start.now.name args →
        OnTrue result (IsLineOn args start.now.number reach (Param name) line.new) }
{
    name == start.name && known_line(line, start.number, 1)
}

#[cycle(stretches)]
#[inline(never)]
fn pair_from(
    which: Pairing,
    a: &Shared<CTerm>,
    b: &Shared<CTerm>,
    start: &Start,
    reach: &mut u64,
    line: &mut Line,
) -> bool
    ensures line { (args : ℤ → List Arg) → PutsNumber start.now.name args →
        OnTrue result (IsLineOn args start.now.number reach.new (pair_node which a.now b.now) line.new) }
    ensures reach { reach.new ≤ reach.old }
{
    let mut second = Line { value: 0, slope: 0 };
    if !line_from(b.get(), start, reach, &mut second) {
        return false;
    }
    if !line_from(a.get(), start, reach, line) {
        return false;
    }
    pair(which, line, &second)
}

// The line of a quotient, up to where it leaves the line.
#[cycle(stretches)]
#[inline(never)]
fn quotient_from(a: &Shared<CTerm>, k: i64, start: &Start, reach: &mut u64, line: &mut Line) -> bool
    ensures line { (args : ℤ → List Arg) → PutsNumber start.now.name args →
        OnTrue result (IsLineOn args start.now.number reach.new (Div a.now k) line.new) }
    ensures reach { reach.new ≤ reach.old }
{
    if !line_from(a.get(), start, reach, line) {
        return false;
    }
    *reach = divide(k, line, *reach);
    true
}

// The line of a remainder, up to where it leaves the line.
#[cycle(stretches)]
#[inline(never)]
fn remainder_from(
    a: &Shared<CTerm>,
    k: i64,
    start: &Start,
    reach: &mut u64,
    line: &mut Line,
) -> bool
    ensures line { (args : ℤ → List Arg) → PutsNumber start.now.name args →
        OnTrue result (IsLineOn args start.now.number reach.new (Mod a.now k) line.new) }
    ensures reach { reach.new ≤ reach.old }
{
    if !line_from(a.get(), start, reach, line) {
        return false;
    }
    let mut quotient = *line;
    *reach = divide(k, &mut quotient, *reach);
    take_rest(k, line, quotient)
}

// The line of the branch, for as long as it is the same.
#[cycle(stretches)]
#[inline(never)]
fn choice_from(
    c: &Shared<CForm>,
    a: &Shared<CTerm>,
    b: &Shared<CTerm>,
    start: &Start,
    reach: &mut u64,
    line: &mut Line,
) -> bool
    ensures line { (args : ℤ → List Arg) → PutsNumber start.now.name args →
        OnTrue result (IsLineOn args start.now.number reach.new (Ite c.now a.now b.now) line.new) }
    ensures reach { reach.new ≤ reach.old }
{
    match truth_from(c.get(), start, reach) {
        Some(true) => line_from(a.get(), start, reach, line),
        Some(false) => line_from(b.get(), start, reach, line),
        None => false,
    }
}
