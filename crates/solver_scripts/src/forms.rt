// Terms and formulas, as the terms of a script.
ghost use Rattle.std.specs.Prelude.{◌≡◌, ◌++◌, codes};
ghost use Rattle.meaning_states.specs.Division.{divisor};
ghost use Rattle.schedule_replay.specs.Buffered.{IsPut};
ghost use Rattle.solver_scripts.specs.Naming.{symbols};
ghost use Rattle.solver_scripts.specs.Terms.{negation, int_text, bool_text, pair_text};
ghost use Rattle.solver_scripts.specs.Forms.{constant, int_term, bool_term};

use crate::names::{Names, put_symbol};
use core_terms::{CForm, CTerm};
use schedule_replay::{Buffer, put_number};
use unity_base::{Shared, Sink};

/// Puts a number: `7`, or `(- 7)` where it is negative.
pub fn put_constant<K: Sink>(text: &mut Buffer, out: &mut K, number: i64)
    ensures { IsPut (K.written out.old) (K.written out.new) (K.faults out.old) (K.faults out.new) text.old text.new
        (int_text (constant number)) }
{
    if number < 0 {
        text.put(out, b"(- ");
        put_number(text, out, number.unsigned_abs());
        text.put(out, b")");
    } else {
        put_number(text, out, number.unsigned_abs());
    }
}

// Puts what is divided by: the number, or 1 where it is less.
fn put_divisor<K: Sink>(text: &mut Buffer, out: &mut K, number: i64)
    ensures { IsPut (K.written out.old) (K.written out.new) (K.faults out.old) (K.faults out.new) text.old text.new
        (int_text (constant (divisor number))) }
{
    put_constant(text, out, if number < 1 { 1 } else { number });
}

// Puts a term. What has two parts is put by functions of its own, so that the frames are small.
#[cycle(putting)]
fn put_term<K: Sink>(text: &mut Buffer, out: &mut K, names: &Names, t: &CTerm)
    ensures { IsPut (K.written out.old) (K.written out.new) (K.faults out.old) (K.faults out.new) text.old text.new
        (int_text (int_term (symbols names.now) t.now)) }
{
    match t {
        CTerm::Const(number) => put_constant(text, out, *number),
        CTerm::Slot(number) => put_symbol(text, out, names, false, *number),
        CTerm::Param(number) => put_symbol(text, out, names, true, *number),
        CTerm::Add(a, b) => {
            text.put(out, b"(+ ");
            put_pair(text, out, names, a, b);
        }
        CTerm::Sub(a, b) => {
            text.put(out, b"(- ");
            put_pair(text, out, names, a, b);
        }
        CTerm::Scale(factor, a) => {
            text.put(out, b"(* ");
            put_constant(text, out, *factor);
            text.put(out, b" ");
            put_term(text, out, names, a.get());
            text.put(out, b")");
        }
        CTerm::Div(a, number) => {
            text.put(out, b"(div ");
            put_divided(text, out, names, a, *number);
        }
        CTerm::Mod(a, number) => {
            text.put(out, b"(mod ");
            put_divided(text, out, names, a, *number);
        }
        CTerm::Ite(when, a, b) => {
            text.put(out, b"(ite ");
            put_form(text, out, names, when.get());
            text.put(out, b" ");
            put_pair(text, out, names, a, b);
        }
    }
}

// Puts two terms, and the bracket that closes what has them.
#[cycle(putting)]
#[inline(never)]
fn put_pair<K: Sink>(
    text: &mut Buffer,
    out: &mut K,
    names: &Names,
    a: &Shared<CTerm>,
    b: &Shared<CTerm>,
)
    ensures { IsPut (K.written out.old) (K.written out.new) (K.faults out.old) (K.faults out.new) text.old text.new
        (pair_text (int_text (int_term (symbols names.now) a.now)) (int_text (int_term (symbols names.now) b.now))) }
{
    put_term(text, out, names, a.get());
    text.put(out, b" ");
    put_term(text, out, names, b.get());
    text.put(out, b")");
}

// Puts a term and what it is divided by, and the bracket that closes what has them.
#[cycle(putting)]
#[inline(never)]
fn put_divided<K: Sink>(
    text: &mut Buffer,
    out: &mut K,
    names: &Names,
    a: &Shared<CTerm>,
    number: i64,
)
    ensures { IsPut (K.written out.old) (K.written out.new) (K.faults out.old) (K.faults out.new) text.old text.new
        (pair_text (int_text (int_term (symbols names.now) a.now)) (int_text (constant (divisor number)))) }
{
    put_term(text, out, names, a.get());
    text.put(out, b" ");
    put_divisor(text, out, number);
    text.put(out, b")");
}

// Puts a formula.
#[cycle(putting)]
fn put_form<K: Sink>(text: &mut Buffer, out: &mut K, names: &Names, f: &CForm)
    ensures { IsPut (K.written out.old) (K.written out.new) (K.faults out.old) (K.faults out.new) text.old text.new
        (bool_text (bool_term (symbols names.now) f.now)) }
{
    match f {
        CForm::Top => text.put(out, b"true"),
        CForm::Bottom => text.put(out, b"false"),
        CForm::AtLeast(t) => {
            text.put(out, b"(<= 0 ");
            put_term(text, out, names, t);
            text.put(out, b")");
        }
        CForm::Zero(t) => {
            text.put(out, b"(= ");
            put_term(text, out, names, t);
            text.put(out, b" 0)");
        }
        CForm::Not(g) => put_negation(text, out, names, g.get()),
        CForm::And(g, h) => {
            text.put(out, b"(and ");
            put_forms(text, out, names, g, h);
        }
        CForm::Or(g, h) => {
            text.put(out, b"(or ");
            put_forms(text, out, names, g, h);
        }
    }
}

/// Puts the negation of a formula.
#[cycle(putting)]
#[inline(never)]
pub fn put_negation<K: Sink>(text: &mut Buffer, out: &mut K, names: &Names, f: &CForm)
    ensures { IsPut (K.written out.old) (K.written out.new) (K.faults out.old) (K.faults out.new) text.old text.new
        (bool_text (negation (bool_term (symbols names.now) f.now))) }
{
    text.put(out, b"(not ");
    put_form(text, out, names, f);
    text.put(out, b")");
}

// Puts two formulas, and the bracket that closes what has them.
#[cycle(putting)]
#[inline(never)]
fn put_forms<K: Sink>(
    text: &mut Buffer,
    out: &mut K,
    names: &Names,
    g: &Shared<CForm>,
    h: &Shared<CForm>,
)
    ensures { IsPut (K.written out.old) (K.written out.new) (K.faults out.old) (K.faults out.new) text.old text.new
        (pair_text (bool_text (bool_term (symbols names.now) g.now))
        (bool_text (bool_term (symbols names.now) h.now))) }
{
    put_form(text, out, names, g.get());
    text.put(out, b" ");
    put_form(text, out, names, h.get());
    text.put(out, b")");
}
