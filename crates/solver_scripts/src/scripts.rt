// The script of an obligation.
ghost use Rattle.std.specs.Prelude.{◌≡◌, map};
ghost use Rattle.std.specs.List.{flat_map};
ghost use Rattle.schedule_replay.specs.Buffered.{IsPut};
ghost use Rattle.solver_scripts.specs.Naming.{symbols};
ghost use Rattle.solver_scripts.specs.Scripts as script;

use crate::forms::{put_constant, put_negation};
use crate::names::{Names, put_symbol};
use core_terms::CSlot;
use obligations::{Obligation, Variable};
use schedule_replay::Buffer;
use unity_base::{Seq, Sink};

// Puts the declaration of a variable, on a line.
fn put_declaration<K: Sink>(text: &mut Buffer, out: &mut K, names: &Names, variable: Variable)
    ensures { IsPut (K.written out.old) (K.written out.new) (K.faults out.old) (K.faults out.new) text.old text.new
        (script.declaration_line (symbols names.now) variable) }
{
    text.put(out, b"(declare-const ");
    put_symbol(text, out, names, variable.param, variable.number);
    text.put(out, b" Int)\n");
}

// Puts the declarations of variables.
fn put_declarations<K: Sink>(text: &mut Buffer, out: &mut K, names: &Names, variables: &[Variable])
    ensures { IsPut (K.written out.old) (K.written out.new) (K.faults out.old) (K.faults out.new) text.old text.new
        (flat_map (script.declaration_line (symbols names.now)) variables.now) }
{
    for variable in variables {
        put_declaration(text, out, names, *variable);
    }
}

// Puts that a variable lies in its range, as two parts of a conjunction.
fn put_range<K: Sink>(text: &mut Buffer, out: &mut K, names: &Names, variable: Variable)
    ensures { IsPut (K.written out.old) (K.written out.new) (K.faults out.old) (K.faults out.new) text.old text.new
        (script.parts_text (script.range_terms (symbols names.now) variable)) }
{
    text.put(out, b" (<= ");
    put_constant(text, out, variable.range.lo);
    text.put(out, b" ");
    put_symbol(text, out, names, variable.param, variable.number);
    text.put(out, b") (<= ");
    put_symbol(text, out, names, variable.param, variable.number);
    text.put(out, b" ");
    put_constant(text, out, variable.range.hi);
    text.put(out, b")");
}

// Puts that variables lie in their ranges, as parts of a conjunction.
fn put_range_parts<K: Sink>(text: &mut Buffer, out: &mut K, names: &Names, variables: &[Variable])
    ensures { IsPut (K.written out.old) (K.written out.new) (K.faults out.old) (K.faults out.new) text.old text.new
        (script.parts_text (flat_map (script.range_terms (symbols names.now)) variables.now)) }
{
    for variable in variables {
        put_range(text, out, names, *variable);
    }
}

/// Puts that variables lie in their ranges, as a conjunction, or `true` where there are none.
pub fn put_ranges<K: Sink>(text: &mut Buffer, out: &mut K, names: &Names, variables: &[Variable])
    ensures { IsPut (K.written out.old) (K.written out.new) (K.faults out.old) (K.faults out.new) text.old text.new
        (script.conjunction_text (flat_map (script.range_terms (symbols names.now)) variables.now)) }
{
    if variables.is_empty() {
        text.put(out, b"true");
    } else {
        text.put(out, b"(and");
        put_range_parts(text, out, names, variables);
        text.put(out, b")");
    }
}

/// Puts the script of an obligation: its variables are declared, each is said to lie in its range, and the form is
/// said to be false. A solver answers `unsat` where the obligation is valid, and else `sat`.
///
/// Slots are named by their words, and the parameter of number n by the word `params[n]`.
pub fn put_script<K: Sink>(
    text: &mut Buffer,
    out: &mut K,
    words: &[Seq<u8>],
    slots: &[CSlot],
    params: &[u32],
    obligation: &Obligation,
)
    ensures { IsPut (K.written out.old) (K.written out.new) (K.faults out.old) (K.faults out.new) text.old text.new
        (script.script_text words.now slots.now params.now obligation.now) }
{
    let names = Names {
        words,
        slots,
        params,
    };
    let variables = obligation.variables.as_slice();
    text.put(out, b"(push 1)\n");
    put_declarations(text, out, &names, variables);
    text.put(out, b"(assert ");
    put_ranges(text, out, &names, variables);
    text.put(out, b")\n(assert ");
    put_negation(text, out, &names, &obligation.form);
    text.put(out, b")\n(check-sat)\n(pop 1)\n");
}
