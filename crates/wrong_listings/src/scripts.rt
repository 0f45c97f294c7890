// What puts scripts.
ghost use Rattle.std.specs.List.{flat_map};
ghost use Rattle.schedule_replay.specs.Buffered.{IsPut};
ghost use Rattle.solver_scripts.specs.Naming.{symbols};
ghost use Rattle.solver_scripts.specs.Scripts as script;

use core_terms::CSlot;
use obligations::{Obligation, Variable};
use schedule_replay::Buffer;
use solver_scripts::Names;
use unity_base::{Seq, Sink};

/// The call `put_ranges` of `solver_scripts`, with its clause.
pub fn put_ranges<K: Sink>(text: &mut Buffer, out: &mut K, names: &Names, variables: &[Variable])
    ensures { IsPut (K.written out.old) (K.written out.new) (K.faults out.old) (K.faults out.new) text.old text.new
        (script.conjunction_text (flat_map (script.range_terms (symbols names.now)) variables.now)) }
{
    solver_scripts::put_ranges(text, out, names, variables)
}

/// The call `put_script` of `solver_scripts`, with its clause.
pub fn put_script<K: Sink>(
    text: &mut Buffer,
    out: &mut K,
    words: &[Seq<u8>],
    slots: &[CSlot],
    params: &[u32],
    obligation: &Obligation,
)
    ensures { IsPut (K.written out.old) (K.written out.new) (K.faults out.old) (K.faults out.new) text.old text.new
        (script.script_text words.now slots.now params.now obligation.now) }
{
    solver_scripts::put_script(text, out, words, slots, params, obligation)
}
