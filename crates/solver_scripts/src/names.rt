// The symbols of a script.
ghost use Rattle.std.specs.Prelude.{◌≡◌, [], slice_get};
ghost use Rattle.std.specs.Option.{option_map_or};
ghost use Rattle.schedule_replay.specs.Buffered.{IsPut};
ghost use Rattle.schedule_replay.specs.Lines.{word_text};
ghost use Rattle.solver_scripts.specs.Naming.{slot_symbol, symbols};
ghost use Rattle.solver_scripts.specs.Terms.{symbol_text};

use core_terms::CSlot;
use schedule_replay::{Buffer, put_index, put_word};
use unity_base::{Seq, Sink};

/// What slots and parameters are named after: the words, the slots, and the word of each parameter.
#[derive(Drop)]
pub struct Names<'a> {
    pub words: &'a [Seq<u8>],
    pub slots: &'a [CSlot],
    pub params: &'a [u32],
}

// Puts a slot's name, with its index in square brackets, where it has one.
fn put_slot<K: Sink>(text: &mut Buffer, out: &mut K, words: &[Seq<u8>], slot: &CSlot)
    ensures { IsPut (K.written out.old) (K.written out.new) (K.faults out.old) (K.faults out.new) text.old text.new
        (slot_symbol words.now slot.now) }
{
    put_word(text, out, words, slot.name);
    put_index(text, out, slot.index);
}

// Puts the name of the slot of this number.
fn put_slot_name<K: Sink>(
    text: &mut Buffer,
    out: &mut K,
    words: &[Seq<u8>],
    slots: &[CSlot],
    number: u32,
)
    ensures { IsPut (K.written out.old) (K.written out.new) (K.faults out.old) (K.faults out.new) text.old text.new
        (option_map_or (slot_symbol words.now) (slice_get slots.now number) []) }
{
    match slots.get(number as usize) {
        Some(slot) => put_slot(text, out, words, slot),
        None => {}
    }
}

// Puts the name of the parameter of this number.
fn put_param_name<K: Sink>(
    text: &mut Buffer,
    out: &mut K,
    words: &[Seq<u8>],
    params: &[u32],
    number: u32,
)
    ensures { IsPut (K.written out.old) (K.written out.new) (K.faults out.old) (K.faults out.new) text.old text.new
        (option_map_or (word_text words.now) (slice_get params.now number) []) }
{
    match params.get(number as usize) {
        Some(word) => put_word(text, out, words, *word),
        None => {}
    }
}

// Puts the name of a slot or of a parameter, by its number.
fn put_name<K: Sink>(text: &mut Buffer, out: &mut K, names: &Names, param: bool, number: u32)
    ensures { IsPut (K.written out.old) (K.written out.new) (K.faults out.old) (K.faults out.new) text.old text.new
        (symbols names.now param number) }
{
    if param {
        put_param_name(text, out, names.words, names.params, number);
    } else {
        put_slot_name(text, out, names.words, names.slots, number);
    }
}

/// Puts the symbol of a slot or of a parameter, by its number, in bars.
pub fn put_symbol<K: Sink>(text: &mut Buffer, out: &mut K, names: &Names, param: bool, number: u32)
    ensures { IsPut (K.written out.old) (K.written out.new) (K.faults out.old) (K.faults out.new) text.old text.new
        (symbol_text (symbols names.now param number)) }
{
    text.put(out, b"|");
    put_name(text, out, names, param, number);
    text.put(out, b"|");
}
