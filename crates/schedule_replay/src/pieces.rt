// The parts of a line, each put at the end of a text that goes to a sink.
ghost use Rattle.std.specs.Prelude.{◌≡◌, ◌++◌, codes, decimal, slice_get};
ghost use Rattle.std.specs.List.{flat_map};
ghost use Rattle.std.specs.Fmt.{signed_decimal};
ghost use Rattle.core_terms.specs.Values as values;
ghost use Rattle.schedule_replay.specs.Buffered.{IsPut};
ghost use Rattle.schedule_replay.specs.Lines as line;

use crate::buffer::Buffer;
use core_terms::{CDocument, CProgram, CSlot, CStmt, Print};
use unity_base::{Seq, Sink};

/// Puts a number, in decimal digits.
pub fn put_number<K: Sink>(text: &mut Buffer, out: &mut K, number: u64)
    ensures { IsPut (K.written out.old) (K.written out.new) (K.faults out.old) (K.faults out.new) text.old text.new
        (decimal number) }
{
    if number < 10 {
        text.put(out, &[b'0' + number as u8]);
    } else {
        put_number(text, out, number / 10);
        text.put(out, &[b'0' + (number % 10) as u8]);
    }
}

/// Puts a number, with `-` before it if it is negative.
pub fn put_signed<K: Sink>(text: &mut Buffer, out: &mut K, number: i64)
    ensures { IsPut (K.written out.old) (K.written out.new) (K.faults out.old) (K.faults out.new) text.old text.new
        (signed_decimal number) }
{
    if number < 0 {
        text.put(out, b"-");
        put_number(text, out, number.unsigned_abs());
    } else {
        put_number(text, out, number.unsigned_abs());
    }
}

/// Puts the word of this number.
pub fn put_word<K: Sink>(text: &mut Buffer, out: &mut K, words: &[Seq<u8>], word: u32)
    ensures { IsPut (K.written out.old) (K.written out.new) (K.faults out.old) (K.faults out.new) text.old text.new
        (line.word_text words.now word) }
{
    match words.get(word as usize) {
        Some(found) => text.put(out, found.as_slice()),
        None => {}
    }
}

// Puts the indices after the first one, each after a comma.
fn put_more<K: Sink>(text: &mut Buffer, out: &mut K, indices: &[i64])
    ensures { IsPut (K.written out.old) (K.written out.new) (K.faults out.old) (K.faults out.new) text.old text.new
        (flat_map (λ z. codes "," ++ signed_decimal z) indices.now) }
{
    for index in indices {
        text.put(out, b",");
        put_signed(text, out, *index);
    }
}

// Puts indices in square brackets, and nothing where there are none.
fn put_indices<K: Sink>(text: &mut Buffer, out: &mut K, indices: &[i64])
    ensures { IsPut (K.written out.old) (K.written out.new) (K.faults out.old) (K.faults out.new) text.old text.new
        (line.indices_text indices.now) }
{
    match indices {
        [] => {}
        [first, rest @ ..] => {
            text.put(out, b"[");
            put_signed(text, out, *first);
            put_more(text, out, rest);
            text.put(out, b"]");
        }
    }
}

/// Puts the name of an instance: its label, and its indices in square brackets.
pub fn put_instance<K: Sink>(text: &mut Buffer, out: &mut K, words: &[Seq<u8>], statement: &CStmt)
    ensures { IsPut (K.written out.old) (K.written out.new) (K.faults out.old) (K.faults out.new) text.old text.new
        (line.instance_text words.now statement.now) }
{
    put_word(text, out, words, statement.label);
    put_indices(text, out, statement.indices.as_slice());
}

/// Puts the name of the chosen instance.
pub fn put_chosen<K: Sink>(
    text: &mut Buffer,
    out: &mut K,
    doc: &CDocument,
    p: &CProgram,
    choice: u32,
)
    ensures { IsPut (K.written out.old) (K.written out.new) (K.faults out.old) (K.faults out.new) text.old text.new
        (line.chosen_text doc.now p.now choice) }
{
    match p.statements.get(choice as usize) {
        Some(statement) => put_instance(text, out, doc.words.as_slice(), statement.get()),
        None => {}
    }
}

/// Puts a blank and the name of the chosen instance, where there is a choice.
pub fn put_choice<K: Sink>(
    text: &mut Buffer,
    out: &mut K,
    doc: &CDocument,
    p: &CProgram,
    choice: Option<u32>,
)
    ensures { IsPut (K.written out.old) (K.written out.new) (K.faults out.old) (K.faults out.new) text.old text.new
        (line.choice_text doc.now p.now choice) }
{
    match choice {
        Some(choice) => {
            text.put(out, b" ");
            put_chosen(text, out, doc, p, choice);
        }
        None => {}
    }
}

// Puts the word for a number of an enumeration.
fn put_place<K: Sink>(
    text: &mut Buffer,
    out: &mut K,
    words: &[Seq<u8>],
    places: &[u32],
    number: i64,
)
    ensures { IsPut (K.written out.old) (K.written out.new) (K.faults out.old) (K.faults out.new) text.old text.new
        (line.place_text words.now places.now number) }
{
    if number < 0 {
        return;
    }
    match places.get(number as usize) {
        Some(word) => put_word(text, out, words, *word),
        None => {}
    }
}

// Puts a slot's number, as the slot's numbers are written.
fn put_value<K: Sink>(text: &mut Buffer, out: &mut K, words: &[Seq<u8>], print: &Print, number: i64)
    ensures { IsPut (K.written out.old) (K.written out.new) (K.faults out.old) (K.faults out.new) text.old text.new
        (line.value_text words.now print.now number) }
{
    match print {
        Print::Number => put_signed(text, out, number),
        Print::Truth => {
            if number == 0 {
                text.put(out, b"false");
            } else {
                text.put(out, b"true");
            }
        }
        Print::Words(places) => put_place(text, out, words, places.as_slice(), number),
    }
}

/// Puts the index of an array's slot in square brackets, and nothing where there is none.
pub fn put_index<K: Sink>(text: &mut Buffer, out: &mut K, index: Option<i64>)
    ensures { IsPut (K.written out.old) (K.written out.new) (K.faults out.old) (K.faults out.new) text.old text.new
        (line.index_text index) }
{
    match index {
        Some(index) => {
            text.put(out, b"[");
            put_signed(text, out, index);
            text.put(out, b"]");
        }
        None => {}
    }
}

// Puts a blank, a slot's name and its number.
fn put_known<K: Sink>(text: &mut Buffer, out: &mut K, words: &[Seq<u8>], slot: &CSlot, number: i64)
    ensures { IsPut (K.written out.old) (K.written out.new) (K.faults out.old) (K.faults out.new) text.old text.new
        (line.known_slot_text words.now slot.now number) }
{
    text.put(out, b" ");
    put_word(text, out, words, slot.name);
    put_index(text, out, slot.index);
    text.put(out, b"=");
    put_value(text, out, words, &slot.print, number);
}

// Puts the slot of this number, as it is at a state.
fn put_slot<K: Sink>(text: &mut Buffer, out: &mut K, doc: &CDocument, state: &[i64], slot: u32)
    ensures { IsPut (K.written out.old) (K.written out.new) (K.faults out.old) (K.faults out.new) text.old text.new
        (line.slot_text doc.now state.now slot) }
{
    match doc.slots.get(slot as usize) {
        Some(found) => put_known(
            text,
            out,
            doc.words.as_slice(),
            found,
            number_at(state, slot),
        ),
        None => {}
    }
}

fn number_at(state: &[i64], slot: u32) -> i64
    ensures { result ≡ values.number_at state.now slot }
{
    state.get(slot as usize).copied().unwrap_or(0)
}

/// Puts slots, as they are at a state.
pub fn put_slots<K: Sink>(
    text: &mut Buffer,
    out: &mut K,
    doc: &CDocument,
    shown: &[u32],
    state: &[i64],
)
    ensures { IsPut (K.written out.old) (K.written out.new) (K.faults out.old) (K.faults out.new) text.old text.new
        (flat_map (line.slot_text doc.now state.now) shown.now) }
{
    for slot in shown {
        put_slot(text, out, doc, state, *slot);
    }
}
