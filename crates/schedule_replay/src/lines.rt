// The lines of a trace.
ghost use Rattle.std.specs.Prelude.{◌≡◌, ◌++◌, codes, OnOk, OnErr};
ghost use Rattle.std.specs.Io.KnownBytes.{Appends};
ghost use Rattle.unity_base.specs.Streams.{AppendsPart, HasCause};
ghost use Rattle.schedule_replay.specs.Lines as line;

use crate::buffer::Buffer;
use crate::heading::Heading;
use crate::pieces::{put_choice, put_chosen, put_number, put_slots, put_word};
use core_terms::{CDocument, CProgram};
use unity_base::{Failed, Sink};

/// Writes the first line: `run` or `replay`, and the program's name.
///
/// `Failed` as for `write_line`.
pub fn write_heading<K: Sink>(
    doc: &CDocument,
    p: &CProgram,
    heading: Heading,
    out: &mut K,
) -> Result<(), Failed>
    ensures whole { OnOk result (Appends (K.written out.old) (K.written out.new)
        (line.heading_line doc.now p.now heading)) }
    ensures part { OnErr result (AppendsPart (K.written out.old) (K.written out.new)
        (line.heading_line doc.now p.now heading)) }
    ensures cause { HasCause (K.faults out.old) (K.faults out.new) result }
{
    match heading {
        Heading::Run => write_named(doc, p, b"run ", out),
        Heading::Replay => write_named(doc, p, b"replay ", out),
    }
}

// Writes a word and the program's name.
fn write_named<K: Sink>(
    doc: &CDocument,
    p: &CProgram,
    word: &[u8],
    out: &mut K,
) -> Result<(), Failed>
    ensures whole { OnOk result (Appends (K.written out.old) (K.written out.new)
        (word.now ++ line.word_text doc.now.words p.now.name ++ codes "\n")) }
    ensures part { OnErr result (AppendsPart (K.written out.old) (K.written out.new)
        (word.now ++ line.word_text doc.now.words p.now.name ++ codes "\n")) }
    ensures cause { HasCause (K.faults out.old) (K.faults out.new) result }
{
    let mut text = Buffer::new();
    text.put(out, word);
    put_word(&mut text, out, doc.words.as_slice(), p.name);
    text.put(out, b"\n");
    text.finish(out)
}

/// Writes the line of a state: its number, the instance that was chosen before it, and each slot that the program
/// shows. It takes no memory.
///
/// `Failed` comes only where the sink's count of faults rose, and then a proper prefix of the line was appended.
pub fn write_line<K: Sink>(
    doc: &CDocument,
    p: &CProgram,
    number: u64,
    choice: Option<u32>,
    state: &[i64],
    out: &mut K,
) -> Result<(), Failed>
    ensures whole { OnOk result (Appends (K.written out.old) (K.written out.new)
        (line.state_line doc.now p.now number choice state.now)) }
    ensures part { OnErr result (AppendsPart (K.written out.old) (K.written out.new)
        (line.state_line doc.now p.now number choice state.now)) }
    ensures cause { HasCause (K.faults out.old) (K.faults out.new) result }
{
    let mut text = Buffer::new();
    put_number(&mut text, out, number);
    put_choice(&mut text, out, doc, p, choice);
    put_slots(&mut text, out, doc, p.shown.as_slice(), state);
    text.put(out, b"\n");
    text.finish(out)
}

/// Writes the line of a step that is undefined: `undefined`, the number of the step and the chosen instance.
///
/// `Failed` as for `write_line`.
pub fn write_undefined<K: Sink>(
    doc: &CDocument,
    p: &CProgram,
    number: u64,
    choice: u32,
    out: &mut K,
) -> Result<(), Failed>
    ensures whole { OnOk result (Appends (K.written out.old) (K.written out.new)
        (line.undefined_line doc.now p.now number choice)) }
    ensures part { OnErr result (AppendsPart (K.written out.old) (K.written out.new)
        (line.undefined_line doc.now p.now number choice)) }
    ensures cause { HasCause (K.faults out.old) (K.faults out.new) result }
{
    let mut text = Buffer::new();
    text.put(out, b"undefined ");
    put_number(&mut text, out, number);
    text.put(out, b" ");
    put_chosen(&mut text, out, doc, p, choice);
    text.put(out, b"\n");
    text.finish(out)
}

/// Writes the last line of a trace: `rounds` and how many there were.
///
/// `Failed` as for `write_line`.
pub fn write_rounds<K: Sink>(rounds: u64, out: &mut K) -> Result<(), Failed>
    ensures whole { OnOk result (Appends (K.written out.old) (K.written out.new)
        (line.rounds_line rounds)) }
    ensures part { OnErr result (AppendsPart (K.written out.old) (K.written out.new)
        (line.rounds_line rounds)) }
    ensures cause { HasCause (K.faults out.old) (K.faults out.new) result }
{
    let mut text = Buffer::new();
    text.put(out, b"rounds ");
    put_number(&mut text, out, rounds);
    text.put(out, b"\n");
    text.finish(out)
}

/// Writes the line of a fixed point: `fixed` and the number of the state.
///
/// `Failed` as for `write_line`.
pub fn write_fixed<K: Sink>(number: u64, out: &mut K) -> Result<(), Failed>
    ensures whole { OnOk result (Appends (K.written out.old) (K.written out.new)
        (line.fixed_line number)) }
    ensures part { OnErr result (AppendsPart (K.written out.old) (K.written out.new)
        (line.fixed_line number)) }
    ensures cause { HasCause (K.faults out.old) (K.faults out.new) result }
{
    let mut text = Buffer::new();
    text.put(out, b"fixed ");
    put_number(&mut text, out, number);
    text.put(out, b"\n");
    text.finish(out)
}
