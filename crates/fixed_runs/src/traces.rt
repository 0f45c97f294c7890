// The trace of a program up to its first fixed point.
ghost use Rattle.std.specs.Prelude.{◌≡◌, ◌++◌, length, IfOk, OnOk, OnErr, IsTrue};
ghost use Rattle.std.specs.Io.KnownBytes.{Appends};
ghost use Rattle.unity_base.specs.Streams.{AppendsPart, HasCause};
ghost use Rattle.meaning_states.specs.State.{is_state};
ghost use Rattle.core_terms.specs.Conditions.{IsProgram};
ghost use Rattle.core_terms.specs.Steps.{slot_ranges};
ghost use Rattle.executor.specs.Running.{program_of, slots_of, state_of};
ghost use Rattle.executor.specs.CoreSystem.{core_system};
ghost use Rattle.schedule_replay.specs.Schedules.{turns};
ghost use Rattle.schedule_replay.specs.Lines.{fixed_line, rounds_line};
ghost use Rattle.fixed_points.specs.FixedPoints.{is_fixed};
ghost use Rattle.fixed_runs.specs.Cores.{core_fixed_text, core_fixed_ending};

use core_terms::{CDocument, CProgram};
use executor::{Runner, Stepped};
use fair_rounds::RoundCount;
use fixed_points::changing;
use run_traces::{Choices, instances, write_step};
use schedule_replay::{Heading, write_fixed, write_heading, write_line, write_rounds};
use unity_base::{Failed, Sink};

/// Writes the trace of a program from the runner's state, by so many choices, each instance in turn, up to the first
/// fixed point: a line for the command, one for each state up to there or to the first undefined step, and then that
/// step's line, or the fixed point's, if there is one, and the rounds of the choices. It takes no memory.
///
/// `Done` where every step was defined, and `Undefined` where the one after the last state that was written is not.
/// `Failed` comes only where the sink's count of faults rose, and then a proper prefix of the trace was appended.
pub fn write_trace<K: Sink>(
    doc: &CDocument,
    p: &CProgram,
    steps: u64,
    runner: &mut Runner,
    out: &mut K,
) -> Result<Stepped, Failed>
    requires is_program { IsProgram doc.now.slots p.now }
    requires is_state { IsTrue (is_state (slot_ranges doc.now.slots) (state_of runner.old)) }
    requires program { program_of runner.old ≡ p.now }
    requires slots { slots_of runner.old ≡ doc.now.slots }
    ensures whole { OnOk result (Appends (K.written out.old) (K.written out.new)
        (core_fixed_text doc.now p.now (state_of runner.old) (turns (length p.now.statements) steps))) }
    ensures ending { IfOk result (λ end. end ≡
        core_fixed_ending doc.now p.now (state_of runner.old) (turns (length p.now.statements) steps)) }
    ensures part { OnErr result (AppendsPart (K.written out.old) (K.written out.new)
        (core_fixed_text doc.now p.now (state_of runner.old) (turns (length p.now.statements) steps))) }
    ensures cause { HasCause (K.faults out.old) (K.faults out.new) result }
{
    write_heading(doc, p, Heading::Run, out)?;
    write_line(doc, p, 0, None, runner.state(), out)?;
    let k = instances(p);
    let choices = Choices::Turns(steps);
    let mut count = RoundCount::new(k);
    let mut number = 0;
    let mut from = 0;
    'steps: loop {
        if is_at_rest(doc, p, runner, &mut from) {
            write_end(number, count.rounds(), out)?;
            return Ok(Stepped::Done);
        }
        let Some(choice) = choices.get(k, number) else {
            write_rounds(count.rounds(), out)?;
            return Ok(Stepped::Done);
        };
        number += 1;
        match write_step(doc, p, number, choice, runner, out)? {
            Stepped::Done => count.add(choice),
            Stepped::Undefined => return Ok(Stepped::Undefined),
        }
    }
}

// Whether the runner's state is a fixed point. The test begins at a statement, round about, and then at the one that
// was seen to change the state: in a run it is mostly the first that is looked at.
fn is_at_rest(doc: &CDocument, p: &CProgram, runner: &Runner, from: &mut usize) -> bool
    requires is_program { IsProgram doc.now.slots p.now }
    requires is_state { IsTrue (is_state (slot_ranges doc.now.slots) (state_of runner.now)) }
    ensures { result ≡ is_fixed (core_system doc.now.slots p.now) (state_of runner.now) }
{
    match changing(p, doc.slots.as_slice(), runner.state(), *from) {
        Some(place) => {
            *from = place;
            false
        }
        None => true,
    }
}

// Writes the line of a fixed point and the last line.
fn write_end<K: Sink>(number: u64, rounds: u64, out: &mut K) -> Result<(), Failed>
    ensures whole { OnOk result (Appends (K.written out.old) (K.written out.new)
        (fixed_line number ++ rounds_line rounds)) }
    ensures part { OnErr result (AppendsPart (K.written out.old) (K.written out.new)
        (fixed_line number ++ rounds_line rounds)) }
    ensures cause { HasCause (K.faults out.old) (K.faults out.new) result }
{
    write_fixed(number, out)?;
    write_rounds(rounds, out)?;
    Ok(())
}
