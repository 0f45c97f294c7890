// The trace of a program.
ghost use Rattle.std.specs.Prelude.{◌≡◌, ◌<◌, ◌≤◌, length, IfOk, IfSome, OnOk, OnErr};
ghost use Rattle.std.specs.Io.KnownBytes.{Appends};
ghost use Rattle.unity_base.specs.Streams.{AppendsPart, HasCause};
ghost use Rattle.executor.specs.Running.{program_of, slots_of, state_of, chosen_step};
ghost use Rattle.run_traces.specs.Choices.{AreAmong};
ghost use Rattle.run_traces.specs.Traces.{step_line, stepped};
ghost use Rattle.run_traces.specs.Cores.{core_steps, core_trace, core_ending};

use crate::choices::Choices;
use core_terms::{CDocument, CProgram};
use executor::{Runner, Stepped};
use fair_rounds::RoundCount;
use schedule_replay::{Heading, write_heading, write_line, write_rounds, write_undefined};
use unity_base::{Failed, Sink};

/// Writes the trace of a program from the runner's state: a line for the command, one for each state up to the first
/// undefined step, and then that step's line or the rounds of all choices. It takes no memory.
///
/// `Done` where every step was defined, and `Undefined` where the one after the last state that was written is not.
/// `Failed` comes only where the sink's count of faults rose, and then a proper prefix of the trace was appended.
pub fn write_trace<K: Sink>(
    doc: &CDocument,
    p: &CProgram,
    heading: Heading,
    choices: &Choices,
    runner: &mut Runner,
    out: &mut K,
) -> Result<Stepped, Failed>
    requires program { program_of runner.old ≡ p.now }
    requires slots { slots_of runner.old ≡ doc.now.slots }
    requires some { 1 ≤ length p.now.statements }
    requires few { length p.now.statements ≤ 4096 }
    requires instances { AreAmong (length p.now.statements) choices.now }
    ensures whole { OnOk result (Appends (K.written out.old) (K.written out.new)
        (core_trace doc.now p.now heading (state_of runner.old) choices.now)) }
    ensures ending { IfOk result (λ end. end ≡ core_ending doc.now p.now (state_of runner.old) choices.now) }
    ensures part { OnErr result (AppendsPart (K.written out.old) (K.written out.new)
        (core_trace doc.now p.now heading (state_of runner.old) choices.now)) }
    ensures cause { HasCause (K.faults out.old) (K.faults out.new) result }
{
    write_heading(doc, p, heading, out)?;
    write_line(doc, p, 0, None, runner.state(), out)?;
    write_steps(doc, p, choices, runner, out)
}

// Writes the lines of the steps, and the last line.
fn write_steps<K: Sink>(
    doc: &CDocument,
    p: &CProgram,
    choices: &Choices,
    runner: &mut Runner,
    out: &mut K,
) -> Result<Stepped, Failed>
    requires program { program_of runner.old ≡ p.now }
    requires slots { slots_of runner.old ≡ doc.now.slots }
    requires some { 1 ≤ length p.now.statements }
    requires few { length p.now.statements ≤ 4096 }
    requires instances { AreAmong (length p.now.statements) choices.now }
    ensures whole { OnOk result (Appends (K.written out.old) (K.written out.new)
        (core_steps doc.now p.now (state_of runner.old) choices.now)) }
    ensures ending { IfOk result (λ end. end ≡ core_ending doc.now p.now (state_of runner.old) choices.now) }
    ensures part { OnErr result (AppendsPart (K.written out.old) (K.written out.new)
        (core_steps doc.now p.now (state_of runner.old) choices.now)) }
    ensures cause { HasCause (K.faults out.old) (K.faults out.new) result }
{
    let k = instances(p);
    let mut count = RoundCount::new(k);
    let mut number = 0;
    'steps: loop {
        match choices.get(k, number) {
            Some(choice) => {
                number += 1;
                match write_step(doc, p, number, choice, runner, out)? {
                    Stepped::Done => count.add(choice),
                    Stepped::Undefined => return Ok(Stepped::Undefined),
                }
            }
            None => {
                write_rounds(count.rounds(), out)?;
                return Ok(Stepped::Done);
            }
        }
    }
}

/// How many instances there are.
pub fn instances(p: &CProgram) -> u32
    requires { length p.now.statements ≤ 4096 }
    ensures { result ≡ length p.now.statements }
{
    p.statements.len() as u32
}

/// Makes a step and writes its line.
pub fn write_step<K: Sink>(
    doc: &CDocument,
    p: &CProgram,
    number: u64,
    choice: u32,
    runner: &mut Runner,
    out: &mut K,
) -> Result<Stepped, Failed>
    requires program { program_of runner.old ≡ p.now }
    requires slots { slots_of runner.old ≡ doc.now.slots }
    requires choice { choice < length p.now.statements }
    ensures whole { OnOk result (Appends (K.written out.old) (K.written out.new)
        (step_line doc.now p.now number choice (chosen_step doc.now.slots p.now choice (state_of runner.old)))) }
    ensures stepped { IfOk result (λ s. s ≡ stepped (chosen_step doc.now.slots p.now choice (state_of runner.old))) }
    ensures part { OnErr result (AppendsPart (K.written out.old) (K.written out.new)
        (step_line doc.now p.now number choice (chosen_step doc.now.slots p.now choice (state_of runner.old)))) }
    ensures cause { HasCause (K.faults out.old) (K.faults out.new) result }
    ensures state { IfSome (chosen_step doc.now.slots p.now choice (state_of runner.old))
        (λ next. state_of runner.new ≡ next) }
    ensures program { program_of runner.new ≡ p.now }
    ensures slots { slots_of runner.new ≡ doc.now.slots }
{
    match runner.step(choice) {
        Stepped::Done => {
            write_line(doc, p, number, Some(choice), runner.state(), out)?;
            Ok(Stepped::Done)
        }
        Stepped::Undefined => {
            write_undefined(doc, p, number, choice, out)?;
            Ok(Stepped::Undefined)
        }
    }
}
