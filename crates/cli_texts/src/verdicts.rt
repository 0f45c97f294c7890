// The verdict on a document's proofs.
ghost use Rattle.std.specs.Prelude.{◌≡◌, ◌++◌, IfOk, OnOk};
ghost use Rattle.std.specs.List.{flat_map};
ghost use Rattle.schedule_replay.specs.Lines.{word_text};
ghost use Rattle.cli_texts.specs.Verdicts as verdict;

use case_tables::{Kind, number};
use fair_rounds::Record;
use proof_plans::StepFault;
use std::alloc::{AllocError, Global};
use unity_base::Seq;

// The word of this number.
fn word(words: &[Seq<u8>], number: u32) -> &[u8]
    ensures { result.now ≡ word_text words.now number }
{
    match words.get(number as usize) {
        Some(found) => found.as_slice(),
        None => &[],
    }
}

// ` KIND`, and its bound too where it leads to something.
fn push_kind(alloc: Global, text: &mut Vec<u8>, kind: Kind, bound: u64) -> Result<(), AllocError>
    ensures { OnOk result (text.new.items ≡ text.old.items ++ verdict.kind_text kind bound) }
{
    let line = match kind {
        Kind::Leadsto | Kind::Until | Kind::Detects => format!(in alloc;
            " {} {bound}\n",
            kind.name()
        )?,
        _ => format!(in alloc; " {}\n", kind.name())?,
    };
    text.extend_from_slice(line.as_bytes())
}

// `PROGRAM.STEP KIND`, on a line.
fn push_step(
    alloc: Global,
    words: &[Seq<u8>],
    made: &Record,
    text: &mut Vec<u8>,
) -> Result<(), AllocError>
    ensures { OnOk result (text.new.items ≡ text.old.items ++ verdict.step_line words.now made.now) }
{
    text.extend_from_slice(word(words, made.program))?;
    text.extend_from_slice(b".")?;
    text.extend_from_slice(word(words, made.name))?;
    push_kind(alloc, text, made.kind, made.bound)
}

// The lines of steps.
fn push_steps(
    alloc: Global,
    words: &[Seq<u8>],
    records: &[Record],
    text: &mut Vec<u8>,
) -> Result<(), AllocError>
    ensures { OnOk result (text.new.items ≡ text.old.items ++ flat_map (verdict.step_line words.now) records.now) }
{
    for made in records {
        push_step(alloc, words, made, text)?;
    }
    Ok(())
}

/// `accepted S steps O obligations`, and then a line `PROGRAM.STEP KIND` for each step, of a leads-to with its
/// bound: of steps with these records, which left so many obligations.
///
/// The error is that memory was refused.
pub fn accepted(
    alloc: Global,
    words: &[Seq<u8>],
    records: &[Record],
    obligations: u64,
) -> Result<Vec<u8>, AllocError>
    ensures { IfOk result (λ text. text.items ≡ verdict.accepted_lines words.now records.now obligations) }
{
    let steps = records.len();
    let first = format!(in alloc; "accepted {steps} steps {obligations} obligations\n")?;
    let mut text = first.into_bytes();
    push_steps(alloc, words, records, &mut text)?;
    Ok(text)
}

// ` PROGRAM.STEP`, ` PROGRAM`, or nothing.
fn push_place(
    words: &[Seq<u8>],
    program: Option<u32>,
    step: Option<u32>,
    text: &mut Vec<u8>,
) -> Result<(), AllocError>
    ensures { OnOk result (text.new.items ≡ text.old.items ++ verdict.place_text words.now program step) }
{
    let Some(program) = program else {
        return Ok(());
    };
    text.extend_from_slice(b" ")?;
    text.extend_from_slice(word(words, program))?;
    let Some(step) = step else {
        return Ok(());
    };
    text.extend_from_slice(b".")?;
    text.extend_from_slice(word(words, step))
}

// ` obligation N`, or nothing.
fn push_obligation(
    alloc: Global,
    obligation: Option<u64>,
    text: &mut Vec<u8>,
) -> Result<(), AllocError>
    ensures { OnOk result (text.new.items ≡ text.old.items ++ verdict.obligation_text obligation) }
{
    let Some(number) = obligation else {
        return Ok(());
    };
    let part = format!(in alloc; " obligation {number}")?;
    text.extend_from_slice(part.as_bytes())
}

/// `rejected CODE NAME PROGRAM.STEP obligation N`, on a line: the first failure, without the parts that it does not
/// have.
///
/// The error is that memory was refused.
pub fn rejected(alloc: Global, words: &[Seq<u8>], fault: &StepFault) -> Result<Vec<u8>, AllocError>
    ensures { IfOk result (λ text. text.items ≡ verdict.rejected_text words.now fault.now) }
{
    let first = format!(in alloc; "rejected {} {}", number(fault.code), fault.code.name())?;
    let mut text = first.into_bytes();
    push_place(words, fault.program, fault.step, &mut text)?;
    push_obligation(alloc, fault.obligation, &mut text)?;
    text.extend_from_slice(b"\n")?;
    Ok(text)
}
