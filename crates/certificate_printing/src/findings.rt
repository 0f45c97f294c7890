// Why a certificate is missing.
ghost use Rattle.std.specs.Prelude.{◌≡◌, ◌++◌, IfOk, OnOk, find, nat_eq, slice_get};
ghost use Rattle.std.specs.Fmt.{signed_decimal};
ghost use Rattle.std.specs.Option.{option_copied};
ghost use Rattle.schedule_replay.specs.Lines as line;
ghost use Rattle.certificate_printing.specs.Findings as finding;

use core_terms::{CDocument, CProof, CSlot, CStep, Print};
use obligations::Variable;
use std::alloc::{AllocError, Global};
use unity_base::Seq;

// The word of this number.
fn word(words: &[Seq<u8>], number: u32) -> &[u8]
    ensures { result.now ≡ line.word_text words.now number }
{
    match words.get(number as usize) {
        Some(found) => found.as_slice(),
        None => &[],
    }
}

// `PROGRAM.STEP`.
fn push_place(
    words: &[Seq<u8>],
    program: u32,
    step: u32,
    text: &mut Vec<u8>,
) -> Result<(), AllocError>
    ensures { OnOk result (text.new.items ≡ text.old.items ++ finding.place_text words.now program step) }
{
    text.extend_from_slice(word(words, program))?;
    text.extend_from_slice(b".")?;
    text.extend_from_slice(word(words, step))
}

// `PROGRAM.STEP obligation N`.
fn push_obligation(
    alloc: Global,
    words: &[Seq<u8>],
    program: u32,
    step: u32,
    number: u64,
    text: &mut Vec<u8>,
) -> Result<(), AllocError>
    ensures { OnOk result (text.new.items ≡ text.old.items ++ finding.obligation_text words.now program step number) }
{
    push_place(words, program, step, text)?;
    let part = format!(in alloc; " obligation {number}")?;
    text.extend_from_slice(part.as_bytes())
}

/// `budget PROGRAM.STEP obligation N spent BUDGET`, on a line: the budget does not suffice for an obligation.
///
/// The error is that memory was refused.
pub fn budget_text(
    alloc: Global,
    words: &[Seq<u8>],
    program: u32,
    step: u32,
    obligation: u64,
    budget: u64,
) -> Result<Vec<u8>, AllocError>
    ensures { IfOk result (λ text. text.items ≡ finding.budget_text words.now program step obligation budget) }
{
    let mut text = Vec::new(alloc);
    text.extend_from_slice(b"budget ")?;
    push_obligation(alloc, words, program, step, obligation, &mut text)?;
    let last = format!(in alloc; " spent {budget}\n")?;
    text.extend_from_slice(last.as_bytes())?;
    Ok(text)
}

// A number, with `-` before it if it is negative.
fn push_signed(alloc: Global, number: i64, text: &mut Vec<u8>) -> Result<(), AllocError>
    ensures { OnOk result (text.new.items ≡ text.old.items ++ signed_decimal number) }
{
    let part = format!(in alloc; "{number}")?;
    text.extend_from_slice(part.as_bytes())
}

// The word for a number of an enumeration.
fn place_word<'a>(words: &'a [Seq<u8>], places: &[u32], number: i64) -> &'a [u8]
    ensures { result.now ≡ line.place_text words.now places.now number }
{
    if number < 0 {
        return &[];
    }
    match places.get(number as usize) {
        Some(place) => word(words, *place),
        None => &[],
    }
}

// A slot's number, as the slot's numbers are written.
fn push_value(
    alloc: Global,
    words: &[Seq<u8>],
    print: &Print,
    number: i64,
    text: &mut Vec<u8>,
) -> Result<(), AllocError>
    ensures { OnOk result (text.new.items ≡ text.old.items ++ line.value_text words.now print.now number) }
{
    match print {
        Print::Number => push_signed(alloc, number, text),
        Print::Truth => {
            if number == 0 {
                text.extend_from_slice(b"false")
            } else {
                text.extend_from_slice(b"true")
            }
        }
        Print::Words(places) => {
            text.extend_from_slice(place_word(words, places.as_slice(), number))
        }
    }
}

// An array's index in square brackets.
fn push_index(alloc: Global, index: Option<i64>, text: &mut Vec<u8>) -> Result<(), AllocError>
    ensures { OnOk result (text.new.items ≡ text.old.items ++ line.index_text index) }
{
    match index {
        None => Ok(()),
        Some(number) => {
            let part = format!(in alloc; "[{number}]")?;
            text.extend_from_slice(part.as_bytes())
        }
    }
}

// The line of a slot.
fn push_slot(
    alloc: Global,
    words: &[Seq<u8>],
    slot: &CSlot,
    value: i64,
    text: &mut Vec<u8>,
) -> Result<(), AllocError>
    ensures { OnOk result (text.new.items ≡ text.old.items ++ finding.slot_line words.now slot.now value) }
{
    text.extend_from_slice(word(words, slot.name))?;
    push_index(alloc, slot.index, text)?;
    text.extend_from_slice(b" = ")?;
    push_value(alloc, words, &slot.print, value, text)?;
    text.extend_from_slice(b"\n")
}

// The line of a parameter.
fn push_param(
    alloc: Global,
    words: &[Seq<u8>],
    name: u32,
    value: i64,
    text: &mut Vec<u8>,
) -> Result<(), AllocError>
    ensures { OnOk result (text.new.items ≡ text.old.items ++ finding.param_line words.now name value) }
{
    text.extend_from_slice(word(words, name))?;
    text.extend_from_slice(b" = ")?;
    push_signed(alloc, value, text)?;
    text.extend_from_slice(b"\n")
}

// The line of a variable.
fn push_variable(
    alloc: Global,
    doc: &CDocument,
    names: &[u32],
    variable: Variable,
    value: i64,
    text: &mut Vec<u8>,
) -> Result<(), AllocError>
    ensures { OnOk result (text.new.items ≡ text.old.items
        ++ finding.variable_line doc.now names.now variable value) }
{
    let words = doc.words.as_slice();
    if variable.param {
        match names.get(variable.number as usize) {
            Some(name) => push_param(alloc, words, *name, value, text),
            None => Ok(()),
        }
    } else {
        match doc.slots.get(variable.number as usize) {
            Some(slot) => push_slot(alloc, words, slot, value, text),
            None => Ok(()),
        }
    }
}

// The line of the variable at a place.
fn push_at(
    alloc: Global,
    doc: &CDocument,
    names: &[u32],
    variables: &[Variable],
    values: &[i64],
    place: usize,
    text: &mut Vec<u8>,
) -> Result<(), AllocError>
    ensures { OnOk result (text.new.items ≡ text.old.items
        ++ finding.line_of doc.now names.now (slice_get variables.now place) (slice_get values.now place)) }
{
    match variables.get(place) {
        Some(variable) => match values.get(place) {
            Some(value) => push_variable(alloc, doc, names, *variable, *value, text),
            None => Ok(()),
        },
        None => Ok(()),
    }
}

// The lines of variables, as far as there are values.
fn push_variables(
    alloc: Global,
    doc: &CDocument,
    names: &[u32],
    variables: &[Variable],
    values: &[i64],
    text: &mut Vec<u8>,
) -> Result<(), AllocError>
    ensures { OnOk result (text.new.items ≡ text.old.items
        ++ finding.variable_lines doc.now names.now variables.now values.now) }
{
    for place in 0..variables.len() {
        push_at(alloc, doc, names, variables, values, place, text)?;
    }
    Ok(())
}

// The step of this name.
fn find_step(name: u32, steps: &[CStep]) -> Option<&CStep>
    ensures { option_copied result ≡ find (λ s. nat_eq s.name name) steps.now }
{
    for step in steps {
        if step.name == name {
            return Some(step);
        }
    }
    None
}

// The proof of the program of this name.
fn find_proof(program: u32, proofs: &[CProof]) -> Option<&CProof>
    ensures { option_copied result ≡ find (λ p. nat_eq p.program program) proofs.now }
{
    for proof in proofs {
        if proof.program == program {
            return Some(proof);
        }
    }
    None
}

/// The names of a step's parameters.
pub fn names_of(doc: &CDocument, program: u32, step: u32) -> &[u32]
    ensures { result.now ≡ finding.names_of doc.now program step }
{
    match find_proof(program, doc.proofs.as_slice()) {
        Some(proof) => match find_step(step, proof.steps.as_slice()) {
            Some(found) => found.param_names.as_slice(),
            None => &[],
        },
        None => &[],
    }
}

/// `refuted PROGRAM.STEP obligation N`, on a line, and then a line `NAME = VALUE` for each variable: values at which
/// an obligation is false. A slot is written with its index, where it has one, and its value as in a trace.
///
/// The error is that memory was refused.
pub fn refuted_text(
    alloc: Global,
    doc: &CDocument,
    program: u32,
    step: u32,
    obligation: u64,
    variables: &[Variable],
    values: &[i64],
) -> Result<Vec<u8>, AllocError>
    ensures { IfOk result (λ text. text.items ≡ finding.refuted_text doc.now program step obligation variables.now
        values.now) }
{
    let mut text = Vec::new(alloc);
    text.extend_from_slice(b"refuted ")?;
    push_obligation(
        alloc,
        doc.words.as_slice(),
        program,
        step,
        obligation,
        &mut text,
    )?;
    text.extend_from_slice(b"\n")?;
    let names = names_of(doc, program, step);
    push_variables(alloc, doc, names, variables, values, &mut text)?;
    Ok(text)
}
