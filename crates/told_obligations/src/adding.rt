// The origins of the obligations of steps, added one after the other.
ghost use Rattle.std.specs.Prelude.{◌≡◌, ◌++◌, ◌&&◌, cond, map, filter, find, IfOk, OnOk};
ghost use Rattle.std.specs.List.{flat_map};
ghost use Rattle.std.specs.Option.{option_copied, option_map};
ghost use Rattle.core_terms.specs.Trees.{same_form};
ghost use Rattle.core_terms.specs.declared.trees.CForm.TheVariants.{Bottom};
ghost use Rattle.safety_rules.specs.from_rules_table.Walk.{program_of};
ghost use Rattle.safety_rules.specs.Helpers as helpers;
ghost use Rattle.told_obligations.specs.Origins as origin;

use crate::origins::{Asked, Origin};
use case_tables::Kind;
use core_terms::{CDocument, CForm, CProgram, CProof, CRule, CStep, CStmt, Helper, PTerm, Ref};
use fair_rounds::Record;
use rules_steps::find_record;
use safety_rules::{is_invariant, is_same, may_mean, names_some};
use std::alloc::{AllocError, Global};
use unity_base::{Seq, Shared};

// The same is asked of each instance.
fn add_each(
    asked: Asked,
    statements: &[Shared<CStmt>],
    origins: &mut Seq<Origin>,
) -> Result<(), AllocError>
    ensures { OnOk result (origins.new ≡ origins.old ++ origin.each asked statements.now) }
{
    for statement in statements {
        origins.push(Origin::Of(asked, statement.share()?))?;
    }
    Ok(())
}

// What is asked of the instances that a helper may mean.
fn add_helping(
    h: &Helper,
    statements: &[Shared<CStmt>],
    origins: &mut Seq<Origin>,
) -> Result<(), AllocError>
    ensures { OnOk result (origins.new ≡ origins.old
        ++ origin.each Asked.Helps (filter (helpers.may_mean h.now) statements.now)) }
{
    for statement in statements {
        if may_mean(h, statement.get()) {
            origins.push(Origin::Of(Asked::Helps, statement.share()?))?;
        }
    }
    Ok(())
}

// What is asked of an instance where p may hold until q does.
fn passing(q: &CForm) -> Asked
    ensures { result ≡ origin.passing q.now }
{
    if is_same(q, &CForm::Bottom) {
        Asked::Keeps
    } else {
        Asked::Goes
    }
}

// By the program's text.
fn add_text(
    kind: Kind,
    q: &CForm,
    statements: &[Shared<CStmt>],
    origins: &mut Seq<Origin>,
) -> Result<(), AllocError>
    ensures { OnOk result (origins.new ≡ origins.old ++ origin.text_origins kind q.now statements.now) }
{
    match kind {
        Kind::Defined => add_each(Asked::Defined, statements, origins),
        Kind::Invariant => {
            origins.push(Origin::Start)?;
            add_each(Asked::Keeps, statements, origins)
        }
        Kind::Unless => add_each(passing(q), statements, origins),
        Kind::Fixed => add_each(Asked::Rests, statements, origins),
        _ => Ok(()),
    }
}

// By the program's text, with a statement that helps.
fn add_helped(
    h: &Helper,
    statements: &[Shared<CStmt>],
    origins: &mut Seq<Origin>,
) -> Result<(), AllocError>
    ensures { OnOk result (origins.new ≡ origins.old ++ origin.helped_origins h.now statements.now) }
{
    add_each(Asked::Goes, statements, origins)?;
    if names_some(h.args.as_slice()) {
        origins.push(Origin::Meant)?;
    }
    add_helping(h, statements, origins)
}

// Whether an invariant claims this formula.
fn claims(made: &Record, form: &CForm) -> bool
    ensures { result ≡ origin.claims form.now made.now }
{
    is_invariant(made.kind) && is_same(&made.p, form)
}

// The name of the first invariant that claims this formula.
fn invariant_of(records: &[Record], form: &CForm) -> Option<u32>
    ensures { result ≡ origin.invariant_of records.now form.now }
{
    for record in records {
        if claims(record, form) {
            return Some(record.name);
        }
    }
    None
}

// What holds where a record was proved.
fn add_forms(
    records: &[Record],
    forms: &[CForm],
    origins: &mut Seq<Origin>,
) -> Result<(), AllocError>
    ensures { OnOk result (origins.new ≡ origins.old ++ map (origin.shown records.now) forms.now) }
{
    for form in forms {
        origins.push(Origin::Shown(invariant_of(records, form)))?;
    }
    Ok(())
}

// What the step of a part was proved under.
fn add_part(records: &[Record], r: &Ref, origins: &mut Seq<Origin>) -> Result<(), AllocError>
    ensures { OnOk result (origins.new ≡ origins.old ++ origin.part_origins records.now r.now) }
{
    match find_record(r.program, r.step, records) {
        Some(record) => add_forms(records, record.under.as_slice(), origins),
        None => Ok(()),
    }
}

// By a proof term: its parts first.
fn add_term(t: &PTerm, origins: &mut Seq<Origin>) -> Result<(), AllocError>
    ensures { OnOk result (origins.new ≡ origins.old ++ origin.term_origins t.now) }
{
    match t {
        PTerm::Imply(_, _) => origins.push(Origin::Given),
        PTerm::From(_) => Ok(()),
        PTerm::Trans(t, u) => {
            add_term(t.get(), origins)?;
            add_term(u.get(), origins)
        }
        PTerm::Either(t, u) => {
            add_term(t.get(), origins)?;
            add_term(u.get(), origins)
        }
        PTerm::Exists(_, _, t) => add_term(t.get(), origins),
        PTerm::Induct(_, _, _, _, _, t) => {
            add_term(t.get(), origins)?;
            origins.push(Origin::Measure)
        }
        PTerm::Psp(t, _) => add_term(t.get(), origins),
        PTerm::Weaken(_, _, t) => {
            add_term(t.get(), origins)?;
            origins.push(Origin::LeftSide)?;
            origins.push(Origin::RightSide)
        }
    }
}

// The origins of a step's obligations.
fn add_step(
    program: &CProgram,
    records: &[Record],
    step: &CStep,
    origins: &mut Seq<Origin>,
) -> Result<(), AllocError>
    ensures { OnOk result (origins.new ≡ origins.old ++ origin.step_origins program.now records.now step.now) }
{
    let statements = program.statements.as_slice();
    match &step.rule {
        CRule::Text => add_text(step.kind, &step.q, statements, origins),
        CRule::TextWith(h) => add_helped(h, statements, origins),
        CRule::WeakenStep(_) => origins.push(Origin::RightSide),
        CRule::Union(r, s) => {
            add_part(records, r, origins)?;
            add_part(records, s, origins)
        }
        CRule::Superpose(r) => origins.push(Origin::Begins(program.name, r.program)),
        CRule::Proof(t) => add_term(t, origins),
        CRule::Pair(_, _, _) | CRule::Complete(_, _, _, _) => Ok(()),
    }
}

fn add_steps(
    program: &CProgram,
    records: &[Record],
    steps: &[CStep],
    origins: &mut Seq<Origin>,
) -> Result<(), AllocError>
    ensures { OnOk result (origins.new ≡ origins.old
        ++ flat_map (origin.step_origins program.now records.now) steps.now) }
{
    for step in steps {
        add_step(program, records, step, origins)?;
    }
    Ok(())
}

// The program with this name's number.
fn find_program(name: u32, programs: &[CProgram]) -> Option<&CProgram>
    ensures { option_copied result ≡ program_of programs.now name }
{
    for program in programs {
        if program.name == name {
            return Some(program);
        }
    }
    None
}

fn add_proof(
    programs: &[CProgram],
    records: &[Record],
    proof: &CProof,
    origins: &mut Seq<Origin>,
) -> Result<(), AllocError>
    ensures { OnOk result (origins.new ≡ origins.old ++ origin.proof_origins programs.now records.now proof.now) }
{
    match find_program(proof.program, programs) {
        Some(program) => add_steps(program, records, proof.steps.as_slice(), origins),
        None => Ok(()),
    }
}

/// The origins of the obligations that a document's steps leave, in order, where the steps gave these records.
///
/// The error is that memory was refused.
pub fn origins_of(
    alloc: Global,
    doc: &CDocument,
    records: &[Record],
) -> Result<Seq<Origin>, AllocError>
    ensures { IfOk result (λ origins. origins ≡ origin.document_origins doc.now records.now) }
{
    let mut origins = Seq::new(alloc);
    for proof in doc.proofs.as_slice() {
        add_proof(doc.programs.as_slice(), records, proof, &mut origins)?;
    }
    Ok(origins)
}
