// The schedule of a document.
ghost use Rattle.std.specs.Prelude.{◌≡◌, ◌<◌, ◌≤◌, ◌↔◌, length, map, All, IfOk, IfErr, IfSome, IsErrOf, None, Some};
ghost use Rattle.core_terms.specs.Conditions.{EachPair, AreApart, IsCoreDocument};
ghost use Rattle.schedule_replay.specs.Schedules as named;

use crate::schedule::ScheduleError;
use core_terms::from_case_tables::Code;
use core_terms::{CDocument, CStmt, Choice};
use std::alloc::{AllocError, Global};
use std::cmp::Ordering;
use unity_base::{Seq, Shared};

/// The places of the instances that the document's schedule names, in order.
pub fn read_schedule(alloc: Global, doc: &CDocument) -> Result<Seq<u32>, ScheduleError>
    requires { IsCoreDocument doc.now }
    ensures places { IfOk result (named.IsSchedule doc.now) }
    ensures instances { IfOk result (named.AreInstances doc.now) }
    ensures refused { IfErr result (named.HasNoSchedule doc.now) }
    ensures no_schedule { IsErrOf result ScheduleError.NoSchedule ↔ (doc.now.schedule ≡ None) }
{
    match &doc.schedule {
        None => Err(ScheduleError::NoSchedule),
        Some(schedule) => {
            let statements = statements_of(doc, schedule.program);
            places_of(alloc, statements, schedule.choices.as_slice())
        }
    }
}

// The instances of the program of this name.
fn statements_of(doc: &CDocument, name: u32) -> &[Shared<CStmt>]
    requires { IsCoreDocument doc.now }
    ensures statements { result.now ≡ named.statements_of doc.now name }
    ensures few { length result.now ≤ 4096 }
    ensures apart { EachPair AreApart result.now }
{
    for p in doc.programs.as_slice() {
        if p.name == name {
            return p.statements.as_slice();
        }
    }
    &[]
}

// The places of the instances that choices name.
fn places_of(
    alloc: Global,
    statements: &[Shared<CStmt>],
    choices: &[Choice],
) -> Result<Seq<u32>, ScheduleError>
    requires few { length statements.now ≤ 4096 }
    requires apart { EachPair AreApart statements.now }
    ensures places { IfOk result (λ places. map Some places ≡ map (named.place_of statements.now) choices.now) }
    ensures below { IfOk result (λ places. All (λ n. n < length statements.now) places) }
    ensures refused { IfErr result (named.HasNoPlaces statements.now choices.now) }
{
    let order = order_of(alloc, statements)?;
    let mut places = Seq::new(alloc);
    for choice in choices {
        match place_of(statements, order.as_slice(), choice) {
            Some(place) => places.push(place)?,
            None => {
                return Err(ScheduleError::Fault {
                    code: Code::NoSuchStatement,
                    at: choice.at,
                });
            }
        }
    }
    Ok(places)
}

// The place of the instance that a choice names. The order says where to look first.
fn place_of(statements: &[Shared<CStmt>], order: &[u32], choice: &Choice) -> Option<u32>
    requires few { length statements.now ≤ 4096 }
    requires apart { EachPair AreApart statements.now }
    ensures { result ≡ named.place_of statements.now choice.now }
{
    match guess(statements, order, choice) {
        Some(place) => Some(place),
        None => first_place(statements, choice),
    }
}

// A place at which the instance stands that a choice names, where the order leads to one.
fn guess(statements: &[Shared<CStmt>], order: &[u32], choice: &Choice) -> Option<u32>
    requires few { length statements.now ≤ 4096 }
    requires apart { EachPair AreApart statements.now }
    ensures { IfSome result (λ place. named.place_of statements.now choice.now ≡ Some place) }
{
    let indices = choice.indices.as_slice();
    let found = order.binary_search_by(|place| {
        let (label, values) = key(statements, *place);
        compared(label, values, choice.label, indices)
    });
    let place = *order.get(found.ok()?)?;
    let index = place as usize;
    if index < statements.len() && is_named(choice, statements[index].get()) {
        Some(place)
    } else {
        None
    }
}

// The place of the first instance that a choice names.
fn first_place(statements: &[Shared<CStmt>], choice: &Choice) -> Option<u32>
    requires { length statements.now ≤ 4096 }
    ensures { result ≡ named.place_of statements.now choice.now }
{
    for place in 0..statements.len() {
        if is_named(choice, statements[place].get()) {
            return Some(place as u32);
        }
    }
    None
}

fn is_named(choice: &Choice, statement: &CStmt) -> bool
    ensures { result ≡ named.names_instance choice.now statement.now }
{
    statement.label == choice.label && statement.indices.as_slice() == choice.indices.as_slice()
}

// The places of all statements, in the order of their labels and indices.
fn order_of(alloc: Global, statements: &[Shared<CStmt>]) -> Result<Vec<u32>, AllocError>
    requires { length statements.now ≤ 4096 }
{
    let mut order = Vec::new(alloc);
    for place in 0..statements.len() {
        order.push(place as u32)?;
    }
    order.sort_unstable_by(|a, b| {
        let (label, indices) = key(statements, *a);
        let (other_label, other_indices) = key(statements, *b);
        compared(label, indices, other_label, other_indices)
    });
    Ok(order)
}

// The label and the indices of the statement at a place.
fn key(statements: &[Shared<CStmt>], place: u32) -> (u32, &[i64]) {
    match statements.get(place as usize) {
        Some(statement) => (statement.get().label, statement.get().indices.as_slice()),
        None => (0, &[]),
    }
}

fn compared(label: u32, indices: &[i64], other_label: u32, other_indices: &[i64]) -> Ordering {
    label
        .cmp(&other_label)
        .then_with(|| indices.cmp(other_indices))
}
