//! What each node of a certificate makes of a branch.
ghost use Rattle.std.specs.Prelude.{◌≡◌, ◌<◌, IfErr, OnOk};
ghost use Rattle.std.specs.Prelude.{true, false, Ok, length};
ghost use Rattle.obligations.specs.Settling.{added};
ghost use Rattle.obligations.specs.Obligations.{AreOwn};
ghost use Rattle.std.specs.List.{list_all};
ghost use Rattle.obligations.specs.Load.{in_limit};
ghost use Rattle.certificate_rules.specs.Refutation.{case_at, quot_at, split_at, made_sum};
ghost use Rattle.certificate_rules.specs.Refutation.{made_round};
ghost use Rattle.certificate_rules.specs.Refutation.{made_share};
ghost use Rattle.certificate_machine.specs.Machines.{IsFit, IsLightMachine, Goes};
ghost use Rattle.certificate_machine.specs.Machines.{GoesErr, IsScoped};
ghost use Rattle.certificate_machine.specs.Sums.{sum_line};

use crate::errors::Stop;
use crate::facts::{add, bound_above};
use crate::frames::{Frame, Machine, Todo, go_back};
use crate::running::Running;
use case_tables::Code;
use obligations::{
    Side, Variable, add_quotient, is_either, next_param, settle_side, without_quotient,
};
use std::alloc::Global;
use unity_base::Held;

/// Takes the waiting formula of this number out, and goes on with its first side settled.
pub fn open_case(alloc: Global, vs: &[Variable], machine: &mut Machine, k: u64) -> Result<(), Stop>
    requires own { AreOwn vs.now }
    requires scoped { IsScoped vs.now machine.old }
    requires fits { IsFit machine.old }
    requires levels { 0 < machine.old.levels }
    requires going { machine.old.done ≡ false }
    requires light { IsLightMachine machine.old }
    ensures ok { OnOk result
        (Goes vs.now machine.old (case_at machine.old.variables machine.old.branch k) machine.new) }
    ensures light { OnOk result (IsLightMachine machine.new) }
    ensures scoped { OnOk result (IsScoped vs.now machine.new) }
    ensures err { IfErr result (GoesErr vs.now machine.old (case_at machine.old.variables machine.old.branch k)) }
{
    if k == 0 || k as usize > machine.branch.waiting.len() {
        return Err(Stop::Fault(Code::NothingToCase));
    }
    let place = k as usize - 1;
    let form = machine.branch.waiting.remove(place);
    if !is_either(form.get()) {
        return Err(Stop::Fault(Code::NothingToCase));
    }
    let facts = machine.branch.facts.len();
    let waits = machine.branch.waiting.len();
    let added = machine.branch.added;
    settle_side(
        alloc,
        machine.variables.as_slice(),
        form.get(),
        Side::First,
        &mut machine.branch,
    )?;
    machine.frames.push(Frame {
        levels: machine.levels,
        facts,
        waits,
        added,
        todo: Todo::Form { place, form },
        first: true,
    })?;
    machine.levels -= 1;
    Ok(())
}

/// Takes the waiting formula of this number out, and goes on with its first quotient taken.
pub fn open_quot(alloc: Global, vs: &[Variable], machine: &mut Machine, k: u64) -> Result<(), Stop>
    requires own { AreOwn vs.now }
    requires scoped { IsScoped vs.now machine.old }
    requires fits { IsFit machine.old }
    requires levels { 0 < machine.old.levels }
    requires going { machine.old.done ≡ false }
    requires light { IsLightMachine machine.old }
    ensures ok { OnOk result
        (Goes vs.now machine.old (quot_at machine.old.variables machine.old.branch k) machine.new) }
    ensures light { OnOk result (IsLightMachine machine.new) }
    ensures scoped { OnOk result (IsScoped vs.now machine.new) }
    ensures err { IfErr result (GoesErr vs.now machine.old (quot_at machine.old.variables machine.old.branch k)) }
{
    if k == 0 || k as usize > machine.branch.waiting.len() {
        return Err(Stop::Fault(Code::NothingToQuot));
    }
    let place = k as usize - 1;
    let form = machine.branch.waiting.remove(place);
    let next = next_param(machine.variables.as_slice()) as u32;
    let Some(replaced) = without_quotient(alloc, next, form.get())? else {
        return Err(Stop::Fault(Code::NothingToQuot));
    };
    let facts = machine.branch.facts.len();
    let waits = machine.branch.waiting.len();
    let added = machine.branch.added;
    add_quotient(
        alloc,
        &mut machine.variables,
        &replaced,
        &mut machine.branch,
    )?;
    machine.frames.push(Frame {
        levels: machine.levels,
        facts,
        waits,
        added,
        todo: Todo::Form { place, form },
        first: false,
    })?;
    machine.levels -= 1;
    Ok(())
}

/// Goes on with a variable at most a number.
pub fn open_split(
    alloc: Global,
    vs: &[Variable],
    machine: &mut Machine,
    variable: u64,
    k: i64,
) -> Result<(), Stop>
    requires own { AreOwn vs.now }
    requires scoped { IsScoped vs.now machine.old }
    requires fits { IsFit machine.old }
    requires levels { 0 < machine.old.levels }
    requires going { machine.old.done ≡ false }
    requires light { IsLightMachine machine.old }
    ensures ok { OnOk result
        (Goes vs.now machine.old (split_at machine.old.variables machine.old.branch variable k) machine.new) }
    ensures light { OnOk result (IsLightMachine machine.new) }
    ensures scoped { OnOk result (IsScoped vs.now machine.new) }
    ensures err { IfErr result
        (GoesErr vs.now machine.old (split_at machine.old.variables machine.old.branch variable k)) }
{
    if variable == 0 || variable as usize > machine.variables.len() {
        return Err(Stop::Fault(Code::NoSuchVariable));
    }
    let place = (variable - 1) as u32;
    let facts = machine.branch.facts.len();
    let waits = machine.branch.waiting.len();
    let added = machine.branch.added;
    add(&mut machine.branch, bound_above(alloc, place, k as i128))?;
    machine.frames.push(Frame {
        levels: machine.levels,
        facts,
        waits,
        added,
        todo: Todo::Bound {
            variable: place,
            most: k,
        },
        first: true,
    })?;
    machine.levels -= 1;
    Ok(())
}

/// Goes on where a statement is false, and then with it.
pub fn open_share(
    alloc: Global,
    vs: &[Variable],
    machine: &mut Machine,
    sum: &Running,
) -> Result<(), Stop>
    requires own { AreOwn vs.now }
    requires scoped { IsScoped vs.now machine.old }
    requires fits { IsFit machine.old }
    requires levels { 0 < machine.old.levels }
    requires going { machine.old.done ≡ false }
    requires light { IsLightMachine machine.old }
    requires size { length (sum_line sum.now).factors ≡ length machine.old.variables }
    requires factors { list_all in_limit (sum_line sum.now).factors ≡ true }
    requires constant { in_limit (sum_line sum.now).constant ≡ true }
    ensures ok { OnOk result
        (Goes vs.now machine.old (made_share machine.old.branch (Ok (sum_line sum.now))) machine.new) }
    ensures light { OnOk result (IsLightMachine machine.new) }
    ensures scoped { OnOk result (IsScoped vs.now machine.new) }
    ensures err { IfErr result (GoesErr vs.now machine.old (made_share machine.old.branch (Ok (sum_line sum.now)))) }
{
    let facts = machine.branch.facts.len();
    let waits = machine.branch.waiting.len();
    let added = machine.branch.added;
    add(&mut machine.branch, sum.statement(alloc, true)?)?;
    machine.frames.push(Frame {
        levels: machine.levels,
        facts,
        waits,
        added,
        todo: Todo::Fact(Held::new(alloc, sum.statement(alloc, false)?)?),
        first: true,
    })?;
    machine.levels -= 1;
    Ok(())
}

/// Closes the branch by a sum, and goes back.
pub fn close(
    alloc: Global,
    vs: &[Variable],
    machine: &mut Machine,
    sum: &Running,
) -> Result<(), Stop>
    requires own { AreOwn vs.now }
    requires scoped { IsScoped vs.now machine.old }
    requires fits { IsFit machine.old }
    requires going { machine.old.done ≡ false }
    requires light { IsLightMachine machine.old }
    ensures ok { OnOk result
        (Goes vs.now machine.old (made_sum (Ok (sum_line sum.now))) machine.new) }
    ensures light { OnOk result (IsLightMachine machine.new) }
    ensures scoped { OnOk result (IsScoped vs.now machine.new) }
    ensures err { IfErr result
        (GoesErr vs.now machine.old (made_sum (Ok (sum_line sum.now)))) }
{
    if !sum.closes() {
        return Err(Stop::Fault(Code::BadSum));
    }
    go_back(alloc, vs, machine)?;
    Ok(())
}

/// Adds a rounded sum as a fact.
#[tactic(auto, using(crate::proofs::MachineLaws::round_laws))]
pub fn round(
    alloc: Global,
    vs: &[Variable],
    machine: &mut Machine,
    d: i64,
    sum: &Running,
) -> Result<(), Stop>
    requires own { AreOwn vs.now }
    requires scoped { IsScoped vs.now machine.old }
    requires fits { IsFit machine.old }
    requires levels { 0 < machine.old.levels }
    requires going { machine.old.done ≡ false }
    requires light { IsLightMachine machine.old }
    requires size { length (sum_line sum.now).factors ≡ length machine.old.variables }
    ensures ok { OnOk result
        (Goes vs.now machine.old (made_round machine.old.branch d (Ok (sum_line sum.now))) machine.new) }
    ensures light { OnOk result (IsLightMachine machine.new) }
    ensures scoped { OnOk result (IsScoped vs.now machine.new) }
    ensures err { IfErr result
        (GoesErr vs.now machine.old (made_round machine.old.branch d (Ok (sum_line sum.now)))) }
{
    if !sum.is_divided(d) {
        return Err(Stop::Fault(Code::NotDivisible));
    }
    add(&mut machine.branch, sum.rounded(alloc, d)?)?;
    machine.levels -= 1;
    Ok(())
}
