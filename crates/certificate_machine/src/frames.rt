//! The branch that a certificate's next node belongs to. One branch is held, and for each open `case`, `split`, `share`
//! and `quot` a frame that says how it goes on after the first subtree: the branch grows at the ends of its lists, and
//! is cut back for the second one. A `quot` has no second one.
ghost use Rattle.std.specs.Prelude.{◌≡◌, ◌≤◌, ◌<◌, ◌^◌, ◌∷◌, IfOk, OnOk};
ghost use Rattle.std.specs.Prelude.{true, false, Ok, length, reverse, ℕ, pos, []};
ghost use Rattle.obligations.specs.Settling.{added};
ghost use Rattle.obligations.specs.Load.{is_light_branch};
ghost use Rattle.obligations.specs.Obligations.{AreVariables, AreOwn};
ghost use Rattle.obligations.specs.Scopes.{scope, scope_of};
ghost use Rattle.certificate_machine.specs.Machines.{base_of, full_by, second_by, behind, place_fits, FramesFit};
ghost use Rattle.certificate_machine.specs.Machines.{pendings};
ghost use Rattle.certificate_machine.specs.Machines.{IsFit, rest_of, is_light_todo, IsLightMachine};
ghost use Rattle.certificate_machine.specs.Machines.{IsScoped, spent};

use crate::facts::{add, bound_below};
use core_terms::CForm;
use obligations::{Branch, Fact, Side, Variable, settle_side};
use std::alloc::{AllocError, Global};
use unity_base::{Held, Seq, Shared};

/// What a frame keeps: how its branch goes on in a second subtree, and what is put back into it at the end.
#[derive(Drop)]
pub enum Todo {
    /// The waiting formula that was taken from this place. Its other side is settled for the second subtree, and at
    /// the end it is put back.
    Form { place: usize, form: Shared<CForm> },
    /// The second side of a `split`: that this variable is above `most` is added. The fact is made only then.
    Bound { variable: u32, most: i64 },
    /// The statement of a `share`, which is added.
    Fact(Held<Fact>),
    /// Nothing is added or put back: the second subtree of a `split` or a `share` has begun.
    Nothing,
}

/// A node whose subtrees are being read, with how many levels it is allowed, the lengths of its branch's lists, how
/// many variables were added to it, and whether a second subtree follows.
#[derive(Drop)]
pub struct Frame {
    pub levels: u32,
    pub facts: usize,
    pub waits: usize,
    pub added: u32,
    pub todo: Todo,
    pub first: bool,
}

/// The branch that the next node belongs to, its variables, how many levels are allowed there, and the frames around
/// it, the innermost one last.
#[derive(Drop)]
pub struct Machine {
    pub levels: u32,
    pub branch: Branch,
    pub variables: Seq<Variable>,
    pub frames: Seq<Frame>,
    pub done: bool,
}

/// Cuts a branch back to the lengths of a frame.
#[tactic(auto, using(crate::proofs::MachineLaws::cut_laws))]
fn cut(frame: &Frame, branch: &mut Branch)
    ensures branch { branch.new ≡ base_of frame.now branch.old }
    ensures light { is_light_branch (2 ^ 63) branch.old ≡ true → is_light_branch (2 ^ 63) branch.new ≡ true }
{
    branch.facts.truncate(frame.facts);
    branch.waiting.truncate(frame.waits);
    branch.added = frame.added;
}

/// Cuts the variables of a branch back to those that a frame had.
fn cut_variables(vs: &[Variable], added: u32, variables: &mut Seq<Variable>)
    requires few { length vs.now < 2 ^ 32 }
    requires scope { (n : ℕ) × (variables.old ≡ scope vs.now n) × (added ≤ n) }
    ensures { variables.new ≡ scope vs.now added }
{
    variables.truncate(vs.len() + added as usize);
}

/// Puts back the formula that a frame has taken out, where it has.
#[tactic(auto, using(crate::proofs::MachineLaws::insert_laws))]
fn put_back(todo: Todo, branch: &mut Branch) -> Result<(), AllocError>
    requires place { place_fits todo (length branch.old.waiting) }
    requires taken { is_light_todo todo ≡ true }
    requires waiting { is_light_branch (2 ^ 63) branch.old ≡ true }
    ensures branch { OnOk result (branch.new ≡ full_by todo branch.old) }
    ensures light { OnOk result (is_light_branch (2 ^ 63) branch.new ≡ true) }
{
    match todo {
        Todo::Form { place, form } => branch.waiting.insert(place, form),
        Todo::Bound { .. } | Todo::Fact(_) | Todo::Nothing => Ok(()),
    }
}

/// Makes the branch of a frame's second subtree from the branch cut back, over its variables, and answers what the
/// frame keeps from then on.
#[tactic(auto, using(crate::proofs::MachineLaws::added_laws))]
fn go_second(
    alloc: Global,
    own: &[Variable],
    vs: &[Variable],
    todo: Todo,
    branch: &mut Branch,
) -> Result<Todo, AllocError>
    requires variables { AreVariables vs.now }
    requires scope { vs.now ≡ scope_of own.now branch.old }
    requires taken { is_light_todo todo ≡ true }
    requires waiting { is_light_branch (2 ^ 63) branch.old ≡ true }
    ensures left { IfOk result (λ left. left ≡ spent todo) }
    ensures branch { OnOk result (branch.new ≡ second_by own.now todo branch.old) }
    ensures light { OnOk result (is_light_branch (2 ^ 63) branch.new ≡ true) }
{
    match todo {
        Todo::Form { place, form } => {
            settle_side(alloc, vs, form.get(), Side::Second, branch)?;
            Ok(Todo::Form { place, form })
        }
        Todo::Bound { variable, most } => {
            add(branch, bound_below(alloc, variable, most as i128 + 1))?;
            Ok(Todo::Nothing)
        }
        Todo::Fact(fact) => {
            add(branch, fact.into_inner())?;
            Ok(Todo::Nothing)
        }
        Todo::Nothing => Ok(Todo::Nothing),
    }
}

/// Goes on with a frame's second subtree, or puts its branch back where both are read.
#[tactic(auto, using(crate::proofs::MachineLaws::frame_laws))]
fn resume(
    alloc: Global,
    vs: &[Variable],
    machine: &mut Machine,
    frame: Frame,
) -> Result<bool, AllocError>
    requires own { AreOwn vs.now }
    requires scoped { IsScoped vs.now machine.old }
    requires fits { FramesFit (frame ∷ reverse machine.old.frames) machine.old.branch }
    requires going { machine.old.done ≡ false }
    requires light { IsLightMachine machine.old }
    requires taken { is_light_todo frame.todo ≡ true }
    ensures second { IfOk result (λ on. on ≡ true →
        (pendings vs.now machine.new ≡ behind vs.now (frame ∷ reverse machine.old.frames) machine.old.branch)
        × IsFit machine.new) }
    ensures back { IfOk result (λ on. on ≡ false →
        (rest_of vs.now machine.new ≡ behind vs.now (frame ∷ reverse machine.old.frames) machine.old.branch)
        × FramesFit (reverse machine.new.frames) machine.new.branch × (machine.new.frames ≡ machine.old.frames)
        × (machine.new.done ≡ false) × (machine.new.levels ≡ machine.old.levels)) }
    ensures light { OnOk result (IsLightMachine machine.new) }
    ensures scoped { OnOk result (IsScoped vs.now machine.new) }
{
    cut(&frame, &mut machine.branch);
    cut_variables(vs, frame.added, &mut machine.variables);
    if frame.first {
        let todo = go_second(
            alloc,
            vs,
            machine.variables.as_slice(),
            frame.todo,
            &mut machine.branch,
        )?;
        machine.levels = frame.levels - 1;
        machine.frames.push(Frame {
            levels: frame.levels,
            facts: frame.facts,
            waits: frame.waits,
            added: frame.added,
            todo,
            first: false,
        })?;
        Ok(true)
    } else {
        put_back(frame.todo, &mut machine.branch)?;
        Ok(false)
    }
}

/// Leaves the subtrees that are read, up to the next that isn't.
#[tactic(auto, using(crate::proofs::MachineLaws::back_laws))]
pub fn go_back(alloc: Global, vs: &[Variable], machine: &mut Machine) -> Result<(), AllocError>
    requires own { AreOwn vs.now }
    requires scoped { IsScoped vs.now machine.old }
    requires fits { FramesFit (reverse machine.old.frames) machine.old.branch }
    requires going { machine.old.done ≡ false }
    requires light { IsLightMachine machine.old }
    ensures pending { OnOk result (pendings vs.now machine.new ≡ rest_of vs.now machine.old) }
    ensures fit { OnOk result (IsFit machine.new) }
    ensures light { OnOk result (IsLightMachine machine.new) }
    ensures scoped { OnOk result (IsScoped vs.now machine.new) }
{
    'frames: loop {
        match machine.frames.pop() {
            None => {
                machine.done = true;
                return Ok(());
            }
            Some(frame) => {
                if resume(alloc, vs, machine, frame)? {
                    return Ok(());
                }
            }
        }
    }
}
