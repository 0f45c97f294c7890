// What a record of a program gives for a layer over it.
ghost use Rattle.std.specs.Prelude.{◌≡◌, ◌∷◌, [], IfOk};
ghost use Rattle.core_terms.specs.Conditions.{IsProgram};
ghost use Rattle.core_terms.specs.declared.programs.CProgram.{CProgram as Program};
ghost use Rattle.fair_rounds.specs.Records.{Stands};
ghost use Rattle.safety_rules.specs.from_rules_table.Layers as layer;
ghost use Rattle.safety_rules.specs.from_rules_table.Table as table;
ghost use Rattle.safety_rules.specs.Answers.{site_of, IsPlace, IsPremiseAt, RuleAnswers};
ghost use Rattle.safety_rules.specs.Sound.{StandsWhereShown};

use crate::helping::helper_over;
use crate::layers::is_layer;
use crate::naming::names_old;
use crate::shown::Shown;
use case_tables::{Code, Kind};
use core_terms::{CProgram, held_form};
use fair_rounds::Record;
use safety_rules::{Claim, Derived, Place, RuleError, add_follows, conclude, lengthened};
use std::alloc::{AllocError, Global};
use unity_base::Seq;

/// Whether a layer takes over what a record of this kind says.
pub fn is_carried(kind: Kind) -> bool
    ensures { result ≡ layer.is_carried kind }
{
    match kind {
        Kind::Invariant => true,
        Kind::Unless => true,
        Kind::Ensures => true,
        Kind::Leadsto => true,
        _ => false,
    }
}

// Whether the record names no slot that the program shows and the one under it does not.
fn is_named_below(alloc: Global, pl: &Place, below: &Shown, a: &Record) -> Result<bool, AllocError>
    requires { IsProgram pl.now.slots.now pl.now.program.now }
    ensures { (f : Program) → below.now.slots.now ≡ f.shown →
        IfOk result (λ b. b ≡ layer.names_old pl.now.program.now f a.now) }
{
    let above = Shown::new(alloc, pl.program.shown.as_slice(), pl.slots.len())?;
    Ok(names_old(&above, below, a))
}

// The record, as the layer's, where the first states of the layer are such below.
fn carried(alloc: Global, pl: &Place, f: &CProgram, a: &Record) -> Result<Derived, RuleError>
    requires place { IsPlace pl.now }
    requires under { IsProgram pl.now.slots.now f.now }
    requires record { IsPremiseAt pl.now a.now }
    ensures { RuleAnswers result pl.now.slots.now (table.concluded pl.now.slots.now pl.now.params.now
        (layer.record_over (site_of pl.now) f.now a.now) (layer.starts_below (site_of pl.now) f.now ∷ [])) }
{
    let mut goals = Seq::new(alloc);
    add_follows(alloc, pl, &pl.program.initially, &f.initially, &mut goals)?;
    let claim = Claim {
        kind: a.kind,
        p: held_form(alloc, &a.p)?,
        q: held_form(alloc, &a.q)?,
        first: a.under.as_slice(),
        second: &[],
        helper: helper_over(alloc, pl.program, f, &a.helper)?,
    };
    lengthened(conclude(alloc, pl, claim, goals), a.bound)
}

/// An invariant, an unless, an ensures or a leads-to of a program f, of a layer over it: one that extends each of its
/// instances by assignments to other variables, and adds instances that assign such variables alone (chapter 7 of the
/// book). It has the bound of `a`, and its first states have to be first states of f (this profile).
///
/// The faults are 31: the record is of this program; 32: it is of another kind; 44: the program is no layer over f; 43:
/// the record names a variable that the program shows and f does not; 42: the conclusion or the obligation is too
/// large.
pub fn superpose_rule(
    alloc: Global,
    pl: &Place,
    f: &CProgram,
    a: &Record,
) -> Result<Derived, RuleError>
    requires place { IsPlace pl.now }
    requires under { IsProgram pl.now.slots.now f.now }
    requires record { IsPremiseAt pl.now a.now }
    ensures answer { RuleAnswers result pl.now.slots.now (layer.superpose_of (site_of pl.now) f.now a.now) }
    ensures sound { Stands pl.now.slots.now f.now a.now → StandsWhereShown pl.now result }
{
    if a.program == pl.program.name {
        return Err(RuleError::Fault(Code::OtherProgram));
    }
    if !is_carried(a.kind) {
        return Err(RuleError::Fault(Code::WrongKind));
    }
    let below = Shown::new(alloc, f.shown.as_slice(), pl.slots.len())?;
    if !is_layer(alloc, &below, pl.program, f)? {
        return Err(RuleError::Fault(Code::NotALayer));
    }
    if !is_named_below(alloc, pl, &below, a)? {
        return Err(RuleError::Fault(Code::NamesNewVariable));
    }
    carried(alloc, pl, f, a)
}
