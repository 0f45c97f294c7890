// That no step of a union is undefined.
ghost use Rattle.std.specs.Prelude.{[], IsTrue};
ghost use Rattle.meaning_states.specs.State.{is_state};
ghost use Rattle.core_terms.specs.Steps.{slot_ranges};
ghost use Rattle.core_terms.specs.Values.{form_value};
ghost use Rattle.core_terms.specs.declared.programs.CProgram.{CProgram};
ghost use Rattle.safety_rules.specs.from_rules_table.Sound.{IsUnionOf, IsPartPremise};
ghost use Rattle.safety_rules.specs.from_rules_table.Table as table;
ghost use Rattle.safety_rules.specs.Answers.{site_of, IsPlace, IsPremiseAt, RuleAnswers};
ghost use Rattle.safety_rules.specs.Sound.{StandsWhereShown};

use crate::kinds::{are_defined, is_part_pair};
use crate::shown::united;
use case_tables::{Code, Kind};
use core_terms::{CForm, holds};
use fair_rounds::Record;
use safety_rules::{Derived, Place, RuleError};
use std::alloc::Global;

/// `defined` of a union, from `defined` of each part. `start` is the union's start state, and each formula
/// of the parts' `under` has to follow from U (this profile).
///
/// The faults are 31: the records are not of the two parts; 32: one is no `defined`; 37: the start state
/// does not meet the initially section; 42: an obligation is too large.
pub fn union_defined(
    alloc: Global,
    pl: &Place,
    a: &Record,
    b: &Record,
    start: &[i64],
) -> Result<Derived, RuleError>
    requires place { IsPlace pl.now }
    requires a { IsPremiseAt pl.now a.now }
    requires b { IsPremiseAt pl.now b.now }
    requires start { IsTrue (is_state (slot_ranges pl.now.slots.now) start.now) }
    ensures answer { RuleAnswers result pl.now.slots.now (table.union_defined_of (site_of pl.now)
        (form_value start.now [] pl.now.program.now.initially) a.now b.now) }
    ensures sound { (f g : CProgram) → IsUnionOf (site_of pl.now) f g → IsPartPremise (site_of pl.now) f a.now →
        IsPartPremise (site_of pl.now) g b.now → StandsWhereShown pl.now result }
{
    if !is_part_pair(pl, a, b) {
        return Err(RuleError::Fault(Code::OtherProgram));
    }
    if !are_defined(a, b) {
        return Err(RuleError::Fault(Code::WrongKind));
    }
    if !holds(&pl.program.initially, start, &[]) {
        return Err(RuleError::Fault(Code::NoStart));
    }
    united(
        alloc,
        pl,
        a,
        b,
        Kind::Defined,
        &CForm::Top,
        &CForm::Top,
        &None,
    )
}
