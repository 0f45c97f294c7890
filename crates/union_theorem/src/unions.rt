// What an unless, an ensures or an invariant of each part gives.
ghost use Rattle.core_terms.specs.declared.programs.CProgram.{CProgram};
ghost use Rattle.safety_rules.specs.from_rules_table.Sound.{IsUnionOf, IsPartPremise};
ghost use Rattle.safety_rules.specs.from_rules_table.Table as table;
ghost use Rattle.safety_rules.specs.Answers.{site_of, IsPlace, IsPremiseAt, RuleAnswers};
ghost use Rattle.safety_rules.specs.Sound.{StandsWhereShown};

use crate::kinds::{are_alike, are_stable, fault_of, first_helper, is_ensured, is_kept};
use crate::shown::united;
use case_tables::Kind;
use core_terms::CForm;
use fair_rounds::Record;
use safety_rules::{Derived, Place, RuleError, are_unless};
use std::alloc::Global;

/// `p unless q` of a union, from `p unless q` of each part (chapter 7 of the book). Each formula of the
/// parts' `under` has to follow from U (this profile).
///
/// The faults are 31: the records are not of the two parts; 32: one is no unless; 33: their p or their q
/// differ; 42: the conclusion or an obligation is too large.
pub fn union_unless(alloc: Global, pl: &Place, a: &Record, b: &Record) -> Result<Derived, RuleError>
    requires place { IsPlace pl.now }
    requires a { IsPremiseAt pl.now a.now }
    requires b { IsPremiseAt pl.now b.now }
    ensures answer { RuleAnswers result pl.now.slots.now (table.union_unless_of (site_of pl.now) a.now b.now) }
    ensures sound { (f g : CProgram) → IsUnionOf (site_of pl.now) f g → IsPartPremise (site_of pl.now) f a.now →
        IsPartPremise (site_of pl.now) g b.now → StandsWhereShown pl.now result }
{
    match fault_of(pl, a, b, are_unless(a, b), are_alike(a, b)) {
        Some(code) => Err(RuleError::Fault(code)),
        None => united(alloc, pl, a, b, Kind::Unless, &a.p, &a.q, &None),
    }
}

/// `p ensures q` of a union, from `p ensures q` of one part and `p unless q` of the other (chapter 7 of
/// the book). Each formula of the parts' `under` has to follow from U (this profile).
///
/// The faults are 31: the records are not of the two parts; 32: they are not an ensures and an unless;
/// 33: their p or their q differ; 42: the conclusion or an obligation is too large.
pub fn union_ensures(
    alloc: Global,
    pl: &Place,
    a: &Record,
    b: &Record,
) -> Result<Derived, RuleError>
    requires place { IsPlace pl.now }
    requires a { IsPremiseAt pl.now a.now }
    requires b { IsPremiseAt pl.now b.now }
    ensures answer { RuleAnswers result pl.now.slots.now (table.union_ensures_of (site_of pl.now) a.now b.now) }
    ensures sound { (f g : CProgram) → IsUnionOf (site_of pl.now) f g → IsPartPremise (site_of pl.now) f a.now →
        IsPartPremise (site_of pl.now) g b.now → StandsWhereShown pl.now result }
{
    let helper = first_helper(a, b);
    match fault_of(pl, a, b, is_ensured(a, b), are_alike(a, b)) {
        Some(code) => Err(RuleError::Fault(code)),
        None => united(alloc, pl, a, b, Kind::Ensures, &a.p, &a.q, helper),
    }
}

/// `invariant p` of a union, from `invariant p` of one part and `p unless false` of the other (chapter 7
/// of the book). Each formula of the parts' `under` has to follow from U (this profile).
///
/// The faults are 31: the records are not of the two parts; 32: they are not an invariant and an unless;
/// 33: their p differ, or the unless can end; 42: the conclusion or an obligation is too large.
pub fn union_invariant(
    alloc: Global,
    pl: &Place,
    a: &Record,
    b: &Record,
) -> Result<Derived, RuleError>
    requires place { IsPlace pl.now }
    requires a { IsPremiseAt pl.now a.now }
    requires b { IsPremiseAt pl.now b.now }
    ensures answer { RuleAnswers result pl.now.slots.now (table.union_invariant_of (site_of pl.now) a.now b.now) }
    ensures sound { (f g : CProgram) → IsUnionOf (site_of pl.now) f g → IsPartPremise (site_of pl.now) f a.now →
        IsPartPremise (site_of pl.now) g b.now → StandsWhereShown pl.now result }
{
    let never = &CForm::Bottom;
    match fault_of(pl, a, b, is_kept(a, b), are_stable(a, b)) {
        Some(code) => Err(RuleError::Fault(code)),
        None => united(alloc, pl, a, b, Kind::Invariant, &a.p, never, &None),
    }
}
