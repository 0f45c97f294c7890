// What gives the records of steps.
ghost use Rattle.std.specs.Prelude.{◌++◌, All, length};
ghost use Rattle.core_terms.specs.Conditions.{FormFits, HelperWellScoped, NumbersBoundNames, TermWellScoped};
ghost use Rattle.core_terms.specs.Conditions.{bound_ranges, is_below};
ghost use Rattle.core_terms.specs.declared.programs.CProgram.{CProgram};
ghost use Rattle.rules_table.specs.Sound.{BookStands, IsPartPremise, IsUnionOf};
ghost use Rattle.rules_table.specs.Table as table;
ghost use Rattle.rules_table.specs.Terms as terms;
ghost use Rattle.safety_rules.specs.Answers.{RuleAnswers, IsPlace, IsPremiseAt, site_of};
ghost use Rattle.safety_rules.specs.Instances.{RecordFits};
ghost use Rattle.safety_rules.specs.Sound.{StandsAt, StandsWhereShown};

use case_tables::RuleName;
use core_terms::{CForm, Helper, PTerm};
use fair_rounds::Record;
use safety_rules::{Derived, Place, RuleError};
use std::alloc::Global;

/// The call `invariant_rule` of `safety_rules`, with its clauses.
pub fn invariant_rule(alloc: Global, pl: &Place, p: &CForm) -> Result<Derived, RuleError>
    requires place { IsPlace pl.now }
    requires p { FormFits pl.now.slots.now pl.now.params.now p.now }
    ensures answer { RuleAnswers result pl.now.slots.now (table.invariant_of (site_of pl.now) p.now) }
    ensures sound { StandsWhereShown pl.now result }
{
    safety_rules::invariant_rule(alloc, pl, p)
}

/// The call `ensures_rule` of `safety_rules`, with its clauses.
pub fn ensures_rule(
    alloc: Global,
    pl: &Place,
    p: &CForm,
    q: &CForm,
    h: &Helper,
) -> Result<Derived, RuleError>
    requires place { IsPlace pl.now }
    requires p { FormFits pl.now.slots.now pl.now.params.now p.now }
    requires q { FormFits pl.now.slots.now pl.now.params.now q.now }
    requires helper { HelperWellScoped (is_below (length pl.now.params.now)) h.now }
    ensures answer { RuleAnswers result pl.now.slots.now (table.ensures_of (site_of pl.now) p.now q.now h.now) }
    ensures sound { StandsWhereShown pl.now result }
{
    safety_rules::ensures_rule(alloc, pl, p, q, h)
}

/// The call `weaken_rule` of `safety_rules`, with its clauses.
pub fn weaken_rule(alloc: Global, pl: &Place, a: &Record, r: &CForm) -> Result<Derived, RuleError>
    requires place { IsPlace pl.now }
    requires record { IsPremiseAt pl.now a.now }
    requires r { FormFits pl.now.slots.now pl.now.params.now r.now }
    ensures answer { RuleAnswers result pl.now.slots.now (table.weaken_of (site_of pl.now) a.now r.now) }
    ensures sound { StandsAt pl.now a.now → StandsWhereShown pl.now result }
{
    safety_rules::weaken_rule(alloc, pl, a, r)
}

/// The call `pair_rule` of `safety_rules`, with its clauses.
pub fn pair_rule(
    alloc: Global,
    pl: &Place,
    which: RuleName,
    a: &Record,
    b: &Record,
) -> Result<Derived, RuleError>
    requires place { IsPlace pl.now }
    requires a { IsPremiseAt pl.now a.now }
    requires b { IsPremiseAt pl.now b.now }
    ensures answer { RuleAnswers result pl.now.slots.now (table.pair_of (site_of pl.now) which a.now b.now) }
    ensures sound { StandsAt pl.now a.now → StandsAt pl.now b.now → StandsWhereShown pl.now result }
{
    safety_rules::pair_rule(alloc, pl, which, a, b)
}

/// The call `union_unless` of `union_theorem`, with its clauses.
pub fn union_unless(alloc: Global, pl: &Place, a: &Record, b: &Record) -> Result<Derived, RuleError>
    requires place { IsPlace pl.now }
    requires a { IsPremiseAt pl.now a.now }
    requires b { IsPremiseAt pl.now b.now }
    ensures answer { RuleAnswers result pl.now.slots.now (table.union_unless_of (site_of pl.now) a.now b.now) }
    ensures sound { (f g : CProgram) → IsUnionOf (site_of pl.now) f g → IsPartPremise (site_of pl.now) f a.now →
        IsPartPremise (site_of pl.now) g b.now → StandsWhereShown pl.now result }
{
    union_theorem::union_unless(alloc, pl, a, b)
}

/// The call `derive` of `leadsto_rules`, with its clauses.
pub fn derive(alloc: Global, pl: &Place, t: &PTerm, book: &[Record]) -> Result<Derived, RuleError>
    requires place { IsPlace pl.now }
    requires term { TermWellScoped pl.now.slots.now (pl.now.params.now ++ bound_ranges t.now)
        (is_below (length pl.now.params.now)) t.now }
    requires numbers { NumbersBoundNames (length pl.now.params.now) t.now }
    requires book { All (RecordFits pl.now.slots.now) book.now }
    ensures answer { RuleAnswers result pl.now.slots.now (terms.derive_of (site_of pl.now) t.now book.now) }
    ensures sound { BookStands (site_of pl.now) book.now → StandsWhereShown pl.now result }
{
    leadsto_rules::derive(alloc, pl, t, book)
}

/// The call `fixed_rule` of `safety_rules`, with its clauses.
pub fn fixed_rule(alloc: Global, pl: &Place, p: &CForm) -> Result<Derived, RuleError>
    requires place { IsPlace pl.now }
    requires p { FormFits pl.now.slots.now pl.now.params.now p.now }
    ensures answer { RuleAnswers result pl.now.slots.now (table.fixed_of (site_of pl.now) p.now) }
    ensures sound { StandsWhereShown pl.now result }
{
    safety_rules::fixed_rule(alloc, pl, p)
}
