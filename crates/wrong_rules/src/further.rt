// The further rules: completion, cancellation for a leads-to, `detects` and `constant`.
ghost use Rattle.rules_table.specs.Further as further;
ghost use Rattle.safety_rules.specs.Answers.{RuleAnswers, IsPlace, IsPremiseAt, site_of};
ghost use Rattle.safety_rules.specs.Sound.{StandsAt, StandsWhereShown};

use fair_rounds::Record;
use safety_rules::{Derived, Place, RuleError};
use std::alloc::Global;

/// The call `complete_rule` of `derived_rules`, with its clauses.
pub fn complete_rule(
    alloc: Global,
    pl: &Place,
    a: &Record,
    b: &Record,
    c: &Record,
    d: &Record,
) -> Result<Derived, RuleError>
    requires place { IsPlace pl.now }
    requires a { IsPremiseAt pl.now a.now }
    requires b { IsPremiseAt pl.now b.now }
    requires c { IsPremiseAt pl.now c.now }
    requires d { IsPremiseAt pl.now d.now }
    ensures answer { RuleAnswers result pl.now.slots.now
        (further.complete_of (site_of pl.now) a.now b.now c.now d.now) }
    ensures sound { StandsAt pl.now a.now → StandsAt pl.now b.now → StandsAt pl.now c.now → StandsAt pl.now d.now →
        StandsWhereShown pl.now result }
{
    derived_rules::complete_rule(alloc, pl, a, b, c, d)
}

/// The call `lead_cancel_rule` of `derived_rules`, with its clauses.
pub fn lead_cancel_rule(
    alloc: Global,
    pl: &Place,
    a: &Record,
    b: &Record,
) -> Result<Derived, RuleError>
    requires place { IsPlace pl.now }
    requires a { IsPremiseAt pl.now a.now }
    requires b { IsPremiseAt pl.now b.now }
    ensures answer { RuleAnswers result pl.now.slots.now (further.lead_cancel_of (site_of pl.now) a.now b.now) }
    ensures sound { StandsAt pl.now a.now → StandsAt pl.now b.now → StandsWhereShown pl.now result }
{
    derived_rules::lead_cancel_rule(alloc, pl, a, b)
}

/// The call `detects_rule` of `derived_rules`, with its clauses.
pub fn detects_rule(alloc: Global, pl: &Place, a: &Record, b: &Record) -> Result<Derived, RuleError>
    requires place { IsPlace pl.now }
    requires a { IsPremiseAt pl.now a.now }
    requires b { IsPremiseAt pl.now b.now }
    ensures answer { RuleAnswers result pl.now.slots.now (further.detects_of (site_of pl.now) a.now b.now) }
    ensures sound { StandsAt pl.now a.now → StandsAt pl.now b.now → StandsWhereShown pl.now result }
{
    derived_rules::detects_rule(alloc, pl, a, b)
}

/// The call `constant_rule` of `derived_rules`, with its clauses.
pub fn constant_rule(
    alloc: Global,
    pl: &Place,
    a: &Record,
    b: &Record,
) -> Result<Derived, RuleError>
    requires place { IsPlace pl.now }
    requires a { IsPremiseAt pl.now a.now }
    requires b { IsPremiseAt pl.now b.now }
    ensures answer { RuleAnswers result pl.now.slots.now (further.constant_of (site_of pl.now) a.now b.now) }
    ensures sound { StandsAt pl.now a.now → StandsAt pl.now b.now → StandsWhereShown pl.now result }
{
    derived_rules::constant_rule(alloc, pl, a, b)
}
