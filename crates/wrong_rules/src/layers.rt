// What holds of a program, of a layer over it.
ghost use Rattle.core_terms.specs.Conditions.{IsProgram};
ghost use Rattle.fair_rounds.specs.Records.{Stands};
ghost use Rattle.rules_table.specs.Layers as layer;
ghost use Rattle.safety_rules.specs.Answers.{RuleAnswers, IsPlace, IsPremiseAt, site_of};
ghost use Rattle.safety_rules.specs.Sound.{StandsWhereShown};

use core_terms::CProgram;
use fair_rounds::Record;
use safety_rules::{Derived, Place, RuleError};
use std::alloc::Global;

/// The call `superpose_rule` of `superposition`, with its clauses.
pub fn superpose_rule(
    alloc: Global,
    pl: &Place,
    f: &CProgram,
    a: &Record,
) -> Result<Derived, RuleError>
    requires place { IsPlace pl.now }
    requires under { IsProgram pl.now.slots.now f.now }
    requires record { IsPremiseAt pl.now a.now }
    ensures answer { RuleAnswers result pl.now.slots.now (layer.superpose_of (site_of pl.now) f.now a.now) }
    ensures sound { Stands pl.now.slots.now f.now a.now → StandsWhereShown pl.now result }
{
    superposition::superpose_rule(alloc, pl, f, a)
}
