//! Steps of proofs.

ghost use Rattle.std.specs.Prelude.{◌≡◌, [], ◌∷◌, length, map};
ghost use Rattle.std.specs.Option.{is_some};
ghost use Rattle.names_rules.specs.Scope.{entries, scope, seen_keys};
ghost use Rattle.names_rules.specs.Part.{quiet};
ghost use Rattle.names_rules.specs.Declarations.{some_of};
ghost use Rattle.names_rules.specs.Proofs.{claim_reading, proof_scope, rule_part, step_body, step_part, step_rest};
ghost use Rattle.names_rules.specs.Proofs.{takes_params};
ghost use Rattle.names_rules.specs.Answers.{Leaves, Notes};
ghost use Rattle.names_checks.specs.Counts.{AddsPart};

use crate::checks::demand;
use crate::indices::helper;
use crate::params::{param_count, params};
use crate::refs::{reference, references};
use crate::taken::{WordSet, take};
use crate::terms::{formulas, term};
use crate::walk::value;
use crate::words::Table;
use case_tables::Code;
use indexmap::IndexMap;
use names_rules::{Env, Known, NameFault, NameTable, ParamTable, ProgramTable, Sort, outside};
use std::alloc::Global;
use unity_syntax::{Claim, Rule, Step};

fn claim(c: &Claim, known: &Known, env: &Env, table: &mut Table) -> Result<(), NameFault>
    ensures { Notes result table.old table.new (claim_reading (scope known.now env.now) c.now) }
{
    match c {
        Claim::Defined { at: _ } => Ok(()),
        Claim::Invariant { at: _, of } => value(of, Sort::Boolean, known, env, table),
        Claim::Stable { at: _, of } => value(of, Sort::Boolean, known, env, table),
        Claim::Constant { at: _, of } => value(of, Sort::Boolean, known, env, table),
        Claim::Fixed { at: _, of } => value(of, Sort::Boolean, known, env, table),
        Claim::Between {
            at: _,
            p,
            which: _,
            q,
        } => formulas(p, q, known, env, table),
    }
}

fn rule(
    r: &Rule,
    programs: &ProgramTable,
    known: &Known,
    env: &Env,
    next: &mut u64,
    table: &mut Table,
) -> Result<(), NameFault>
    ensures { Leaves result table.old table.new next.new
        (rule_part (entries programs.now) (scope known.now env.now) next.old r.now) }
{
    match r {
        Rule::Text { at: _, with } => helper(with, known, env, table),
        Rule::Weaken { at: _, of } => reference(of, programs, known, env, table),
        Rule::Pair {
            at: _,
            which: _,
            first,
            second,
        } => {
            reference(first, programs, known, env, table)?;
            reference(second, programs, known, env, table)
        }
        Rule::Superpose { at: _, of } => reference(of, programs, known, env, table),
        Rule::Complete {
            at: _,
            first,
            second,
            third,
            fourth,
        } => {
            reference(first, programs, known, env, table)?;
            reference(second, programs, known, env, table)?;
            reference(third, programs, known, env, table)?;
            reference(fourth, programs, known, env, table)
        }
        Rule::Term { at: _, of } => term(of, programs, known, env, next, table),
    }
}

fn takes_params(c: &Claim) -> bool
    ensures { result ≡ takes_params c.now }
{
    match c {
        Claim::Defined { at: _ } => false,
        Claim::Invariant { at: _, of: _ } => false,
        _ => true,
    }
}

/// What stands in a step after its parameters, which are so many.
fn body(
    s: &Step,
    programs: &ProgramTable,
    known: &Known,
    env: &Env,
    next: &mut u64,
    table: &mut Table,
) -> Result<(), NameFault>
    requires { next.old ≡ length (scope known.now env.now).params }
    ensures { Leaves result table.old table.new next.new
        (step_body (entries programs.now) (scope known.now env.now) s.now) }
{
    claim(&s.claim, known, env, table)?;
    rule(&s.rule, programs, known, env, next, table)?;
    references(&s.using, programs, known, env, table)
}

fn body_with<'x>(
    s: &Step,
    programs: &ProgramTable,
    names: &'x NameTable,
    params: &'x ParamTable,
    table: &mut Table,
) -> Result<(), NameFault>
    ensures { AddsPart result table.old table.new
        (step_body (entries programs.now) (proof_scope (entries names.now) (entries params.now)) s.now) }
{
    let known = Known {
        names,
        params: Some(params),
        definitions: &[],
        defined: 0,
        program: None,
    };
    let mut next = param_count(params);
    body(s, programs, &known, &outside(), &mut next, table)
}

fn rest_with<'a>(
    s: &'a Step,
    programs: &ProgramTable,
    names: &NameTable,
    list: &mut ParamTable<'a>,
    table: &mut Table,
) -> Result<(), NameFault>
    requires { entries list.old ≡ [] }
    ensures { AddsPart result table.old table.new (step_rest (entries programs.now) (entries names.now) s.now) }
{
    params(&s.params, names, list, table)?;
    body_with(s, programs, names, list, table)
}

fn rest(
    alloc: Global,
    s: &Step,
    programs: &ProgramTable,
    names: &NameTable,
    table: &mut Table,
) -> Result<(), NameFault>
    ensures { AddsPart result table.old table.new (step_rest (entries programs.now) (entries names.now) s.now) }
{
    let mut list = IndexMap::new(alloc);
    rest_with(s, programs, names, &mut list, table)
}

/// A step of a proof, after these steps.
pub fn step<'a>(
    alloc: Global,
    s: &'a Step,
    programs: &ProgramTable,
    names: &NameTable,
    steps: &mut WordSet<'a>,
    table: &mut Table,
) -> Result<(), NameFault>
    ensures { Leaves result table.old table.new (seen_keys steps.new)
        (step_part (entries programs.now) (entries names.now) (seen_keys steps.old) s.now) }
{
    take(&s.name, steps)?;
    demand(
        s.params.is_none() || takes_params(&s.claim),
        Code::Arity,
        s.name.at,
    )?;
    rest(alloc, s, programs, names, table)
}
