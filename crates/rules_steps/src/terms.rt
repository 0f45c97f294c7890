// Steps by proof terms: a leads-to that is derived, and an earlier step taken again.
ghost use Rattle.std.specs.Prelude.{◌++◌, length};
ghost use Rattle.core_terms.specs.Conditions.{NumbersBoundNames, TermWellScoped, bound_ranges, is_below};
ghost use Rattle.safety_rules.specs.from_rules_table.Walk as walk;
ghost use Rattle.safety_rules.specs.Answers.{RuleAnswers, IsPlace, IsPremiseAt, site_of};
ghost use Rattle.rules_steps.specs.Rows.{again_row, from_row};
ghost use Rattle.rules_steps.specs.Using.{BookFits};

use crate::references::referred;
use crate::ruling::held;
use case_tables::{Code, Kind};
use core_terms::{CStep, PTerm, Ref, held_form};
use fair_rounds::Record;
use leadsto_rules::derive;
use safety_rules::{Claim, Derived, Place, RuleError, conclude, copied_helper};
use std::alloc::Global;
use unity_base::{Held, Seq};

// The record under the step's name.
fn same_again(alloc: Global, pl: &Place, a: &Record) -> Result<Derived, RuleError>
    requires { IsPremiseAt pl.now a.now }
    ensures { RuleAnswers result pl.now.slots.now (walk.same_again (site_of pl.now) a.now) }
{
    let claim = Claim {
        kind: a.kind,
        p: held_form(alloc, &a.p)?,
        q: held_form(alloc, &a.q)?,
        first: a.under.as_slice(),
        second: &[],
        helper: copied_helper(alloc, &a.helper)?,
    };
    conclude(alloc, pl, claim, Seq::new(alloc))
}

// By `from`, an unless or an ensures: an earlier step of that kind again.
fn by_again(
    alloc: Global,
    pl: &Place,
    kind: Kind,
    book: &[Record],
    r: &Ref,
) -> Result<Held<Derived>, RuleError>
    requires place { IsPlace pl.now }
    requires book { BookFits pl.now.slots.now book.now }
    ensures { RuleAnswers result pl.now.slots.now (again_row (site_of pl.now) kind book.now r.now) }
{
    match referred(alloc, pl, book, kind, r) {
        Ok(record) => held(alloc, same_again(alloc, pl, record.get())),
        Err(error) => Err(error),
    }
}

// By a term that no leads-to is claimed of.
fn by_from(
    alloc: Global,
    pl: &Place,
    kind: Kind,
    book: &[Record],
    t: &PTerm,
) -> Result<Held<Derived>, RuleError>
    requires place { IsPlace pl.now }
    requires book { BookFits pl.now.slots.now book.now }
    ensures { RuleAnswers result pl.now.slots.now (from_row (site_of pl.now) kind book.now t.now) }
{
    match t {
        PTerm::From(r) => by_again(alloc, pl, kind, book, r),
        _ => Err(RuleError::Fault(Code::WrongKind)),
    }
}

// By a proof term.
pub(crate) fn by_term(
    alloc: Global,
    pl: &Place,
    step: &CStep,
    book: &[Record],
    t: &PTerm,
) -> Result<Held<Derived>, RuleError>
    requires place { IsPlace pl.now }
    requires term { TermWellScoped pl.now.slots.now (pl.now.params.now ++ bound_ranges t.now)
        (is_below (length pl.now.params.now)) t.now }
    requires numbers { NumbersBoundNames (length pl.now.params.now) t.now }
    requires book { BookFits pl.now.slots.now book.now }
    ensures { RuleAnswers result pl.now.slots.now
        (walk.proof_of (site_of pl.now) step.now book.now step.now.kind t.now) }
{
    match step.kind {
        Kind::Leadsto => held(alloc, derive(alloc, pl, t, book)),
        _ => by_from(alloc, pl, step.kind, book, t),
    }
}
