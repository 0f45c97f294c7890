// What a step's rule gives.
ghost use Rattle.std.specs.Prelude.{◌≡◌, ◌++◌, All, IfOk, List, Ok, Result, length};
ghost use Rattle.core_terms.specs.declared.programs.CSlot.{CSlot};
ghost use Rattle.core_terms.specs.Conditions.{FormFits, IsProgram, IsStep, RuleWellScoped, is_below};
ghost use Rattle.core_terms.specs.Conditions.{rule_ranges};
ghost use Rattle.core_terms.specs.declared.documents.CRule.{CRule};
ghost use Rattle.core_terms.specs.Trees.{same_form};
ghost use Rattle.safety_rules.specs.from_rules_table.Conclusion.{Conclusion};
ghost use Rattle.safety_rules.specs.from_rules_table.Further as further;
ghost use Rattle.safety_rules.specs.from_rules_table.Table as table;
ghost use Rattle.safety_rules.specs.from_rules_table.Table.{go_on, needs};
ghost use Rattle.safety_rules.specs.from_rules_table.Walk as walk;
ghost use Rattle.fair_rounds.specs.declared.records.Record.{Record};
ghost use Rattle.safety_rules.specs.Answers.{RuleAnswers, IsPlace, IsPremiseAt, site_of};
ghost use Rattle.safety_rules.specs.Instances.{AnswersRecord};
ghost use Rattle.rules_steps.specs.Rows.{complete_row, pair_row, weaken_row};
ghost use Rattle.rules_steps.specs.Steps.{IsStepGiven};
ghost use Rattle.rules_steps.specs.Using.{BookFits};
ghost use Rattle.rules_steps.specs.Starts.{IsAround, seen_of, seen_with, starts_in};

use crate::around::Around;
use crate::kinds::{may_stand, pair_kinds, suits};
use crate::layers::by_superpose;
use crate::references::referred;
use crate::terms::by_term;
use crate::unions::by_union;
use crate::using::used;
use case_tables::{Code, Kind, RuleName};
use core_terms::{CProgram, CRule, CStep, Ref};
use derived_rules::{complete_rule, constant_rule, detects_rule, lead_cancel_rule, until_rule};
use executor::start_of;
use fair_rounds::Record;
use safety_rules::{
    Derived, Place, RuleError, defined_rule, ensures_rule, fixed_rule, invariant_rule, is_same,
    pair_rule, unless_rule, weaken_rule,
};
use std::alloc::Global;
use unity_base::Held;

// Whether a record's p and q are those that the step claims.
fn is_claimed(step: &CStep, made: &Record) -> bool
    ensures { (x : Conclusion) → x.made ≡ made.now → result ≡ walk.claims step.now x }
{
    is_same(&made.p, &step.p) && is_same(&made.q, &step.q)
}

// The answer of a rule, in a place of its own.
pub(crate) fn held(
    alloc: Global,
    answer: Result<Derived, RuleError>,
) -> Result<Held<Derived>, RuleError>
    ensures { (slots : List CSlot) (row : Result Conclusion Code) → RuleAnswers answer slots row →
        RuleAnswers result slots row }
{
    match answer {
        Ok(derived) => Ok(Held::new(alloc, derived)?),
        Err(error) => Err(error),
    }
}

// The answer of a rule, where it gives what the step claims.
fn claimed(
    step: &CStep,
    answer: Result<Held<Derived>, RuleError>,
) -> Result<Held<Derived>, RuleError>
    ensures { (slots : List CSlot) (row : Result Conclusion Code) → RuleAnswers answer slots row →
        RuleAnswers result slots (go_on row (λ x. needs (walk.claims step.now x) Code.ConclusionDiffers (Ok x))) }
{
    let derived = answer?;
    if is_claimed(step, &derived.get().made) {
        Ok(derived)
    } else {
        Err(RuleError::Fault(Code::ConclusionDiffers))
    }
}

// That no step is undefined, from the program's start state.
fn by_start(alloc: Global, pl: &Place) -> Result<Derived, RuleError>
    requires { IsPlace pl.now }
    ensures { RuleAnswers result pl.now.slots.now
        (table.defined_of (site_of pl.now) (starts_in pl.now.slots.now pl.now.program.now)) }
{
    let start = start_of(alloc, pl.program, pl.slots)?;
    defined_rule(alloc, pl, start.as_slice())
}

// By the program's text.
fn by_text(alloc: Global, pl: &Place, step: &CStep) -> Result<Held<Derived>, RuleError>
    requires place { IsPlace pl.now }
    requires p { FormFits pl.now.slots.now pl.now.params.now step.now.p }
    requires q { FormFits pl.now.slots.now pl.now.params.now step.now.q }
    ensures { RuleAnswers result pl.now.slots.now
        (walk.text_of (starts_in pl.now.slots.now) (site_of pl.now) step.now step.now.kind) }
{
    match step.kind {
        Kind::Defined => held(alloc, by_start(alloc, pl)),
        Kind::Invariant => held(alloc, invariant_rule(alloc, pl, &step.p)),
        Kind::Unless => held(alloc, unless_rule(alloc, pl, &step.p, &step.q)),
        Kind::Fixed => held(alloc, fixed_rule(alloc, pl, &step.p)),
        _ => Err(RuleError::Fault(Code::WrongKind)),
    }
}

// By `weaken`, from an earlier step.
fn by_weaken(
    alloc: Global,
    pl: &Place,
    step: &CStep,
    book: &[Record],
    r: &Ref,
) -> Result<Held<Derived>, RuleError>
    requires place { IsPlace pl.now }
    requires q { FormFits pl.now.slots.now pl.now.params.now step.now.q }
    requires book { BookFits pl.now.slots.now book.now }
    ensures { RuleAnswers result pl.now.slots.now (weaken_row (site_of pl.now) step.now book.now r.now) }
{
    match referred(alloc, pl, book, step.kind, r) {
        Ok(record) => held(alloc, weaken_rule(alloc, pl, record.get(), &step.q)),
        Err(error) => Err(error),
    }
}

// What two records give for a claim of this kind.
fn paired(
    alloc: Global,
    pl: &Place,
    kind: Kind,
    which: RuleName,
    a: &Record,
    b: &Record,
) -> Result<Derived, RuleError>
    requires place { IsPlace pl.now }
    requires a { IsPremiseAt pl.now a.now }
    requires b { IsPremiseAt pl.now b.now }
    ensures { RuleAnswers result pl.now.slots.now (further.pair_by (site_of pl.now) kind which a.now b.now) }
{
    match kind {
        Kind::Leadsto => lead_cancel_rule(alloc, pl, a, b),
        Kind::Until => until_rule(alloc, pl, a, b),
        Kind::Detects => detects_rule(alloc, pl, a, b),
        Kind::Constant => constant_rule(alloc, pl, a, b),
        Kind::Defined => pair_rule(alloc, pl, which, a, b),
        Kind::Invariant => pair_rule(alloc, pl, which, a, b),
        Kind::Unless => pair_rule(alloc, pl, which, a, b),
        Kind::Ensures => pair_rule(alloc, pl, which, a, b),
        Kind::Fixed => pair_rule(alloc, pl, which, a, b),
    }
}

// By a pair rule, from the first step's record and the second's.
fn with_second(
    alloc: Global,
    pl: &Place,
    kind: Kind,
    which: RuleName,
    first: Held<Record>,
    second: Result<Held<Record>, RuleError>,
) -> Result<Held<Derived>, RuleError>
    requires place { IsPlace pl.now }
    requires first { IsPremiseAt pl.now first }
    requires second { IfOk second (IsPremiseAt pl.now) }
    ensures { (row : Result Record Code) → AnswersRecord second row → RuleAnswers result pl.now.slots.now
        (go_on row (further.pair_by (site_of pl.now) kind which first)) }
{
    match second {
        Ok(second) => held(
            alloc,
            paired(alloc, pl, kind, which, first.get(), second.get()),
        ),
        Err(error) => Err(error),
    }
}

// By a pair rule, from two earlier steps.
fn by_pair(
    alloc: Global,
    pl: &Place,
    kind: Kind,
    book: &[Record],
    which: RuleName,
    r: &Ref,
    s: &Ref,
) -> Result<Held<Derived>, RuleError>
    requires place { IsPlace pl.now }
    requires book { BookFits pl.now.slots.now book.now }
    ensures { RuleAnswers result pl.now.slots.now (pair_row (site_of pl.now) kind book.now which r.now s.now) }
{
    let (one, two) = pair_kinds(which, kind);
    match referred(alloc, pl, book, one, r) {
        Ok(first) => {
            let second = referred(alloc, pl, book, two, s);
            with_second(alloc, pl, kind, which, first, second)
        }
        Err(error) => Err(error),
    }
}

// By completion, from the records of four steps.
fn with_fourth(
    alloc: Global,
    pl: &Place,
    first: Held<Record>,
    second: Held<Record>,
    third: Held<Record>,
    fourth: Result<Held<Record>, RuleError>,
) -> Result<Held<Derived>, RuleError>
    requires place { IsPlace pl.now }
    requires first { IsPremiseAt pl.now first }
    requires second { IsPremiseAt pl.now second }
    requires third { IsPremiseAt pl.now third }
    requires fourth { IfOk fourth (IsPremiseAt pl.now) }
    ensures { (row : Result Record Code) → AnswersRecord fourth row → RuleAnswers result pl.now.slots.now
        (go_on row (further.complete_of (site_of pl.now) first second third)) }
{
    match fourth {
        Ok(fourth) => held(
            alloc,
            complete_rule(
                alloc,
                pl,
                first.get(),
                second.get(),
                third.get(),
                fourth.get(),
            ),
        ),
        Err(error) => Err(error),
    }
}

// By completion, from the records of two steps and what the other two give.
fn with_third(
    alloc: Global,
    pl: &Place,
    first: Held<Record>,
    second: Held<Record>,
    third: Result<Held<Record>, RuleError>,
    fourth: Result<Held<Record>, RuleError>,
) -> Result<Held<Derived>, RuleError>
    requires place { IsPlace pl.now }
    requires first { IsPremiseAt pl.now first }
    requires second { IsPremiseAt pl.now second }
    requires third { IfOk third (IsPremiseAt pl.now) }
    requires fourth { IfOk fourth (IsPremiseAt pl.now) }
    ensures { (row next : Result Record Code) → AnswersRecord third row → AnswersRecord fourth next →
        RuleAnswers result pl.now.slots.now
        (go_on row (λ c. go_on next (further.complete_of (site_of pl.now) first second c))) }
{
    match third {
        Ok(third) => with_fourth(alloc, pl, first, second, third, fourth),
        Err(error) => Err(error),
    }
}

// By completion, from the first step's record and what the others give.
fn with_others(
    alloc: Global,
    pl: &Place,
    first: Held<Record>,
    second: Result<Held<Record>, RuleError>,
    third: Result<Held<Record>, RuleError>,
    fourth: Result<Held<Record>, RuleError>,
) -> Result<Held<Derived>, RuleError>
    requires place { IsPlace pl.now }
    requires first { IsPremiseAt pl.now first }
    requires second { IfOk second (IsPremiseAt pl.now) }
    requires third { IfOk third (IsPremiseAt pl.now) }
    requires fourth { IfOk fourth (IsPremiseAt pl.now) }
    ensures { (row next last : Result Record Code) → AnswersRecord second row → AnswersRecord third next →
        AnswersRecord fourth last → RuleAnswers result pl.now.slots.now
        (go_on row (λ b. go_on next (λ c. go_on last (further.complete_of (site_of pl.now) first b c)))) }
{
    match second {
        Ok(second) => with_third(alloc, pl, first, second, third, fourth),
        Err(error) => Err(error),
    }
}

// By `complete`, from four earlier steps.
fn by_complete(
    alloc: Global,
    pl: &Place,
    book: &[Record],
    r: &Ref,
    s: &Ref,
    t: &Ref,
    u: &Ref,
) -> Result<Held<Derived>, RuleError>
    requires place { IsPlace pl.now }
    requires book { BookFits pl.now.slots.now book.now }
    ensures { RuleAnswers result pl.now.slots.now
        (complete_row (site_of pl.now) book.now r.now s.now t.now u.now) }
{
    match referred(alloc, pl, book, Kind::Leadsto, r) {
        Ok(first) => {
            let second = referred(alloc, pl, book, Kind::Unless, s);
            let third = referred(alloc, pl, book, Kind::Leadsto, t);
            let fourth = referred(alloc, pl, book, Kind::Unless, u);
            with_others(alloc, pl, first, second, third, fourth)
        }
        Err(error) => Err(error),
    }
}

// By the step's rule.
fn applied(
    alloc: Global,
    around: &Around,
    pl: &Place,
    step: &CStep,
    book: &[Record],
) -> Result<Held<Derived>, RuleError>
    requires place { IsPlace pl.now }
    requires p { FormFits pl.now.slots.now pl.now.params.now step.now.p }
    requires q { FormFits pl.now.slots.now pl.now.params.now step.now.q }
    requires rule { RuleWellScoped pl.now.slots.now (pl.now.params.now ++ rule_ranges step.now.rule)
        (is_below (length pl.now.params.now)) (length pl.now.params.now) step.now.rule }
    requires book { BookFits pl.now.slots.now book.now }
    requires programs { All (IsProgram pl.now.slots.now) around.now.programs.now }
    ensures { RuleAnswers result pl.now.slots.now
        (walk.applied (seen_with around.now.version pl.now.slots.now around.now.programs.now) (site_of pl.now) step.now
        book.now step.now.rule) }
{
    match &step.rule {
        CRule::Text => by_text(alloc, pl, step),
        CRule::TextWith(h) => held(alloc, ensures_rule(alloc, pl, &step.p, &step.q, h)),
        CRule::WeakenStep(r) => by_weaken(alloc, pl, step, book, r),
        CRule::Pair(which, r, s) => by_pair(alloc, pl, step.kind, book, *which, r, s),
        CRule::Union(r, s) => by_union(alloc, pl, step.kind, book, r, s),
        CRule::Superpose(r) => by_superpose(alloc, around, pl, step, book, r),
        CRule::Complete(r, s, t, u) => by_complete(alloc, pl, book, r, s, t, u),
        CRule::Proof(t) => by_term(alloc, pl, step, book, t),
    }
}

/// What a step gives by its rule: the property that it claims, and what is left to be shown for it. `book`
/// has the records of the steps before it, of this program's and of earlier proofs.
///
/// The error is the code of the first condition that fails (this profile's table of rules): 36, a step of
/// another kind before the `defined` step; 30, 31 or 35 for a name of `using`, which names no earlier step,
/// one of another program, or no invariant; 32, the rule gives no step of the claimed kind; then those of
/// the rule, 30 to 33 and 37 to 42; and at last 34, the rule gives other formulas than are claimed. Or it is
/// `Memory`, where memory was refused.
pub fn step_rule(
    alloc: Global,
    around: &Around,
    program: &CProgram,
    step: &CStep,
    book: &[Record],
) -> Result<Held<Derived>, RuleError>
    requires around { IsAround around.now }
    requires program { IsProgram around.now.slots.now program.now }
    requires step { IsStep around.now.slots.now step.now }
    requires book { BookFits around.now.slots.now book.now }
    ensures answer { RuleAnswers result around.now.slots.now
        (walk.rule_of (seen_of around.now) program.now step.now book.now) }
    ensures fits { IfOk result (IsStepGiven around.now.slots.now program.now step.now) }
{
    if !may_stand(step.kind, program.name, book) {
        return Err(RuleError::Fault(Code::DefinedMissing));
    }
    let using = used(alloc, program, book, step.using.as_slice())?;
    if !suits(around.version, &step.rule, step.kind) {
        return Err(RuleError::Fault(Code::WrongKind));
    }
    let pl = Place {
        program,
        slots: around.slots,
        params: step.params.as_slice(),
        name: step.name,
        using: using.as_slice(),
    };
    let answer = applied(alloc, around, &pl, step, book);
    let Place {
        program: _program,
        slots: _slots,
        params: _params,
        name: _name,
        using: _using,
    } = pl;
    claimed(step, answer)
}
