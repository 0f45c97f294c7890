// The instance of a record.
ghost use Rattle.std.specs.Prelude.{◌≡◌, ◌&&◌, All, Ok, IfOk};
ghost use Rattle.core_terms.specs.Conditions.{IsRange};
ghost use Rattle.core_terms.specs.Replacing.{form_at};
ghost use Rattle.rules_table.specs.Limits.{fits};
ghost use Rattle.rules_table.specs.Table as table;
ghost use Rattle.safety_rules.specs.Answers.{site_of, IsPlace};
ghost use Rattle.safety_rules.specs.Instances.{RecordFits, CanPut, AllMayPut, AnswersForm, AnswersRecord, StandsIn};
ghost use Rattle.safety_rules.specs.Instances.{instance_with};
ghost use Rattle.safety_rules.specs.Sound.{StandsAt};

use crate::concluding::is_small;
use crate::instances::{are_arguments, has_variable, helper_with};
use crate::places::{Place, RuleError};
use crate::recording::copied_ranges;
use case_tables::Code;
use core_terms::{Arg, CForm, CSlot, Range, copy_forms, owned_form, with_params};
use fair_rounds::Record;
use std::alloc::Global;
use unity_base::Shared;

// A formula with the arguments put in, if it is small enough.
fn formula_with(
    alloc: Global,
    slots: &[CSlot],
    ranges: &[Range],
    f: &CForm,
    args: &[Arg],
) -> Result<Shared<CForm>, RuleError>
    requires { CanPut slots.now ranges.now args.now f.now }
    ensures { AnswersForm result slots.now ranges.now (form_at args.now f.now) }
{
    let g = Shared::new(alloc, with_params(alloc, f, args)?)?;
    if is_small(g.get(), slots, ranges) {
        Ok(g)
    } else {
        Err(RuleError::Fault(Code::FormulaTooLarge))
    }
}

// The instance whose formulas these are.
fn instance_of_forms(
    alloc: Global,
    pl: &Place,
    a: &Record,
    args: &[Arg],
    p: Shared<CForm>,
    q: Shared<CForm>,
) -> Result<Record, RuleError>
    requires { AllMayPut args.now a.now.helper }
    ensures { AnswersRecord result (Ok (instance_with (site_of pl.now) a.now args.now p q)) }
{
    let under = copy_forms(alloc, a.under.as_slice())?;
    let params = copied_ranges(alloc, pl.params)?;
    let helper = helper_with(alloc, args, &a.helper)?;
    Ok(Record {
        name: a.name,
        program: a.program,
        kind: a.kind,
        p: owned_form(alloc, p)?,
        q: owned_form(alloc, q)?,
        under,
        params,
        bound: a.bound,
        helper,
    })
}

// The instance, where the arguments are the parameters'.
fn with_arguments(
    alloc: Global,
    pl: &Place,
    ranges: &[Range],
    a: &Record,
    args: &[Arg],
) -> Result<Record, RuleError>
    requires p { CanPut pl.now.slots.now ranges.now args.now a.now.p }
    requires q { CanPut pl.now.slots.now ranges.now args.now a.now.q }
    requires helper { AllMayPut args.now a.now.helper }
    ensures { AnswersRecord result (table.needs (fits pl.now.slots.now ranges.now (form_at args.now a.now.p)
        && fits pl.now.slots.now ranges.now (form_at args.now a.now.q)) Code.FormulaTooLarge
        (Ok (table.record_with (site_of pl.now) a.now args.now))) }
{
    let p = formula_with(alloc, pl.slots, ranges, &a.p, args)?;
    let q = formula_with(alloc, pl.slots, ranges, &a.q, args)?;
    instance_of_forms(alloc, pl, a, args, p, q)
}

/// A record with arguments for its parameters. `ranges` are those of the step's parameters, and then
/// of the names that are bound where the instance stands (this profile).
///
/// The faults are 38: an argument is a variable; 39: the arguments are not as many as the parameters, or
/// one does not lie in its parameter's range; 42: a formula is too large.
pub fn instance_in(
    alloc: Global,
    pl: &Place,
    ranges: &[Range],
    a: &Record,
    args: &[Arg],
) -> Result<Record, RuleError>
    requires ranges { All IsRange ranges.now }
    requires record { RecordFits pl.now.slots.now a.now }
    ensures answer { AnswersRecord result (table.instance_of (site_of pl.now) ranges.now a.now args.now) }
    ensures sound { StandsAt pl.now a.now → IfOk result (StandsIn pl.now ranges.now) }
{
    if has_variable(args) {
        return Err(RuleError::Fault(Code::ParamEscapes));
    }
    if !are_arguments(ranges, a.params.as_slice(), args) {
        return Err(RuleError::Fault(Code::BadArgument));
    }
    with_arguments(alloc, pl, ranges, a, args)
}

/// A record with arguments for its parameters, as a step's rule uses it (this profile).
///
/// The faults are 38: an argument is a variable; 39: the arguments are not as many as the parameters, or
/// one does not lie in its parameter's range; 42: a formula is too large.
pub fn instance(alloc: Global, pl: &Place, a: &Record, args: &[Arg]) -> Result<Record, RuleError>
    requires place { IsPlace pl.now }
    requires record { RecordFits pl.now.slots.now a.now }
    ensures answer { AnswersRecord result
        (table.instance_of (site_of pl.now) pl.now.params.now a.now args.now) }
    ensures sound { StandsAt pl.now a.now → IfOk result (StandsAt pl.now) }
{
    instance_in(alloc, pl, pl.params, a, args)
}
