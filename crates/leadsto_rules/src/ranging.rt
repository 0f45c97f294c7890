// A leads-to from the numbers of a range.
ghost use Rattle.std.specs.Prelude.{◌≤◌, ◌^◌, not, IfOk, length, map};
ghost use Rattle.case_tables.specs.declared.code_table.Code.{Code as TheCode};
ghost use Rattle.core_terms.specs.Conditions.{IsRange};
ghost use Rattle.core_terms.specs.Places.{form_params, names_param};
ghost use Rattle.core_terms.specs.Weights.{plain_weight};
ghost use Rattle.rules_table.specs.Forms.{any_of};
ghost use Rattle.rules_table.specs.Numbers.{form_for, numbers_of};
ghost use Rattle.rules_table.specs.Table.{needs};
ghost use Rattle.rules_table.specs.Terms as terms;
ghost use Rattle.safety_rules.specs.Answers.{site_of};
ghost use Rattle.leadsto_rules.specs.Disjunctions.{GivesAny};
ghost use Rattle.leadsto_rules.specs.Leading.{TermGives, LedFits};

use crate::disjunctions::{Instances, any_instance};
use crate::naming::names;
use crate::nodes::{Claim, bounded, node};
use case_tables::Code;
use core_terms::{CForm, Range};
use rules_table::Led;
use safety_rules::{Place, RuleError};
use std::alloc::Global;
use unity_base::Shared;

// That a formula holds with one of the numbers of a range for the name.
fn any_number(
    alloc: Global,
    ranges: &[Range],
    name: u32,
    range: Range,
    form: &CForm,
) -> Result<Shared<CForm>, RuleError>
    requires range { IsRange range }
    requires names { form_params form.now ≤ length ranges.now }
    requires light { plain_weight form.now ≤ 2 ^ 62 }
    ensures { GivesAny result (any_of (map (λ z. form_for ranges.now name z form.now) (numbers_of range))) }
{
    let i = Instances { ranges, name, form };
    any_instance(alloc, &i, range)
}

// From p at any of the numbers, within the rounds of the part.
fn any_led(
    alloc: Global,
    pl: &Place,
    ranges: &[Range],
    name: u32,
    range: Range,
    t: Led,
) -> Result<Led, RuleError>
    requires range { IsRange range }
    requires t { LedFits pl.now.slots.now ranges.now t }
    ensures answer { TermGives result
        (terms.node (site_of pl.now) ranges.now (terms.leads_any ranges.now name range t)) }
    ensures fits { IfOk result (LedFits pl.now.slots.now ranges.now) }
{
    let rounds = bounded(u128::from(t.bound))?;
    let whole = any_number(alloc, ranges, name, range, t.p.get())?;
    let Led {
        p: _first,
        q,
        bound: _rounds,
        under,
        forms,
    } = t;
    let claim = Claim {
        p: whole,
        q,
        rounds: u128::from(rounds),
        under,
        forms,
    };
    node(pl, ranges, claim)
}

// `exists`, from what its part gives.
pub(crate) fn led_any(
    alloc: Global,
    pl: &Place,
    ranges: &[Range],
    name: u32,
    range: Range,
    t: Led,
) -> Result<Led, RuleError>
    requires range { IsRange range }
    requires t { LedFits pl.now.slots.now ranges.now t }
    ensures answer { TermGives result (needs (not (names_param name t.q)) TheCode.ParamEscapes
        (terms.node (site_of pl.now) ranges.now (terms.leads_any ranges.now name range t))) }
    ensures fits { IfOk result (LedFits pl.now.slots.now ranges.now) }
{
    if names(t.q.get(), name) {
        Err(RuleError::Fault(Code::ParamEscapes))
    } else {
        any_led(alloc, pl, ranges, name, range, t)
    }
}
