// The record that a term derives.
ghost use Rattle.std.specs.Prelude.{◌≡◌, ◌++◌, All, IfOk, List, None, Result, length};
ghost use Rattle.case_tables.specs.declared.code_table.Code.{Code as TheCode};
ghost use Rattle.case_tables.specs.declared.kind_table.Kind.{Kind as TheKind};
ghost use Rattle.core_terms.specs.Conditions.{NumbersBoundNames, IsRange, TermWellScoped, bound_ranges, is_below};
ghost use Rattle.core_terms.specs.declared.programs.CSlot.{CSlot};
ghost use Rattle.rules_table.specs.Conclusion.{Conclusion};
ghost use Rattle.rules_table.specs.Sound.{BookStands};
ghost use Rattle.rules_table.specs.Table as table;
ghost use Rattle.rules_table.specs.Table.{go_on};
ghost use Rattle.rules_table.specs.Terms as terms;
ghost use Rattle.safety_rules.specs.Answers.{site_of, IsPlace, RuleAnswers};
ghost use Rattle.safety_rules.specs.Goals.{Added};
ghost use Rattle.safety_rules.specs.Instances.{RecordFits};
ghost use Rattle.safety_rules.specs.Sound.{StandsWhereShown};
ghost use Rattle.safety_rules.specs.Usable.{NamesExist};
ghost use Rattle.leadsto_rules.specs.Deriving.{narrowed_row};
ghost use Rattle.leadsto_rules.specs.Leading.{IsTermIn, LedFits};

use crate::bound::add_bound;
use crate::leading::lead;
use case_tables::Kind;
use core_terms::{CForm, PTerm, Range, copy_form};
use fair_rounds::Record;
use obligations::Obligation;
use rules_table::Led;
use safety_rules::{Claim, Derived, Place, RuleError, add_goal, conclude};
use std::alloc::{AllocError, Global};
use unity_base::Seq;

// Adds what is left to be shown for a term, where the place's parameters are the names of the term too.
fn add_forms(
    alloc: Global,
    wide: &Place,
    forms: &[CForm],
    goals: &mut Seq<Obligation>,
) -> Result<(), RuleError>
    requires place { IsPlace wide.now }
    requires forms { All (NamesExist wide.now.slots.now wide.now.params.now) forms.now }
    ensures { Added result goals.old goals.new wide.now.slots.now wide.now.params.now forms.now }
{
    for f in forms {
        let form = copy_form(alloc, f)?;
        add_goal(alloc, wide, goals, form)?;
    }
    Ok(())
}

// A copy of ranges.
fn copied(alloc: Global, ranges: &[Range]) -> Result<Seq<Range>, AllocError>
    ensures { IfOk result (λ copy. copy ≡ ranges.now) }
{
    let mut copy = Seq::new(alloc);
    for range in ranges {
        copy.push(*range)?;
    }
    Ok(copy)
}

// The ranges of the place's parameters, and then of the names that the term binds.
fn all_ranges(alloc: Global, pl: &Place, t: &PTerm) -> Result<Seq<Range>, AllocError>
    ensures { IfOk result (λ ranges. ranges ≡ terms.all_ranges (site_of pl.now) t.now) }
{
    let mut ranges = copied(alloc, pl.params)?;
    add_bound(t, &mut ranges)?;
    Ok(ranges)
}

// What is derived, with the step's own parameters and the term's rounds.
fn narrowed(
    answer: Result<Derived, RuleError>,
    params: Seq<Range>,
    bound: u64,
) -> Result<Derived, RuleError>
    ensures { (slots : List CSlot) (row : Result Conclusion TheCode) → RuleAnswers answer slots row →
        RuleAnswers result slots (narrowed_row params bound row) }
{
    match answer {
        Ok(derived) => {
            let mut derived = derived;
            derived.made.params = params;
            derived.made.bound = bound;
            Ok(derived)
        }
        Err(error) => Err(error),
    }
}

// What a term gives, as a leads-to whose parameters are the names of the term too.
fn concluded_wide(alloc: Global, wide: &Place, led: &Led) -> Result<Derived, RuleError>
    requires place { IsPlace wide.now }
    requires led { LedFits wide.now.slots.now wide.now.params.now led.now }
    ensures { RuleAnswers result wide.now.slots.now (table.concluded wide.now.slots.now wide.now.params.now
        (table.record_of (site_of wide.now) TheKind.Leadsto led.now.p led.now.q led.now.under None) led.now.forms) }
{
    let mut goals = Seq::new(alloc);
    add_forms(alloc, wide, led.forms.as_slice(), &mut goals)?;
    let claim = Claim {
        kind: Kind::Leadsto,
        p: led.p.share()?,
        q: led.q.share()?,
        first: led.under.as_slice(),
        second: &[],
        helper: None,
    };
    conclude(alloc, wide, claim, goals)
}

// What a term gives, as the step's record and what is left to be shown for it.
fn derived(alloc: Global, pl: &Place, ranges: &[Range], led: &Led) -> Result<Derived, RuleError>
    requires place { IsPlace pl.now }
    requires ranges { All IsRange ranges.now }
    requires led { LedFits pl.now.slots.now ranges.now led.now }
    ensures { RuleAnswers result pl.now.slots.now (table.concluded pl.now.slots.now ranges.now
        (terms.leads_record (site_of pl.now) led.now) led.now.forms) }
{
    let params = copied(alloc, pl.params)?;
    let wide = Place {
        program: pl.program,
        slots: pl.slots,
        params: ranges,
        name: pl.name,
        using: pl.using,
    };
    let answer = concluded_wide(alloc, &wide, led);
    let Place {
        program: _program,
        slots: _slots,
        params: _params,
        name: _name,
        using: _using,
    } = wide;
    narrowed(answer, params, led.bound)
}

// What is derived by a term whose names have these ranges.
fn derive_in(
    alloc: Global,
    pl: &Place,
    ranges: &[Range],
    t: &PTerm,
    book: &[Record],
) -> Result<Derived, RuleError>
    requires place { IsPlace pl.now }
    requires ranges { All IsRange ranges.now }
    requires book { All (RecordFits pl.now.slots.now) book.now }
    requires term { IsTermIn pl.now.slots.now ranges.now t.now }
    ensures { RuleAnswers result pl.now.slots.now (go_on (terms.term_of (site_of pl.now) ranges.now book.now t.now)
        (λ l. table.concluded pl.now.slots.now ranges.now (terms.leads_record (site_of pl.now) l) l.forms)) }
{
    let led = lead(alloc, pl, ranges, book, t)?;
    derived(alloc, pl, ranges, &led)
}

/// `p leadsto q` by a term, with a bound on its rounds (chapter 3 of the book; the bounds are this
/// profile's): p and q are those that the term gives, and the obligations are those of its nodes. The names
/// that `exists` and `induct` bind have the numbers after those of the place's parameters, in reading order.
///
/// The faults are those of the first node that has one, its parts before it: 30: a reference names no
/// earlier step; 31: a step of another program; 32: of another kind; 38: an argument is a variable, or the
/// right side of what `exists` ranges over names the number; 39: an argument may lie outside the parameter's
/// range; 33: the formulas of two parts, or of an induction and its part, are not the same; 40: the bound is
/// above 2^63; 42: p, q, an instance or an obligation is too large.
pub fn derive(alloc: Global, pl: &Place, t: &PTerm, book: &[Record]) -> Result<Derived, RuleError>
    requires place { IsPlace pl.now }
    requires term { TermWellScoped pl.now.slots.now (pl.now.params.now ++ bound_ranges t.now)
        (is_below (length pl.now.params.now)) t.now }
    requires numbers { NumbersBoundNames (length pl.now.params.now) t.now }
    requires book { All (RecordFits pl.now.slots.now) book.now }
    ensures answer { RuleAnswers result pl.now.slots.now (terms.derive_of (site_of pl.now) t.now book.now) }
    ensures sound { BookStands (site_of pl.now) book.now → StandsWhereShown pl.now result }
{
    let ranges = all_ranges(alloc, pl, t)?;
    derive_in(alloc, pl, ranges.as_slice(), t, book)
}
