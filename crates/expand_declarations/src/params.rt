//! The parameters of steps, and the names that their terms bind.

ghost use Rattle.std.specs.Prelude.{◌≡◌, [], ◌++◌, map, fold, IfOk, OnOk};
ghost use Rattle.names_rules.specs.Scope.{entries};
ghost use Rattle.names_rules.specs.Declarations.{some_of};
ghost use Rattle.expand_declarations.specs.WordNumbers.{word_number};
ghost use Rattle.expand_declarations.specs.References as spec;

use crate::lists::first_and_rest;
use crate::numbers::fixed_range;
use crate::words::WordTable;
use core_terms::Range;
use indexmap::IndexMap;
use names_rules::ParamTable;
use std::alloc::{AllocError, Global};
use unity_base::Seq;
use unity_syntax::{Param, Rule, Step, Term};

fn add_param<'a>(p: &'a Param, params: &mut ParamTable<'a>) -> Result<(), AllocError>
    ensures { OnOk result (entries params.new ≡ spec.with_param (entries params.old) p.now) }
{
    let number = params.len() as u64;
    params.insert(p.name.text.as_slice(), number)?;
    Ok(())
}

fn add_params<'a>(ps: &'a [Param], params: &mut ParamTable<'a>) -> Result<(), AllocError>
    ensures { OnOk result (entries params.new ≡ fold spec.with_param (entries params.old) ps.now) }
{
    for p in ps {
        add_param(p, params)?;
    }
    Ok(())
}

/// The parameters of a step, with their numbers: from 0 on, in the order of the text.
///
/// An error says that memory was refused.
pub fn step_params<'a>(
    alloc: Global,
    list: &'a Option<(Param, Seq<Param>)>,
) -> Result<ParamTable<'a>, AllocError>
    ensures { IfOk result (λ params. entries params ≡ spec.step_params (some_of list.now)) }
{
    let (first, rest) = first_and_rest(list);
    let mut params = IndexMap::new(alloc);
    add_params(first, &mut params)?;
    add_params(rest, &mut params)?;
    Ok(params)
}

fn add_ranges(ps: &[Param], ranges: &mut Seq<Range>) -> Result<(), AllocError>
    ensures { OnOk result (ranges.new ≡ ranges.old ++ map spec.param_range ps.now) }
{
    for p in ps {
        ranges.push(fixed_range(&p.range)?)?;
    }
    Ok(())
}

/// The ranges of a step's parameters, by number.
///
/// An error says that memory was refused, also where an end is past 2^62: no text has one.
pub fn param_ranges(
    alloc: Global,
    list: &Option<(Param, Seq<Param>)>,
) -> Result<Seq<Range>, AllocError>
    ensures { IfOk result (λ ranges. ranges ≡ map spec.param_range (some_of list.now)) }
{
    let mut ranges = Seq::new(alloc);
    match list {
        None => {}
        Some((first, rest)) => {
            ranges.push(fixed_range(&first.range)?)?;
            add_ranges(rest.as_slice(), &mut ranges)?;
        }
    }
    Ok(ranges)
}

fn add_names(ps: &[Param], words: &WordTable, names: &mut Seq<u32>) -> Result<(), AllocError>
    ensures { OnOk result (names.new ≡ names.old ++ map (word_number words.now) (map (λ p. p.name.text) ps.now)) }
{
    for p in ps {
        names.push(words.number(&p.name))?;
    }
    Ok(())
}

fn add_all_names(
    list: &Option<(Param, Seq<Param>)>,
    words: &WordTable,
    names: &mut Seq<u32>,
) -> Result<(), AllocError>
    ensures { OnOk result (names.new ≡ names.old ++
        map (word_number words.now) (map (λ p. p.name.text) (some_of list.now))) }
{
    match list {
        None => Ok(()),
        Some((first, rest)) => {
            names.push(words.number(&first.name))?;
            add_names(rest.as_slice(), words, names)
        }
    }
}

fn add_term_names(t: &Term, words: &WordTable, names: &mut Seq<u32>) -> Result<(), AllocError>
    ensures { OnOk result (names.new ≡ names.old ++ map (word_number words.now) (spec.term_names t.now)) }
{
    match t {
        Term::Imply { .. } => Ok(()),
        Term::From { .. } => Ok(()),
        Term::Pair { first, second, .. } => {
            add_term_names(first.get(), words, names)?;
            add_term_names(second.get(), words, names)
        }
        Term::Exists { name, of, .. } => {
            names.push(words.number(name))?;
            add_term_names(of.get(), words, names)
        }
        Term::Induct { name, of, .. } => {
            names.push(words.number(name))?;
            add_term_names(of.get(), words, names)
        }
        Term::Psp { of, .. } => add_term_names(of.get(), words, names),
        Term::Weaken { of, .. } => add_term_names(of.get(), words, names),
    }
}

fn add_rule_names(rule: &Rule, words: &WordTable, names: &mut Seq<u32>) -> Result<(), AllocError>
    ensures { OnOk result (names.new ≡ names.old ++ map (word_number words.now) (spec.rule_names rule.now)) }
{
    match rule {
        Rule::Text { at: _, with: _ } => Ok(()),
        Rule::Weaken { at: _, of: _ } => Ok(()),
        Rule::Pair {
            at: _,
            which: _,
            first: _,
            second: _,
        } => Ok(()),
        Rule::Superpose { at: _, of: _ } => Ok(()),
        Rule::Complete {
            at: _,
            first: _,
            second: _,
            third: _,
            fourth: _,
        } => Ok(()),
        Rule::Term { at: _, of } => add_term_names(of, words, names),
    }
}

/// The names of a step's parameters, and then those that its term binds in reading order: by number.
///
/// An error says that memory was refused.
pub fn param_names(alloc: Global, step: &Step, words: &WordTable) -> Result<Seq<u32>, AllocError>
    ensures { IfOk result (λ names. names ≡ spec.param_names words.now step.now) }
{
    let mut names = Seq::new(alloc);
    add_all_names(&step.params, words, &mut names)?;
    add_rule_names(&step.rule, words, &mut names)?;
    Ok(names)
}
