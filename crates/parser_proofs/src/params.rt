//! The parameters of a step.

ghost use Rattle.grammar_theory.specs.Ebnf.{maybe};
ghost use Rattle.unity_syntax.specs.Kinds.{Contents};
ghost use Rattle.unity_syntax.specs.Grammar.{in_parentheses, param_, params_};
ghost use Rattle.unity_syntax.specs.View.{view_option, view_param, view_some};
ghost use Rattle.parser_expressions.specs.Gives.{Reads};

use case_tables::Symbol;
use parser_expressions::{Cursor, Parsed, Stop, listed, range};
use std::alloc::Global;
use unity_base::{Held, Seq};
use unity_syntax::Param;

/// `param = word ":" range`
#[tactic(auto, unfolding(unity_syntax::specs::Grammar::param_))]
fn param<'a>(alloc: Global, depth: u32, text: Cursor<'a>) -> Parsed<'a, Param>
    ensures { Reads view_param result param_ depth text.entry }
{
    let at = text.place();
    let (name, text) = text.name(alloc)?;
    let text = text.symbol(Symbol::Colon)?;
    let (range, text) = range(alloc, depth, text)?;
    Ok((Param { at, name, range }, text))
}

/// `param { "," param }`
#[tactic(auto, unfolding(unity_syntax::specs::Grammar::params_))]
fn params<'a>(alloc: Global, depth: u32, text: Cursor<'a>) -> Parsed<'a, (Param, Seq<Param>)>
    ensures { Reads (view_some view_param) result params_ depth text.entry }
{
    listed(alloc, Symbol::Comma, text, |text| param(alloc, depth, text))
}

/// `"(" param { "," param } ")"`
#[tactic(auto, using(parser_expressions::proofs::Levels::a_level, parser_expressions::proofs::Levels::no_level))]
fn some_params<'a>(alloc: Global, depth: u32, text: Cursor<'a>) -> Parsed<'a, (Param, Seq<Param>)>
    ensures { Reads (view_some view_param) result (in_parentheses Contents.params) depth text.entry }
{
    let inner = text.symbol(Symbol::OpenParenthesis)?;
    if depth == 0 {
        return Err(Stop::TooDeep(text));
    }
    let (found, inner) = params(alloc, depth - 1, inner)?;
    let rest = inner.symbol(Symbol::CloseParenthesis)?;
    Ok((found, rest))
}

/// `[ "(" param { "," param } ")" ]`
pub(crate) fn maybe_params<'a>(
    alloc: Global,
    depth: u32,
    text: Cursor<'a>,
) -> Parsed<'a, Held<Option<(Param, Seq<Param>)>>>
    ensures { Reads (view_option (view_some view_param)) result
        (maybe (in_parentheses Contents.params)) depth text.entry }
{
    if !text.begins_symbol(Symbol::OpenParenthesis) {
        let none = Held::new(alloc, None)?;
        return Ok((none, text));
    }
    let (found, rest) = some_params(alloc, depth, text)?;
    let params = Held::new(alloc, Some(found))?;
    Ok((params, rest))
}
