//! References to steps, and the names of statements.

ghost use Rattle.std.specs.Prelude.{◌≡◌};
ghost use Rattle.case_tables.specs.declared.symbol_table.Symbol.{Symbol};
ghost use Rattle.grammar_theory.specs.Ebnf.{maybe};
ghost use Rattle.grammar_theory.specs.LookAhead.{first};
ghost use Rattle.grammar_theory.specs.Reader.{begins};
ghost use Rattle.unity_syntax.specs.Classes.{symbol};
ghost use Rattle.unity_syntax.specs.Kinds.{Contents};
ghost use Rattle.unity_syntax.specs.Grammar.{in_brackets, indices_, inst_, ref_, past, name_};
ghost use Rattle.unity_syntax.specs.View.{view_end, view_inst, view_name, view_option, view_ref, view_some};
ghost use Rattle.parser_expressions.specs.Gives.{Reads, remaining};

use crate::cursor::Cursor;
use crate::ranges::ends;
use crate::stop::{Parsed, Stop};
use case_tables::Symbol;
use std::alloc::Global;
use unity_base::Seq;
use unity_syntax::{End, Inst, Name, Ref};

/// `"[" end { "," end } "]"`
#[tactic(auto, using(crate::proofs::Levels::a_level, crate::proofs::Levels::no_level))]
fn some_indices<'a>(alloc: Global, depth: u32, text: Cursor<'a>) -> Parsed<'a, (End, Seq<End>)>
    ensures { Reads (view_some view_end) result (in_brackets Contents.ends) depth text.entry }
{
    let inner = text.symbol(Symbol::OpenBracket)?;
    if depth == 0 {
        return Err(Stop::TooDeep(text));
    }
    let (found, inner) = ends(alloc, depth - 1, inner)?;
    let rest = inner.symbol(Symbol::CloseBracket)?;
    Ok((found, rest))
}

/// `[ "[" end { "," end } "]" ]`
fn indices<'a>(alloc: Global, depth: u32, text: Cursor<'a>) -> Parsed<'a, Option<(End, Seq<End>)>>
    ensures { Reads (view_option (view_some view_end)) result indices_ depth text.entry }
{
    if !text.begins_symbol(Symbol::OpenBracket) {
        return Ok((None, text));
    }
    let (found, rest) = some_indices(alloc, depth, text)?;
    Ok((Some(found), rest))
}

/// `inst = word [ "[" end { "," end } "]" ]`
#[tactic(auto, unfolding(unity_syntax::specs::Grammar::inst_))]
pub fn inst<'a>(alloc: Global, depth: u32, text: Cursor<'a>) -> Parsed<'a, Inst>
    ensures { Reads view_inst result inst_ depth text.entry }
{
    let at = text.place();
    let (label, text) = text.name(alloc)?;
    let (indices, text) = indices(alloc, depth, text)?;
    Ok((Inst { at, label, indices }, text))
}

/// `[ "." word ]`
fn step_name<'a>(alloc: Global, depth: u32, text: Cursor<'a>) -> Parsed<'a, Option<Name>>
    ensures { Reads (view_option view_name) result (maybe (past (symbol Symbol.Dot) name_)) depth text.entry }
{
    if !text.begins_symbol(Symbol::Dot) {
        return Ok((None, text));
    }
    let text = text.symbol(Symbol::Dot)?;
    let (step, text) = text.name(alloc)?;
    Ok((Some(step), text))
}

/// Whether a reference begins here.
#[tactic(auto, unfolding(unity_syntax::specs::Grammar::ref_))]
pub fn begins_reference(text: Cursor) -> bool
    ensures { result ≡ begins (first ref_) (remaining text.entry) }
{
    text.begins_name()
}

/// `ref = word [ "." word ] [ "[" end { "," end } "]" ]`
#[tactic(auto, unfolding(unity_syntax::specs::Grammar::ref_))]
pub fn reference<'a>(alloc: Global, depth: u32, text: Cursor<'a>) -> Parsed<'a, Ref>
    ensures { Reads view_ref result ref_ depth text.entry }
{
    let at = text.place();
    let (name, text) = text.name(alloc)?;
    let (step, text) = step_name(alloc, depth, text)?;
    let (args, text) = indices(alloc, depth, text)?;
    let reference = Ref {
        at,
        name,
        step,
        args,
    };
    Ok((reference, text))
}
