//! Ranges, and lists of their ends and of names.

ghost use Rattle.std.specs.Prelude.{◌≡◌, Option};
ghost use Rattle.case_tables.specs.declared.symbol_table.Symbol.{Symbol};
ghost use Rattle.grammar_theory.specs.Ebnf.{both, maybe};
ghost use Rattle.grammar_theory.specs.LookAhead.{first};
ghost use Rattle.grammar_theory.specs.Reader.{begins};
ghost use Rattle.unity_syntax.specs.Kinds.{Kind};
ghost use Rattle.unity_syntax.specs.Grammar.{made, minus_, number_, name_, plus_or_minus_, end_, range_, ends_};
ghost use Rattle.unity_syntax.specs.Grammar.{words_};
ghost use Rattle.unity_syntax.specs.View.{view_name, view_number, view_option, view_signed, view_some};
ghost use Rattle.unity_syntax.specs.View.{view_end, view_range};
ghost use Rattle.parser_expressions.specs.Bounds.{bound_, view_bound};
ghost use Rattle.parser_expressions.specs.Gives.{Reads, remaining};

use crate::cursor::Cursor;
use crate::lists::listed;
use crate::stop::Parsed;
use case_tables::Symbol;
use std::alloc::Global;
use unity_base::{Held, Seq};
use unity_syntax::{End, Name, Range};

/// `[ "-" ] number`
fn number_end<'a>(text: Cursor<'a>) -> Parsed<'a, End>
    ensures { Reads view_end result (made Kind.end_number (both minus_ number_)) 0 text.entry }
{
    let at = text.place();
    let (minus, text) = text.minus();
    let (number, text) = text.number()?;
    Ok((End::Number { at, minus, number }, text))
}

/// `[ ( "+" | "-" ) number ]`
fn offset<'a>(text: Cursor<'a>) -> Parsed<'a, Option<(Symbol, u64)>>
    ensures { Reads (view_option (view_signed view_number)) result (maybe (both plus_or_minus_ number_)) 0 text.entry }
{
    if !text.begins_sign() {
        return Ok((None, text));
    }
    let (sign, text) = text.sign()?;
    let (number, text) = text.number()?;
    Ok((Some((sign, number)), text))
}

/// `word [ ( "+" | "-" ) number ]`
fn word_end<'a>(alloc: Global, text: Cursor<'a>) -> Parsed<'a, End>
    ensures { Reads view_end result
        (made Kind.end_word (both name_ (maybe (both plus_or_minus_ number_)))) 0 text.entry }
{
    let at = text.place();
    let (name, text) = text.name(alloc)?;
    let (offset, text) = offset(text)?;
    Ok((End::Word { at, name, offset }, text))
}

/// `end = [ "-" ] number | word [ ( "+" | "-" ) number ]`
#[tactic(auto, unfolding(unity_syntax::specs::Grammar::end_))]
pub fn end<'a>(alloc: Global, depth: u32, text: Cursor<'a>) -> Parsed<'a, End>
    ensures { Reads view_end result end_ depth text.entry }
{
    if text.begins_signed_number() {
        return number_end(text);
    }
    word_end(alloc, text)
}

/// `range = end ".." end`
#[tactic(auto, unfolding(unity_syntax::specs::Grammar::range_))]
pub fn range<'a>(alloc: Global, depth: u32, text: Cursor<'a>) -> Parsed<'a, Range>
    ensures { Reads view_range result range_ depth text.entry }
{
    let at = text.place();
    let (low, text) = end(alloc, depth, text)?;
    let text = text.symbol(Symbol::DotDot)?;
    let (high, text) = end(alloc, depth, text)?;
    Ok((Range { at, low, high }, text))
}

/// Whether the next token begins a range.
#[tactic(auto, unfolding(unity_syntax::specs::Grammar::end_, unity_syntax::specs::Grammar::range_))]
pub fn begins_range(text: Cursor) -> bool
    ensures { result ≡ begins (first range_) (remaining text.entry) }
{
    text.begins_signed_number() || text.begins_name()
}

/// A bound name and its range.
#[derive(Drop)]
pub struct BoundName {
    pub name: Name,
    pub range: Range,
}

/// `word ":" range`, and the symbol after it, before what the name ranges over
pub fn bound<'a>(
    alloc: Global,
    depth: u32,
    end: Symbol,
    text: Cursor<'a>,
) -> Parsed<'a, Held<BoundName>>
    ensures { Reads view_bound result (bound_ end) depth text.entry }
{
    let (name, text) = text.name(alloc)?;
    let text = text.symbol(Symbol::Colon)?;
    let (range, text) = range(alloc, depth, text)?;
    let text = text.symbol(end)?;
    let bound = Held::new(alloc, BoundName { name, range })?;
    Ok((bound, text))
}

/// `end { "," end }`
#[tactic(auto, unfolding(unity_syntax::specs::Grammar::ends_))]
pub fn ends<'a>(alloc: Global, depth: u32, text: Cursor<'a>) -> Parsed<'a, (End, Seq<End>)>
    ensures { Reads (view_some view_end) result ends_ depth text.entry }
{
    listed(alloc, Symbol::Comma, text, |text| end(alloc, depth, text))
}

/// `word { "," word }`
#[tactic(auto, unfolding(unity_syntax::specs::Grammar::words_))]
pub fn names<'a>(alloc: Global, depth: u32, text: Cursor<'a>) -> Parsed<'a, (Name, Seq<Name>)>
    ensures { Reads (view_some view_name) result words_ depth text.entry }
{
    listed(alloc, Symbol::Comma, text, |text| text.name(alloc))
}
