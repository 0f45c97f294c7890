//! Programs.

ghost use Rattle.std.specs.Prelude.{◌≡◌};
ghost use Rattle.case_tables.specs.declared.word_table.Word.{Word};
ghost use Rattle.grammar_theory.specs.Ebnf.{pair, node};
ghost use Rattle.grammar_theory.specs.LookAhead.{first};
ghost use Rattle.grammar_theory.specs.Reader.{begins, after};
ghost use Rattle.unity_syntax.specs.Classes.{reserved};
ghost use Rattle.unity_syntax.specs.Kinds.{Kind, kind};
ghost use Rattle.unity_syntax.specs.Grammar.{past, up_to, items_, declare_, always_, initially_, start_};
ghost use Rattle.unity_syntax.specs.Grammar.{union_program_, plain_program_, program_};
ghost use Rattle.unity_syntax.specs.View.{view_option, view_list, view_some, view_name, view_var, view_def, view_init};
ghost use Rattle.unity_syntax.specs.View.{view_initially, view_items, view_program};
ghost use Rattle.parser_expressions.specs.Gives.{Reads, ReadsAs, remaining};

use crate::declarations::{defs, inits, vars};
use crate::statements::items;
use case_tables::{Symbol, Word};
use parser_expressions::{Cursor, Parsed, pred, section};
use std::alloc::Global;
use unity_base::{Held, Seq};
use unity_syntax::{Def, Init, Initially, Items, Name, Program, Var};

/// `[ "declare" { var } ]`
fn declare<'a>(alloc: Global, depth: u32, text: Cursor<'a>) -> Parsed<'a, Held<Option<Seq<Var>>>>
    ensures { Reads (view_option (view_list view_var)) result declare_ depth text.entry }
{
    section(alloc, Word::Declare, text, |text| vars(alloc, depth, text))
}

/// `[ "always" { def } ]`
fn always<'a>(alloc: Global, depth: u32, text: Cursor<'a>) -> Parsed<'a, Held<Option<Seq<Def>>>>
    ensures { Reads (view_option (view_list view_def)) result always_ depth text.entry }
{
    section(alloc, Word::Always, text, |text| defs(alloc, depth, text))
}

/// `[ "initially" pred ]`
fn initially<'a>(alloc: Global, depth: u32, text: Cursor<'a>) -> Parsed<'a, Held<Option<Initially>>>
    ensures { Reads (view_option view_initially) result initially_ depth text.entry }
{
    if !text.begins_reserved(Word::Initially) {
        let none = Held::new(alloc, None)?;
        return Ok((none, text));
    }
    let at = text.place();
    let text = text.reserved(Word::Initially)?;
    let (of, text) = pred(alloc, depth, text)?;
    let of = of.into_inner();
    let section = Held::new(alloc, Some(Initially { at, of }))?;
    Ok((section, text))
}

/// `[ "start" init { "," init } ]`
fn start<'a>(
    alloc: Global,
    depth: u32,
    text: Cursor<'a>,
) -> Parsed<'a, Held<Option<(Init, Seq<Init>)>>>
    ensures { Reads (view_option (view_some view_init)) result start_ depth text.entry }
{
    section(alloc, Word::Start, text, |text| inits(alloc, depth, text))
}

/// `"assign" items "end"`
fn body<'a>(alloc: Global, depth: u32, text: Cursor<'a>) -> Parsed<'a, Held<Items>>
    ensures { Reads view_items result
        (past (reserved Word.Assign) (up_to items_ (reserved Word.End))) depth text.entry }
{
    let text = text.reserved(Word::Assign)?;
    let (items, text) = items(alloc, depth, text)?;
    let text = text.end()?;
    Ok((items, text))
}

/// What follows the name of a program that is no union.
#[tactic(auto, unfolding(unity_syntax::specs::Grammar::plain_program_))]
fn plain<'a>(
    alloc: Global,
    depth: u32,
    at: u64,
    name: Name,
    text: Cursor<'a>,
) -> Parsed<'a, Program>
    ensures { ReadsAs (λ x. node (kind Kind.program_plain) at (pair (view_name name) x))
        view_program result plain_program_ depth text.entry }
{
    let (declare, text) = declare(alloc, depth, text)?;
    let (always, text) = always(alloc, depth, text)?;
    let (initially, text) = initially(alloc, depth, text)?;
    let (start, text) = start(alloc, depth, text)?;
    let (items, text) = body(alloc, depth, text)?;
    let program = Program::Plain {
        at,
        name,
        declare: declare.into_inner(),
        always: always.into_inner(),
        initially: initially.into_inner(),
        start: start.into_inner(),
        items: items.into_inner(),
    };
    Ok((program, text))
}

/// `"=" word "[]" word "end"`, after the name of a union
#[tactic(auto, unfolding(unity_syntax::specs::Grammar::union_program_))]
fn union<'a>(
    alloc: Global,
    depth: u32,
    at: u64,
    name: Name,
    text: Cursor<'a>,
) -> Parsed<'a, Program>
    ensures { ReadsAs (λ x. node (kind Kind.program_union) at (pair (view_name name) x))
        view_program result union_program_ depth text.entry }
{
    let text = text.symbol(Symbol::Equal)?;
    let (left, text) = text.name(alloc)?;
    let text = text.symbol(Symbol::Box)?;
    let (right, text) = text.name(alloc)?;
    let text = text.end()?;
    let program = Program::Union {
        at,
        name,
        left,
        right,
    };
    Ok((program, text))
}

/// Whether a union follows the name of a program.
#[tactic(auto, unfolding(unity_syntax::specs::Grammar::union_program_))]
fn begins_union(text: Cursor) -> bool
    ensures { result ≡ begins (first union_program_) (remaining text.entry) }
{
    text.begins_symbol(Symbol::Equal)
}

/// `program = "program" word "=" word "[]" word "end"
///          | "program" word [ "declare" { var } ] [ "always" { def } ] [ "initially" pred ]
///            [ "start" init { "," init } ] "assign" items "end"`
#[tactic(auto, unfolding(unity_syntax::specs::Grammar::program_))]
pub fn program<'a>(alloc: Global, depth: u32, text: Cursor<'a>) -> Parsed<'a, Program>
    ensures { Reads view_program result program_ depth text.entry }
{
    let at = text.place();
    let text = text.reserved(Word::Program)?;
    let (name, text) = text.name(alloc)?;
    if begins_union(text) {
        return union(alloc, depth, at, name, text);
    }
    plain(alloc, depth, at, name, text)
}
