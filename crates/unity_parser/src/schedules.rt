//! Schedules.

ghost use Rattle.std.specs.Prelude.{◌≡◌};
ghost use Rattle.case_tables.specs.declared.symbol_table.Symbol.{Symbol};
ghost use Rattle.grammar_theory.specs.Ebnf.{many, maybe};
ghost use Rattle.grammar_theory.specs.LookAhead.{first};
ghost use Rattle.grammar_theory.specs.Reader.{begins};
ghost use Rattle.unity_syntax.specs.Classes.{symbol};
ghost use Rattle.unity_syntax.specs.Grammar.{past, one_or_more, inst_, schedule_};
ghost use Rattle.unity_syntax.specs.View.{view_inst, view_list, view_option, view_schedule, view_some};
ghost use Rattle.parser_programs.specs.from_parser_expressions.Gives.{Reads, remaining};

use case_tables::{Symbol, Word};
use parser_programs::from_parser_expressions::{Cursor, Parsed, inst};
use std::alloc::Global;
use unity_base::Seq;
use unity_syntax::{Inst, Schedule};

/// `"," inst`
fn next_inst<'a>(alloc: Global, depth: u32, text: Cursor<'a>) -> Parsed<'a, Inst>
    ensures { Reads view_inst result (past (symbol Symbol.Comma) inst_) depth text.entry }
{
    let text = text.symbol(Symbol::Comma)?;
    inst(alloc, depth, text)
}

/// `{ "," inst }`
fn more_insts<'a>(alloc: Global, depth: u32, text: Cursor<'a>) -> Parsed<'a, Seq<Inst>>
    ensures { Reads (view_list view_inst) result (many (past (symbol Symbol.Comma) inst_)) depth text.entry }
{
    let mut found = Seq::new(alloc);
    let mut rest = text;
    'items: while rest.begins_symbol(Symbol::Comma) {
        let (item, later) = next_inst(alloc, depth, rest)?;
        found.push(item)?;
        rest = later;
    }
    Ok((found, rest))
}

/// Whether a choice of a schedule begins here.
#[tactic(auto, unfolding(unity_syntax::specs::Grammar::inst_))]
fn begins_choice(text: Cursor) -> bool
    ensures { result ≡ begins (first (one_or_more (symbol Symbol.Comma) inst_)) (remaining text.entry) }
{
    text.begins_name()
}

/// `[ inst { "," inst } ]`
fn choices<'a>(alloc: Global, depth: u32, text: Cursor<'a>) -> Parsed<'a, Option<(Inst, Seq<Inst>)>>
    ensures { Reads (view_option (view_some view_inst)) result
        (maybe (one_or_more (symbol Symbol.Comma) inst_)) depth text.entry }
{
    if !begins_choice(text) {
        return Ok((None, text));
    }
    let (first, text) = inst(alloc, depth, text)?;
    let (rest, text) = more_insts(alloc, depth, text)?;
    Ok((Some((first, rest)), text))
}

/// `schedule = "schedule" word ":" [ inst { "," inst } ] "end"`
#[tactic(auto, unfolding(unity_syntax::specs::Grammar::schedule_))]
pub fn schedule<'a>(alloc: Global, depth: u32, text: Cursor<'a>) -> Parsed<'a, Schedule>
    ensures { Reads view_schedule result schedule_ depth text.entry }
{
    let at = text.place();
    let text = text.reserved(Word::Schedule)?;
    let (program, text) = text.name(alloc)?;
    let text = text.symbol(Symbol::Colon)?;
    let (choices, text) = choices(alloc, depth, text)?;
    let text = text.end()?;
    let schedule = Schedule {
        at,
        program,
        choices,
    };
    Ok((schedule, text))
}
