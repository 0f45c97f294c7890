//! Forms that may be left out.

ghost use Rattle.std.specs.Prelude.{ℕ};
ghost use Rattle.grammar_theory.specs.Ebnf.{Tree, Ebnf, maybe};
ghost use Rattle.unity_syntax.specs.Classes.{reserved};
ghost use Rattle.unity_syntax.specs.Grammar.{past};
ghost use Rattle.unity_syntax.specs.View.{view_option};
ghost use Rattle.parser_expressions.specs.Gives.{Reads};
ghost use Rattle.parser_expressions.specs.Lists.{ReadsForm};

use crate::cursor::Cursor;
use crate::stop::Parsed;
use case_tables::Word;
use std::alloc::Global;
use unity_base::Held;

/// `[ word part ]`: nothing where another token comes, and else the part, which the call reads
pub fn section<'a, T: Drop, F: Fn(Cursor<'a>) -> Parsed<'a, T>>(
    alloc: Global,
    word: Word,
    text: Cursor<'a>,
    part: F,
) -> Parsed<'a, Held<Option<T>>>
    requires { F.IsAlwaysCallable part }
    ensures { (view : T → Tree) (form : Ebnf) (depth : ℕ) → ReadsForm (F.post part) view form depth →
        Reads (view_option view) result (maybe (past (reserved word) form)) depth text.entry }
{
    if !text.begins_reserved(word) {
        let none = Held::new(alloc, None)?;
        return Ok((none, text));
    }
    let inner = text.reserved(word)?;
    let (found, rest) = part(inner)?;
    let found = Held::new(alloc, Some(found))?;
    Ok((found, rest))
}
