//! Forms that stand one after another.

ghost use Rattle.std.specs.Prelude.{◌≡◌, ◌≤◌, ℕ, [], ◌∷◌, IfOk};
ghost use Rattle.grammar_theory.specs.Ebnf.{Tree, Ebnf, many};
ghost use Rattle.grammar_theory.specs.Reader.{begins, count};
ghost use Rattle.unity_syntax.specs.Classes.{symbol};
ghost use Rattle.unity_syntax.specs.Grammar.{one_or_more, past};
ghost use Rattle.unity_syntax.specs.View.{view_list, view_some};
ghost use Rattle.parser_expressions.specs.Gives.{Reads, remaining};
ghost use Rattle.parser_expressions.specs.Lists.{IsItem, Passes, ReadsForm, TakesTokens, front_class, with_front};

use crate::cursor::Cursor;
use crate::stop::{Parsed, Stop};
use case_tables::Symbol;
use std::alloc::Global;
use unity_base::{Held, Seq};

/// What tells that a further item comes.
#[derive(Clone, Copy)]
pub enum Front {
    /// The name that each item begins with.
    Name,
    /// A symbol that stands in front of the item.
    Symbol(Symbol),
}

impl Front {
    /// Whether a further item comes.
    fn begins(self, text: Cursor) -> bool
        ensures { result ≡ begins (front_class self ∷ []) (remaining text.entry) }
    {
        match self {
            Front::Name => text.begins_name(),
            Front::Symbol(symbol) => text.begins_symbol(symbol),
        }
    }

    /// Where the item itself begins.
    fn pass<'a>(self, text: Cursor<'a>) -> Result<Cursor<'a>, Stop<'a>>
        ensures read { Passes self result text.entry }
        ensures taken { IfOk result (λ rest. count (remaining rest) ≤ count (remaining text.entry)) }
    {
        match self {
            Front::Name => Ok(text),
            Front::Symbol(symbol) => text.symbol(symbol),
        }
    }
}

/// `{ item }`, or `{ symbol item }`: the items that stand here, each of which the call reads
pub fn repeated<'a, T: Drop, F: Fn(Cursor<'a>) -> Parsed<'a, T>>(
    alloc: Global,
    front: Front,
    text: Cursor<'a>,
    item: F,
) -> Parsed<'a, Seq<T>>
    requires callable { F.IsAlwaysCallable item }
    requires ends { TakesTokens (F.post item) }
    ensures { (view : T → Tree) (form : Ebnf) (depth : ℕ) → IsItem (with_front front form) (front_class front ∷ []) →
        ReadsForm (F.post item) view form depth →
        Reads (view_list view) result (many (with_front front form)) depth text.entry }
{
    let mut found = Seq::new(alloc);
    let mut rest = text;
    'items: while front.begins(rest) {
        let inner = front.pass(rest)?;
        let (one, later) = item(inner)?;
        found.push(one)?;
        rest = later;
    }
    Ok((found, rest))
}

/// `item { separator item }`: one item or more, each of which the call reads
pub fn listed<'a, T: Drop, F: Fn(Cursor<'a>) -> Parsed<'a, T>>(
    alloc: Global,
    separator: Symbol,
    text: Cursor<'a>,
    item: F,
) -> Parsed<'a, (T, Seq<T>)>
    requires callable { F.IsAlwaysCallable item }
    requires ends { TakesTokens (F.post item) }
    ensures { (view : T → Tree) (form : Ebnf) (depth : ℕ) →
        IsItem (past (symbol separator) form) (symbol separator ∷ []) → ReadsForm (F.post item) view form depth →
        Reads (view_some view) result (one_or_more (symbol separator) form) depth text.entry }
{
    let (first, text) = item(text)?;
    let (rest, text) = repeated(alloc, Front::Symbol(separator), text, item)?;
    Ok(((first, rest), text))
}

/// What was read, taken out of its place.
pub fn owned<'a, T>(read: Parsed<'a, Held<T>>) -> Parsed<'a, T>
    ensures { result ≡ read.entry }
{
    match read {
        Ok((held, text)) => Ok((held.into_inner(), text)),
        Err(stop) => Err(stop),
    }
}
