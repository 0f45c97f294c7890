//! What stands before a program's statements: variables, always names and start values.

ghost use Rattle.std.specs.Prelude.{◌≡◌};
ghost use Rattle.case_tables.specs.declared.word_table.Word.{Word};
ghost use Rattle.case_tables.specs.declared.symbol_table.Symbol.{Symbol};
ghost use Rattle.grammar_theory.specs.Ebnf.{both, maybe, many, inside};
ghost use Rattle.grammar_theory.specs.LookAhead.{first};
ghost use Rattle.grammar_theory.specs.Reader.{begins};
ghost use Rattle.unity_syntax.specs.Classes.{reserved, symbol};
ghost use Rattle.unity_syntax.specs.Kinds.{Kind, Contents, contents};
ghost use Rattle.unity_syntax.specs.Grammar.{past, made, in_brackets, name_, number_, minus_, range_, init_value_};
ghost use Rattle.unity_syntax.specs.Grammar.{init_, start_index_, def_, plain_, var_type_, var_, one_or_more};
ghost use Rattle.unity_syntax.specs.View.{view_option, view_list, view_some, view_name, view_with_minus, view_plain};
ghost use Rattle.unity_syntax.specs.View.{view_var_type, view_var, view_def, view_init_value, view_init};
ghost use Rattle.parser_programs.specs.Forms.{words_in_braces_};
ghost use Rattle.parser_expressions.specs.Gives.{Reads, remaining};

use case_tables::{Symbol, Word};
use parser_expressions::{
    Cursor, Front, Parsed, Stop, begins_range, listed, names, pred, range, repeated,
};
use std::alloc::Global;
use unity_base::Seq;
use unity_syntax::{Def, Init, InitValue, Name, Plain, Var, VarType};

/// `"{" word { "," word } "}"`
#[tactic(auto, using(parser_expressions::proofs::Levels::a_level, parser_expressions::proofs::Levels::no_level))]
fn enclosed_names<'a>(alloc: Global, depth: u32, text: Cursor<'a>) -> Parsed<'a, (Name, Seq<Name>)>
    ensures { Reads (view_some view_name) result words_in_braces_ depth text.entry }
{
    let rest = text.symbol(Symbol::OpenBrace)?;
    if depth == 0 {
        return Err(Stop::TooDeep(text));
    }
    let (names, rest) = names(alloc, depth - 1, rest)?;
    let rest = rest.symbol(Symbol::CloseBrace)?;
    Ok((names, rest))
}

/// `"{" word { "," word } "}"`, as a type
fn enumeration<'a>(alloc: Global, depth: u32, text: Cursor<'a>) -> Parsed<'a, Plain>
    ensures { Reads view_plain result (made Kind.plain_words words_in_braces_) depth text.entry }
{
    let at = text.place();
    let ((first, rest), text) = enclosed_names(alloc, depth, text)?;
    Ok((Plain::Words { at, first, rest }, text))
}

/// `range`, as a type
fn range_type<'a>(alloc: Global, depth: u32, text: Cursor<'a>) -> Parsed<'a, Plain>
    ensures { Reads view_plain result (made Kind.plain_range range_) depth text.entry }
{
    let at = text.place();
    let (range, text) = range(alloc, depth, text)?;
    Ok((Plain::Range { at, range }, text))
}

/// `plain = "boolean" | range | "{" word { "," word } "}"`
#[tactic(auto, unfolding(unity_syntax::specs::Grammar::plain_))]
fn plain<'a>(alloc: Global, depth: u32, text: Cursor<'a>) -> Parsed<'a, Plain>
    ensures { Reads view_plain result plain_ depth text.entry }
{
    if text.begins_reserved(Word::Boolean) {
        let at = text.place();
        let text = text.reserved(Word::Boolean)?;
        return Ok((Plain::Boolean { at }, text));
    }
    if begins_range(text) {
        return range_type(alloc, depth, text);
    }
    enumeration(alloc, depth, text)
}

/// Whether the next token begins a type that is no array.
#[tactic(auto, unfolding(unity_syntax::proofs::Productions::all_productions))]
fn begins_plain(text: Cursor) -> bool
    ensures { result ≡ begins (first plain_) (remaining text.entry) }
{
    text.begins_reserved(Word::Boolean)
        || begins_range(text)
        || text.begins_symbol(Symbol::OpenBrace)
}

/// `"array" range "of" plain`
fn array_type<'a>(alloc: Global, depth: u32, text: Cursor<'a>) -> Parsed<'a, VarType>
    ensures { Reads view_var_type result
        (made Kind.type_array (past (reserved Word.Array) (both range_ (past (reserved Word.Of) plain_))))
        depth text.entry }
{
    let at = text.place();
    let text = text.reserved(Word::Array)?;
    let (range, text) = range(alloc, depth, text)?;
    let text = text.reserved(Word::Of)?;
    let (of, text) = plain(alloc, depth, text)?;
    Ok((VarType::Array { at, range, of }, text))
}

/// `plain`, as the type of a variable
fn plain_type<'a>(alloc: Global, depth: u32, text: Cursor<'a>) -> Parsed<'a, VarType>
    ensures { Reads view_var_type result (made Kind.type_plain plain_) depth text.entry }
{
    let at = text.place();
    let (of, text) = plain(alloc, depth, text)?;
    Ok((VarType::Plain { at, of }, text))
}

/// `plain | "array" range "of" plain`
#[tactic(auto, unfolding(unity_syntax::specs::Grammar::var_type_))]
fn var_type<'a>(alloc: Global, depth: u32, text: Cursor<'a>) -> Parsed<'a, VarType>
    ensures { Reads view_var_type result var_type_ depth text.entry }
{
    if begins_plain(text) {
        return plain_type(alloc, depth, text);
    }
    array_type(alloc, depth, text)
}

/// `var = word ":" ( plain | "array" range "of" plain )`
#[tactic(auto, unfolding(unity_syntax::specs::Grammar::var_))]
fn var<'a>(alloc: Global, depth: u32, text: Cursor<'a>) -> Parsed<'a, Var>
    ensures { Reads view_var result var_ depth text.entry }
{
    let at = text.place();
    let (name, text) = text.name(alloc)?;
    let text = text.symbol(Symbol::Colon)?;
    let (kind, text) = var_type(alloc, depth, text)?;
    Ok((Var { at, name, kind }, text))
}

/// `{ var }`
pub fn vars<'a>(alloc: Global, depth: u32, text: Cursor<'a>) -> Parsed<'a, Seq<Var>>
    ensures { Reads (view_list view_var) result (many var_) depth text.entry }
{
    repeated(alloc, Front::Name, text, |text| var(alloc, depth, text))
}

/// `def = word "=" pred`
#[tactic(auto, unfolding(unity_syntax::specs::Grammar::def_))]
fn def<'a>(alloc: Global, depth: u32, text: Cursor<'a>) -> Parsed<'a, Def>
    ensures { Reads view_def result def_ depth text.entry }
{
    let at = text.place();
    let (name, text) = text.name(alloc)?;
    let text = text.symbol(Symbol::Equal)?;
    let (of, text) = pred(alloc, depth, text)?;
    let of = of.into_inner();
    Ok((Def { at, name, of }, text))
}

/// `{ def }`
pub fn defs<'a>(alloc: Global, depth: u32, text: Cursor<'a>) -> Parsed<'a, Seq<Def>>
    ensures { Reads (view_list view_def) result (many def_) depth text.entry }
{
    repeated(alloc, Front::Name, text, |text| def(alloc, depth, text))
}

/// `[ "-" ] number`, as a start value
fn number_value<'a>(text: Cursor<'a>) -> Parsed<'a, InitValue>
    ensures { Reads view_init_value result (made Kind.init_number (both minus_ number_)) 0 text.entry }
{
    let at = text.place();
    let (minus, text) = text.minus();
    let (number, text) = text.number()?;
    Ok((InitValue::Number { at, minus, number }, text))
}

/// `word`, as a start value
fn word_value<'a>(alloc: Global, text: Cursor<'a>) -> Parsed<'a, InitValue>
    ensures { Reads view_init_value result (made Kind.init_word name_) 0 text.entry }
{
    let at = text.place();
    let (name, text) = text.name(alloc)?;
    Ok((InitValue::Word { at, name }, text))
}

/// `[ "-" ] number | word | "true" | "false"`
#[tactic(auto, unfolding(unity_syntax::specs::Grammar::init_value_))]
fn init_value<'a>(alloc: Global, depth: u32, text: Cursor<'a>) -> Parsed<'a, InitValue>
    ensures { Reads view_init_value result init_value_ depth text.entry }
{
    if text.begins_signed_number() {
        return number_value(text);
    }
    if text.begins_name() {
        return word_value(alloc, text);
    }
    let at = text.place();
    if text.begins_reserved(Word::True) {
        let text = text.reserved(Word::True)?;
        return Ok((InitValue::True { at }, text));
    }
    let text = text.reserved(Word::False)?;
    Ok((InitValue::False { at }, text))
}

/// `[ "-" ] number`
#[tactic(auto, unfolding(unity_syntax::specs::Grammar::start_index_))]
fn signed_number<'a>(depth: u32, text: Cursor<'a>) -> Parsed<'a, (bool, u64)>
    ensures { Reads view_with_minus result start_index_ depth text.entry }
{
    let (minus, text) = text.minus();
    let (number, text) = text.number()?;
    Ok(((minus, number), text))
}

/// `[ "-" ] number` in brackets
#[tactic(auto, using(parser_expressions::proofs::Levels::a_level, parser_expressions::proofs::Levels::no_level))]
fn start_index<'a>(depth: u32, text: Cursor<'a>) -> Parsed<'a, (bool, u64)>
    ensures { Reads view_with_minus result (in_brackets Contents.start_index) depth text.entry }
{
    let rest = text.symbol(Symbol::OpenBracket)?;
    if depth == 0 {
        return Err(Stop::TooDeep(text));
    }
    let (index, rest) = signed_number(depth - 1, rest)?;
    let rest = rest.symbol(Symbol::CloseBracket)?;
    Ok((index, rest))
}

/// `[ "[" [ "-" ] number "]" ]`
fn optional_start_index<'a>(depth: u32, text: Cursor<'a>) -> Parsed<'a, Option<(bool, u64)>>
    ensures { Reads (view_option view_with_minus) result (maybe (in_brackets Contents.start_index)) depth text.entry }
{
    if !text.begins_symbol(Symbol::OpenBracket) {
        return Ok((None, text));
    }
    let (index, text) = start_index(depth, text)?;
    Ok((Some(index), text))
}

/// `init = word [ "[" [ "-" ] number "]" ] "=" ( [ "-" ] number | word | "true" | "false" )`
#[tactic(auto, unfolding(unity_syntax::specs::Grammar::init_))]
fn init<'a>(alloc: Global, depth: u32, text: Cursor<'a>) -> Parsed<'a, Init>
    ensures { Reads view_init result init_ depth text.entry }
{
    let at = text.place();
    let (name, text) = text.name(alloc)?;
    let (index, text) = optional_start_index(depth, text)?;
    let text = text.symbol(Symbol::Equal)?;
    let (value, text) = init_value(alloc, depth, text)?;
    let init = Init {
        at,
        name,
        index,
        value,
    };
    Ok((init, text))
}

/// `init { "," init }`
pub fn inits<'a>(alloc: Global, depth: u32, text: Cursor<'a>) -> Parsed<'a, (Init, Seq<Init>)>
    ensures { Reads (view_some view_init) result (one_or_more (symbol Symbol.Comma) init_) depth text.entry }
{
    listed(alloc, Symbol::Comma, text, |text| init(alloc, depth, text))
}
