//! Expressions, from the loosest operator to the tightest.

ghost use Rattle.case_tables.specs.declared.word_table.Word.{Word};
ghost use Rattle.case_tables.specs.declared.symbol_table.Symbol.{Symbol};
ghost use Rattle.grammar_theory.specs.Ebnf.{pair, both, fixed, maybe, many, named, node};
ghost use Rattle.unity_syntax.specs.Classes.{reserved, symbol};
ghost use Rattle.unity_syntax.specs.Kinds.{Kind, kind, Contents};
ghost use Rattle.unity_syntax.specs.Grammar.{past, made, in_brackets, in_parentheses, name_, plus_or_minus_, number_};
ghost use Rattle.unity_syntax.specs.Grammar.{operator_};
ghost use Rattle.unity_syntax.specs.Grammar.{atom_, product_, sum_, compare_, unit_, joined_, pred_, quantified_};
ghost use Rattle.unity_syntax.specs.Grammar.{parentheses_, make_parentheses};
ghost use Rattle.unity_syntax.specs.View.{view_list, view_signed, view_factor, view_expr};
ghost use Rattle.parser_expressions.specs.Gives.{Reads, ReadsAs};
ghost use Rattle.parser_expressions.specs.Joints.{joint_kind, joined_unit_};

use crate::cursor::Cursor;
use crate::joints::Joint;
use crate::nodes;
use crate::ranges::bound;
use crate::stop::{Parsed, Stop};
use case_tables::{Symbol, Word};
use std::alloc::Global;
use unity_base::{Held, Seq};
use unity_syntax::{Expr, Operator};

/// `"if" pred`
pub fn condition<'a>(alloc: Global, depth: u32, text: Cursor<'a>) -> Parsed<'a, Held<Expr>>
    ensures { Reads view_expr result (past (reserved Word.If) pred_) depth text.entry }
{
    let text = text.reserved(Word::If)?;
    pred(alloc, depth, text)
}

/// `pred = joined [ "=>" joined ]`
#[tactic(auto, unfolding(unity_syntax::specs::Grammar::pred_))]
#[cycle(expressions)]
pub fn pred<'a>(alloc: Global, depth: u32, text: Cursor<'a>) -> Parsed<'a, Held<Expr>>
    ensures { Reads view_expr result pred_ depth text.entry }
{
    let at = text.place();
    let (first, text) = joined(alloc, depth, text)?;
    if !text.begins_symbol(Symbol::Implies) {
        return Ok((first, text));
    }
    let text = text.symbol(Symbol::Implies)?;
    let (second, text) = joined(alloc, depth, text)?;
    let whole = nodes::implies(alloc, at, first, second)?;
    Ok((whole, text))
}

/// `joined = unit { "and" unit } | unit { "or" unit }`
#[tactic(auto, unfolding(unity_syntax::specs::Grammar::joined_))]
#[cycle(expressions)]
fn joined<'a>(alloc: Global, depth: u32, text: Cursor<'a>) -> Parsed<'a, Held<Expr>>
    ensures { Reads view_expr result joined_ depth text.entry }
{
    let at = text.place();
    let (first, text) = unit(alloc, depth, text)?;
    if text.begins_reserved(Word::And) {
        return joined_by(alloc, depth, at, Joint::And, first, text);
    }
    if text.begins_reserved(Word::Or) {
        return joined_by(alloc, depth, at, Joint::Or, first, text);
    }
    Ok((first, text))
}

/// `{ "and" unit }`, or `{ "or" unit }`, after a first unit
#[cycle(expressions)]
fn joined_by<'a>(
    alloc: Global,
    depth: u32,
    at: u64,
    by: Joint,
    first: Held<Expr>,
    text: Cursor<'a>,
) -> Parsed<'a, Held<Expr>>
    ensures { ReadsAs (λ xs. node (joint_kind by) at (pair (view_expr first) xs))
        view_expr result (many (joined_unit_ by)) depth text.entry }
{
    let (rest, text) = more_units(alloc, depth, by, text)?;
    let whole = nodes::joined(alloc, at, by, first, rest)?;
    Ok((whole, text))
}

/// `{ "and" unit }`, or `{ "or" unit }`
#[cycle(expressions)]
fn more_units<'a>(alloc: Global, depth: u32, by: Joint, text: Cursor<'a>) -> Parsed<'a, Seq<Expr>>
    ensures { Reads (view_list view_expr) result (many (joined_unit_ by)) depth text.entry }
{
    let mut found = Seq::new(alloc);
    let mut rest = text;
    'items: while by.goes_on(rest) {
        let (item, later) = next_unit(alloc, depth, by, rest)?;
        found.push(item.into_inner())?;
        rest = later;
    }
    Ok((found, rest))
}

/// `"and" unit`, or `"or" unit`
#[cycle(expressions)]
fn next_unit<'a>(alloc: Global, depth: u32, by: Joint, text: Cursor<'a>) -> Parsed<'a, Held<Expr>>
    ensures { Reads view_expr result (joined_unit_ by) depth text.entry }
{
    let text = by.skip(text)?;
    unit(alloc, depth, text)
}

/// `unit = [ "not" ] compare`
#[tactic(auto, unfolding(unity_syntax::specs::Grammar::unit_))]
#[cycle(expressions)]
fn unit<'a>(alloc: Global, depth: u32, text: Cursor<'a>) -> Parsed<'a, Held<Expr>>
    ensures { Reads view_expr result unit_ depth text.entry }
{
    let at = text.place();
    if !text.begins_reserved(Word::Not) {
        return compare(alloc, depth, text);
    }
    let text = text.reserved(Word::Not)?;
    let (of, text) = compare(alloc, depth, text)?;
    let whole = nodes::not(alloc, at, of)?;
    Ok((whole, text))
}

/// `compare = sum [ ( "=" | "/=" | "<" | "<=" | ">" | ">=" ) sum ]`
#[tactic(auto, unfolding(unity_syntax::specs::Grammar::compare_))]
#[cycle(expressions)]
fn compare<'a>(alloc: Global, depth: u32, text: Cursor<'a>) -> Parsed<'a, Held<Expr>>
    ensures { Reads view_expr result compare_ depth text.entry }
{
    let at = text.place();
    let (first, text) = sum(alloc, depth, text)?;
    if !text.begins_relation() {
        return Ok((first, text));
    }
    let (relation, text) = text.relation()?;
    let (second, text) = sum(alloc, depth, text)?;
    let whole = nodes::compare(alloc, at, first, relation, second)?;
    Ok((whole, text))
}

/// `sum = [ "-" ] product { ( "+" | "-" ) product }`
#[tactic(auto, unfolding(unity_syntax::specs::Grammar::sum_))]
#[cycle(expressions)]
fn sum<'a>(alloc: Global, depth: u32, text: Cursor<'a>) -> Parsed<'a, Held<Expr>>
    ensures { Reads view_expr result sum_ depth text.entry }
{
    let at = text.place();
    let (minus, text) = text.minus();
    let (first, text) = product(alloc, depth, text)?;
    let (rest, text) = more_products(alloc, depth, text)?;
    let whole = nodes::sum(alloc, at, minus, first, rest)?;
    Ok((whole, text))
}

/// `{ ( "+" | "-" ) product }`
#[cycle(expressions)]
fn more_products<'a>(alloc: Global, depth: u32, text: Cursor<'a>) -> Parsed<'a, Seq<(Symbol, Expr)>>
    ensures { Reads (view_list (view_signed view_expr)) result (many (both plus_or_minus_ product_)) depth text.entry }
{
    let mut found = Seq::new(alloc);
    let mut rest = text;
    'items: while rest.begins_sign() {
        let (item, later) = next_product(alloc, depth, rest)?;
        let (sign, product) = item;
        found.push((sign, product.into_inner()))?;
        rest = later;
    }
    Ok((found, rest))
}

/// `( "+" | "-" ) product`
#[cycle(expressions)]
fn next_product<'a>(alloc: Global, depth: u32, text: Cursor<'a>) -> Parsed<'a, (Symbol, Held<Expr>)>
    ensures { Reads (view_signed view_expr) result (both plus_or_minus_ product_) depth text.entry }
{
    let (sign, text) = text.sign()?;
    let (product, text) = product(alloc, depth, text)?;
    Ok(((sign, product), text))
}

/// `product = atom { ( "*" | "div" | "mod" ) atom }`
#[tactic(auto, unfolding(unity_syntax::specs::Grammar::product_))]
#[cycle(expressions)]
fn product<'a>(alloc: Global, depth: u32, text: Cursor<'a>) -> Parsed<'a, Held<Expr>>
    ensures { Reads view_expr result product_ depth text.entry }
{
    let at = text.place();
    let (first, text) = atom(alloc, depth, text)?;
    let (rest, text) = more_factors(alloc, depth, text)?;
    let whole = nodes::product(alloc, at, first, rest)?;
    Ok((whole, text))
}

/// `{ ( "*" | "div" | "mod" ) atom }`
#[cycle(expressions)]
fn more_factors<'a>(
    alloc: Global,
    depth: u32,
    text: Cursor<'a>,
) -> Parsed<'a, Seq<(Operator, Expr)>>
    ensures { Reads (view_list (view_factor view_expr)) result (many (both operator_ atom_)) depth text.entry }
{
    let mut found = Seq::new(alloc);
    let mut rest = text;
    'items: while rest.begins_operator() {
        let (item, later) = next_factor(alloc, depth, rest)?;
        let (operator, factor) = item;
        found.push((operator, factor.into_inner()))?;
        rest = later;
    }
    Ok((found, rest))
}

/// `( "*" | "div" | "mod" ) atom`
#[cycle(expressions)]
fn next_factor<'a>(
    alloc: Global,
    depth: u32,
    text: Cursor<'a>,
) -> Parsed<'a, (Operator, Held<Expr>)>
    ensures { Reads (view_factor view_expr) result (both operator_ atom_) depth text.entry }
{
    let (operator, text) = text.operator()?;
    let (factor, text) = atom(alloc, depth, text)?;
    Ok(((operator, factor), text))
}

/// `number`
fn number<'a>(alloc: Global, text: Cursor<'a>) -> Parsed<'a, Held<Expr>>
    ensures { Reads view_expr result (made Kind.expr_number number_) 0 text.entry }
{
    let at = text.place();
    let (number, text) = text.number()?;
    let whole = nodes::number(alloc, at, number)?;
    Ok((whole, text))
}

/// `"true"`
fn truth<'a>(alloc: Global, text: Cursor<'a>) -> Parsed<'a, Held<Expr>>
    ensures { Reads view_expr result (made Kind.expr_true (fixed (reserved Word.True))) 0 text.entry }
{
    let at = text.place();
    let text = text.reserved(Word::True)?;
    let whole = nodes::truth(alloc, at)?;
    Ok((whole, text))
}

/// `"false"`
fn falsehood<'a>(alloc: Global, text: Cursor<'a>) -> Parsed<'a, Held<Expr>>
    ensures { Reads view_expr result (made Kind.expr_false (fixed (reserved Word.False))) 0 text.entry }
{
    let at = text.place();
    let text = text.reserved(Word::False)?;
    let whole = nodes::falsehood(alloc, at)?;
    Ok((whole, text))
}

/// `atom = number | "true" | "false" | word [ "[" pred "]" ] | "(" pred ")"
///       | "(" ( "all" | "any" | "sum" ) word ":" range "::" pred ")"`
#[tactic(auto, unfolding(unity_syntax::specs::Grammar::atom_))]
#[cycle(expressions)]
fn atom<'a>(alloc: Global, depth: u32, text: Cursor<'a>) -> Parsed<'a, Held<Expr>>
    ensures { Reads view_expr result atom_ depth text.entry }
{
    if text.begins_number() {
        return number(alloc, text);
    }
    if text.begins_reserved(Word::True) {
        return truth(alloc, text);
    }
    if text.begins_reserved(Word::False) {
        return falsehood(alloc, text);
    }
    if text.begins_name() {
        return word(alloc, depth, text);
    }
    parentheses(alloc, depth, text)
}

/// `word [ "[" pred "]" ]`
#[cycle(expressions)]
fn word<'a>(alloc: Global, depth: u32, text: Cursor<'a>) -> Parsed<'a, Held<Expr>>
    ensures { Reads view_expr result
        (made Kind.expr_word (both name_ (maybe (in_brackets Contents.index)))) depth text.entry }
{
    let at = text.place();
    let (name, text) = text.name(alloc)?;
    if !text.begins_symbol(Symbol::OpenBracket) {
        let whole = nodes::word(alloc, at, name)?;
        return Ok((whole, text));
    }
    let (of, text) = index(alloc, depth, text)?;
    let whole = nodes::indexed(alloc, at, name, of)?;
    Ok((whole, text))
}

/// `"[" pred "]"`
#[tactic(auto, using(crate::proofs::Levels::a_level, crate::proofs::Levels::no_level))]
#[cycle(expressions)]
pub fn index<'a>(alloc: Global, depth: u32, text: Cursor<'a>) -> Parsed<'a, Held<Expr>>
    ensures { Reads view_expr result (in_brackets Contents.index) depth text.entry }
{
    let rest = text.symbol(Symbol::OpenBracket)?;
    if depth == 0 {
        return Err(Stop::TooDeep(text));
    }
    let (of, rest) = pred(alloc, depth - 1, rest)?;
    let rest = rest.symbol(Symbol::CloseBracket)?;
    Ok((of, rest))
}

/// `"(" pred ")"`, also with a quantifier
#[tactic(auto, using(crate::proofs::BracketReading::bracket_level, crate::proofs::BracketReading::bracket_none))]
#[cycle(expressions)]
fn parentheses<'a>(alloc: Global, depth: u32, text: Cursor<'a>) -> Parsed<'a, Held<Expr>>
    ensures { Reads view_expr result (named make_parentheses (in_parentheses Contents.parentheses)) depth text.entry }
{
    let at = text.place();
    let rest = text.symbol(Symbol::OpenParenthesis)?;
    if depth == 0 {
        return Err(Stop::TooDeep(text));
    }
    let (whole, rest) = contents(alloc, depth - 1, at, rest)?;
    let rest = rest.symbol(Symbol::CloseParenthesis)?;
    Ok((whole, rest))
}

/// What stands in the parentheses that begin at this place.
#[tactic(auto, unfolding(unity_syntax::specs::Grammar::parentheses_))]
#[cycle(expressions)]
fn contents<'a>(alloc: Global, depth: u32, at: u64, text: Cursor<'a>) -> Parsed<'a, Held<Expr>>
    ensures { ReadsAs (make_parentheses at) view_expr result parentheses_ depth text.entry }
{
    if text.begins_quantifier() {
        return quantified(alloc, depth, at, text);
    }
    let (of, text) = pred(alloc, depth, text)?;
    let whole = nodes::brackets(alloc, at, of)?;
    Ok((whole, text))
}

/// `( "all" | "any" | "sum" ) word ":" range "::" pred`, in the parentheses that begin at this place
#[tactic(auto, unfolding(unity_syntax::specs::Grammar::quantified_))]
#[cycle(expressions)]
fn quantified<'a>(alloc: Global, depth: u32, at: u64, text: Cursor<'a>) -> Parsed<'a, Held<Expr>>
    ensures { ReadsAs (node (kind Kind.expr_quantified) at) view_expr result quantified_ depth text.entry }
{
    let (which, text) = text.quantifier()?;
    let (bound, text) = bound(alloc, depth, Symbol::DoubleColon, text)?;
    let (of, text) = pred(alloc, depth, text)?;
    let whole = nodes::quantified(alloc, at, which, bound, of)?;
    Ok((whole, text))
}
