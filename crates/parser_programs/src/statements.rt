//! Statements: targets and their values, assignments, and lists of statements.

ghost use Rattle.case_tables.specs.declared.word_table.Word.{Word};
ghost use Rattle.case_tables.specs.declared.symbol_table.Symbol.{Symbol};
ghost use Rattle.grammar_theory.specs.Ebnf.{both, maybe, many, node};
ghost use Rattle.unity_syntax.specs.Classes.{reserved, symbol};
ghost use Rattle.unity_syntax.specs.Kinds.{Kind, kind, Contents};
ghost use Rattle.unity_syntax.specs.Grammar.{past, made, in_brackets, name_, pred_, values_, choice_, alts_, target_};
ghost use Rattle.unity_syntax.specs.Grammar.{one_or_more};
ghost use Rattle.unity_syntax.specs.Grammar.{comp_, assign_, quantified_assign_, item_, items_, quantified_items_};
ghost use Rattle.unity_syntax.specs.View.{view_option, view_list, view_some, view_name, view_range, view_expr};
ghost use Rattle.unity_syntax.specs.View.{view_values};
ghost use Rattle.unity_syntax.specs.View.{view_choice, view_choices, view_alts, view_target, view_component};
ghost use Rattle.unity_syntax.specs.View.{view_assign, view_item, view_items};
ghost use Rattle.parser_expressions.specs.Gives.{Reads, ReadsAs};
ghost use Rattle.parser_programs.specs.Forms.{parallel_, box_};

use crate::nodes;
use case_tables::{Symbol, Word};
use parser_expressions::{
    Cursor, Front, Parsed, Stop, bound, condition, index, listed, owned, pred, repeated,
};
use std::alloc::Global;
use unity_base::{Held, Seq};
use unity_syntax::{Alts, Assign, Component, Expr, Item, Items, Target, Values};

/// `pred { "," pred }`
fn expressions<'a>(alloc: Global, depth: u32, text: Cursor<'a>) -> Parsed<'a, (Expr, Seq<Expr>)>
    ensures { Reads (view_some view_expr) result (one_or_more (symbol Symbol.Comma) pred_) depth text.entry }
{
    listed(
        alloc,
        Symbol::Comma,
        text,
        |text|
            ensures { Reads view_expr result pred_ depth text.entry }
        { owned(pred(alloc, depth, text)) },
    )
}

/// `values = pred { "," pred }`
#[tactic(auto, unfolding(unity_syntax::specs::Grammar::values_))]
fn values<'a>(alloc: Global, depth: u32, text: Cursor<'a>) -> Parsed<'a, Held<Values>>
    ensures { Reads view_values result values_ depth text.entry }
{
    let at = text.place();
    let ((first, rest), text) = expressions(alloc, depth, text)?;
    let values = Held::new(alloc, Values { at, first, rest })?;
    Ok((values, text))
}

/// `values "if" pred`
fn choice<'a>(alloc: Global, depth: u32, text: Cursor<'a>) -> Parsed<'a, (Values, Expr)>
    ensures { Reads view_choice result choice_ depth text.entry }
{
    let (values, text) = values(alloc, depth, text)?;
    let (condition, text) = condition(alloc, depth, text)?;
    Ok(((values.into_inner(), condition.into_inner()), text))
}

/// `{ "~" values "if" pred }`
fn more_choices<'a>(alloc: Global, depth: u32, text: Cursor<'a>) -> Parsed<'a, Seq<(Values, Expr)>>
    ensures { Reads (view_list view_choice) result (many (past (symbol Symbol.Tilde) choice_)) depth text.entry }
{
    repeated(
        alloc,
        Front::Symbol(Symbol::Tilde),
        text,
        |text| choice(alloc, depth, text),
    )
}

/// `[ "if" pred { "~" values "if" pred } ]`
fn choices<'a>(
    alloc: Global,
    depth: u32,
    text: Cursor<'a>,
) -> Parsed<'a, Option<(Expr, Seq<(Values, Expr)>)>>
    ensures { Reads (view_option view_choices) result
        (maybe (past (reserved Word.If) (both pred_ (many (past (symbol Symbol.Tilde) choice_))))) depth text.entry }
{
    if !text.begins_reserved(Word::If) {
        return Ok((None, text));
    }
    let (first, text) = condition(alloc, depth, text)?;
    let (rest, text) = more_choices(alloc, depth, text)?;
    Ok((Some((first.into_inner(), rest)), text))
}

/// `alts = values [ "if" pred { "~" values "if" pred } ]`
#[tactic(auto, unfolding(unity_syntax::specs::Grammar::alts_))]
fn alts<'a>(alloc: Global, depth: u32, text: Cursor<'a>) -> Parsed<'a, Held<Alts>>
    ensures { Reads view_alts result alts_ depth text.entry }
{
    let at = text.place();
    let (values, text) = values(alloc, depth, text)?;
    let (condition, text) = choices(alloc, depth, text)?;
    let whole = Alts {
        at,
        values: values.into_inner(),
        condition,
    };
    let alts = Held::new(alloc, whole)?;
    Ok((alts, text))
}

/// `[ "[" pred "]" ]`
fn optional_index<'a>(alloc: Global, depth: u32, text: Cursor<'a>) -> Parsed<'a, Option<Expr>>
    ensures { Reads (view_option view_expr) result (maybe (in_brackets Contents.index)) depth text.entry }
{
    if !text.begins_symbol(Symbol::OpenBracket) {
        return Ok((None, text));
    }
    let (of, text) = index(alloc, depth, text)?;
    Ok((Some(of.into_inner()), text))
}

/// `target = word [ "[" pred "]" ]`
#[tactic(auto, unfolding(unity_syntax::specs::Grammar::target_))]
fn target<'a>(alloc: Global, depth: u32, text: Cursor<'a>) -> Parsed<'a, Held<Target>>
    ensures { Reads view_target result target_ depth text.entry }
{
    let at = text.place();
    let (name, text) = text.name(alloc)?;
    let (index, text) = optional_index(alloc, depth, text)?;
    let target = Held::new(alloc, Target { at, name, index })?;
    Ok((target, text))
}

/// `{ "," target }`
fn more_targets<'a>(alloc: Global, depth: u32, text: Cursor<'a>) -> Parsed<'a, Seq<Target>>
    ensures { Reads (view_list view_target) result (many (past (symbol Symbol.Comma) target_)) depth text.entry }
{
    repeated(
        alloc,
        Front::Symbol(Symbol::Comma),
        text,
        |text|
            ensures { Reads view_target result target_ depth text.entry }
        { owned(target(alloc, depth, text)) },
    )
}

/// `target { "," target } ":=" alts`
fn set<'a>(alloc: Global, depth: u32, text: Cursor<'a>) -> Parsed<'a, Held<Component>>
    ensures { Reads view_component result
        (made Kind.component_set
        (both target_ (both (many (past (symbol Symbol.Comma) target_)) (past (symbol Symbol.Assign) alts_))))
        depth text.entry }
{
    let at = text.place();
    let (first, text) = target(alloc, depth, text)?;
    let (rest, text) = more_targets(alloc, depth, text)?;
    let text = text.symbol(Symbol::Assign)?;
    let (alts, text) = alts(alloc, depth, text)?;
    let whole = nodes::set(alloc, at, first, rest, alts)?;
    Ok((whole, text))
}

/// `assign = comp { "||" comp }`
#[tactic(auto, unfolding(unity_syntax::specs::Grammar::assign_))]
#[cycle(assignments)]
fn assign<'a>(alloc: Global, depth: u32, text: Cursor<'a>) -> Parsed<'a, Held<Assign>>
    ensures { Reads view_assign result assign_ depth text.entry }
{
    let at = text.place();
    let ((first, rest), text) = components(alloc, depth, text)?;
    let whole = Held::new(alloc, Assign { at, first, rest })?;
    Ok((whole, text))
}

/// `comp { "||" comp }`
#[cycle(assignments)]
fn components<'a>(
    alloc: Global,
    depth: u32,
    text: Cursor<'a>,
) -> Parsed<'a, (Component, Seq<Component>)>
    ensures { Reads (view_some view_component) result (one_or_more (symbol Symbol.Parallel) comp_) depth text.entry }
{
    listed(
        alloc,
        Symbol::Parallel,
        text,
        |text|
            ensures { Reads view_component result comp_ depth text.entry }
        { owned(component(alloc, depth, text)) },
    )
}

/// `comp = target { "," target } ":=" alts | "<||" word ":" range "::" assign "|>"`
#[tactic(auto, unfolding(unity_syntax::specs::Grammar::comp_, unity_syntax::specs::Grammar::target_))]
#[cycle(assignments)]
fn component<'a>(alloc: Global, depth: u32, text: Cursor<'a>) -> Parsed<'a, Held<Component>>
    ensures { Reads view_component result comp_ depth text.entry }
{
    if text.begins_name() {
        return set(alloc, depth, text);
    }
    quantified_component(alloc, depth, text)
}

/// `"<||" word ":" range "::" assign "|>"`
#[tactic(auto, using(parser_expressions::proofs::Levels::made_level, parser_expressions::proofs::Levels::made_none))]
#[cycle(assignments)]
fn quantified_component<'a>(
    alloc: Global,
    depth: u32,
    text: Cursor<'a>,
) -> Parsed<'a, Held<Component>>
    ensures { Reads view_component result (made Kind.component_quantified parallel_) depth text.entry }
{
    let at = text.place();
    let rest = text.symbol(Symbol::OpenParallel)?;
    if depth == 0 {
        return Err(Stop::TooDeep(text));
    }
    let (whole, rest) = component_over(alloc, depth - 1, at, rest)?;
    let rest = rest.symbol(Symbol::CloseQuantified)?;
    Ok((whole, rest))
}

/// `word ":" range "::" assign`, in the brackets that begin at this place
#[cycle(assignments)]
fn component_over<'a>(
    alloc: Global,
    depth: u32,
    at: u64,
    text: Cursor<'a>,
) -> Parsed<'a, Held<Component>>
    ensures { ReadsAs (node (kind Kind.component_quantified) at) view_component result quantified_assign_ depth
        text.entry }
{
    let (bound, text) = bound(alloc, depth, Symbol::DoubleColon, text)?;
    let (of, text) = assign(alloc, depth, text)?;
    let whole = nodes::quantified_component(alloc, at, bound, of)?;
    Ok((whole, text))
}

/// `items = item { "[]" item }`
#[tactic(auto, unfolding(unity_syntax::specs::Grammar::items_))]
#[cycle(items)]
pub fn items<'a>(alloc: Global, depth: u32, text: Cursor<'a>) -> Parsed<'a, Held<Items>>
    ensures { Reads view_items result items_ depth text.entry }
{
    let at = text.place();
    let ((first, rest), text) = all_items(alloc, depth, text)?;
    let whole = Held::new(alloc, Items { at, first, rest })?;
    Ok((whole, text))
}

/// `item { "[]" item }`
#[cycle(items)]
fn all_items<'a>(alloc: Global, depth: u32, text: Cursor<'a>) -> Parsed<'a, (Item, Seq<Item>)>
    ensures { Reads (view_some view_item) result (one_or_more (symbol Symbol.Box) item_) depth text.entry }
{
    listed(
        alloc,
        Symbol::Box,
        text,
        |text|
            ensures { Reads view_item result item_ depth text.entry }
        { owned(item(alloc, depth, text)) },
    )
}

/// `word ":" assign`
fn statement<'a>(alloc: Global, depth: u32, text: Cursor<'a>) -> Parsed<'a, Held<Item>>
    ensures { Reads view_item result
        (made Kind.item_statement (both name_ (past (symbol Symbol.Colon) assign_))) depth text.entry }
{
    let at = text.place();
    let (label, text) = text.name(alloc)?;
    let text = text.symbol(Symbol::Colon)?;
    let (assign, text) = assign(alloc, depth, text)?;
    let whole = nodes::statement(alloc, at, label, assign)?;
    Ok((whole, text))
}

/// `item = word ":" assign | "<[]" word ":" range "::" items "|>"`
#[tactic(auto, unfolding(unity_syntax::specs::Grammar::item_))]
#[cycle(items)]
fn item<'a>(alloc: Global, depth: u32, text: Cursor<'a>) -> Parsed<'a, Held<Item>>
    ensures { Reads view_item result item_ depth text.entry }
{
    if text.begins_name() {
        return statement(alloc, depth, text);
    }
    quantified_item(alloc, depth, text)
}

/// `"<[]" word ":" range "::" items "|>"`
#[tactic(auto, using(parser_expressions::proofs::Levels::made_level, parser_expressions::proofs::Levels::made_none))]
#[cycle(items)]
fn quantified_item<'a>(alloc: Global, depth: u32, text: Cursor<'a>) -> Parsed<'a, Held<Item>>
    ensures { Reads view_item result (made Kind.item_quantified box_) depth text.entry }
{
    let at = text.place();
    let rest = text.symbol(Symbol::OpenChoice)?;
    if depth == 0 {
        return Err(Stop::TooDeep(text));
    }
    let (whole, rest) = item_over(alloc, depth - 1, at, rest)?;
    let rest = rest.symbol(Symbol::CloseQuantified)?;
    Ok((whole, rest))
}

/// `word ":" range "::" items`, in the brackets that begin at this place
#[cycle(items)]
fn item_over<'a>(alloc: Global, depth: u32, at: u64, text: Cursor<'a>) -> Parsed<'a, Held<Item>>
    ensures { ReadsAs (node (kind Kind.item_quantified) at) view_item result quantified_items_ depth text.entry }
{
    let (bound, text) = bound(alloc, depth, Symbol::DoubleColon, text)?;
    let (of, text) = items(alloc, depth, text)?;
    let whole = nodes::quantified_item(alloc, at, bound, of)?;
    Ok((whole, text))
}
