//! Certificates and their nodes.

ghost use Rattle.std.specs.Prelude.{◌≡◌, ◌≤◌};
ghost use Rattle.case_tables.specs.declared.word_table.Word.{Word};
ghost use Rattle.case_tables.specs.declared.symbol_table.Symbol.{Symbol};
ghost use Rattle.grammar_theory.specs.Ebnf.{both, many, more, numbered, numbered_item, pair, prefix_tree};
ghost use Rattle.grammar_theory.specs.Ebnf.{prefix_trees, unit};
ghost use Rattle.grammar_theory.specs.Reader.{take_number};
ghost use Rattle.unity_syntax.specs.Classes.{number_class, reserved};
ghost use Rattle.unity_syntax.specs.Kinds.{Kind};
ghost use Rattle.unity_syntax.specs.Grammar.{made, past, minus_, number_, multiple_, node_, subtrees, certificate_};
ghost use Rattle.unity_syntax.specs.Grammar.{certificates_};
ghost use Rattle.unity_syntax.specs.View.{view_certificate, view_certificates, view_flag, view_list, view_node};
ghost use Rattle.unity_syntax.specs.View.{view_number, view_pair};
ghost use Rattle.parser_programs.specs.from_parser_expressions.Gives.{Gives, Reads, remaining};

use case_tables::{Symbol, Word};
use parser_programs::from_parser_expressions::{Cursor, Parsed, Stop};
use std::alloc::Global;
use unity_base::Seq;
use unity_syntax::{CertText, Certificates, Node, Pair, TokenKind};

/// `pair = [ "-" ] number "*" number`
#[tactic(auto, unfolding(unity_syntax::specs::Grammar::multiple_))]
fn multiple<'a>(depth: u32, text: Cursor<'a>) -> Parsed<'a, Pair>
    ensures { Reads view_pair result multiple_ depth text.entry }
{
    let at = text.place();
    let (minus, text) = text.minus();
    let (multiplier, text) = text.number()?;
    let text = text.symbol(Symbol::Times)?;
    let (fact, text) = text.number()?;
    let pair = Pair {
        at,
        minus,
        multiplier,
        fact,
    };
    Ok((pair, text))
}

/// `{ pair }`
fn multiples<'a>(alloc: Global, depth: u32, text: Cursor<'a>) -> Parsed<'a, Seq<Pair>>
    ensures { Reads (view_list view_pair) result (many multiple_) depth text.entry }
{
    let mut found = Seq::new(alloc);
    let mut rest = text;
    'items: while rest.begins_signed_number() {
        let (item, later) = multiple(depth, rest)?;
        found.push(item)?;
        rest = later;
    }
    Ok((found, rest))
}

/// `"case" number`
fn case_node<'a>(text: Cursor<'a>) -> Parsed<'a, Node>
    ensures { Reads view_node result (made Kind.node_case (past (reserved Word.Case) number_)) 0 text.entry }
{
    let at = text.place();
    let text = text.reserved(Word::Case)?;
    let (number, text) = text.number()?;
    Ok((Node::Case { at, number }, text))
}

/// `"split" number [ "-" ] number`
fn split_node<'a>(text: Cursor<'a>) -> Parsed<'a, Node>
    ensures { Reads view_node result
        (made Kind.node_split (past (reserved Word.Split) (both number_ (both minus_ number_)))) 0 text.entry }
{
    let at = text.place();
    let text = text.reserved(Word::Split)?;
    let (variable, text) = text.number()?;
    let (minus, text) = text.minus();
    let (bound, text) = text.number()?;
    let node = Node::Split {
        at,
        variable,
        minus,
        bound,
    };
    Ok((node, text))
}

/// `"sum" { pair }`
fn sum_node<'a>(alloc: Global, depth: u32, text: Cursor<'a>) -> Parsed<'a, Node>
    ensures { Reads view_node result (made Kind.node_sum (past (reserved Word.Sum) (many multiple_))) depth text.entry }
{
    let at = text.place();
    let text = text.reserved(Word::Sum)?;
    let (pairs, text) = multiples(alloc, depth, text)?;
    Ok((Node::Sum { at, pairs }, text))
}

/// `word [ "-" ] number { pair }`
fn signed_multiples<'a>(
    alloc: Global,
    depth: u32,
    word: Word,
    text: Cursor<'a>,
) -> Parsed<'a, (bool, u64, Seq<Pair>)>
    ensures { Reads (λ x. pair (view_flag x.0) (pair (view_number x.1) (view_list view_pair x.2))) result
        (past (reserved word) (both minus_ (both number_ (many multiple_)))) depth text.entry }
{
    let text = text.reserved(word)?;
    let (minus, text) = text.minus();
    let (number, text) = text.number()?;
    let (pairs, text) = multiples(alloc, depth, text)?;
    Ok(((minus, number, pairs), text))
}

/// `"round" [ "-" ] number { pair }`
fn round_node<'a>(alloc: Global, depth: u32, text: Cursor<'a>) -> Parsed<'a, Node>
    ensures { Reads view_node result
        (made Kind.node_round (past (reserved Word.Round) (both minus_ (both number_ (many multiple_)))))
        depth text.entry }
{
    let at = text.place();
    let ((minus, divisor, pairs), text) = signed_multiples(alloc, depth, Word::Round, text)?;
    let node = Node::Round {
        at,
        minus,
        divisor,
        pairs,
    };
    Ok((node, text))
}

/// `"quot" number`
fn quot_node<'a>(text: Cursor<'a>) -> Parsed<'a, Node>
    ensures { Reads view_node result (made Kind.node_quot (past (reserved Word.Quot) number_)) 0 text.entry }
{
    let at = text.place();
    let text = text.reserved(Word::Quot)?;
    let (number, text) = text.number()?;
    Ok((Node::Quot { at, number }, text))
}

/// `"share" [ "-" ] number { pair }`
fn share_node<'a>(alloc: Global, depth: u32, text: Cursor<'a>) -> Parsed<'a, Node>
    ensures { Reads view_node result
        (made Kind.node_share (past (reserved Word.Share) (both minus_ (both number_ (many multiple_)))))
        depth text.entry }
{
    let at = text.place();
    let ((minus, constant, pairs), text) = signed_multiples(alloc, depth, Word::Share, text)?;
    let node = Node::Share {
        at,
        minus,
        constant,
        pairs,
    };
    Ok((node, text))
}

/// `node = "case" number | "split" number [ "-" ] number | "sum" { pair }
///       | "round" [ "-" ] number { pair } | "quot" number | "share" [ "-" ] number { pair }`
#[tactic(auto, unfolding(unity_syntax::specs::Grammar::node_))]
fn node<'a>(alloc: Global, depth: u32, text: Cursor<'a>) -> Parsed<'a, Node>
    ensures { Reads view_node result node_ depth text.entry }
{
    if text.begins_reserved(Word::Case) {
        return case_node(text);
    }
    if text.begins_reserved(Word::Split) {
        return split_node(text);
    }
    if text.begins_reserved(Word::Sum) {
        return sum_node(alloc, depth, text);
    }
    if text.begins_reserved(Word::Round) {
        return round_node(alloc, depth, text);
    }
    if text.begins_reserved(Word::Quot) {
        return quot_node(text);
    }
    share_node(alloc, depth, text)
}

/// How many subtrees follow a node.
fn subtree_count(node: &Node) -> u128
    ensures { result ≡ subtrees (view_node node.now) }
{
    match node {
        Node::Case { .. } => 2,
        Node::Split { .. } => 2,
        Node::Sum { .. } => 0,
        Node::Round { .. } => 1,
        Node::Quot { .. } => 1,
        Node::Share { .. } => 2,
    }
}

/// The nodes of so many trees in prefix order. The number of those that are missing is kept in 128
/// bits, as no text has so many nodes that it would not fit.
fn more_nodes<'a>(alloc: Global, depth: u32, trees: u128, text: Cursor<'a>) -> Parsed<'a, Seq<Node>>
    requires { trees ≤ 2 }
    ensures { Reads (view_list view_node) result (prefix_trees trees subtrees node_) depth text.entry }
{
    let mut found = Seq::new(alloc);
    let mut rest = text;
    let mut missing = trees;
    'items: while missing > 0 {
        let (item, later) = node(alloc, depth, rest)?;
        missing = missing - 1 + subtree_count(&item);
        found.push(item)?;
        rest = later;
    }
    Ok((found, rest))
}

/// `node { node }`, the nodes of one tree in prefix order
#[tactic(auto, using(crate::proofs::CertificateLoops::one_tree_more))]
fn nodes<'a>(alloc: Global, depth: u32, text: Cursor<'a>) -> Parsed<'a, (Node, Seq<Node>)>
    ensures { Reads (λ x. more (view_node x.0) (view_list view_node x.1)) result
        (prefix_tree subtrees node_) depth text.entry }
{
    let (first, text) = node(alloc, depth, text)?;
    let trees = subtree_count(&first);
    let (rest, text) = more_nodes(alloc, depth, trees, text)?;
    Ok(((first, rest), text))
}

/// What is left after this number, which has to come.
fn this_number<'a>(number: u64, text: Cursor<'a>) -> Result<Cursor<'a>, Stop<'a>>
    ensures { Gives (λ rest. (unit, remaining rest)) result (take_number number_class number (remaining text.entry)) }
{
    let [first, tokens @ ..] = text.tokens else {
        return Err(Stop::Unexpected(text));
    };
    match first.kind {
        TokenKind::Number(value) if value == number => Ok(Cursor { tokens, ..text }),
        _ => Err(Stop::Unexpected(text)),
    }
}

/// `":" node { node } ";"`
#[tactic(auto, unfolding(unity_syntax::specs::Grammar::certificate_))]
fn body<'a>(alloc: Global, depth: u32, text: Cursor<'a>) -> Parsed<'a, (Node, Seq<Node>)>
    ensures { Reads (λ x. more (view_node x.0) (view_list view_node x.1)) result certificate_ depth text.entry }
{
    let text = text.symbol(Symbol::Colon)?;
    let (found, text) = nodes(alloc, depth, text)?;
    let text = text.symbol(Symbol::Semicolon)?;
    Ok((found, text))
}

/// `number ":" node { node } ";"`, with this number
fn certificate<'a>(alloc: Global, depth: u32, number: u64, text: Cursor<'a>) -> Parsed<'a, CertText>
    ensures { Reads view_certificate result (numbered_item number number_class certificate_) depth text.entry }
{
    let at = text.place();
    let text = this_number(number, text)?;
    let ((first, rest), text) = body(alloc, depth, text)?;
    let certificate = CertText {
        at,
        number,
        first,
        rest,
    };
    Ok((certificate, text))
}

/// `{ number ":" node { node } ";" }`, where the numbers count up from 1
fn all_certificates<'a>(alloc: Global, depth: u32, text: Cursor<'a>) -> Parsed<'a, Seq<CertText>>
    ensures { Reads (view_list view_certificate) result (numbered 1 number_class certificate_) depth text.entry }
{
    let mut found = Seq::new(alloc);
    let mut rest = text;
    let mut count = 0;
    'items: while rest.begins_number() {
        let number = count + 1;
        let (item, later) = certificate(alloc, depth, number, rest)?;
        found.push(item)?;
        rest = later;
        count = number;
    }
    Ok((found, rest))
}

/// `certificates = "certificates" { number ":" node { node } ";" } "end"`
#[tactic(auto, unfolding(unity_syntax::specs::Grammar::certificates_))]
pub fn certificates<'a>(alloc: Global, depth: u32, text: Cursor<'a>) -> Parsed<'a, Certificates>
    ensures { Reads view_certificates result certificates_ depth text.entry }
{
    let at = text.place();
    let text = text.reserved(Word::Certificates)?;
    let (items, text) = all_certificates(alloc, depth, text)?;
    let text = text.end()?;
    Ok((Certificates { at, items }, text))
}
