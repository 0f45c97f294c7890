//! Tokens that are still to be read, and the reading of one of them.

ghost use Rattle.std.specs.Prelude.{◌≡◌, not, ◌||◌, [], ◌∷◌, map, true, false, MatchOption, Ok};
ghost use Rattle.case_tables.specs.declared.word_table.Word.{Word};
ghost use Rattle.case_tables.specs.declared.symbol_table.Symbol.{Symbol};
ghost use Rattle.grammar_theory.specs.Ebnf.{choice, has, place_of, one_of};
ghost use Rattle.grammar_theory.specs.LookAhead.{first};
ghost use Rattle.grammar_theory.specs.Reader.{begins, read};
ghost use Rattle.unity_syntax.specs.declared.expression.Operator.{Operator};
ghost use Rattle.unity_syntax.specs.Classes.{name_class, number_class, reserved, symbol, operator, is_later, class_of};
ghost use Rattle.unity_syntax.specs.Grammar.{grammar, name_, number_, minus_, plus_or_minus_, operator_, relation_};
ghost use Rattle.unity_syntax.specs.Grammar.{quantified_};
ghost use Rattle.unity_syntax.specs.View.{view_name, view_number, view_flag};
ghost use Rattle.parser_expressions.specs.Gives.{Skips, Reads, remaining};

use crate::stop::{Parsed, Stop};
use crate::texts::{between, copied};
use case_tables::{Symbol, Word};
use std::alloc::Global;
use unity_syntax::{Name, Operator, Token, TokenKind};

/// The tokens that are left of a text, the text's bytes, and whether the text is of version 2: in
/// another the words that only version 2 has are tokens that stand nowhere.
#[derive(Clone, Copy)]
pub struct Cursor<'a> {
    pub bytes: &'a [u8],
    pub tokens: &'a [Token],
    pub later: bool,
}

/// The relations of numbers.
const RELATIONS: &[Symbol] = &[
    Symbol::Equal,
    Symbol::NotEqual,
    Symbol::Below,
    Symbol::AtMost,
    Symbol::Above,
    Symbol::AtLeast,
];

/// Whether only version 2 has this reserved word.
fn is_later(word: Word) -> bool
    ensures { result ≡ is_later word }
{
    matches!(
        word,
        Word::Div
            | Word::Mod
            | Word::Quot
            | Word::Share
            | Word::Until
            | Word::Detects
            | Word::Constant
            | Word::Complete
            | Word::Superpose
            | Word::Fixed
    )
}

impl<'a> Cursor<'a> {
    /// Whether a token of this kind is the symbol.
    fn is_symbol(self, kind: TokenKind, wanted: Symbol) -> bool
        ensures { result ≡ has (symbol wanted ∷ []) (class_of self.entry.later kind) }
    {
        match kind {
            TokenKind::Symbol(symbol) => symbol == wanted,
            _ => false,
        }
    }

    /// Whether a reserved word may stand anywhere in the text.
    fn stands(self, word: Word) -> bool
        ensures { result ≡ (self.entry.later || not (is_later word)) }
    {
        self.later || !is_later(word)
    }

    /// Whether a token of this kind is the reserved word.
    fn is_reserved(self, kind: TokenKind, wanted: Word) -> bool
        ensures { result ≡ has (reserved wanted ∷ []) (class_of self.entry.later kind) }
    {
        match kind {
            TokenKind::Reserved(word) => self.stands(word) && word == wanted,
            _ => false,
        }
    }

    /// Which of these symbols a token of this kind is.
    fn symbol_in(self, kind: TokenKind, wanted: &[Symbol]) -> Option<Symbol>
        ensures { let class = class_of self.entry.later kind in let is_one = has (map symbol wanted.now) class in
            MatchOption result (is_one ≡ false) (λ found. (is_one ≡ true) × (class ≡ symbol found)) }
    {
        for symbol in wanted {
            if self.is_symbol(kind, *symbol) {
                return Some(*symbol);
            }
        }
        None
    }

    /// Which of these reserved words a token of this kind is.
    fn word_in(self, kind: TokenKind, wanted: &[Word]) -> Option<Word>
        ensures { let class = class_of self.entry.later kind in let is_one = has (map reserved wanted.now) class in
            MatchOption result (is_one ≡ false) (λ found. (is_one ≡ true) × (class ≡ reserved found)) }
    {
        for word in wanted {
            if self.is_reserved(kind, *word) {
                return Some(*word);
            }
        }
        None
    }

    /// Which operator of a product a token of this kind is.
    fn operator_in(self, kind: TokenKind) -> Option<Operator>
        ensures { let class = class_of self.entry.later kind in
            let is_one = has (map operator (Operator.Times ∷ Operator.Div ∷ Operator.Mod ∷ [])) class in
            MatchOption result (is_one ≡ false) (λ found. (is_one ≡ true) × (class ≡ operator found)) }
    {
        if self.is_symbol(kind, Symbol::Times) {
            return Some(Operator::Times);
        }
        if self.is_reserved(kind, Word::Div) {
            return Some(Operator::Div);
        }
        if self.is_reserved(kind, Word::Mod) {
            return Some(Operator::Mod);
        }
        None
    }

    /// The place of the next token.
    pub fn place(self) -> u64
        ensures { result ≡ place_of (remaining self.entry) }
    {
        match self.tokens {
            [] => 0,
            [first, ..] => first.start,
        }
    }

    /// Whether the next token is this symbol.
    pub fn begins_symbol(self, wanted: Symbol) -> bool
        ensures { result ≡ begins (symbol wanted ∷ []) (remaining self.entry) }
    {
        match self.tokens {
            [] => false,
            [first, ..] => self.is_symbol(first.kind, wanted),
        }
    }

    /// Whether the next token is this reserved word.
    pub fn begins_reserved(self, wanted: Word) -> bool
        ensures { result ≡ begins (reserved wanted ∷ []) (remaining self.entry) }
    {
        match self.tokens {
            [] => false,
            [first, ..] => self.is_reserved(first.kind, wanted),
        }
    }

    /// Whether the next token is one of these symbols.
    pub fn begins_one_symbol(self, wanted: &[Symbol]) -> bool
        ensures { result ≡ begins (map symbol wanted.now) (remaining self.entry) }
    {
        match self.tokens {
            [] => false,
            [first, ..] => self.symbol_in(first.kind, wanted).is_some(),
        }
    }

    /// Whether the next token is one of these reserved words.
    pub fn begins_one_reserved(self, wanted: &[Word]) -> bool
        ensures { result ≡ begins (map reserved wanted.now) (remaining self.entry) }
    {
        match self.tokens {
            [] => false,
            [first, ..] => self.word_in(first.kind, wanted).is_some(),
        }
    }

    /// Whether the next token is `-` or a number.
    pub fn begins_signed_number(self) -> bool
        ensures { result ≡ begins (symbol Symbol.Minus ∷ number_class ∷ []) (remaining self.entry) }
    {
        match self.tokens {
            [] => false,
            [first, ..] => match first.kind {
                TokenKind::Number(_) => true,
                kind => self.is_symbol(kind, Symbol::Minus),
            },
        }
    }

    /// Whether the next token is a name.
    pub fn begins_name(self) -> bool
        ensures { result ≡ begins (name_class ∷ []) (remaining self.entry) }
    {
        match self.tokens {
            [] => false,
            [first, ..] => matches!(first.kind, TokenKind::Word),
        }
    }

    /// Whether the next token is a number.
    pub fn begins_number(self) -> bool
        ensures { result ≡ begins (number_class ∷ []) (remaining self.entry) }
    {
        match self.tokens {
            [] => false,
            [first, ..] => matches!(first.kind, TokenKind::Number(_)),
        }
    }

    /// What remains after the symbol, which has to come.
    pub fn symbol(self, wanted: Symbol) -> Result<Cursor<'a>, Stop<'a>>
        ensures { Skips (symbol wanted) result self.entry }
    {
        let [first, tokens @ ..] = self.tokens else {
            return Err(Stop::Unexpected(self));
        };
        if self.is_symbol(first.kind, wanted) {
            return Ok(Cursor { tokens, ..self });
        }
        Err(Stop::Unexpected(self))
    }

    /// What remains after the reserved word, which has to come.
    pub fn reserved(self, wanted: Word) -> Result<Cursor<'a>, Stop<'a>>
        ensures { Skips (reserved wanted) result self.entry }
    {
        let [first, tokens @ ..] = self.tokens else {
            return Err(Stop::Unexpected(self));
        };
        if self.is_reserved(first.kind, wanted) {
            return Ok(Cursor { tokens, ..self });
        }
        Err(Stop::Unexpected(self))
    }

    /// What remains after the word `end`, which has to come.
    pub fn end(self) -> Result<Cursor<'a>, Stop<'a>>
        ensures { Skips (reserved Word.End) result self.entry }
    {
        self.reserved(Word::End)
    }

    /// Which of these symbols comes, as one has to, and what remains after it.
    pub fn one_symbol(self, wanted: &[Symbol]) -> Parsed<'a, Symbol>
        ensures { Reads (λ x. choice (symbol x)) result (one_of (map symbol wanted.now)) 0 self.entry }
    {
        let [first, tokens @ ..] = self.tokens else {
            return Err(Stop::Unexpected(self));
        };
        match self.symbol_in(first.kind, wanted) {
            Some(symbol) => Ok((symbol, Cursor { tokens, ..self })),
            None => Err(Stop::Unexpected(self)),
        }
    }

    /// Which of these reserved words comes, as one has to, and what remains after it.
    pub fn one_reserved(self, wanted: &[Word]) -> Parsed<'a, Word>
        ensures { Reads (λ x. choice (reserved x)) result (one_of (map reserved wanted.now)) 0 self.entry }
    {
        let [first, tokens @ ..] = self.tokens else {
            return Err(Stop::Unexpected(self));
        };
        match self.word_in(first.kind, wanted) {
            Some(word) => Ok((word, Cursor { tokens, ..self })),
            None => Err(Stop::Unexpected(self)),
        }
    }

    /// Whether the next token is `+` or `-`.
    pub fn begins_sign(self) -> bool
        ensures { result ≡ begins (symbol Symbol.Plus ∷ symbol Symbol.Minus ∷ []) (remaining self.entry) }
    {
        self.begins_one_symbol(&[Symbol::Plus, Symbol::Minus])
    }

    /// `+` or `-`, and what remains after it.
    pub fn sign(self) -> Parsed<'a, Symbol>
        ensures { Reads (λ x. choice (symbol x)) result plus_or_minus_ 0 self.entry }
    {
        self.one_symbol(&[Symbol::Plus, Symbol::Minus])
    }

    /// Whether the next token is an operator of a product.
    pub fn begins_operator(self) -> bool
        ensures { result ≡ begins (first operator_) (remaining self.entry) }
    {
        match self.tokens {
            [] => false,
            [first, ..] => self.operator_in(first.kind).is_some(),
        }
    }

    /// An operator of a product, and what remains after it.
    pub fn operator(self) -> Parsed<'a, Operator>
        ensures { Reads (λ x. choice (operator x)) result operator_ 0 self.entry }
    {
        let [first, tokens @ ..] = self.tokens else {
            return Err(Stop::Unexpected(self));
        };
        match self.operator_in(first.kind) {
            Some(operator) => Ok((operator, Cursor { tokens, ..self })),
            None => Err(Stop::Unexpected(self)),
        }
    }

    /// Whether the next token is a relation of numbers.
    pub fn begins_relation(self) -> bool
        ensures { result ≡ begins (first relation_) (remaining self.entry) }
    {
        self.begins_one_symbol(RELATIONS)
    }

    /// A relation of numbers, and what remains after it.
    pub fn relation(self) -> Parsed<'a, Symbol>
        ensures { Reads (λ x. choice (symbol x)) result relation_ 0 self.entry }
    {
        self.one_symbol(RELATIONS)
    }

    /// Whether the next token is `all`, `any` or `sum`.
    #[tactic(auto, unfolding(unity_syntax::specs::Grammar::quantified_))]
    pub fn begins_quantifier(self) -> bool
        ensures { result ≡ begins (first quantified_) (remaining self.entry) }
    {
        self.begins_one_reserved(&[Word::All, Word::Any, Word::Sum])
    }

    /// `all`, `any` or `sum`, and what remains after it.
    pub fn quantifier(self) -> Parsed<'a, Word>
        ensures { Reads (λ x. choice (reserved x)) result
            (one_of (map reserved (Word.All ∷ Word.Any ∷ Word.Sum ∷ []))) 0 self.entry }
    {
        self.one_reserved(&[Word::All, Word::Any, Word::Sum])
    }

    /// Whether `-` comes, and what remains after it.
    pub fn minus(self) -> (bool, Cursor<'a>)
        ensures { read grammar 0 minus_ (remaining self.entry) ≡ Ok (view_flag result.0, remaining result.1) }
    {
        match self.tokens {
            [first, tokens @ ..] if self.is_symbol(first.kind, Symbol::Minus) => (
                true,
                Cursor { tokens, ..self },
            ),
            _ => (false, self),
        }
    }

    /// A name, and what remains after it.
    pub fn name(self, alloc: Global) -> Parsed<'a, Name>
        ensures { Reads view_name result name_ 0 self.entry }
    {
        let [first, tokens @ ..] = self.tokens else {
            return Err(Stop::Unexpected(self));
        };
        match first.kind {
            TokenKind::Word => {
                let text = between(self.bytes, first.start as usize, first.end as usize);
                let text = copied(alloc, text)?;
                let name = Name {
                    at: first.start,
                    text,
                };
                Ok((name, Cursor { tokens, ..self }))
            }
            _ => Err(Stop::Unexpected(self)),
        }
    }

    /// A number, and what remains after it.
    pub fn number(self) -> Parsed<'a, u64>
        ensures { Reads view_number result number_ 0 self.entry }
    {
        let [first, tokens @ ..] = self.tokens else {
            return Err(Stop::Unexpected(self));
        };
        match first.kind {
            TokenKind::Number(value) => Ok((value, Cursor { tokens, ..self })),
            _ => Err(Stop::Unexpected(self)),
        }
    }
}
