//! Grammars in Extended Backus-Naur Form as data, and the laws of reading by them with one token of
//! look-ahead.
//!
//! A language writes its grammar as a table of forms (`specs/Ebnf.antt`) and shows by computation
//! that one token of look-ahead tells what to do (`specs/LookAhead.antt`). Its parser then promises
//! that it answers as the reader does (`specs/Reader.antt`), and the laws below say what that answer
//! is: the only tree of the tokens, or their first bad token.
//!
//! These functions do nothing: each states a law.
#![tactic(auto)]

ghost use Rattle.grammar_theory.specs.Laws.{OneTree, ExactAnswer, OneReadAnswer, Complete, LawfulReader, WordsInOrder};

/// Tokens have at most one tree.
pub fn one_tree()
    ensures { OneTree }
{}

/// The reader's answer for a whole list of tokens is exact. It is their tree, or the first token
/// with which no tokens of the form begin, said to be of another version just where another version
/// allows it, or the first opening bracket that the form allows while none may be opened.
pub fn exact_answer()
    ensures { ExactAnswer }
{}

/// Tokens have at most one exact answer: a tree or a fault, of one kind and at one place.
pub fn one_answer()
    ensures { OneReadAnswer }
{}

/// Tokens of a form are read as their tree, or stop at a bracket too many, whatever follows that
/// does not go on with the form.
pub fn complete_reader()
    ensures { Complete }
{}

/// At any tokens the reader takes tokens of the form, or stops at the first bad one, and it does the
/// same whatever follows the next token.
pub fn lawful_reader()
    ensures { LawfulReader }
{}

/// Where tokens and actions make no words and put none elsewhere, the words of a tree are words of
/// its tokens, in their order: each has the place and text of a token of its own.
pub fn words_in_order()
    ensures { WordsInOrder }
{}
