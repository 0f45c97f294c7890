//! What a text is read into: its tokens, its tree, and why a text is refused. The grammar stands in `specs/`,
//! with the tree that it makes of each typed tree.
#![tactic(auto)]

mod certificate;
mod declaration;
mod document;
mod expression;
mod fault;
mod folding;
mod name;
mod program;
mod proof;
mod reading;
mod statement;
mod term;
mod token;

pub use case_tables as from_case_tables;
pub use certificate::{CertText, Certificates, Node, Pair};
pub use declaration::{Def, Init, InitValue, Plain, Var, VarType};
pub use document::{Document, Part, Schedule};
pub use expression::{Expr, Operator};
pub use fault::SyntaxFault;
pub use folding::{Relation, two_folds};
pub use name::{End, Name, Range};
pub use program::{Initially, Program};
pub use proof::{Claim, Param, Proof, Rule, Step};
pub use reading::{
    each_tree, is_grammar, no_later_word, one_document, one_kind, one_tree, view_loses_nothing,
    words_rise,
};
pub use statement::{Alts, Assign, Component, Item, Items, Target, Values};
pub use term::{Inst, Ref, Term};
pub use token::{Token, TokenKind};
pub use unity_base as from_unity_base;
