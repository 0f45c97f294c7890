//! The laws of the grammar of the whole language, and of the view of the typed trees in the trees that
//! the grammar makes. These functions do nothing: each states a law.

ghost use Rattle.unity_syntax.specs.ReadingLaws.{OneKind, OneLookAhead, OneDocumentTree, EachTree};
ghost use Rattle.unity_syntax.specs.ReadingLaws.{ViewLosesNothing, OneDocumentOfTokens, NoLaterWord};
ghost use Rattle.unity_syntax.specs.ReadingLaws.{WordsInTokenOrder};

/// Tokens of one class and one value are of one kind, but for the words that a text of version 1 may not
/// have.
pub fn one_kind()
    ensures { OneKind }
{}

/// One token of look-ahead tells what to do, everywhere in the grammar, and brackets stand in pairs.
pub fn is_grammar()
    ensures { OneLookAhead }
{}

/// Tokens have at most one tree.
pub fn one_tree()
    ensures { OneDocumentTree }
{}

/// Each part of a document can be told from its tree: documents with one tree are one document.
pub fn view_loses_nothing()
    ensures { ViewLosesNothing }
{}

/// Each tree that the grammar makes of tokens is that of a document.
pub fn each_tree()
    ensures { EachTree }
{}

/// Tokens are those of at most one document.
pub fn one_document()
    ensures { OneDocumentOfTokens }
{}

/// A text that is not of version 2 and that is a document has none of the words that only version 2 has: such a word
/// stands nowhere in the grammar, and is refused where it stands.
pub fn no_later_word()
    ensures { NoLaterWord }
{}

/// The words of a tree are words of its tokens, in their order.
pub fn words_rise()
    ensures { WordsInTokenOrder }
{}
