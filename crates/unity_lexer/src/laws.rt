//! Laws of the definition of tokens and faults. These functions do nothing.

ghost use Rattle.std.specs.Prelude.{◌≡◌, ◌<◌, ℕ, List, Result, length, All};
ghost use Rattle.case_tables.specs.declared.code_table.Code.{Code};
ghost use Rattle.unity_syntax.specs.declared.token.Token.{Token};
ghost use Rattle.unity_lexer.specs.Tokens.{IsTokens, FirstBad, IsLexing, AreInOrder, IsSpelledIn};
ghost use Rattle.unity_lexer.specs.Windows.{Decided};

/// Each text has a list of tokens or a first fault.
pub fn some_reading()
    ensures { (text : List ℕ) → (reading : Result (List Token) (Code × ℕ)) × IsLexing text reading }
{}

/// No text has two lists of tokens, a list of tokens and a fault, or two first faults.
pub fn one_reading()
    ensures tokens { (text : List ℕ) → (some others : List Token) → IsTokens text some → IsTokens text others →
        some ≡ others }
    ensures either { (text : List ℕ) → (tokens : List Token) → (code : Code) → (place : ℕ) → IsTokens text tokens →
        ¬ FirstBad text code place }
    ensures reading { (text : List ℕ) → (one other : Result (List Token) (Code × ℕ)) → IsLexing text one →
        IsLexing text other → one ≡ other }
{}

/// The tokens of a text lie in it one after the other, and each is spelled at its place. A fault
/// stands at a byte of the text.
pub fn places_in_text()
    ensures order { (text : List ℕ) → (tokens : List Token) → IsTokens text tokens → AreInOrder 0 (length text) tokens }
    ensures spelled { (text : List ℕ) → (tokens : List Token) → IsTokens text tokens → All (IsSpelledIn text) tokens }
    ensures fault { (text : List ℕ) → (code : Code) → (place : ℕ) → FirstBad text code place → place < length text }
{}

/// What a text begins with is what each longer text begins with, where two more bytes stand after it.
pub fn decided_pieces()
    ensures { Decided }
{}
