//! Pairs of a certificate that are held with two more bytes behind them: a number, `*` and a number, with a space
//! before them and nothing between. Most pairs are written so, and the three tokens are taken by one look at the
//! window.

ghost use Rattle.std.specs.Prelude.{◌≡◌, ℕ, ◌+◌, ◌<◌, ◌≤◌, List, [], ◌∷◌, Option, Some, None, length, IfSome};
ghost use Rattle.unity_base.specs.Window.{coming, window_at, HasPassed};
ghost use Rattle.unity_syntax.specs.declared.token.TokenKind.TheVariants as kind;
ghost use Rattle.unity_lexer.specs.declared.piece.Piece.TheVariants as pieces;
ghost use Rattle.unity_lexer.specs.Pieces.{BeginsWith};
ghost use Rattle.unity_lexer.specs.Pairs.{BeginsPair, ReadsPair};

use crate::ready::decided_number;
use unity_base::Window;

/// A number, `*` and a number.
#[derive(Clone, Copy, Debug, PartialEq, Eq)]
pub struct PairTokens {
    /// The first number.
    pub by: u64,
    /// The second number.
    pub number: u64,
}

/// The pair, and its size, with which each text begins that begins with these bytes, where they are enough to tell.
#[inline(always)]
fn decided_pair(text: &[u8]) -> Option<(PairTokens, usize)>
    ensures { IfSome result (λ p. BeginsPair text.now p.0 p.1) }
{
    let Some((by, first)) = decided_number(text) else {
        return None;
    };
    if text[first] != b'*' {
        return None;
    }
    let Some((number, second)) = decided_number(&text[first + 1..]) else {
        return None;
    };
    Some((PairTokens { by, number }, first + 1 + second))
}

/// Reads the three tokens of a pair, where they are ready and written as most are. `None` says nothing of what comes.
#[inline(always)]
pub fn next_pair(w: &mut Window) -> Option<PairTokens>
    ensures reads { IfSome result (λ p. (left : Option (List ℕ)) → (bytes : List ℕ) → coming w.old left ≡ Some bytes →
        ReadsPair (window_at w.old) bytes p (window_at w.new) (coming w.new left)) }
    ensures rises { IfSome result (λ p. window_at w.old + 3 ≤ window_at w.new) }
    ensures passed { (left : Option (List ℕ)) → HasPassed w.old w.new left left }
    ensures none { result ≡ None → w.new ≡ w.old }
{
    let bytes = w.bytes();
    if bytes.is_empty() || bytes[0] != b' ' {
        return None;
    }
    let Some((pair, size)) = decided_pair(&bytes[1..]) else {
        return None;
    };
    w.skip(1 + size);
    Some(pair)
}
