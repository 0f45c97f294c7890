//! The symbols at the front of a text.

ghost use Rattle.std.specs.Prelude.{◌≡◌, ◌<◌, ◌+◌, length};
ghost use Rattle.unity_lexer.specs.Symbols.{next_is, lengthened, after_colon, after_less, after_bar, after_slash};
ghost use Rattle.unity_lexer.specs.Symbols.{symbol_after, first_symbol};

use case_tables::Symbol;

/// Whether this byte comes first.
fn next_is(text: &[u8], byte: u8) -> bool
    ensures { result ≡ next_is byte text.now }
{
    text.len() > 0 && text[0] == byte
}

/// The longer symbol where this byte comes first, and else the shorter one, with their lengths.
fn lengthened(rest: &[u8], byte: u8, longer: Symbol, shorter: Symbol) -> (Symbol, usize)
    ensures { result ≡ lengthened rest.now byte longer shorter }
{
    if next_is(rest, byte) {
        (longer, 2)
    } else {
        (shorter, 1)
    }
}

/// The symbol with which the text begins, the longest one, and its length.
pub(crate) fn first_symbol(text: &[u8]) -> Option<(Symbol, usize)>
    ensures { result ≡ first_symbol text.now }
{
    if text.is_empty() {
        return None;
    }
    symbol_after(text[0], &text[1..])
}

fn symbol_after(first: u8, rest: &[u8]) -> Option<(Symbol, usize)>
    ensures { result ≡ symbol_after first rest.now }
{
    match first {
        b':' => Some(after_colon(rest)),
        b'.' => Some(lengthened(rest, b'.', Symbol::DotDot, Symbol::Dot)),
        b',' => Some((Symbol::Comma, 1)),
        b';' => Some((Symbol::Semicolon, 1)),
        b'(' => Some((Symbol::OpenParenthesis, 1)),
        b')' => Some((Symbol::CloseParenthesis, 1)),
        b'[' => Some(lengthened(rest, b']', Symbol::Box, Symbol::OpenBracket)),
        b']' => Some((Symbol::CloseBracket, 1)),
        b'{' => Some((Symbol::OpenBrace, 1)),
        b'}' => Some((Symbol::CloseBrace, 1)),
        b'<' => Some(after_less(rest)),
        b'|' => after_bar(rest),
        b'~' => Some((Symbol::Tilde, 1)),
        b'>' => Some(lengthened(rest, b'=', Symbol::AtLeast, Symbol::Above)),
        b'=' => Some(lengthened(rest, b'>', Symbol::Implies, Symbol::Equal)),
        b'/' => after_slash(rest),
        b'+' => Some((Symbol::Plus, 1)),
        b'-' => Some((Symbol::Minus, 1)),
        b'*' => Some((Symbol::Times, 1)),
        _ => None,
    }
}

/// `:=`, `::` or `:`.
fn after_colon(rest: &[u8]) -> (Symbol, usize)
    ensures { result ≡ after_colon rest.now }
{
    if next_is(rest, b'=') {
        (Symbol::Assign, 2)
    } else {
        lengthened(rest, b':', Symbol::DoubleColon, Symbol::Colon)
    }
}

/// `<||`, `<[]`, `<=` or `<`.
fn after_less(rest: &[u8]) -> (Symbol, usize)
    ensures { result ≡ after_less rest.now }
{
    if next_is(rest, b'|') && next_is(&rest[1..], b'|') {
        (Symbol::OpenParallel, 3)
    } else if next_is(rest, b'[') && next_is(&rest[1..], b']') {
        (Symbol::OpenChoice, 3)
    } else {
        lengthened(rest, b'=', Symbol::AtMost, Symbol::Below)
    }
}

/// `|>` or `||`.
fn after_bar(rest: &[u8]) -> Option<(Symbol, usize)>
    ensures { result ≡ after_bar rest.now }
{
    if next_is(rest, b'>') {
        Some((Symbol::CloseQuantified, 2))
    } else if next_is(rest, b'|') {
        Some((Symbol::Parallel, 2))
    } else {
        None
    }
}

/// `/=`.
fn after_slash(rest: &[u8]) -> Option<(Symbol, usize)>
    ensures { result ≡ after_slash rest.now }
{
    if next_is(rest, b'=') {
        Some((Symbol::NotEqual, 2))
    } else {
        None
    }
}
