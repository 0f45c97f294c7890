use case_tables::{Code, Symbol, Word};
use std::alloc::Global;
use std::test::Fail;
use unity_lexer::lex;
use unity_syntax::{SyntaxFault, Token, TokenKind};

fn name(start: u64, end: u64) -> Token {
    Token {
        kind: TokenKind::Word,
        start,
        end,
    }
}

fn number(value: u64, start: u64, end: u64) -> Token {
    Token {
        kind: TokenKind::Number(value),
        start,
        end,
    }
}

fn reserved(word: Word, start: u64, end: u64) -> Token {
    Token {
        kind: TokenKind::Reserved(word),
        start,
        end,
    }
}

fn symbol(symbol: Symbol, start: u64, end: u64) -> Token {
    Token {
        kind: TokenKind::Symbol(symbol),
        start,
        end,
    }
}

/// Whether a text has these tokens.
fn reads(alloc: Global, text: &[u8], tokens: &[Token]) -> Result<bool, SyntaxFault> {
    let found = lex(alloc, text)?;
    Ok(found.as_slice() == tokens)
}

#[test]
fn texts_have_their_tokens(rt: HostRuntime) -> Result<(), Fail> {
    let program = [
        reserved(Word::Unity, 0, 5),
        number(1, 6, 7),
        reserved(Word::Program, 8, 15),
        name(16, 17),
    ];
    let words = [
        name(0, 5),
        reserved(Word::Of, 6, 8),
        name(9, 13),
        number(12, 14, 16),
        name(16, 18),
    ];
    let after_comment = [name(0, 1), name(12, 13)];
    let greatest = [number(4611686018427387904, 0, 19), number(0, 20, 21)];
    assert!(rt; reads(rt.alloc(), b"", &[])?);
    assert!(rt; reads(rt.alloc(), b" \t\r\n# 01 $", &[])?);
    assert!(rt; reads(rt.alloc(), b"unity 1\nprogram P", &program)?);
    assert!(rt; reads(rt.alloc(), b"offer of of_2 12ab", &words)?);
    assert!(rt; reads(rt.alloc(), b"a# \r b <| $\nc", &after_comment)?);
    assert!(rt; reads(rt.alloc(), b"4611686018427387904 0", &greatest)?);
    Ok(())
}

#[test]
fn symbols_have_their_tokens(rt: HostRuntime) -> Result<(), Fail> {
    let colons = [
        symbol(Symbol::Assign, 0, 2),
        symbol(Symbol::DoubleColon, 2, 4),
        symbol(Symbol::Colon, 4, 5),
        symbol(Symbol::DotDot, 5, 7),
        symbol(Symbol::Dot, 7, 8),
    ];
    let brackets = [
        symbol(Symbol::OpenChoice, 0, 3),
        symbol(Symbol::OpenParallel, 3, 6),
        symbol(Symbol::AtMost, 6, 8),
        symbol(Symbol::Below, 8, 9),
        symbol(Symbol::OpenBracket, 9, 10),
        symbol(Symbol::CloseQuantified, 10, 12),
    ];
    assert!(rt; reads(rt.alloc(), b":=:::...", &colons)?);
    assert!(rt; reads(rt.alloc(), b"<[]<||<=<[|>", &brackets)?);
    Ok(())
}

/// The code and the place of a text's first fault.
fn fault_of(alloc: Global, text: &[u8]) -> Option<(Code, u64)> {
    match lex(alloc, text) {
        Err(SyntaxFault::Fault { code, at }) => Some((code, at)),
        _ => None,
    }
}

#[test]
fn texts_have_their_first_fault(rt: HostRuntime) -> Result<(), Fail> {
    assert!(rt; fault_of(rt.alloc(), b"program P $") == Some((Code::BadByte, 10)));
    assert!(rt; fault_of(rt.alloc(), b"unity 01") == Some((Code::BadNumber, 6)));
    Ok(())
}
