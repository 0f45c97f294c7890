// The tables of words, through the crates above them, and the tokens of a document.
use case_tables::{
    Code, Kind, RuleName, Symbol, Word, codes, kinds, number, rules, symbols, words,
};
use examples_texts::COUNT;
use std::alloc::{AllocError, Global};
use std::test::Fail;
use unity_lexer::lex;

/// How many tokens the document has with its first `from` replaced, and 0 where it has none.
fn tokens_of_edited(alloc: Global, from: &str, to: &str) -> Result<usize, AllocError> {
    let Some((before, after)) = COUNT.split_once(from) else {
        return Ok(0);
    };
    let document = format!(in alloc; "{before}{to}{after}")?;
    match lex(alloc, document.as_str().as_bytes()) {
        Ok(tokens) => Ok(tokens.len()),
        Err(_) => Ok(0),
    }
}

#[test]
fn tables_and_tokens(rt: HostRuntime) -> Result<(), Fail> {
    for (from, to, count) in [
        ("x <= 3 by", "x <= 3 by", 113),
        ("2: sum 1*2 1*5;", "2: sum 1*2 0*5;", 113),
        ("invariant x <= 3", "invariant 0 <= x <= 3", 115),
        ("unity 1", "$", 0),
    ] {
        assert_eq!(rt; tokens_of_edited(rt.alloc(), from, to)?, count, "at {to}");
    }
    assert_eq!(rt; words().find(b"superpose"), Some(Word::Superpose));
    assert_eq!(rt; words().find(b"superposes"), None);
    assert_eq!(rt; symbols().name_of(Symbol::OpenChoice), Some("<[]"));
    assert_eq!(rt; rules().find(b"psp"), Some(RuleName::Psp));
    assert_eq!(rt; kinds().name_of(Kind::Leadsto), Some("leadsto"));
    assert_eq!(rt; Kind::Unless.name(), "unless");
    assert_eq!(rt; codes().find(b"CertTooDeep"), Some(Code::CertTooDeep));
    assert_eq!(rt; number(Code::CertTooDeep), 58);
    assert_eq!(rt; Code::NoProgram.name(), "NoProgram");
    Ok(())
}
