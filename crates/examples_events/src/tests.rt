// Documents of `examples/`, judged as they are read and with certificates that are held whole.
mod documents;

use crate::judged::judged_code;
use crate::refusal::Refusal;
use crate::whole::{read_whole, verdict_on};
use case_tables::Code;
use documents::{EDITS, READ, REFUSED, SHARE};
use proof_plans::ScriptError;
use proof_script::Summary;
use std::alloc::Global;
use std::test::Fail;
use unity_base::{DripSource, MemSource};

/// The code of a verdict, none where a plan is given.
fn code_of(verdict: Result<Summary, ScriptError>) -> Result<Option<Code>, Refusal> {
    match verdict {
        Ok(_) => Ok(None),
        Err(ScriptError::Step(fault)) => Ok(Some(fault.code)),
        Err(ScriptError::Memory) => Err(Refusal::Memory),
    }
}

/// The code of a text that is read whole, with its certificates.
fn whole_code(alloc: Global, text: &str) -> Result<Option<Code>, Refusal> {
    match read_whole(alloc, text.as_bytes()) {
        Ok(whole) => code_of(verdict_on(alloc, &whole)),
        Err(Refusal::Fault { code, .. }) => Ok(Some(code)),
        Err(refusal) => Err(refusal),
    }
}

/// The same from a source that gives all its bytes in a call.
fn code_in_pieces(alloc: Global, text: &str) -> Result<Option<Code>, Refusal> {
    let bytes = text.as_bytes().to_vec(alloc)?;
    judged_code(alloc, &mut MemSource::new(bytes, Vec::new(alloc)))
}

/// The same from a source that gives a byte in a call.
fn code_in_singles(alloc: Global, text: &str) -> Result<Option<Code>, Refusal> {
    let bytes = text.as_bytes().to_vec(alloc)?;
    judged_code(alloc, &mut DripSource::new(bytes))
}

/// Whether this is the code of a text, in each of the three ways.
fn has_code(alloc: Global, text: &str, code: Option<Code>) -> Result<bool, Refusal> {
    Ok(
        whole_code(alloc, text)? == code
            && code_in_pieces(alloc, text)? == code
            && code_in_singles(alloc, text)? == code,
    )
}

#[test]
fn verdicts_of_documents(rt: HostRuntime) -> Result<(), Fail> {
    for rows in [READ, REFUSED] {
        for (text, code) in rows {
            assert!(rt; has_code(rt.alloc(), text, *code)?, "of {text}");
        }
    }
    Ok(())
}

/// The document `share` up to some of its words, with others in their place and in that of all behind them.
fn damaged(alloc: Global, from: &str, to: &str) -> Result<String, Refusal> {
    let (before, _) = SHARE.split_once(from).unwrap_or(("", ""));
    Ok(format!(in alloc; "{before}{to}")?)
}

#[test]
fn verdicts_of_damaged_documents(rt: HostRuntime) -> Result<(), Fail> {
    for (from, to, code) in EDITS {
        let text = damaged(rt.alloc(), from, to)?;
        assert!(rt;
            has_code(rt.alloc(), text.as_str(), Some(*code))?,
            "of {text}"
        );
    }
    Ok(())
}
