//! What is left of a text behind its first fault.
ghost use Rattle.std.specs.Prelude.{◌≡◌, ℕ, List, Some, IfOk};
ghost use Rattle.unity_base.specs.Streams.{HasCause};
ghost use Rattle.unity_base.specs.Window.{coming, window_at, window_limit, HasPassed};
ghost use Rattle.streamed_documents.specs.Rests.{IsKeptFlaw, IsSkimmed, IsReadOut};

use crate::found::Flaw;
use case_tables::Code;
use unity_base::{Failed, Look, Source, Window};
use unity_lexer::{Scan, next_token};

/// Reads to the end of a text, of which a fault is known that only its length comes before.
pub(crate) fn drained<S: Source>(
    w: &mut Window,
    src: &mut S,
    code: Code,
    at: u64,
) -> Result<Flaw, Failed>
    ensures kept { IfOk result (λ flaw. (bytes : List ℕ) → coming w.old (S.left src.old) ≡ Some bytes →
        IsKeptFlaw (window_limit w.old) (window_at w.old) bytes code at flaw) }
    ensures end { IfOk result (IsReadOut w.old (S.left src.old) w.new (S.left src.new)) }
    ensures passed { HasPassed w.old w.new (S.left src.old) (S.left src.new) }
    ensures cause { HasCause (S.faults src.old) (S.faults src.new) result }
{
    match w.drain(src)? {
        Look::TooLong => Ok(Flaw::TooLong),
        _ => Ok(Flaw::Fault { code, at }),
    }
}

/// Reads the tokens of the rest of a text, of which a fault is known. Bytes that are read as no token are its fault in
/// place of the known one.
pub(crate) fn skimmed<S: Source>(
    w: &mut Window,
    src: &mut S,
    code: Code,
    at: u64,
) -> Result<Flaw, Failed>
    ensures skimmed { IfOk result (λ flaw. (bytes : List ℕ) → coming w.old (S.left src.old) ≡ Some bytes →
        IsSkimmed (window_limit w.old) (window_at w.old) bytes code at flaw) }
    ensures end { IfOk result (IsReadOut w.old (S.left src.old) w.new (S.left src.new)) }
    ensures passed { HasPassed w.old w.new (S.left src.old) (S.left src.new) }
    ensures cause { HasCause (S.faults src.old) (S.faults src.new) result }
{
    'tokens: loop {
        match next_token(w, src)? {
            Scan::Token(_) => {}
            Scan::End => return Ok(Flaw::Fault { code, at }),
            Scan::Fault {
                code: first,
                at: place,
            } => return drained(w, src, first, place),
            Scan::TooLong => return Ok(Flaw::TooLong),
        }
    }
}
