//! Lines and words that are taken from a window however long they are, a stretch of the bytes held at a time.

ghost use Rattle.std.specs.Prelude.{◌≡◌, ◌≤◌, ◌++◌, length, take, IfOk, IfErr, OnOk, OnErr, IsErrOf};
ghost use Rattle.std.specs.List.{prefix_len};
ghost use Rattle.unity_base.specs.Streams.{HasCause, IsTold};
ghost use Rattle.unity_base.specs.Window.{held, coming, window_bytes, HasRead, HasDropped, HasPassed};
ghost use Rattle.unity_lexer.specs.Windows.{goes_on, IsKnown, RunHalts, HasRun, HasKept, IsStop};

use crate::front::FrontError;
use crate::runs::{line_len, word_len};
use std::alloc::AllocError;
use unity_base::{Failed, Source, Window};

/// What is taken, up to its end.
#[derive(Clone, Copy)]
pub(crate) enum Run {
    /// A line.
    Line,
    /// A word.
    Word,
}

/// How many bytes at the front go on with the run.
fn run_len(run: Run, text: &[u8]) -> usize
    ensures { result ≡ prefix_len (goes_on run) text.now }
{
    match run {
        Run::Line => line_len(text),
        Run::Word => word_len(text),
    }
}

/// Reads where nothing that may be looked at is held.
fn fill_empty<S: Source>(w: &mut Window, src: &mut S) -> Result<(), Failed>
    ensures known { OnOk result (IsKnown w.new (S.left src.new)) }
    ensures read { HasRead w.old w.new (S.left src.old) (S.left src.new) }
    ensures cause { HasCause (S.faults src.old) (S.faults src.new) result }
{
    if w.bytes().is_empty() {
        w.fill(src)?;
    }
    Ok(())
}

/// How many of the bytes held go on with the run: none exactly where it ends.
fn run_ahead<S: Source>(run: Run, w: &mut Window, src: &mut S) -> Result<usize, Failed>
    ensures size { IfOk result (λ size. size ≡ prefix_len (goes_on run) (window_bytes w.new)) }
    ensures halts { IfOk result (λ size. size ≡ 0 → RunHalts run w.new (S.left src.new)) }
    ensures read { HasRead w.old w.new (S.left src.old) (S.left src.new) }
    ensures cause { HasCause (S.faults src.old) (S.faults src.new) result }
{
    fill_empty(w, src)?;
    Ok(run_len(run, w.bytes()))
}

/// Drops the rest of the run.
pub(crate) fn skip_run<S: Source>(run: Run, w: &mut Window, src: &mut S) -> Result<(), Failed>
    ensures run { HasRun run w.old w.new (S.left src.old) (S.left src.new) }
    ensures halts { OnOk result (RunHalts run w.new (S.left src.new)) }
    ensures cause { HasCause (S.faults src.old) (S.faults src.new) result }
{
    'stretches: loop {
        let size = run_ahead(run, w, src)?;
        if size == 0 {
            return Ok(());
        }
        w.skip(size);
    }
}

/// Moves the first bytes held, so many, to those that are kept.
pub(crate) fn keep(w: &mut Window, size: usize, kept: &mut Vec<u8>) -> Result<(), AllocError>
    requires { size ≤ length (window_bytes w.old) }
    ensures kept { OnOk result (kept.new.items ≡ kept.old.items ++ take size (held w.old)) }
    ensures dropped { OnOk result (HasDropped w.old w.new size) }
    ensures same { OnErr result (w.new ≡ w.old) }
{
    kept.extend_from_slice(&w.bytes()[..size])?;
    w.skip(size);
    Ok(())
}

/// Moves the rest of the run to the bytes that are kept.
pub(crate) fn keep_run<S: Source>(
    run: Run,
    w: &mut Window,
    src: &mut S,
    kept: &mut Vec<u8>,
) -> Result<(), FrontError>
    ensures kept { OnOk result
        (HasKept run w.old w.new (S.left src.old) (S.left src.new) kept.old.items kept.new.items) }
    ensures halts { OnOk result (RunHalts run w.new (S.left src.new)) }
    ensures passed { HasPassed w.old w.new (S.left src.old) (S.left src.new) }
    ensures cause { IsTold (S.faults src.old) (S.faults src.new) (IsErrOf result FrontError.Failed) }
    ensures stop { IfErr result (IsStop w.old (coming w.old (S.left src.old))) }
{
    'stretches: loop {
        let size = run_ahead(run, w, src)?;
        if size == 0 {
            return Ok(());
        }
        keep(w, size, kept)?;
    }
}
