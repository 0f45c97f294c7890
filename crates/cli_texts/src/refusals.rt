// Why a document cannot be used.
ghost use Rattle.std.specs.Prelude.{◌≡◌, IfOk};
ghost use Rattle.cli_texts.specs.Refusals.{fault_text, refusal_text};

use case_tables::{Code, number};
use std::alloc::{AllocError, Global};

/// `bad CODE NAME byte AT`, on a line: the first fault of bytes that are no document, and its byte.
///
/// The error is that memory was refused.
pub fn document_fault(alloc: Global, code: Code, at: u64) -> Result<Vec<u8>, AllocError>
    ensures { IfOk result (λ text. text.items ≡ fault_text code at) }
{
    let text = format!(in alloc; "bad {} {} byte {at}\n", number(code), code.name())?;
    Ok(text.into_bytes())
}

/// `bad CODE NAME`, on a line: why a command cannot use what it was given, where no byte tells it.
///
/// The error is that memory was refused.
pub fn input_refusal(alloc: Global, code: Code) -> Result<Vec<u8>, AllocError>
    ensures { IfOk result (λ text. text.items ≡ refusal_text code) }
{
    let text = format!(in alloc; "bad {} {}\n", number(code), code.name())?;
    Ok(text.into_bytes())
}
