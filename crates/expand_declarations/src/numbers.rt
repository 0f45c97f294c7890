//! Numbers and ranges.

ghost use Rattle.std.specs.Prelude.{◌≡◌, [], pos, IfOk};
ghost use Rattle.expand_expressions.specs.from_meaning_documents.Value.{end_value, range_ends, signed, with_offset};
ghost use Rattle.expand_declarations.specs.Numbers.{GivesLiteral, core_range};

use case_tables::Symbol;
use core_terms::Range;
use std::alloc::AllocError;
use unity_syntax::{End, Range as TextRange};

/// The greatest number of a text: 2^62.
const GREATEST: u64 = 4_611_686_018_427_387_904;

/// A number, or its negation. Fails where it is past 2^62, as no number of a text is.
pub fn literal(minus: bool, number: u64) -> Result<i64, AllocError>
    ensures { GivesLiteral result (signed minus (pos number)) }
{
    if number > GREATEST {
        return Err(AllocError);
    }
    if minus {
        Ok(-(number as i64))
    } else {
        Ok(number as i64)
    }
}

/// What is added to a name: 0 where nothing is. Fails where a number is past 2^62.
pub fn offset(of: &Option<(Symbol, u64)>) -> Result<i64, AllocError>
    ensures { GivesLiteral result (with_offset (pos 0) of.now) }
{
    match of {
        None => literal(false, 0),
        Some((Symbol::Minus, number)) => literal(true, *number),
        Some((_, number)) => literal(false, *number),
    }
}

/// An end of a range that names nothing; a name counts as 0. Fails where a number is past 2^62.
pub fn fixed_end(end: &End) -> Result<i64, AllocError>
    ensures { GivesLiteral result (end_value [] end.now) }
{
    match end {
        End::Number {
            at: _,
            minus,
            number,
        } => literal(*minus, *number),
        End::Word {
            at: _,
            name: _,
            offset: of,
        } => offset(of),
    }
}

/// A range that names nothing. Fails where an end is past 2^62.
pub fn fixed_range(range: &TextRange) -> Result<Range, AllocError>
    ensures { IfOk result (λ r. r ≡ core_range (range_ends [] range.now)) }
{
    let lo = fixed_end(&range.low)?;
    let hi = fixed_end(&range.high)?;
    Ok(Range { lo, hi })
}
