// Numbers among the words.
ghost use Rattle.std.specs.Prelude.{◌≡◌, ◌<◌, ◌≤◌, ◌^◌, IfSome};
ghost use Rattle.std.specs.List.{list_all};
ghost use Rattle.cli_words.specs.Numbers as numbers;

// Whether a byte is a decimal digit.
fn is_digit(byte: u8) -> bool
    ensures { result ≡ numbers.is_digit byte }
{
    b'0' <= byte && byte <= b'9'
}

fn are_digits(word: &[u8]) -> bool
    ensures { result ≡ list_all numbers.is_digit word.now }
{
    word.iter().all(|byte| is_digit(*byte))
}

// Whether a zero stands before another digit.
fn has_leading_zero(word: &[u8]) -> bool
    ensures { result ≡ numbers.has_leading_zero word.now }
{
    match word {
        [first, rest @ ..] => *first == b'0' && !rest.is_empty(),
        [] => false,
    }
}

// Whether a word is decimal digits, one at least, with no sign and with no leading zero, but `0` itself.
fn is_plain(word: &[u8]) -> bool
    ensures { result ≡ numbers.is_plain word.now }
{
    !word.is_empty() && are_digits(word) && !has_leading_zero(word)
}

/// The number that a word is, where it is no greater than `most`.
pub(crate) fn number_in(most: u64, word: &str) -> Option<u64>
    ensures value { result ≡ numbers.number_in most word.now }
    ensures within { IfSome result (λ number. number ≤ most) }
{
    if !is_plain(word.as_bytes()) {
        return None;
    }
    match word.parse::<u64>() {
        Ok(number) => { if number <= most { Some(number) } else { None } }
        Err(_) => None,
    }
}
