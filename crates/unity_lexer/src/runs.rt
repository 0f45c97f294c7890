//! How far the runs of a text go.

ghost use Rattle.std.specs.Prelude.{◌≡◌, ◌≤◌, ◌+◌, ◌==◌, not, min, take, drop, length};
ghost use Rattle.std.specs.Char.{is_ascii_digit};
ghost use Rattle.std.specs.List.{prefix_len};
ghost use Rattle.std.specs.Str.Parse.{digits_value};
ghost use Rattle.unity_lexer.specs.Tokens.{is_blank, is_word_byte};

/// Whether the byte is a space, a tab, a line feed or a carriage return.
pub(crate) fn is_blank(byte: u8) -> bool
    ensures { result ≡ is_blank byte }
{
    byte == b' ' || byte == b'\t' || byte == b'\n' || byte == b'\r'
}

fn is_word_byte(byte: u8) -> bool
    ensures { result ≡ is_word_byte byte }
{
    byte.is_ascii_alphanumeric() || byte == b'_'
}

/// How many blanks there are at the front.
pub(crate) fn blank_len(text: &[u8]) -> usize
    ensures { result ≡ prefix_len is_blank text.now }
{
    let mut len = 0;
    while len < text.len() && is_blank(text[len]) {
        len += 1;
    }
    len
}

/// How many bytes at the front may stand in a word.
pub(crate) fn word_len(text: &[u8]) -> usize
    ensures { result ≡ prefix_len is_word_byte text.now }
{
    let mut len = 0;
    while len < text.len() && is_word_byte(text[len]) {
        len += 1;
    }
    len
}

/// How many bytes there are before the first line feed, or in all where there is none.
pub(crate) fn line_len(text: &[u8]) -> usize
    ensures { result ≡ prefix_len (λ b. not (b == 10)) text.now }
{
    let mut len = 0;
    while len < text.len() && text[len] != b'\n' {
        len += 1;
    }
    len
}

/// From this value on, a number with one digit more may not fit.
const MANY: u64 = 1 << 59;

/// The number and the count of digits, where so many digits at the front were read, with this value.
#[cold]
#[inline(never)]
fn more_digits(text: &[u8], read: usize, value: u64) -> (usize, u64)
    requires read { read ≤ length text.now }
    requires passed { read + prefix_len is_ascii_digit (drop read text.now) ≡ prefix_len is_ascii_digit text.now }
    requires value { value ≡ min (digits_value 10 (take read text.now)) u64.MAX }
    ensures len { result.0 ≡ prefix_len is_ascii_digit text.now }
    ensures value { result.1 ≡ min (digits_value 10 (take result.0 text.now)) u64.MAX }
{
    let mut len = read;
    let mut value = value;
    while len < text.len() && text[len].is_ascii_digit() {
        value = value
            .saturating_mul(10)
            .saturating_add(u64::from(text[len] - b'0'));
        len += 1;
    }
    (len, value)
}

/// How many digits there are at the front, and the number that they write, or the greatest `u64`
/// where it is greater.
#[inline(always)]
pub(crate) fn digits(text: &[u8]) -> (usize, u64)
    ensures len { result.0 ≡ prefix_len is_ascii_digit text.now }
    ensures value { result.1 ≡ min (digits_value 10 (take result.0 text.now)) u64.MAX }
{
    let mut len = 0;
    let mut value: u64 = 0;
    while len < text.len() && value < MANY && text[len].is_ascii_digit() {
        value = value * 10 + u64::from(text[len] - b'0');
        len += 1;
    }
    if value < MANY {
        return (len, value);
    }
    more_digits(text, len, value)
}
