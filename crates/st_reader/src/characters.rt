//! The characters that separate tokens, and prefixes of characters of one sort.
ghost use Rattle.std.specs.Prelude.{◌≡◌, ◌+◌, ◌-◌, ◌*◌, ◌<◌, ◌≤◌, ◌^◌, length, SomeIff};
ghost use Rattle.std.specs.List.{list_all, prefix_len};
ghost use Rattle.st_classes.specs.Selectors.{is_letter_or_digit, is_digit};
ghost use Rattle.st_reader.specs.Pieces.{is_white, is_no_quote};
ghost use Rattle.st_reader.specs.Tokens.{is_character, digits_value};

use st_classes::selectors;

/// Whether a byte separates tokens: tab, line feed, form feed, carriage return or space.
pub fn is_white(b: u8) -> bool
    ensures { result ≡ is_white b }
{
    match b {
        9 | 10 | 12 | 13 | 32 => true,
        _ => false,
    }
}

/// Whether a byte may be in a source at all.
pub fn is_character(b: u8) -> bool
    ensures { result ≡ is_character b }
{
    is_white(b) || 33 <= b && b <= 126
}

/// Whether each byte may be in a source.
pub fn are_characters(text: &[u8]) -> bool
    ensures { result ≡ list_all is_character text.now }
{
    text.iter().all(|b| is_character(*b))
}

/// The length of the longest prefix of letters and digits.
pub fn word_length(text: &[u8]) -> usize
    ensures value { result ≡ prefix_len is_letter_or_digit text.now }
    ensures within { result ≤ length text.now }
{
    text.iter()
        .take_while(|b| selectors::is_letter_or_digit(**b))
        .count()
}

/// The length of the longest prefix of digits.
pub fn digits_length(text: &[u8]) -> usize
    ensures value { result ≡ prefix_len is_digit text.now }
    ensures within { result ≤ length text.now }
{
    text.iter().take_while(|b| selectors::is_digit(**b)).count()
}

/// The number of bytes before the first double quote.
pub fn unquoted_length(text: &[u8]) -> usize
    ensures value { result ≡ prefix_len is_no_quote text.now }
    ensures within { result ≤ length text.now }
{
    text.iter().take_while(|b| **b != b'"').count()
}

/// A value with one more digit at its end.
fn with_digit(value: u64, digit: u8) -> Option<u64>
    ensures { SomeIff result (value * 10 + (digit - 48) < 2 ^ 64) (value * 10 + (digit - 48)) }
{
    value
        .checked_mul(10)?
        .checked_add(u64::from(digit.saturating_sub(b'0')))
}

/// The value of digits, if it is below 2^64.
pub fn digits_value(digits: &[u8]) -> Option<u64>
    ensures { SomeIff result (digits_value digits.now < 2 ^ 64) (digits_value digits.now) }
{
    let mut value = 0;
    for digit in digits {
        let Some(longer) = with_digit(value, *digit) else {
            return None;
        };
        value = longer;
    }
    Some(value)
}
