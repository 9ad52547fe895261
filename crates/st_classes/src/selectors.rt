//! What a name is, and how many arguments a selector takes.
ghost use Rattle.std.specs.Prelude.{◌≡◌, ◌==◌, position};
ghost use Rattle.std.specs.List.{list_all, list_any};
ghost use Rattle.std.specs.Str.{bytes_eq};
ghost use Rattle.st_classes.specs.Selectors.{
  is_upper as upper,
  is_letter as letter,
  is_digit as digit,
  is_letter_or_digit as letter_or_digit,
  is_identifier as identifier,
  begins_upper as upper_first,
  is_class_name as class_name,
  is_reserved as reserved,
  is_slot_name as slot_name,
  is_binary_character as binary_character,
  is_binary as binary,
  parts,
  keywords,
  arity_of as arity,
};

use crate::limits;

const RESERVED: [&[u8]; 6] = [b"self", b"super", b"nil", b"true", b"false", b"thisActor"];

fn is_upper(b: u8) -> bool
    ensures { result ≡ upper b }
{
    b'A' <= b && b <= b'Z'
}

/// Whether a byte is an ASCII letter.
pub fn is_letter(b: u8) -> bool
    ensures { result ≡ letter b }
{
    is_upper(b) || b'a' <= b && b <= b'z'
}

/// Whether a byte is a decimal digit.
pub fn is_digit(b: u8) -> bool
    ensures { result ≡ digit b }
{
    b'0' <= b && b <= b'9'
}

/// Whether a byte may follow the first letter of an identifier.
pub fn is_letter_or_digit(b: u8) -> bool
    ensures { result ≡ letter_or_digit b }
{
    is_letter(b) || is_digit(b)
}

fn are_letters_or_digits(bytes: &[u8]) -> bool
    ensures { result ≡ list_all letter_or_digit bytes.now }
{
    bytes.iter().all(|b| is_letter_or_digit(*b))
}

/// Whether a text is a letter and then letters and digits, at most 64 bytes in all.
pub fn is_identifier(text: &[u8]) -> bool
    ensures { result ≡ identifier text.now }
{
    let [first, rest @ ..] = text else {
        return false;
    };
    if rest.len() >= limits::IDENTIFIER {
        return false;
    }
    is_letter(*first) && are_letters_or_digits(rest)
}

/// Whether the first byte is a capital.
pub fn begins_upper(text: &[u8]) -> bool
    ensures { result ≡ upper_first text.now }
{
    match text {
        [first, ..] => is_upper(*first),
        [] => false,
    }
}

/// Whether a text is an identifier that starts with a capital.
pub fn is_class_name(text: &[u8]) -> bool
    ensures { result ≡ class_name text.now }
{
    is_identifier(text) && begins_upper(text)
}

fn is_among(text: &[u8], names: &[&[u8]]) -> bool
    ensures { result ≡ list_any (λ n. bytes_eq text.now n.now) names.now }
{
    names.iter().any(|name| text == *name)
}

/// Whether a text is reserved, because it means something else in every method: `self`, `super`, `nil`, `true`, `false` and
/// `thisActor`.
pub fn is_reserved(text: &[u8]) -> bool
    ensures { result ≡ reserved text.now }
{
    is_among(text, &RESERVED)
}

/// Whether a text can name an instance variable: an identifier that starts with a lower-case letter and isn't reserved.
pub fn is_slot_name(text: &[u8]) -> bool
    ensures { result ≡ slot_name text.now }
{
    !begins_upper(text) && is_identifier(text) && !is_reserved(text)
}

/// Whether a byte is a character of a binary selector.
pub fn is_binary_character(b: u8) -> bool
    ensures { result ≡ binary_character b }
{
    match b {
        b'+' | b'-' | b'*' | b'/' | b'\\' | b'<' | b'>' | b'=' | b'~' | b'&' | b',' => true,
        _ => false,
    }
}

fn is_binary(text: &[u8]) -> bool
    ensures { result ≡ binary text.now }
{
    match text {
        [a] => is_binary_character(*a),
        [a, b] => is_binary_character(*a) && is_binary_character(*b) && *b != b'-',
        _ => false,
    }
}

fn colon(text: &[u8]) -> Option<usize>
    ensures { result ≡ position (λ b. b == 58) text.now }
{
    text.iter().position(|b| *b == b':')
}

// The number of keywords, if the text consists of keywords.
fn keyword_count(text: &[u8]) -> Option<usize>
    ensures { result ≡ keywords (parts text.now) }
{
    let mut rest = text;
    let mut count = 0;
    while let Some(end) = colon(rest) {
        if !is_identifier(&rest[..end]) {
            return None;
        }
        rest = &rest[end + 1..];
        count += 1;
    }
    if rest.is_empty() { Some(count) } else { None }
}

/// The number of arguments of a selector: 0 for an identifier, 1 for a binary selector, and one for each keyword, at most 8. `None`
/// if the text is not a selector.
pub fn arity_of(text: &[u8]) -> Option<u8>
    ensures { result ≡ arity text.now }
{
    if is_identifier(text) {
        return Some(0);
    }
    if is_binary(text) {
        return Some(1);
    }
    match keyword_count(text) {
        Some(count) if 1 <= count && count <= limits::ARGUMENTS => Some(count as u8),
        _ => None,
    }
}
