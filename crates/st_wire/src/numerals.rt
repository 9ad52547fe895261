//! Whole numbers as JSON writes them.
ghost use Rattle.std.specs.Prelude.{◌≡◌, ◌<◌, ◌==◌, length, slice_index, true, false, IsTrue, Some, IfSome, option_and_then};
ghost use Rattle.fast_float.specs.Text.{scan};
ghost use Rattle.serde_json.specs.Data.{unsigned, negative};
ghost use Rattle.serde_json.specs.Find.{as_i64, of_integer};
ghost use Rattle.serde_json.specs.Read.{number_from, number_of};

use fast_float::Numeral;

/// A whole number of 64 bits. It is `None` also for a number with a minus, a point or an exponent.
#[tactic(auto, unfolding(serde_json::specs::Read::number_of))]
pub(crate) fn whole(text: &str) -> Option<u64>
    ensures { IfSome result (λ n. number_of text.now ≡ Some (unsigned n)) }
{
    let bytes = text.as_bytes();
    if has_minus(bytes) {
        return None;
    }
    unsigned_of(bytes)
}

/// A signed whole number of 64 bits. It is `None` also for a number with a point or an exponent, and for `-0`.
pub(crate) fn integer(text: &str) -> Option<i64>
    ensures { IfSome result (λ n. option_and_then as_i64 (number_of text.now) ≡ Some n) }
{
    let bytes = text.as_bytes();
    if has_minus(bytes) {
        return negative_of(&bytes[1..]);
    }
    match unsigned_of(bytes) {
        Some(n) if n <= i64::MAX as u64 => Some(n as i64),
        _ => None,
    }
}

/// A whole number below 0. It is `None` also for a number with a point or an exponent.
#[tactic(auto, unfolding(serde_json::specs::Read::number_of))]
pub(crate) fn below_zero(text: &str) -> Option<i64>
    ensures { IfSome result (λ n. (number_of text.now ≡ Some (negative n)) × (of_integer n ≡ negative n)) }
{
    let bytes = text.as_bytes();
    if !has_minus(bytes) {
        return None;
    }
    negative_of(&bytes[1..])
}

fn has_minus(bytes: &[u8]) -> bool
    ensures value { result ≡ (slice_index bytes.now 0 == 45) }
    ensures len { IsTrue result → 0 < length bytes.now }
{
    !bytes.is_empty() && bytes[0] == b'-'
}

fn unsigned_of(digits: &[u8]) -> Option<u64>
    ensures { IfSome result (λ n. number_from false (scan digits.now) ≡ Some (unsigned n)) }
{
    Numeral::scan(digits).to_u64()
}

fn negative_of(digits: &[u8]) -> Option<i64>
    ensures { IfSome result (λ n. number_from true (scan digits.now) ≡ Some (negative n)) }
{
    match Numeral::scan(digits).to_i64(true) {
        Some(n) if n < 0 => Some(n),
        _ => None,
    }
}
