//! The bits of one word.
ghost use Rattle.std.specs.Prelude.{◌≡◌, ℕ, ◌<◌, ◌≤◌, ◌==◌, IfSome, IfNone};
ghost use Rattle.std.specs.Int.{bit_at};
ghost use Rattle.std.proofs.Common.{◌≢◌};
ghost use Rattle.st_bitset.specs.Words.{IsLowestBit};

/// The number of bits of a word.
pub const BITS: u32 = 64;

/// Whether a bit of a word is raised.
#[inline]
pub fn is_raised(word: u64, place: u32) -> bool
    requires { place < 64 }
    ensures { result ≡ (bit_at word place == 1) }
{
    (word >> place) & 1 == 1
}

/// The word with one bit raised or lowered.
#[inline]
pub fn with_bit(word: u64, place: u32, raised: bool) -> u64
    requires { place < 64 }
    ensures here { (bit_at result place == 1) ≡ raised }
    ensures others { (i : ℕ) → i < 64 → i ≢ place → bit_at result i ≡ bit_at word i }
{
    let bit = 1u64 << place;
    if raised { word | bit } else { word & !bit }
}

/// The lowest raised bit of a word at `place` or above.
#[inline]
pub fn lowest_from(word: u64, place: u32) -> Option<u32>
    requires { place < 64 }
    ensures some { IfSome result (λ i. IsLowestBit word place i) }
    ensures none { IfNone result ((j : ℕ) → place ≤ j → j < 64 → bit_at word j ≡ 0) }
{
    let rest = word & (u64::MAX << place);
    if rest == 0 {
        None
    } else {
        Some(rest.trailing_zeros())
    }
}

/// The lowest raised bit of a word, which must not be zero.
#[inline]
pub fn lowest(word: u64) -> u32
    requires { 0 < word }
    ensures { IsLowestBit word 0 result }
{
    word.trailing_zeros()
}
