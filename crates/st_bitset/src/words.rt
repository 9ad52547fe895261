//! Levels of words. Each bit of a level says whether a word of the level below is not zero.
ghost use Rattle.std.specs.Prelude.{◌≡◌, ℕ, ◌+◌, ◌*◌, ◌/◌, ◌^◌, ◌<◌, ◌≤◌, ◌==◌, not, length, IfSome, IfNone, OnOk};
ghost use Rattle.st_bitset.specs.Words.{IsFirst, IsWritten, NoneFrom, NoneInWord, Summarises, bit_of, word_of};

use crate::word::{BITS, is_raised, lowest, lowest_from, with_bit};
use std::alloc::AllocError;

/// The bit with this number. Past the end no bit is raised.
#[inline]
pub fn read(words: &[u64], at: u32) -> bool
    ensures { result ≡ bit_of words.now at }
{
    match words.get((at / BITS) as usize) {
        Some(word) => is_raised(*word, at % BITS),
        None => false,
    }
}

/// Raises or lowers a bit, and says whether its word then has a raised bit.
#[inline]
pub fn write(words: &mut [u64], at: u32, raised: bool) -> bool
    requires { at < 64 * length words.old }
    ensures written { IsWritten words.old words.new at raised }
    ensures any { result ≡ not (word_of words.new (at / 64) == 0) }
{
    let place = (at / BITS) as usize;
    let word = with_bit(words[place], at % BITS, raised);
    // A write takes the word from the caches of other processors, so a word that stays is not written.
    if words[place] != word {
        words[place] = word;
    }
    word != 0
}

/// The same in a vector of words.
#[inline]
pub fn write_in(words: &mut Vec<u64>, at: u32, raised: bool) -> bool
    requires { at < 64 * length words.old.items }
    ensures written { IsWritten words.old.items words.new.items at raised }
    ensures any { result ≡ not (word_of words.new.items (at / 64) == 0) }
{
    write(words.as_mut_slice(), at, raised)
}

/// The first raised bit from `from` on, within the word of `from`.
#[inline]
pub fn first_in_word(words: &[u64], from: u32) -> Option<u32>
    ensures some { IfSome result (λ a. IsFirst words.now from a) }
    ensures none { IfNone result (NoneInWord words.now from) }
{
    let place = from / BITS;
    let word = *words.get(place as usize)?;
    let bit = lowest_from(word, from % BITS)?;
    Some(place * BITS + bit)
}

/// The first raised bit of a word, which must not be zero.
#[inline]
pub fn first_of_word(words: &[u64], place: u32) -> u32
    requires raised { 0 < word_of words.now place }
    requires fits { place < 2 ^ 26 }
    ensures { IsFirst words.now (64 * place) result }
{
    place * BITS + lowest(words[place as usize])
}

/// The first raised bit from `from` on, in a single word.
#[inline]
fn first_in_top(top: &[u64], from: u32) -> Option<u32>
    requires { length top.now ≡ 1 }
    ensures some { IfSome result (λ a. IsFirst top.now from a) }
    ensures none { IfNone result (NoneFrom top.now from) }
{
    first_in_word(top, from)
}

/// The first raised bit from `from` on, in words that a single word summarises.
#[inline]
fn first_in_mid(mid: &[u64], top: &[u64], from: u32) -> Option<u32>
    requires one { length top.now ≡ 1 }
    requires above { Summarises top.now mid.now }
    ensures some { IfSome result (λ a. IsFirst mid.now from a) }
    ensures none { IfNone result (NoneFrom mid.now from) }
{
    if let Some(at) = first_in_word(mid, from) {
        return Some(at);
    }
    let Some(place) = first_in_top(top, from / BITS + 1) else {
        return None;
    };
    Some(first_of_word(mid, place))
}

/// The first raised bit from `from` on, in the lowest of three levels of words.
pub fn first_from(low: &[u64], mid: &[u64], top: &[u64], from: u32) -> Option<u32>
    requires one { length top.now ≡ 1 }
    requires above_mid { Summarises top.now mid.now }
    requires above_low { Summarises mid.now low.now }
    ensures some { IfSome result (λ a. IsFirst low.now from a) }
    ensures none { IfNone result (NoneFrom low.now from) }
{
    if let Some(at) = first_in_word(low, from) {
        return Some(at);
    }
    let Some(place) = first_in_mid(mid, top, from / BITS + 1) else {
        return None;
    };
    Some(first_of_word(low, place))
}

/// Appends a zero word if there is none at `place`. On an error nothing changes.
pub fn make_room(words: &mut Vec<u64>, place: u32) -> Result<(), AllocError>
    requires { place ≤ length words.old.items }
    ensures same { (k : ℕ) → word_of words.new.items k ≡ word_of words.old.items k }
    ensures grows { length words.old.items ≤ length words.new.items }
    ensures ok { OnOk result (place < length words.new.items) }
{
    if words.len() == place as usize {
        words.push(0)?;
    }
    Ok(())
}
