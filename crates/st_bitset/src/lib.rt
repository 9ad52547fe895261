//! A list of flags, with a search for the next raised one.
//!
//! [`bitset::BitSet`] holds up to 65,536 flags. It finds the first raised one from a given number on, in cyclic order. Only adding a
//! flag takes memory. Reading, setting and searching touch a few words at most, however many flags there are.
#![tactic(auto)]

pub mod bitset;
#[cfg(test)]
mod tests;
mod word;
mod words;
