//! A list of flags.
ghost use Rattle.std.specs.Prelude.{◌≡◌, ℕ, ◌<◌, ◌≤◌, [], ◌∷◌, ◌++◌, false, length, slice_set, IfSome, IfNone, OnOk, OnErr};
ghost use Rattle.st_bitset.specs.BitSet.{IsNext, is_raised};

use crate::word::BITS;
use crate::words::{first_from, make_room, read, write, write_in};
use std::alloc::{AllocError, Global};
use std::marker::Model;

/// BitSet numbered from 0, at most 65,536. Contracts see them as a list.
#[derive(Drop)]
pub struct BitSet {
    /// The number of flags.
    len: u32,
    /// The flags, 64 to a word. The bits past the last flag are zero.
    low: Vec<u64>,
    /// One bit for each word of `low`: whether the word is not zero.
    mid: Vec<u64>,
    /// One bit for each word of `mid`: whether the word is not zero.
    top: [u64; 1],
}

impl Model for BitSet {
    ghost use Rattle.std.specs.Prelude.{Bool, List};
    ghost use Rattle.st_bitset.specs.Words.{AreLevels, flags_of};

    ghost Value = { List Bool };

    ghost view = { λ f. flags_of f.len f.low.items };

    ghost invariant = { λ f. AreLevels f.len f.low.items f.mid.items f.top };
}

impl BitSet {
    /// No flags.
    pub fn new(alloc: Global) -> BitSet
        ensures { result ≡ [] }
    {
        BitSet {
            len: 0,
            low: Vec::new(alloc),
            mid: Vec::new(alloc),
            top: [0],
        }
    }

    /// The number of flags, at most 65,536.
    #[inline]
    pub fn len(&self) -> u32
        ensures value { result ≡ length self.now }
        ensures few { length self.now ≤ 65536 }
    {
        self.len
    }

    /// Appends a flag that is not raised. On an error nothing changes.
    pub fn push(&mut self) -> Result<(), AllocError>
        requires { length self.old < 65536 }
        ensures ok { OnOk result (self.new ≡ self.old ++ false ∷ []) }
        ensures err { OnErr result (self.new ≡ self.old) }
    {
        make_room(&mut self.low, self.len / BITS)?;
        make_room(&mut self.mid, self.len / BITS / BITS)?;
        self.len += 1;
        Ok(())
    }

    /// The flag with this number. Past the end no flag is raised.
    #[inline]
    pub fn get(&self, at: u32) -> bool
        ensures { result ≡ is_raised self.now at }
    {
        read(&self.low, at)
    }

    /// Raises or lowers the flag with this number.
    #[inline]
    pub fn set(&mut self, at: u32, raised: bool)
        requires { at < length self.old }
        ensures { self.new ≡ slice_set self.old at raised }
    {
        let low_any = write_in(&mut self.low, at, raised);
        let mid_any = write_in(&mut self.mid, at / BITS, low_any);
        let _ = write(&mut self.top, at / BITS / BITS, mid_any);
    }

    /// The first raised flag in cyclic order, starting at `from`.
    pub fn next(&self, from: u32) -> Option<u32>
        ensures some { IfSome result (λ a. IsNext self.now from a) }
        ensures none { IfNone result ((a : ℕ) → is_raised self.now a ≡ false) }
    {
        match first_from(&self.low, &self.mid, &self.top, from) {
            Some(at) => Some(at),
            None => first_from(&self.low, &self.mid, &self.top, 0),
        }
    }
}
