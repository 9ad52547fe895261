//! Numbers that look random, the same for the same seed.

/// Marsaglia's xorshift generator of 64 bits.
#[derive(Drop)]
pub(crate) struct Dice {
    state: u64,
}

impl Dice {
    pub(crate) fn new(seed: u64) -> Dice {
        Dice {
            state: seed.wrapping_mul(0x9E37_79B9_7F4A_7C15) ^ 0xBF58_476D_1CE4_E5B9,
        }
    }

    /// A number below the given one, or 0 where that is 0.
    pub(crate) fn below(&mut self, most: u16) -> u16 {
        let mut x = self.state;
        x ^= x << 13;
        x ^= x >> 7;
        x ^= x << 17;
        self.state = x;
        if most == 0 {
            return 0;
        }
        ((x >> 33) % u64::from(most)) as u16
    }
}
