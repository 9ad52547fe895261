//! The depth of each class.
ghost use Rattle.std.specs.Prelude.{◌≡◌, ◌∷◌, ◌++◌, [], ◌<◌, IfOk, Some, length, slice_get};
ghost use Rattle.st_classes.specs.Depths.{kernel_depths};

use crate::values::ClassId;
use std::alloc::{AllocError, Global};
use std::marker::Model;

/// The number of classes on the chain of each kernel class: 1 for Object, and 2 for the others.
const KERNEL: [u8; 8] = [1, 2, 2, 2, 2, 2, 2, 2];

/// The number of classes on each class's chain, by class number. The class and Object count: 1 to 64.
#[derive(Drop)]
pub struct Depths {
    counts: Vec<u8>,
}

impl Model for Depths {
    ghost use Rattle.std.specs.Prelude.{ℕ, List};

    ghost Value = { List ℕ };

    ghost view = { λ d. d.counts.items };
}

impl Depths {
    /// The depths of the kernel's classes.
    pub fn kernel(alloc: Global) -> Result<Depths, AllocError>
        ensures { IfOk result (λ depths. depths ≡ kernel_depths) }
    {
        Ok(Depths {
            counts: Vec::from_slice(alloc, &KERNEL)?,
        })
    }

    /// The depths in a vector.
    pub fn from_vec(counts: Vec<u8>) -> Depths
        ensures { result ≡ counts.items }
    {
        Depths { counts }
    }

    /// The number of classes on the chain of a class. The class must exist.
    #[inline(always)]
    pub fn of(&self, class: ClassId) -> u8
        requires { class.0 < length self.now }
        ensures { slice_get self.now class.0 ≡ Some result }
    {
        self.counts[class.0 as usize]
    }

    /// The depths with that of a new class appended.
    pub fn with(&self, alloc: Global, depth: u8) -> Result<Depths, AllocError>
        ensures { IfOk result (λ depths. depths ≡ self.now ++ depth ∷ []) }
    {
        let mut counts = Vec::with_capacity(alloc, self.counts.len() + 1)?;
        counts.extend_from_slice(self.counts.as_slice())?;
        counts.push(depth)?;
        Ok(Depths { counts })
    }
}
