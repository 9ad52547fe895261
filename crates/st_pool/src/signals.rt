//! Signals to threads that look for something before they sleep for it.

use std::hint::spin_loop;
use std::sync::atomic::{AtomicU64, Ordering};

/// How often those that look were told to look again, modulo 2^64. It says when to look; what is there is seen under the lock.
#[derive(Drop)]
pub(crate) struct Signal {
    count: AtomicU64,
}

impl Signal {
    pub(crate) fn new() -> Signal {
        Signal {
            count: AtomicU64::new(0),
        }
    }

    /// Tells those that look to look again.
    #[inline]
    pub(crate) fn tell(&self) {
        self.count.fetch_add(1, Ordering::SeqCst);
    }

    /// How often they were told.
    #[inline]
    pub(crate) fn count(&self) -> u64 {
        self.count.load(Ordering::SeqCst)
    }

    /// Lets some time pass: this many pauses, or until they are told once more than they were.
    pub(crate) fn pause_past(&self, count: u64, pauses: usize) {
        for _ in 0..pauses {
            if self.count() != count {
                return;
            }
            spin_loop();
        }
    }
}
