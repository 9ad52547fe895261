//! When a worker is in the way of others: its quanta are short, and it finds the lock held each time; or it has taken many long ones
//! while they may want its processor.
//!
//! A short quantum takes no longer than the hold that ends it. Then more workers bring nothing: each hold takes longer, because what
//! it reads was written by another processor.

ghost use Rattle.std.specs.Prelude.{◌<◌, ◌↔◌, IsTrue};

/// A quantum of fewer steps than this is short.
const SHORT: u32 = 256;

/// What a short quantum that finds the lock held adds to the count. One that finds it free takes one away, and a quantum that is not
/// short sets the count to 0.
const MET: u32 = 2;

/// The count at which a worker is to rest.
const MOST: u32 = 64;

/// How many quanta that are not short a worker takes before it lets another thread run that has no processor. Each takes some 2.5
/// microseconds. On a machine with no more processors than workers one caller in a hundred would otherwise wait for 5 milliseconds.
const LONG_AT_ONCE: u32 = 64;

/// Whether a quantum of this many steps is short.
pub(crate) fn is_short(steps: u32) -> bool
    ensures { IsTrue result ↔ steps < 256 }
{
    steps < SHORT
}

/// The count of short quanta that found the lock held, whether the worker is to rest, and the count of those that were not short since
/// it let others run.
#[derive(Drop)]
pub(crate) struct Crowding {
    met: u32,
    rests: bool,
    long: u32,
}

impl Crowding {
    /// No quantum was taken yet.
    pub(crate) fn none() -> Crowding {
        Crowding {
            met: 0,
            rests: false,
            long: 0,
        }
    }

    /// Notes the quanta that ended together: how many were not short, whether one is short, and whether the lock was free at their end.
    pub(crate) fn note(&mut self, long: u32, is_short: bool, was_free: bool) {
        self.long = self.long.saturating_add(long);
        self.met = if !is_short {
            0
        } else if was_free {
            self.met.saturating_sub(1)
        } else {
            self.met.saturating_add(MET)
        };
    }

    /// Whether the worker is to rest. It is not if no other worker is awake.
    pub(crate) fn asks_for_rest(&mut self, has_helpers: bool) -> bool
        ensures { IsTrue result → IsTrue has_helpers }
    {
        self.rests = self.met >= MOST && has_helpers;
        self.rests
    }

    /// Whether the worker is to let other threads run. It is asked once.
    pub(crate) fn lets_others_run(&mut self) -> bool {
        let lets = self.long >= LONG_AT_ONCE;
        if lets {
            self.long = 0;
        }
        lets
    }

    /// Whether the worker is to rest. It is asked once.
    pub(crate) fn takes_rest(&mut self) -> bool {
        let rests = self.rests;
        self.met = 0;
        self.rests = false;
        rests
    }
}
